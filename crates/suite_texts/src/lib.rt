//! The tests of the lexer and the parsers, on public calls alone.
#![tactic(auto)]

#[cfg(test)]
mod texts;

//! The tests of calls of trees that no statement makes, over pages in memory and on public calls alone.
#![tactic(auto)]

#[cfg(test)]
mod calls;
#[cfg(test)]
mod keys;

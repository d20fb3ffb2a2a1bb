//! The tests of the engine, on public calls alone.
#![tactic(auto)]

#[cfg(test)]
mod creating;
#[cfg(test)]
mod databases;
#[cfg(test)]
mod held_output;

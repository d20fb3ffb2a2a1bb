//! The engine for callers in C: a session over the bytes of a database file and its log. The caller carries out on its files what
//! the journal notes, in its order, before it takes a reply as given.
#![tactic(auto)]

mod exports;
mod handle;
mod opened;
mod replies;
mod slots;
mod values;

//! Payloads that go on over chains of overflow pages.
#![tactic(auto)]

mod freeing;
mod local;
mod reading;
mod writing;

pub use freeing::free_chain;
pub use reading::read_payload;
pub use writing::write_payload;

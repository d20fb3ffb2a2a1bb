//! The freelist: the pages that nothing uses.
#![tactic(auto)]

mod bytes;
mod giving;
mod taking;
mod writing;

pub use giving::give;
pub use taking::take;

//! Values as bytes that stand, byte by byte, in the order of the values.
//!
//! | value | bytes of its key |
//! |---|---|
//! | NULL | 1 |
//! | an integer n | 2, then n + 2^63 in eight bytes, the most significant first |
//! | a text | 3, then what its collation sees of it, each byte 0 as 0 255, then 0 0 |
//! | a blob | 4, then its bytes, each byte 0 as 0 255, then 0 0 |
//!
//! Under a descending key each byte b is 255 - b. The keys of several values stand one after another.
#![tactic(auto)]

mod key;
mod prefix;
mod runs;

pub use key::{keys_stand_as_values, put_key};
pub use prefix::prefix_of;

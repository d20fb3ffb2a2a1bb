//! Rows of values as the bytes of records, and variable-length integers.
//!
//! A varint has 1 to 9 bytes. The first eight give 7 bits each, high bits first, and their top bit says whether another byte
//! follows; a ninth gives 8 bits. A record is the length of its header, counted with its own bytes; the serial type of each
//! value; then the body of each value. Lengths and serial types are varints.
//!
//! | serial type | size of the body | value |
//! |---|---|---|
//! | 0 | 0 | NULL |
//! | 1, 2, 3, 4, 5, 6 | 1, 2, 3, 4, 6, 8 | an integer, big-endian, in two's complement |
//! | 7 | 8 | a float: not supported |
//! | 8, 9 | 0 | the integers 0 and 1 |
//! | 10, 11 | | reserved |
//! | even, from 12 on: n | (n - 12) / 2 | a blob |
//! | odd, from 13 on: n | (n - 13) / 2 | a text in UTF-8 |
#![tactic(auto)]

mod checking;
mod columns;
mod field;
mod row;
mod varint;
mod writing;

pub use checking::check_record;
pub use columns::{Fields, read_fields, records_hold_their_values, value_at};
pub use field::{Wrong, read_field};
pub use row::{Record, bytes_determine_values, halves_of, records_are_read};
pub use varint::{get_varint, put_varint, varint_len};
pub use writing::{encode, encode_fields, encode_row, is_storable};

//! Columns, copied.

pub use query_names::column_copy;

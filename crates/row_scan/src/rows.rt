//! The rows of an answer.

use sqlval::Row;

/// The rows of an answer.
pub type Rows = Vec<Row>;

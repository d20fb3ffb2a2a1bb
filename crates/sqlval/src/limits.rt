//! The limits of a database, its log and its statements.

/// The most pages of a database.
pub const MAX_PAGES: u32 = 65_536;

/// The most bytes of a database.
pub const MAX_DATABASE_BYTES: u64 = 1_073_741_824;

/// The most committed frames of a log.
pub const MAX_FRAMES: usize = 1_000_000;

/// The most bytes of a statement.
pub const MAX_STATEMENT_BYTES: usize = 65_536;

/// The most columns of a table, an index, a key, a view or a result.
pub const MAX_COLUMNS: usize = 64;

/// The most sources of a query.
pub const MAX_SOURCES: usize = 16;

/// The bytes of the database header, at the front of page 1.
pub const DATABASE_HEADER_LEN: usize = 100;

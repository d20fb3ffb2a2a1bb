//! What the cells of a page say.

/// The kinds of a tree's pages.
#[derive(Clone, Copy, PartialEq, Eq)]
pub enum Kind {
    /// Rows by rowid: type 13.
    TableLeaf,
    /// Children of a table's tree, with keys between them: type 5.
    TableInterior,
    /// Entries of an index: type 10.
    IndexLeaf,
    /// Children of an index's tree, with entries between them: type 2.
    IndexInterior,
}

/// What a cell has of a payload.
#[derive(Clone, Copy)]
pub struct Local<'a> {
    /// Length of the whole payload, in bytes.
    pub size: u64,
    /// Its bytes in the cell, with the number of the first overflow page, if there is one.
    pub bytes: &'a [u8],
}

/// A row of a table's leaf.
#[derive(Clone, Copy)]
pub struct Row<'a> {
    pub rowid: i64,
    pub payload: Local<'a>,
}

/// A child of a table's interior page, and its key: no rowid below the child is greater.
#[derive(Clone, Copy)]
pub struct Key {
    pub child: u32,
    pub rowid: i64,
}

/// A child of an index's interior page, and the entry after it.
#[derive(Clone, Copy)]
pub struct Between<'a> {
    pub child: u32,
    pub entry: Local<'a>,
}

//! One cell of a table leaf.

ghost use Rattle.std.specs.Prelude.{◌≡◌};
ghost use Rattle.tree_leaf.specs.Writing.{is_whole};

/// A row of a table: its number, and the bytes of its record.
#[derive(Clone, Copy, Debug)]
pub struct Cell<'a> {
    /// The number of the row.
    pub rowid: i64,
    /// The bytes of the record.
    pub payload: &'a [u8],
}

/// Whether a table leaf holds a payload of `payload` bytes whole, without overflow pages.
#[tactic(auto, unfolding(crate::specs::Writing::is_whole))]
pub fn is_local(page_size: usize, payload: usize) -> bool
    ensures { result ≡ is_whole page_size payload }
{
    page_size >= 35 && payload <= page_size - 35
}

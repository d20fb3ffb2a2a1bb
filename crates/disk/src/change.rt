//! What a file in memory keeps of the calls that changed it.

/// A call that changed a file, and whether its content has it.
#[derive(Drop)]
pub enum Change {
    /// Bytes written at an offset.
    Write {
        at: u64,
        bytes: Vec<u8>,
        landed: bool,
    },
    /// A cut to a length.
    Cut {
        len: u64,
        landed: bool,
    },
    /// A sync that succeeded.
    Sync,
}

//! Files in memory.

use disk::MemDisk;
use sqlval::R;
use std::alloc::Global;
use std::test::*;

/// So many bytes of one value.
pub fn filled(alloc: Global, byte: u8, size: usize) -> Result<Vec<u8>, Fail> {
    Ok(vec![in alloc; byte; size]?)
}

/// A file with these bytes, all of them synced, that crashes at a call.
pub fn file(alloc: Global, bytes: &[u8], crash: Option<u64>) -> R<MemDisk> {
    MemDisk::new(alloc, bytes.to_vec(alloc)?, None, crash)
}

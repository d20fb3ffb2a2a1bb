//! The contents that a file was given since its last sync.

/// A content that the file was given.
#[derive(Drop)]
pub struct StoredVersion {
    pub is_cut: bool,
    pub bytes: Vec<u8>,
}

/// The contents from one sync on, that of the sync first.
#[derive(Drop)]
pub struct VersionsSinceSync {
    pub first: Vec<u8>,
    pub later: Vec<StoredVersion>,
}

//! What a header says.

ghost use Rattle.std.specs.Prelude.{◌≡◌, ◌↔◌, IsTrue};
ghost use Rattle.db_header.specs.Header.{empty_of, counted_of};

/// What the header of a database file says. All numbers are kept as they stand there.
#[derive(Clone, Copy, Debug, PartialEq, Eq)]
pub struct Header {
    /// Bytes of a page: a power of two from 512 to 65536.
    pub page_size: u32,
    /// How often the database was changed.
    pub change_counter: u32,
    /// The size in pages, if it is valid: see `counted_size`.
    pub size: u32,
    /// The first trunk page of the freelist, or 0.
    pub freelist_trunk: u32,
    /// The number of pages in the freelist.
    pub freelist_count: u32,
    /// How often the schema was changed.
    pub schema_cookie: u32,
    /// The page cache's size that was suggested.
    pub default_cache_size: u32,
    /// A number of the user's.
    pub user_version: u32,
    /// A number of the application's.
    pub application_id: u32,
    /// The change counter when `size` was written.
    pub version_valid_for: u32,
    /// The version number of the library that wrote last.
    pub writer_version: u32,
}

impl Header {
    /// The header of the empty database.
    pub fn empty(page_size: u32) -> Header
        ensures { result ≡ empty_of page_size }
    {
        Header {
            page_size,
            change_counter: 1,
            size: 1,
            freelist_trunk: 0,
            freelist_count: 0,
            schema_cookie: 0,
            default_cache_size: 0,
            user_version: 0,
            application_id: 0,
            version_valid_for: 1,
            writer_version: 3007000,
        }
    }

    /// The size in pages, if it is valid: it isn't 0 and was written at the last change.
    pub fn counted_size(&self) -> Option<u32>
        ensures { result ≡ counted_of self.now }
    {
        if self.size != 0 && self.change_counter == self.version_valid_for {
            Some(self.size)
        } else {
            None
        }
    }
}

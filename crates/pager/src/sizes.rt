//! How large a database may become.

ghost use Rattle.std.specs.Prelude.{◌≡◌};
ghost use Rattle.pager.specs.Limits as limits;

use sqlval::limits::{MAX_DATABASE_BYTES, MAX_PAGES};

/// Whether a database of so many pages is past the limits.
pub fn is_too_large(pages: u32, page_size: u32) -> bool
    ensures { result ≡ limits.is_too_large pages page_size }
{
    pages > MAX_PAGES || u64::from(pages) * u64::from(page_size) > MAX_DATABASE_BYTES
}

//! The sizes that a page may have.

ghost use Rattle.std.specs.Prelude.{◌≡◌, ◌↔◌, IsTrue};
ghost use Rattle.sqlval.specs.PageSizes.{IsPageSize, is_size};

#[tactic(auto, unfolding(crate::specs::PageSizes::is_size))]
fn is_listed(size: u32) -> bool
    ensures { result ≡ is_size size }
{
    matches!(
        size,
        512 | 1024 | 2048 | 4096 | 8192 | 16384 | 32768 | 65536
    )
}

/// Whether a page may have this size, in bytes: a power of two from 512 to 65536.
pub fn is_page_size(size: u32) -> bool
    ensures is { IsTrue result ↔ IsPageSize size }
    ensures same { result ≡ is_size size }
{
    is_listed(size)
}

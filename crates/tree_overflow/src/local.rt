//! How much of a payload lies in its cell.

ghost use Rattle.std.specs.Prelude.{◌≡◌, ℕ};
ghost use Rattle.tree_page.specs.Payload.{least as least_part, local_size};

/// The least part of a longer payload that lies in its cell.
fn least_len(usable: u64) -> u64
    ensures { result ≡ least_part usable }
{
    let room = usable.saturating_sub(12);
    (room / 255 * 32 + room % 255 * 32 / 255).saturating_sub(23)
}

/// How many bytes of a payload lie in its cell, where more than `most` may not.
pub fn local_len(usable: u64, most: u64, size: u64) -> u64
    ensures { result ≡ local_size usable most size }
{
    if size <= most {
        return size;
    }
    let least = least_len(usable);
    // No page is so short that an overflow page has no room.
    let room = usable.saturating_sub(4).max(1);
    let Some(fitted) = least.checked_add(size.saturating_sub(least) % room) else {
        return least;
    };
    if fitted <= most { fitted } else { least }
}

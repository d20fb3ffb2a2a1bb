//! The first bytes of a key as a number.

ghost use Rattle.std.specs.Prelude.{◌≡◌};
ghost use Rattle.sort_keys.specs.Keys.{prefix_number};

/// The first sixteen bytes, the most significant first, with zeros where there are fewer.
pub fn prefix_of(key: &[u8]) -> u128
    ensures { result ≡ prefix_number key.now }
{
    let len = key.len().min(16);
    let mut front = [0; 16];
    front[..len].copy_from_slice(&key[..len]);
    u128::from_be_bytes(front)
}

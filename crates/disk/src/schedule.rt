//! Which calls of a file in memory are to fail.

ghost use Rattle.std.specs.Prelude.{◌≡◌};
ghost use Rattle.disk.specs.Schedule as meaning;

/// Whether this is the call that is meant.
pub fn is_call(meant: Option<u64>, call: u64) -> bool
    ensures { result ≡ meaning.is_call meant call }
{
    match meant {
        Some(at) => at == call,
        None => false,
    }
}

/// Whether this call is the one that is meant, or comes after it.
pub fn has_come(meant: Option<u64>, call: u64) -> bool
    ensures { result ≡ meaning.has_come meant call }
{
    match meant {
        Some(at) => at <= call,
        None => false,
    }
}

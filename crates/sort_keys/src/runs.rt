//! Bytes with an end of their own.

ghost use Rattle.std.specs.Prelude.{◌==◌, ◌≡◌, ◌≤◌, ◌<◌, ◌++◌, ◌∷◌, OnOk, length, slice_index, take};
ghost use Rattle.std.specs.List.{flat_map, list_any};
ghost use Rattle.sort_keys.specs.Keys.{AreBytes, ended, escape};

use std::alloc::AllocError;

/// How many bytes stand before the first zero.
fn run_len(bytes: &[u8]) -> usize
    ensures small { result ≤ length bytes.now }
    ensures run { flat_map escape (take result bytes.now) ≡ take result bytes.now }
    ensures zero { result < length bytes.now → slice_index bytes.now result ≡ 0 }
{
    let mut end = 0;
    while end < bytes.len() && bytes[end] != 0 {
        end += 1;
    }
    end
}

/// Whether some byte is zero. The loop goes over all bytes, so that the compiler takes many at a time.
fn has_zero(bytes: &[u8]) -> bool
    ensures { result ≡ list_any (λ b. b == 0) bytes.now }
{
    let mut found = false;
    for byte in bytes {
        found |= *byte == 0;
    }
    found
}

/// Writes bytes of which some are zero, run by run.
fn put_runs(out: &mut Vec<u8>, bytes: &[u8]) -> Result<(), AllocError>
    ensures { OnOk result (out.new.items ≡ out.old.items ++ flat_map escape bytes.now) }
{
    let mut rest = bytes;
    'runs: loop {
        let run = run_len(rest);
        out.extend_from_slice(&rest[..run])?;
        if run == rest.len() {
            return Ok(());
        }
        out.extend_from_slice(&[0, 255])?;
        rest = &rest[run + 1..];
    }
}

/// Writes bytes, each zero as 0 and 255.
fn put_escaped(out: &mut Vec<u8>, bytes: &[u8]) -> Result<(), AllocError>
    ensures { OnOk result (out.new.items ≡ out.old.items ++ flat_map escape bytes.now) }
{
    if has_zero(bytes) {
        put_runs(out, bytes)
    } else {
        out.extend_from_slice(bytes)
    }
}

/// Writes the number of a kind, then bytes with an end of their own.
pub(crate) fn put_ended(out: &mut Vec<u8>, kind: u8, bytes: &[u8]) -> Result<(), AllocError>
    ensures ok { OnOk result (out.new.items ≡ out.old.items ++ kind ∷ ended bytes.now) }
    ensures bytes { AreBytes bytes.now }
{
    out.reserve(bytes.len() + 3)?;
    out.push_reserved(kind);
    put_escaped(out, bytes)?;
    out.extend_from_slice(&[0, 0])
}

//! Refusals in words.

ghost use Rattle.std.specs.Prelude.{◌≡◌, ◌++◌, ◌≤◌, OnOk, length, not, ◌==◌, take};
ghost use Rattle.std.specs.List.{prefix_len};
ghost use Rattle.shell.specs.Refusals.{HasError, number_text_len, number_text};

use messages::put_message;
use sqlval::Fault;
use std::alloc::AllocError;

/// How many bytes come before the first space.
fn first_space(title: &[u8]) -> usize
    ensures value { result ≡ number_text_len title.now }
    ensures within { result ≤ length title.now }
{
    let mut end = 0;
    'bytes: while end < title.len() && title[end] != b' ' {
        end += 1;
    }
    end
}

/// Writes the number of a refusal, as `E8`.
fn put_number(out: &mut Vec<u8>, fault: &Fault) -> Result<(), AllocError>
    ensures { OnOk result (out.new.items ≡ out.old.items ++ number_text fault.now) }
{
    let title = fault.title().as_bytes();
    out.extend_from_slice(&title[..first_space(title)])
}

/// Writes a refusal as a line: the message of the crate `messages`, and the number.
pub fn put_error(out: &mut Vec<u8>, fault: &Fault) -> Result<(), AllocError>
    ensures { OnOk result (HasError fault.now out.old.items out.new.items) }
{
    out.extend_from_slice(b"error: ")?;
    put_message(out, fault)?;
    out.extend_from_slice(b" (")?;
    put_number(out, fault)?;
    out.extend_from_slice(b")")?;
    out.push(b'\n')?;
    Ok(())
}

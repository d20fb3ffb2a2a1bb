//! Refusals as text.

ghost use Rattle.std.specs.Prelude.{◌≡◌, ◌++◌, OnOk};
ghost use Rattle.engine.specs.Output.{detail_of, refusal_line};

use crate::literals::put_text;
use itoa::Buffer;
use sqlval::Fault;
use std::alloc::AllocError;

/// Writes what is said of a refusal besides its name: where a syntax error begins, and the text that was raised.
fn put_detail(out: &mut Vec<u8>, fault: &Fault) -> Result<(), AllocError>
    ensures { OnOk result (out.new.items ≡ out.old.items ++ detail_of fault.now) }
{
    match fault {
        Fault::Syntax(offset) => {
            out.push(b' ')?;
            out.extend_from_slice(Buffer::new().format(*offset).as_bytes())
        }
        Fault::Raised(raised) => {
            out.push(b' ')?;
            put_text(out, raised.text.as_str().as_bytes())
        }
        _ => Ok(()),
    }
}

/// Writes a refusal as a line.
pub fn put_refusal(out: &mut Vec<u8>, fault: &Fault) -> Result<(), AllocError>
    ensures { OnOk result (out.new.items ≡ out.old.items ++ refusal_line fault.now) }
{
    out.extend_from_slice(b"error ")?;
    out.extend_from_slice(fault.title().as_bytes())?;
    put_detail(out, fault)?;
    out.push(b'\n')?;
    Ok(())
}

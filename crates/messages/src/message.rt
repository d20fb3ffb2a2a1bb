//! The message of a refusal.

ghost use Rattle.std.specs.Prelude.{◌≡◌, ◌++◌, OnOk};
ghost use Rattle.messages.specs.Details.{HasMessage, detail, page_detail};

use crate::sentences::sentence;
use itoa::Buffer;
use sqlval::Fault;
use std::alloc::AllocError;

/// Writes the damaged page, if it is known.
fn put_page(out: &mut Vec<u8>, page: u32) -> Result<(), AllocError>
    ensures { OnOk result (out.new.items ≡ out.old.items ++ page_detail page) }
{
    if page == 0 {
        return Ok(());
    }
    out.extend_from_slice(b", on page ")?;
    out.extend_from_slice(Buffer::new().format(page).as_bytes())
}

/// Writes what a refusal speaks of: a place, a page, a name or a text.
fn put_detail(out: &mut Vec<u8>, fault: &Fault) -> Result<(), AllocError>
    ensures { OnOk result (out.new.items ≡ out.old.items ++ detail fault.now) }
{
    match fault {
        Fault::Damaged(_, page) => put_page(out, *page),
        Fault::Syntax(at) => out.extend_from_slice(Buffer::new().format(*at).as_bytes()),
        Fault::NoSuch(_, name) => out.extend_from_slice(name.as_str().as_bytes()),
        Fault::Exists(name) => out.extend_from_slice(name.as_str().as_bytes()),
        Fault::Ambiguous(name) => out.extend_from_slice(name.as_str().as_bytes()),
        Fault::Raised(raised) => out.extend_from_slice(raised.text.as_str().as_bytes()),
        _ => Ok(()),
    }
}

/// Writes the message of a refusal: its sentence, and at the end what it speaks of.
pub fn put_message(out: &mut Vec<u8>, fault: &Fault) -> Result<(), AllocError>
    ensures { OnOk result (HasMessage fault.now out.old.items out.new.items) }
{
    out.extend_from_slice(sentence(fault).as_bytes())?;
    put_detail(out, fault)
}

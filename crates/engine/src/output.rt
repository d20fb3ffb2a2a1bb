//! Replies as text.

ghost use Rattle.std.specs.Prelude.{◌≡◌, ◌++◌, OnOk, map};
ghost use Rattle.std.specs.List.{flat_map};
ghost use Rattle.engine.specs.Output.{reply_text, row_line};
ghost use Rattle.engine.specs.Replies.{reply_of, values_of};

use crate::literals::put_row;
use crate::refusals::put_refusal;
use row_scan::Rows;
use sqlval::{R, Row};
use std::alloc::{AllocError, Global};

fn put_rows(alloc: Global, out: &mut Vec<u8>, rows: &[Row]) -> Result<(), AllocError>
    ensures { OnOk result (out.new.items ≡ out.old.items ++ flat_map row_line (map values_of rows.now)) }
{
    'rows: for row in rows {
        put_row(alloc, out, row.as_slice())?;
    }
    Ok(())
}

/// Writes a reply: a line for each row and then `ok`, or one line for a refusal.
pub fn put_reply(alloc: Global, out: &mut Vec<u8>, reply: &R<Rows>) -> Result<(), AllocError>
    ensures { OnOk result (out.new.items ≡ out.old.items ++ reply_text (reply_of reply.now)) }
{
    match reply {
        Ok(rows) => {
            put_rows(alloc, out, rows.as_slice())?;
            out.extend_from_slice(b"ok\n")
        }
        Err(fault) => put_refusal(out, fault),
    }
}

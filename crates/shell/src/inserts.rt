//! The statement that puts a row into a table.

ghost use Rattle.std.specs.Prelude.{◌≡◌, ◌++◌, ◌∷◌, OnOk, IfErr};
ghost use Rattle.std.specs.List.{flat_map};
ghost use Rattle.sqlval.specs.declared.fault.Fault.TheVariants.{Memory};
ghost use Rattle.shell.specs.Cells.{sql_literal};
ghost use Rattle.shell.specs.Inserts as spec;

use crate::cells::put_literal;
use crate::names::put_name;
use sqlval::{R, Value};
use std::alloc::{AllocError, Global};

/// Writes values as literals, each after a comma.
fn put_others(alloc: Global, out: &mut Vec<u8>, values: &[Value]) -> Result<(), AllocError>
    ensures { OnOk result (out.new.items ≡ out.old.items ++ flat_map (λ next. 44 ∷ sql_literal next) values.now) }
{
    'values: for value in values {
        out.push(b',')?;
        put_literal(alloc, out, value)?;
    }
    Ok(())
}

/// Writes values as literals with commas between.
fn put_values(alloc: Global, out: &mut Vec<u8>, row: &[Value]) -> Result<(), AllocError>
    ensures { OnOk result (out.new.items ≡ out.old.items ++ spec.values_text row.now) }
{
    if let [first, others @ ..] = row {
        put_literal(alloc, out, first)?;
        put_others(alloc, out, others)?;
    }
    Ok(())
}

/// Writes the beginning of an INSERT into a table. (`Memory`.)
#[tactic(auto, unfolding(crate::specs::Inserts::insert_head))]
fn put_head(alloc: Global, out: &mut Vec<u8>, table: &str) -> R<()>
    ensures written { OnOk result (out.new.items ≡ out.old.items ++ spec.insert_head table.now) }
    ensures refused { IfErr result (λ fault. fault ≡ Memory) }
{
    out.extend_from_slice(b"INSERT INTO ")?;
    put_name(alloc, out, table)?;
    out.extend_from_slice(b" VALUES(")?;
    Ok(())
}

/// Writes the INSERT of a row into a table, as a line. (`Memory`.)
pub fn put_insert(alloc: Global, out: &mut Vec<u8>, table: &str, row: &[Value]) -> R<()>
    ensures written { OnOk result (out.new.items ≡ out.old.items ++ spec.insert_text table.now row.now) }
    ensures refused { IfErr result (λ fault. fault ≡ Memory) }
{
    put_head(alloc, out, table)?;
    put_values(alloc, out, row)?;
    out.extend_from_slice(b");")?;
    out.push(b'\n')?;
    Ok(())
}

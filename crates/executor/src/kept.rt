//! What a text of the schema creates, read from it anew.

ghost use Rattle.std.specs.Prelude.{◌≡◌, Ok, IfErr, List, ℕ};
ghost use Rattle.sqlval.specs.Faults.{IsNotDiskFault, IsOrMemory};
ghost use Rattle.sql_syntax.specs.declared.create.NewObject.{NewObject as Created};
ghost use Rattle.sql_syntax.specs.declared.statement.Statement.TheVariants as statement;
ghost use Rattle.db_pages.specs.Schema.{IsCreateOf};

use sql_parser::parse;
use sql_syntax::{Create, NewObject, Statement};
use sqlval::{Damage, Fault, R, Text};
use std::alloc::Global;

/// What a statement creates. (`Damaged(Schema, 1)` if it creates nothing.)
fn created_in(read: Statement) -> R<NewObject>
    ensures created { (sql : List ℕ) (made : Created)
        → read ≡ statement.Create (record { sql = sql; object = made }) → result ≡ Ok made }
    ensures not_disk { IfErr result (λ fault. IsNotDiskFault fault) }
{
    match read {
        Statement::Create(Create { sql: _, object }) => Ok(object),
        other => {
            drop(other);
            Err(Fault::Damaged(Damage::Schema, 1))
        }
    }
}

/// What a text creates, read from it anew, since the catalog keeps it. (What `parse` and `created_in` refuse.)
pub(crate) fn kept_object(alloc: Global, sql: &Text) -> R<NewObject>
    ensures kept { (made : Created) → IsCreateOf sql.now made → IsOrMemory (λ object. object ≡ made) result }
    ensures not_disk { IfErr result (λ fault. IsNotDiskFault fault) }
{
    created_in(parse(alloc, sql.as_str())?)
}

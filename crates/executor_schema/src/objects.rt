//! The rows of the schema table.

ghost use Rattle.std.specs.Prelude.{◌≡◌, IsTrue, map};
ghost use Rattle.sqlval.specs.Faults.{IsOrMemory};
ghost use Rattle.pages.specs.Calls.{Stays};
ghost use Rattle.row_scan.specs.Rows.{values_of};
ghost use Rattle.executor_schema.specs.Told.{TellsObjects};

use catalog::RowShape;
use pages::Pages;
use query_names::BoundSource;
use query_terms::SourceRow;
use row_scan::{Rows, source_rows};
use smallvec::SmallVec;
use sqlval::{R, Row};
use std::alloc::Global;

/// The schema table: its tree begins at page 1, and it has five columns.
const SCHEMA_TABLE: BoundSource = BoundSource {
    root: 1,
    shape: RowShape {
        width: 5,
        own: None,
    },
};

/// The values of a source's row. (`Memory` alone.)
fn row_made(alloc: Global, row: &SourceRow) -> R<Row>
    ensures { IsOrMemory (λ made. values_of made ≡ row.now.values) result }
{
    Ok(SmallVec::from_vec(row.values(alloc)?.into_vec()))
}

/// The values of each of a source's rows. (`Memory` alone.)
fn rows_made(alloc: Global, found: &[SourceRow]) -> R<Rows>
    ensures { IsOrMemory (λ rows. map values_of rows.items ≡ map (λ row. row.values) found.now) result }
{
    let mut rows = Vec::with_capacity(alloc, found.len())?;
    'rows: for row in found {
        rows.push(row_made(alloc, row)?)?;
    }
    Ok(rows)
}

/// The rows of the schema table, by rising rowid: of each table, index, view and trigger its kind, its name, that of its table or view, the page
/// where its tree begins (0 where it has none), and its text (NULL of an automatic index). (`Memory`, `Io`.)
pub fn schema_rows<P: Pages>(alloc: Global, pages: &mut P) -> R<Rows>
    ensures told { IsTrue (P.Pages.tells (P.Pages.below pages.old))
        → TellsObjects (P.Pages.map pages.old) (P.Pages.limits (P.Pages.below pages.old)).page result }
    ensures stays { Stays P.Pages.below P.Pages.map P.Pages.count P.Pages.failures result pages.old pages.new }
{
    let found = source_rows(alloc, pages, SCHEMA_TABLE)?;
    rows_made(alloc, found.as_slice())
}

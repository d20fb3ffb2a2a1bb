//! What one row of the schema table adds to a catalog.

ghost use Rattle.std.specs.Prelude.{◌≡◌, ◌⊎◌, not, IfErr, OnOk};
ghost use Rattle.tree_leaf.specs.Leaf.{Entry};
ghost use Rattle.catalog.specs.Listed.{listed_in};
ghost use Rattle.db_pages.specs.Schema.{Tells, Told};
ghost use Rattle.db_load.specs.Loading.{IsSchemaFault};
ghost use Rattle.db_load.specs.Reading.{AreSound, FindsParts, FindsRow, ReadsTold, TellsParts, is_kind_first};

use crate::index_rows::add_index;
use crate::schema::{SchemaKind, SchemaRow, add_table, row_of};
use crate::triggers::add_trigger;
use crate::views::add_view;
use catalog::Catalog;
use record::Record;
use sqlval::R;
use std::alloc::Global;

/// Adds what a row tells, if it is an index, or if it is none, as is asked for. (What `add_table`, `add_view`, `add_trigger` and `add_index`
/// refuse.)
fn add_told(alloc: Global, catalog: &mut Catalog, row: &SchemaRow<'_>, tables: bool) -> R<()>
    ensures tells { (item : Told) → TellsParts item row.now
        → ReadsTold tables item (listed_in catalog.old) (listed_in catalog.new) result }
    ensures found { AreSound (listed_in catalog.old)
        → OnOk result (FindsParts tables row.now (listed_in catalog.old) (listed_in catalog.new)
        ⊎ (is_kind_first row.now.kind ≡ not tables) × (listed_in catalog.new ≡ listed_in catalog.old)) }
    ensures not_disk { IfErr result (λ fault. IsSchemaFault fault) }
{
    match (tables, row.kind) {
        (true, SchemaKind::Table) => add_table(alloc, catalog, row),
        (true, SchemaKind::View) => add_view(alloc, catalog, row),
        (true, SchemaKind::Trigger) => add_trigger(alloc, catalog, row),
        (false, SchemaKind::Index) => add_index(alloc, catalog, row),
        _ => Ok(()),
    }
}

/// Adds what a row of the schema table tells, if it is an index, or if it is none, as is asked for. (What `Record::over`, `row_of` and
/// `add_told` refuse.)
pub fn add_row(
    alloc: Global,
    catalog: &mut Catalog,
    rowid: i64,
    payload: &[u8],
    size: u32,
    tables: bool,
) -> R<()>
    // What the row tells is listed, unless memory runs out.
    ensures tells { (item : Told) (entry : Entry) → entry.rowid ≡ rowid
        → entry.payload ≡ payload.now → Tells size item entry
        → ReadsTold tables item (listed_in catalog.old) (listed_in catalog.new) result }
    // What is listed is what the row tells.
    ensures found { (entry : Entry) → entry.rowid ≡ rowid → entry.payload ≡ payload.now
        → OnOk result (FindsRow tables size entry (listed_in catalog.old) (listed_in catalog.new)) }
    ensures not_disk { IfErr result (λ fault. IsSchemaFault fault) }
{
    let found = Record::over(alloc, payload)?;
    let row = row_of(rowid, &found, size)?;
    add_told(alloc, catalog, &row, tables)
}

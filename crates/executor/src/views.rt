//! CREATE VIEW and DROP VIEW.

ghost use Rattle.std.specs.Prelude.{◌≡◌, ◌⊎◌, ◌∷◌, None, Ok, Some, option_map, IfErr, IfOk, IsTrue, OnOk};
ghost use Rattle.sqlval.specs.Faults.{IsNotDiskFault, IsOrMemory};
ghost use Rattle.sqlval.specs.Refusals as refusal;
ghost use Rattle.sqlval.specs.Refusals.{refusal_of};
ghost use Rattle.pages.specs.Calls.{Causes};
ghost use Rattle.sql_syntax.specs.declared.create.NewObject.TheVariants as object;
ghost use Rattle.sql_syntax.specs.declared.create.ViewDefinition.{ViewDefinition as Defined};
ghost use Rattle.sql_syntax.specs.declared.statement.ObjectKind.TheVariants as kinds;
ghost use Rattle.sql_syntax.specs.declared.statement.Statement.TheVariants as statement;
ghost use Rattle.catalog.specs.Listed.{listed_in, names_listed, triggers_in, view_named, views_of};
ghost use Rattle.db_pages.specs.Schema.{IsCreateOf};
ghost use Rattle.query_names.specs.Scopes.{is_doubled};
ghost use Rattle.executor.specs.Changing.{MakesChange};
ghost use Rattle.executor.specs.Listing.{IsNewView, IsViewRefusal, TakesSchemaRows, rowids_on};

use crate::creating::add_treeless_row;
use crate::dropping::{no_such, take_row, take_trigger_rows};
use crate::kept::kept_object;
use catalog::{Catalog, View, is_reserved, listed_tables_are_found, views_come_and_go};
use db_layout::{table_trees_stand, trees_give_way};
use pages::WritePages;
use query_names::has_doubled;
use sql_syntax::{NewObject, ObjectKind, ViewDefinition};
use sqlval::{Damage, Fault, Misuse, Name, R, Text};
use std::alloc::Global;

/// Whether a name stands twice in the list of a view.
fn lists_twice(definition: &ViewDefinition) -> bool
    ensures { result ≡ is_doubled (names_listed definition.now) }
{
    match &definition.columns {
        Some(names) => has_doubled(names.as_slice()),
        None => false,
    }
}

/// Checks that a view may be made. (`Misuse(ReservedName)`, `Exists`, `Misuse(DoubledColumn)`.)
fn check_view(alloc: Global, catalog: &Catalog, definition: &ViewDefinition) -> R<()>
    ensures new { OnOk result (IsNewView (listed_in catalog.now) definition.now) }
    ensures why { IfErr result (λ fault. (fault ≡ Fault.Memory)
        ⊎ IsViewRefusal (listed_in catalog.now) definition.now (refusal_of fault)) }
    ensures not_disk { IfErr result (λ fault. IsNotDiskFault fault) }
{
    let name = &definition.name;
    if is_reserved(name.as_str()) {
        return Err(Fault::Misuse(Misuse::ReservedName));
    }
    if catalog.has_name(name.as_str()) {
        return Err(Fault::Exists(name.copy(alloc)?));
    }
    if lists_twice(definition) {
        return Err(Fault::Misuse(Misuse::DoubledColumn));
    }
    Ok(())
}

/// The view of what is created. (`Damaged(Schema, 1)` if it is none.)
fn defined_view(new: NewObject) -> R<ViewDefinition>
    ensures view { (d : Defined) → new ≡ object.View d → result ≡ Ok d }
    ensures not_disk { IfErr result (λ fault. IsNotDiskFault fault) }
{
    match new {
        NewObject::View(view) => Ok(view),
        other => {
            drop(other);
            Err(Fault::Damaged(Damage::Schema, 1))
        }
    }
}

/// The view that a text creates, read from it anew. (What `kept_object` and `defined_view` refuse.)
fn kept_view(alloc: Global, sql: &Text) -> R<ViewDefinition>
    ensures kept { (d : Defined) → IsCreateOf sql.now (object.View d) → IsOrMemory (λ view. view ≡ d) result }
    ensures not_disk { IfErr result (λ fault. IsNotDiskFault fault) }
{
    defined_view(kept_object(alloc, sql)?)
}

/// Makes a view: its row in the schema table. Answers the catalog with it. Its query isn't looked at. (What `check_view` refuses; `TooLong`
/// if no record can hold its row. Then some pages may have changed.)
pub fn create_view<P: WritePages>(
    alloc: Global,
    pages: &mut P,
    catalog: &Catalog,
    sql: &Text,
    definition: &ViewDefinition,
) -> R<Catalog>
    ensures made { IsTrue (P.Pages.tells (P.Pages.below pages.old))
        → IsCreateOf sql.now (object.View definition.now)
        → MakesChange listed_in (statement.Create
        (record { sql = sql.now; object = object.View definition.now })) (P.Pages.map pages.old)
        (P.Pages.map pages.new) (P.Pages.limits (P.Pages.below pages.old)).page (listed_in catalog.now) result }
    ensures kept { P.Pages.below pages.new ≡ P.Pages.below pages.old }
    ensures causes { Causes result (P.Pages.failures pages.old) (P.Pages.failures pages.new)
        (P.Pages.count pages.new ≡ (P.Pages.limits (P.Pages.below pages.new)).most) }
{
    views_come_and_go();
    listed_tables_are_found();
    trees_give_way();
    table_trees_stand();
    check_view(alloc, catalog, definition)?;
    let rowid = catalog.unused_rowid(alloc)?;
    let view = View {
        definition: kept_view(alloc, sql)?,
        rowid,
    };
    let name = &definition.name;
    add_treeless_row(alloc, pages, rowid, "view", name, name, sql)?;
    catalog.with_view(alloc, view)
}

/// Takes the rows of a view and of its triggers out of the schema table. (What `take_row` refuses.)
fn take_view_rows<P: WritePages>(
    alloc: Global,
    pages: &mut P,
    catalog: &Catalog,
    view: &View,
    name: &Name,
) -> R<()>
    ensures taken { IsTrue (P.Pages.tells (P.Pages.below pages.old))
        → TakesSchemaRows (P.Pages.map pages.old) (P.Pages.map pages.new)
        (P.Pages.limits (P.Pages.below pages.old)).page
        (view.now.rowid ∷ rowids_on name.now (triggers_in catalog.now)) result }
    ensures kept { P.Pages.below pages.new ≡ P.Pages.below pages.old }
    ensures causes { Causes result (P.Pages.failures pages.old) (P.Pages.failures pages.new)
        (P.Pages.count pages.new ≡ (P.Pages.limits (P.Pages.below pages.new)).most) }
{
    take_row(alloc, pages, view.rowid)?;
    take_trigger_rows(alloc, pages, catalog.triggers(), name)
}

/// The view of a name. (`NoSuch` if none has it.)
fn listed_view<'a>(alloc: Global, catalog: &'a Catalog, name: &Name) -> R<&'a View>
    ensures found { IfOk result (λ view. view_named name.now (views_of catalog.now) ≡ Some view.now) }
    ensures refused { IfErr result (λ fault. (fault ≡ Fault.Memory)
        ⊎ (refusal_of fault ≡ refusal.NoSuch)
        × (view_named name.now (views_of catalog.now) ≡ None)) }
    ensures not_disk { IfErr result (λ fault. IsNotDiskFault fault) }
{
    match catalog.view(name.as_str()) {
        Some(view) => Ok(view),
        None => Err(no_such(alloc, ObjectKind::View, name)),
    }
}

/// Drops a view with its triggers: their rows in the schema table. Answers the catalog without them. (`NoSuch`; what `take_view_rows` refuses.
/// Then some pages may have changed.)
pub(crate) fn drop_view<P: WritePages>(
    alloc: Global,
    pages: &mut P,
    catalog: &Catalog,
    name: &Name,
) -> R<Catalog>
    ensures made { IsTrue (P.Pages.tells (P.Pages.below pages.old))
        → MakesChange listed_in (statement.Drop kinds.View name.now) (P.Pages.map pages.old)
        (P.Pages.map pages.new)
        (P.Pages.limits (P.Pages.below pages.old)).page (listed_in catalog.now) result }
    ensures kept { P.Pages.below pages.new ≡ P.Pages.below pages.old }
    ensures causes { Causes result (P.Pages.failures pages.old) (P.Pages.failures pages.new)
        (P.Pages.count pages.new ≡ (P.Pages.limits (P.Pages.below pages.new)).most) }
{
    views_come_and_go();
    listed_tables_are_found();
    trees_give_way();
    table_trees_stand();
    let view = listed_view(alloc, catalog, name)?;
    let left = catalog.without_view(alloc, name)?;
    take_view_rows(alloc, pages, catalog, view, name)?;
    Ok(left)
}

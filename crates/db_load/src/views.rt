//! The views that the rows of the schema table tell.

ghost use Rattle.std.specs.Prelude.{◌≡◌, false, true, IfErr, IfOk, Ok, OnOk};
ghost use Rattle.sqlval.specs.Faults.{IsOrMemory};
ghost use Rattle.sql_syntax.specs.declared.create.Create.{Create as Made};
ghost use Rattle.sql_syntax.specs.declared.create.NewObject.TheVariants as new;
ghost use Rattle.sql_syntax.specs.declared.create.ViewDefinition.{ViewDefinition as Defined};
ghost use Rattle.sql_syntax.specs.declared.statement.Statement.TheVariants as parsed;
ghost use Rattle.catalog.specs.Listed.{listed_in, names_listed};
ghost use Rattle.catalog.specs.declared.tables.View.{View as Listed};
ghost use Rattle.query_names.specs.Scopes.{is_doubled};
ghost use Rattle.db_pages.specs.Schema as told;
ghost use Rattle.db_load.specs.Loading.{IsOfRow, IsSchemaFault, IsTextOf, TellsView};
ghost use Rattle.db_load.specs.Reading.{AddsTold, FindsParts, ReadsTold};
ghost use Rattle.db_load.specs.declared.schema.SchemaKind.TheVariants as kind;

use crate::schema::{SchemaRow, damaged, is_new, is_of_row, statement_of};
use catalog::{Catalog, View};
use query_names::has_doubled;
use sql_parser::release;
use sql_syntax::{Create, NewObject, Statement, ViewDefinition};
use sqlval::{Fault, Feature, R};
use std::alloc::Global;

/// The definition of a view, which a CREATE must make.
fn view_in(create: Create) -> R<ViewDefinition>
    ensures tells { (definition : Defined) → create.object ≡ new.View definition → result ≡ Ok definition }
    ensures found { IfOk result (λ definition. create.object ≡ new.View definition) }
    ensures not_disk { IfErr result (λ fault. IsSchemaFault fault) }
{
    let Create { sql, object } = create;
    match object {
        NewObject::View(definition) => Ok(definition),
        object => {
            release(Statement::Create(Create { sql, object }));
            Err(damaged())
        }
    }
}

/// The definition in a CREATE VIEW.
fn view_definition_in(statement: Statement) -> R<ViewDefinition>
    ensures tells { (made : Made) (definition : Defined) → statement ≡ parsed.Create made
        → made.object ≡ new.View definition → result ≡ Ok definition }
    ensures found { IfOk result (λ definition. (made : Made) × (statement ≡ parsed.Create made)
        × (made.object ≡ new.View definition)) }
    ensures not_disk { IfErr result (λ fault. IsSchemaFault fault) }
{
    match statement {
        Statement::Create(create) => view_in(create),
        other => {
            release(other);
            Err(Fault::Unsupported(Feature::SchemaObject))
        }
    }
}

/// Whether the list of a view's names has one twice.
fn lists_twice(definition: &ViewDefinition) -> bool
    ensures { result ≡ is_doubled (names_listed definition.now) }
{
    match &definition.columns {
        Some(names) => has_doubled(names.as_slice()),
        None => false,
    }
}

/// Checks that the definition has the row's names, that they may be given, and that it lists no name twice.
fn is_of_view_row(definition: &ViewDefinition, row: &SchemaRow<'_>) -> R<()>
    ensures tells { IsOfRow row.now definition.now.name
        → is_doubled (names_listed definition.now) ≡ false → result ≡ Ok tt }
    ensures found { OnOk result (IsOfRow row.now definition.now.name
        × (is_doubled (names_listed definition.now) ≡ false)) }
    ensures not_disk { IfErr result (λ fault. IsSchemaFault fault) }
{
    is_of_row(&definition.name, row)?;
    if lists_twice(definition) {
        return Err(Fault::Unsupported(Feature::SchemaObject));
    }
    Ok(())
}

/// The view of this row and of the definition in its text. (What `is_of_view_row` refuses.)
fn view_made(row: &SchemaRow<'_>, definition: ViewDefinition) -> R<View>
    ensures tells { (view : Listed) → TellsView view row.now → definition ≡ view.definition
        → result ≡ Ok view }
    ensures found { IfOk result (λ view. IsOfRow row.now definition.name
        × (is_doubled (names_listed definition) ≡ false) × (view.definition ≡ definition)
        × (view.rowid ≡ row.now.rowid)) }
    ensures not_disk { IfErr result (λ fault. IsSchemaFault fault) }
{
    match is_of_view_row(&definition, row) {
        Ok(()) => Ok(View {
            definition,
            rowid: row.rowid,
        }),
        Err(fault) => {
            drop(definition);
            Err(fault)
        }
    }
}

/// The view that a row tells.
fn view_of(alloc: Global, row: &SchemaRow<'_>) -> R<View>
    ensures tells { (view : Listed) → TellsView view row.now → IsOrMemory (λ found. found ≡ view) result }
    ensures found { IfOk result (λ view. TellsView view row.now) }
    ensures not_disk { IfErr result (λ fault. IsSchemaFault fault) }
{
    let statement = statement_of(alloc, row)?;
    let definition = view_definition_in(statement)?;
    view_made(row, definition)
}

/// Adds a view of a new name after the others.
fn add_new(alloc: Global, catalog: &mut Catalog, view: View) -> R<()>
    ensures tells { ReadsTold true (told.ViewTold view) (listed_in catalog.old) (listed_in catalog.new) result }
    ensures found { OnOk result
        (AddsTold (told.ViewTold view) (listed_in catalog.old) (listed_in catalog.new)) }
    ensures not_disk { IfErr result (λ fault. IsSchemaFault fault) }
{
    match is_new(catalog, &view.definition.name) {
        Ok(()) => catalog.add_view(alloc, view),
        Err(fault) => {
            drop(view);
            Err(fault)
        }
    }
}

/// Adds the view that a row tells, after the others.
pub(crate) fn add_view(alloc: Global, catalog: &mut Catalog, row: &SchemaRow<'_>) -> R<()>
    // Where a row tells a view of a new name, that is listed, unless memory runs out.
    ensures tells { (view : Listed) → TellsView view row.now
        → ReadsTold true (told.ViewTold view) (listed_in catalog.old) (listed_in catalog.new) result }
    // What is listed is the view that the row tells.
    ensures found { row.now.kind ≡ kind.View → OnOk result
        (FindsParts true row.now (listed_in catalog.old) (listed_in catalog.new)) }
    ensures not_disk { IfErr result (λ fault. IsSchemaFault fault) }
{
    let view = view_of(alloc, row)?;
    add_new(alloc, catalog, view)
}

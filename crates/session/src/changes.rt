//! The changes that statements make of the pages that a writer has.

ghost use Rattle.std.specs.Prelude.{◌≡◌, IfOk, IsTrue, OnOk, is_some, true};
ghost use Rattle.catalog.specs.Database.{Database};
ghost use Rattle.pager.specs.Marks.{IsOverTheSame, marks_of};
ghost use Rattle.pager.specs.Views.{Tells};
ghost use Rattle.pager.specs.Writers.{makes_objects};
ghost use Rattle.executor.specs.Forms.{WhereKept};
ghost use Rattle.executor_programs.specs.Writes.{changes_objects, written};
ghost use Rattle.session.specs.Changing.{CanChange, ChangesPages, MakesCatalog, listing};
ghost use Rattle.session.specs.ConnectionState.{HasCause};
ghost use Rattle.session.specs.Representation.{ShowTheSame};

use crate::savepoints::SavedCatalogs;
use catalog::Catalog;
use disk::Disk;
use executor_programs::{Write, change};
use pager::{Writer, Writing};
use sqlval::R;
use std::alloc::Global;
use wal::Log;

/// Makes a statement's change in the writer's pages. Answers the catalog then, or none where the tables stay.
fn change_pages<D: Disk + Drop>(
    alloc: Global,
    log: &mut Log<D>,
    buffer: &mut Vec<u8>,
    catalog: &SavedCatalogs,
    writer: &mut Writer,
    write: Write<'_>,
) -> R<Option<Catalog>>
    ensures cause { HasCause true result log.old log.new }
    ensures reads { Tells log.old → ShowTheSame log.old log.new }
    ensures applies { (db : Database) → WhereKept (written write.entry)
        (CanChange (listing log.old catalog.now) writer.old db
        → MakesCatalog (written write.entry) (listing log.old catalog.now) writer.old db result
        log.new writer.new) }
    ensures listed { IfOk result (λ next. is_some next ≡ changes_objects write.entry) }
    ensures marks { marks_of writer.new ≡ marks_of writer.old }
    ensures stands { IsOverTheSame writer.old writer.new }
{
    let mut pages = Writing {
        alloc,
        log,
        writer,
        buffer,
        place: None,
    };
    change(alloc, &mut pages, catalog.current(), write)
}

/// Makes a statement's change in the writer's pages, and in the catalog. (After a refusal some pages may have changed.)
pub fn apply<D: Disk + Drop>(
    alloc: Global,
    log: &mut Log<D>,
    buffer: &mut Vec<u8>,
    catalog: &mut SavedCatalogs,
    writer: &mut Writer,
    write: Write<'_>,
) -> R<()>
    ensures cause { HasCause true result log.old log.new }
    ensures reads { Tells log.old → ShowTheSame log.old log.new }
    ensures applies { (db : Database) → WhereKept (written write.entry)
        (CanChange (listing log.old catalog.old) writer.old db
        → ChangesPages (written write.entry) (listing log.old catalog.old) writer.old db result
        (listing log.new catalog.new) writer.new) }
    // The commit is to count the schema cookie up.
    ensures noted { changes_objects write.entry ≡ true
        → OnOk result (IsTrue (makes_objects writer.new)) }
    ensures marks { marks_of writer.new ≡ marks_of writer.old }
    ensures stands { IsOverTheSame writer.old writer.new }
{
    let Some(next) = change_pages(alloc, log, buffer, catalog, writer, write)? else {
        return Ok(());
    };
    catalog.change_to(alloc, next)?;
    writer.note_schema();
    Ok(())
}

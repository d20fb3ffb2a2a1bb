//! The marks of a writer, one for each savepoint of its transaction.

ghost use Rattle.std.specs.Prelude.{◌≡◌, ◌<◌, ◌++◌, length, replicate, IfErr, OnOk};
ghost use Rattle.sqlval.specs.declared.fault.Fault.TheVariants.{Memory};
ghost use Rattle.pager.specs.Marks.{IsOverTheSame, marks_of, now_of};
ghost use Rattle.session.specs.SavedTables.{AddsSavepoint, KeepsTables, savepoints_in};
ghost use Rattle.session.specs.Saving.{AddsMark, GoesBackToMark, KeepsWriter, ReleasesMarks};

use crate::savepoints::SavedCatalogs;
use pager::Writer;
use sqlval::{Name, R};

/// Sets marks. (`Memory` alone.)
pub fn mark_times(writer: &mut Writer, times: usize) -> R<()>
    ensures marked { OnOk result (marks_of writer.new ≡ marks_of writer.old ++ replicate times
        (now_of writer.old)) }
    ensures same { now_of writer.new ≡ now_of writer.old }
    ensures stands { IsOverTheSame writer.old writer.new }
    ensures refused { IfErr result (λ fault. fault ≡ Memory) }
{
    'marks: for _ in 0..times {
        writer.mark()?;
    }
    Ok(())
}

/// Goes back to a mark, where it is there; it stays.
pub fn go_back(writer: &mut Writer, place: usize)
    ensures { place < length (marks_of writer.old) → GoesBackToMark place writer.old writer.new }
{
    if place < writer.marks() {
        writer.back_to(place);
    }
}

/// Lets go of a mark and of those set after it, where it is there.
pub fn let_go(writer: &mut Writer, place: usize)
    ensures { place < length (marks_of writer.old) → ReleasesMarks place writer.old writer.new }
{
    if place < writer.marks() {
        writer.release(place);
    }
}

/// Adds a savepoint, under a mark of the transaction's writer. An `Err` changes nothing. (`Memory` alone.)
pub fn save_marked(catalog: &mut SavedCatalogs, writer: &mut Writer, name: Name) -> R<()>
    ensures saved { OnOk result (AddsSavepoint name (savepoints_in catalog.old).began catalog.old catalog.new) }
    ensures marked { OnOk result (AddsMark writer.old writer.new) }
    ensures refused { IfErr result (λ fault. (fault ≡ Memory) × KeepsTables catalog.old catalog.new
        × KeepsWriter writer.old writer.new) }
{
    let place = writer.mark()?;
    if let Err(fault) = catalog.save(name) {
        writer.release(place);
        return Err(fault);
    }
    Ok(())
}

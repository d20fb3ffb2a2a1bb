//! Laws of the maps of pages.

ghost use Rattle.std.specs.Prelude.{◌≡◌, ◌≤◌, ℕ, IsTrue};
ghost use Rattle.wal.specs.LogState.{state_of, seen_by};
ghost use Rattle.pager.specs.Limits.{page_size_of};
ghost use Rattle.pager.specs.Maps.{MapsAlike, MapsAll, MapsShown, PutsAtEnd, PutsInPlace, ShowsMapped, pages_in};
ghost use Rattle.pager.specs.Sights.{map_over, tells_reader, tells_writer, under_reader, under_writer, view_under};
ghost use Rattle.pager.specs.Sound.{BackIsSound, BackSeesTheSame, BegunIsSound, IsSound, TellsSound};
ghost use Rattle.pager.specs.Views.{Tells, view_at, view_of};
ghost use Rattle.pager.specs.Writers.{snapshot_of};

use crate::writer::Writer;
use disk::Disk;
use wal::{Log, Snapshot};

/// The map of a view has the pages that its readers can get.
pub fn pages_are_mapped()
    ensures shown { MapsShown }
    ensures mapped { ShowsMapped }
    ensures all { MapsAll }
    ensures alike { MapsAlike }
{}

/// A page that a writer puts takes its place in the map, or is added to it.
pub fn puts_change_maps()
    ensures place { PutsInPlace }
    ensures end { PutsAtEnd }
{}

/// Whether a writer is sound is tested, and one that has changed nothing yet is.
pub fn soundness_is_tested()
    ensures tested { TellsSound }
    ensures begun { BegunIsSound }
{}

/// A writer that went back to a mark is consistent and sound if it was so when the mark was set,
/// and sees what it saw then.
pub fn marks_are_sound()
    ensures sound { BackIsSound }
    ensures sees { BackSeesTheSame }
{}

/// The pages of a snapshot are told where the two files are, and are those of its view.
pub fn readers_are_told<D: Disk + Drop>(log: &Log<D>)
    ensures told { (snapshot : Snapshot) (a b : ℕ) → Tells log.now
        → seen_by snapshot ≤ (state_of log.now).frames
        → IsTrue (tells_reader (under_reader log.now snapshot a b)) }
    ensures map { (snapshot : Snapshot) (a b : ℕ) → Tells log.now
        → pages_in (view_under (under_reader log.now snapshot a b)) ≡ pages_in (view_at log.now snapshot) }
{}

/// So are those of a sound writer, of pages of the log's size; and what tells is sound.
pub fn writers_are_told<D: Disk + Drop>(log: &Log<D>)
    ensures told { (writer : Writer) (a w b : ℕ) → IsSound writer
        → page_size_of writer ≡ (state_of log.now).page_size
        → IsTrue (tells_reader (under_reader log.now (snapshot_of writer) a b))
        → IsTrue (tells_writer (under_writer log.now writer a w b)) }
    ensures sound { (writer : Writer) (a w b : ℕ)
        → IsTrue (tells_writer (under_writer log.now writer a w b)) → IsSound writer }
    ensures map { (writer : Writer) (a b : ℕ) → Tells log.now
        → map_over (under_reader log.now (snapshot_of writer) a b) writer ≡ pages_in (view_of log.now writer) }
{}

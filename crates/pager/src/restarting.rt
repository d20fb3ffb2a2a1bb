//! Whether a commit begins the log anew.

ghost use Rattle.std.specs.Prelude.{◌≡◌, IsTrue};
ghost use Rattle.wal.specs.Alone.{StandsAlone};
ghost use Rattle.wal.specs.Anew.{begins_anew};
ghost use Rattle.wal.specs.LogState.{state_of};
ghost use Rattle.pager.specs.Views.{Tells, newest_view};

use disk::Disk;
use wal::Log;

/// Whether a commit begins the log anew: it may, and all frames are copied, so that the database file alone has the newest commit's pages.
pub fn begins_anew<D: Disk + Drop>(log: &Log<D>, may_restart: bool) -> bool
    ensures is { result ≡ begins_anew (state_of log.now) may_restart }
    ensures alone { IsTrue result → Tells log.now
        → StandsAlone (newest_view log.now).db (newest_view log.now).page_size (newest_view log.now).frames
        (newest_view log.now).size }
{
    may_restart && log.is_copied()
}

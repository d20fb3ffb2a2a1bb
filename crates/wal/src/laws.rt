//! Laws of what readers see.

ghost use Rattle.wal.specs.Laws.{CommitChanges, CommitsFollow, PageIsOne, PagesAreOfFrames, SnapshotsStay};

/// What readers see depends on the committed frames, and on nothing else of the log.
pub fn pages_are_of_frames()
    ensures { PagesAreOfFrames }
{}

/// A page has one content.
pub fn page_is_one()
    ensures { PageIsOne }
{}

/// A commit doesn't change what older snapshots see.
pub fn snapshots_stay()
    ensures { SnapshotsStay }
{}

/// After a commit the newest snapshot sees the older frames, where the log doesn't begin anew, and the commit's.
pub fn commits_follow()
    ensures { CommitsFollow }
{}

/// A commit changes its pages, and no others.
pub fn commit_changes()
    ensures { CommitChanges }
{}

//! Which database two files hold.

ghost use Rattle.session.specs.Meaning.{HeldFilesAreStored, StoredFilesHold};

/// Two files hold the database that a view of them stores, and no other.
pub fn stored_files_hold()
    ensures held { StoredFilesHold }
    ensures stored { HeldFilesAreStored }
{}

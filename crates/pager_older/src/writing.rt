//! The two bytes that make a database file one in WAL mode.

ghost use Rattle.std.specs.Prelude.{◌≡◌, ◌⊎◌, ◌≤◌, length, IsTrue, IfErr, OnErr, OnOk};
ghost use Rattle.sqlval.specs.declared.fault.Fault.TheVariants.{Io};
ghost use Rattle.disk.specs.File.{Always, IsSynced};
ghost use Rattle.pager_older.specs.Counting.{CountsIo};
ghost use Rattle.pager_older.specs.Older.{IsSyncedAs, LeavesOneOrOther, as_wal};

use disk::Disk;
use sqlval::R;

/// Writes the versions of WAL mode into a database file, in one call, and syncs it. The one refusal is `Io`.
pub fn write_versions<D: Disk>(db: &mut D) -> R<()>
    requires { IsTrue (D.tells db.old) → 20 ≤ length (D.file db.old).content }
    ensures written { IsTrue (D.tells db.old) → OnOk result (IsSyncedAs (as_wal (D.file db.old).content) (D.file db.new)) }
    ensures failed { IsTrue (D.tells db.old) → OnErr result (((D.file db.new).content ≡ (D.file db.old).content)
        ⊎ ((D.file db.new).content ≡ as_wal (D.file db.old).content)) }
    // Of a file that was synced a crash leaves what it was, or the same with these versions.
    ensures crash { IsTrue (D.tells db.old) → IsSynced (D.file db.old)
        → Always (D.file db.old) (D.file db.new) (LeavesOneOrOther (D.file db.old).content (as_wal (D.file db.old).content)) }
    ensures refused { IfErr result (λ fault. fault ≡ Io) }
    ensures counted { CountsIo result (D.failures db.old) (D.failures db.new) }
{
    db.write_at(18, &[2, 2])?;
    db.sync()
}

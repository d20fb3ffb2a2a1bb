//! The calls of a file.

ghost use Rattle.std.specs.Prelude.{◌≡◌, ◌⊎◌, ◌+◌, ◌-◌, ◌^◌, ◌≤◌, ℕ, Bool, IsTrue, List, length, take, drop, IfOk, IfErr, OnOk, OnErr};
ghost use Rattle.disk.specs.File.{File, Elapses};
ghost use Rattle.disk.specs.Calls.{Writes, FailsToWrite, CutsFile, FailsToCut, Syncs, CountsFailure};
ghost use Rattle.sqlval.specs.declared.fault.Fault.TheVariants.{Io};

use sqlval::R;

/// A file that may fail, and whose writes may be lost until a sync. A disk may be opaque (`tells` is false), as a real
/// file is: its contract then speaks of failures alone.
pub trait Disk {
    /// Whether the content is known.
    ghost tells: { Self → Bool };

    /// The content, and what a crash may leave.
    ghost file: { Self → File };

    /// How many calls have failed.
    ghost failures: { Self → ℕ };

    /// The length of the content, in bytes. The one refusal of each call is `Io`.
    fn len(&mut self) -> R<u64>
        ensures length { IsTrue (tells self.old)
            → IfOk result (λ n. n ≡ length (file self.old).content) }
        ensures same { IsTrue (tells self.old) → file self.new ≡ file self.old }
        ensures moments { IsTrue (tells self.old) → Elapses (file self.old) (file self.new) }
        ensures tells { tells self.new ≡ tells self.old }
        ensures refused { IfErr result (λ fault. fault ≡ Io) }
        ensures count { CountsFailure result (failures self.old) (failures self.new) };

    /// Fills `buf` with the bytes from an offset on, all of which have to be there.
    fn read_at(&mut self, at: u64, buf: &mut [u8]) -> R<()>
        requires { IsTrue (tells self.old) → at + length buf.old ≤ length (file self.old).content }
        ensures read { IsTrue (tells self.old)
            → OnOk result (buf.new ≡ take (length buf.old) (drop at (file self.old).content)) }
        ensures same { IsTrue (tells self.old) → file self.new ≡ file self.old }
        ensures moments { IsTrue (tells self.old) → Elapses (file self.old) (file self.new) }
        ensures tells { tells self.new ≡ tells self.old }
        ensures refused { IfErr result (λ fault. fault ≡ Io) }
        ensures count { CountsFailure result (failures self.old) (failures self.new) };

    /// Writes bytes from an offset on, which is at most the length; the file grows where they reach past its end.
    fn write_at(&mut self, at: u64, bytes: &[u8]) -> R<()>
        requires { IsTrue (tells self.old) → at ≤ length (file self.old).content }
        ensures done { IsTrue (tells self.old)
            → OnOk result (Writes at bytes.now (file self.old) (file self.new)) }
        ensures failed { IsTrue (tells self.old)
            → OnErr result ((file self.new ≡ file self.old)
            ⊎ FailsToWrite at bytes.now (file self.old) (file self.new)) }
        ensures moments { IsTrue (tells self.old) → Elapses (file self.old) (file self.new) }
        ensures tells { tells self.new ≡ tells self.old }
        ensures refused { IfErr result (λ fault. fault ≡ Io) }
        ensures count { CountsFailure result (failures self.old) (failures self.new) };

    /// Cuts the file to a length, which is at most the present one.
    fn cut(&mut self, len: u64) -> R<()>
        requires { IsTrue (tells self.old) → len ≤ length (file self.old).content }
        ensures done { IsTrue (tells self.old)
            → OnOk result (CutsFile len (file self.old) (file self.new)) }
        ensures failed { IsTrue (tells self.old)
            → OnErr result ((file self.new ≡ file self.old)
            ⊎ FailsToCut len (file self.old) (file self.new)) }
        ensures moments { IsTrue (tells self.old) → Elapses (file self.old) (file self.new) }
        ensures tells { tells self.new ≡ tells self.old }
        ensures refused { IfErr result (λ fault. fault ≡ Io) }
        ensures count { CountsFailure result (failures self.old) (failures self.new) };

    /// Where it succeeds, a crash leaves the content and nothing else, until the next write or cut.
    fn sync(&mut self) -> R<()>
        ensures done { IsTrue (tells self.old)
            → OnOk result (Syncs (file self.old) (file self.new)) }
        ensures failed { IsTrue (tells self.old) → OnErr result (file self.new ≡ file self.old) }
        ensures moments { IsTrue (tells self.old) → Elapses (file self.old) (file self.new) }
        ensures tells { tells self.new ≡ tells self.old }
        ensures refused { IfErr result (λ fault. fault ≡ Io) }
        ensures count { CountsFailure result (failures self.old) (failures self.new) };
}

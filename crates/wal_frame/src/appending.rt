//! What becomes of headers and frames that are written.

ghost use Rattle.wal_frame.specs.Appended.{AcceptsWrittenFrames, KeepsAcceptedFrames, ReadsWrittenHeaders};

/// A header that was written is read, and frames that were written after accepted ones are accepted.
pub fn written_frames_are_accepted()
    ensures header { ReadsWrittenHeaders }
    ensures frames { AcceptsWrittenFrames }
{}

/// The frames that count in a log count in each log that goes on after it, before all others.
pub fn accepted_frames_stay()
    ensures { KeepsAcceptedFrames }
{}

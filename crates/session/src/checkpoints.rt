//! Checkpoints of the connections' log.

ghost use Rattle.std.specs.Prelude.{◌≡◌, ◌<◌, ◌∷◌, ◌++◌, [], false, length, map, vec_capacity};
ghost use Rattle.row_scan.specs.Rows.{values_of};
ghost use Rattle.session.specs.ConnectionState.{HasCause};
ghost use Rattle.session.specs.CopiedBack.{CopiesBack, numbers_of};

use crate::seats::{Seat, any_holds_snapshot, least_snapshot};
use disk::Disk;
use row_scan::Rows;
use smallvec::SmallVec;
use sql_syntax::CheckpointMode;
use sqlval::{R, Row, Value};
use std::alloc::Global;
use wal::Log;
use wal_checkpoint::{Counts, passive, restart, truncate};

/// Copies the log's frames into the database file, up to the fewest that one of these seats sees. (What `passive` refuses.)
pub fn copy_frames<D: Disk + Drop>(
    alloc: Global,
    log: &mut Log<D>,
    seats: &[Seat],
    mode: CheckpointMode,
) -> R<Counts>
    ensures copies { CopiesBack mode seats.now log.old result log.new }
    ensures cause { HasCause false result log.old log.new }
{
    let target = least_snapshot(seats, log.begin());
    let is_alone = !any_holds_snapshot(seats);
    match mode {
        CheckpointMode::Passive => passive(alloc, log, target),
        CheckpointMode::Restart => restart(alloc, log, target, is_alone),
        CheckpointMode::Truncate => truncate(alloc, log, target, is_alone),
    }
}

/// The row that a checkpoint answers.
fn row_of(alloc: Global, counts: Counts) -> Row
    ensures { values_of result ≡ numbers_of counts }
{
    let blocked = Value::Int(i64::from(counts.is_blocked));
    let frames = Value::Int(i64::from(counts.frames));
    let copied = Value::Int(i64::from(counts.copied));
    let values = [
        blocked,
        frames,
        copied,
        Value::Null,
        Value::Null,
        Value::Null,
        Value::Null,
        Value::Null,
    ];
    SmallVec::from_buf_and_len(alloc, values, 3)
}

/// Adds the row that a checkpoint answers to rows that have room for it.
pub fn put_counts(alloc: Global, rows: &mut Rows, counts: Counts)
    requires { length rows.old.items < vec_capacity rows.old }
    ensures { map values_of rows.new.items ≡ map values_of rows.old.items ++ numbers_of counts ∷ [] }
{
    rows.push_reserved(row_of(alloc, counts));
}

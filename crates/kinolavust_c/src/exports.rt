//! What C calls. A handle is given back by each call, except for `close`, through `out`.

ghost use Rattle.std.specs.Prelude.{◌≡◌, ◌==◌, None, IsTrue, cond, is_some, length};
ghost use Rattle.engine.specs.Preparing.{IsPrepared, parameters_in};
ghost use Rattle.engine.specs.declared.prepared.Prepared.{Prepared};
ghost use Rattle.kinolavust_c.specs.Numbers.{IsAnswer};
ghost use Rattle.kinolavust_c.specs.Replies.{kept_reply};
ghost use Rattle.kinolavust_c.specs.Slots.{RunsWith, kept_in};

use crate::handle::{Given, Handle};
use crate::opened::{copy, open};
use crate::replies::{copy_refusal, number};
use engine::Salts;
use std::alloc::Global;

/// Opens the database of these bytes, which is created if the database file is blank. Answers 0, or the number of a refusal, with
/// nothing given: the bytes of the refusal then stand at the front of `refusal`, as many as there is room for.
#[unsafe(no_mangle)]
pub extern "C" fn kinolavust_session_open(
    alloc: Global,
    db: &[u8],
    log: &[u8],
    page_size: u32,
    first_salt: u32,
    second_salt: u32,
    refusal: &mut [u8],
    out: &mut Given,
) -> u32
    ensures { IsAnswer result }
{
    let salts = Salts {
        first: first_salt,
        second: second_salt,
    };
    match open(alloc, db, log, page_size, salts) {
        Ok(session) => {
            out.put(session);
            0
        }
        Err(fault) => {
            copy_refusal(alloc, &fault, refusal);
            number(&fault)
        }
    }
}

/// Executes a statement on a connection, 1 to 16. Answers 0, or the number of a refusal. The reply is kept until the next one.
#[unsafe(no_mangle)]
pub extern "C" fn kinolavust_session_execute(
    handle: Handle,
    connection: u32,
    text: &[u8],
    out: &mut Given,
) -> u32
    ensures { IsAnswer result }
{
    let mut session = handle.into_box();
    let number = session.execute(connection, text);
    out.put(session);
    number
}

/// Reads a query or a change of rows, to be run with values: a place for one is the quoted name `"?1"`, `"?2"` and so on. Answers 0, and gives
/// the statement's slot and how many values it takes; or answers the number of a refusal, whose reply is kept.
#[unsafe(no_mangle)]
pub extern "C" fn kinolavust_session_prepare(
    handle: Handle,
    text: &[u8],
    slot: &mut usize,
    count: &mut usize,
    out: &mut Given,
) -> u32
    ensures answer { IsAnswer result }
    ensures counted { result ≡ 0
        → (statement : Prepared) × IsPrepared text.now statement × (count.new ≡ parameters_in statement) }
{
    let mut session = handle.into_box();
    let number = session.prepare(text, slot, count);
    out.put(session);
    number
}

/// Runs the statement of a slot on a connection, 1 to 16, with values whose bytes are as those of a reply's row. Answers 0, or the number of
/// a refusal: 11 for a slot that isn't in use, another count of values, or bytes that are those of no values. The reply is kept until the
/// next one.
#[unsafe(no_mangle)]
pub extern "C" fn kinolavust_session_run(
    handle: Handle,
    connection: u32,
    slot: usize,
    values: &[u8],
    out: &mut Given,
) -> u32
    ensures answer { IsAnswer result }
    ensures unused { kept_in handle.session.slots slot ≡ None → result ≡ 11 }
    ensures taken { result ≡ 0 → RunsWith handle.session.slots slot values.now }
{
    let mut session = handle.into_box();
    let number = session.run(connection, slot, values);
    out.put(session);
    number
}

/// Lets go of the statement of a slot, which is then free. Answers 0, or 11 for a slot that isn't in use.
#[unsafe(no_mangle)]
pub extern "C" fn kinolavust_session_finish(handle: Handle, slot: usize, out: &mut Given) -> u32
    ensures { result ≡ cond (is_some (kept_in handle.session.slots slot)) 0 11 }
{
    let mut session = handle.into_box();
    let number = session.finish(slot);
    out.put(session);
    number
}

/// How many bytes the reply takes.
#[unsafe(no_mangle)]
pub extern "C" fn kinolavust_session_reply_len(handle: Handle, out: &mut Given) -> usize
    ensures { result ≡ length (kept_reply handle.session) }
{
    let session = handle.into_box();
    let len = session.reply().len();
    out.put(session);
    len
}

/// Copies the reply, if there is just room for it. Answers whether it did.
#[unsafe(no_mangle)]
pub extern "C" fn kinolavust_session_reply(
    handle: Handle,
    bytes: &mut [u8],
    out: &mut Given,
) -> bool
    ensures copied { IsTrue result → bytes.new ≡ kept_reply handle.session }
    ensures room { result ≡ (length bytes.old == length (kept_reply handle.session)) }
{
    let session = handle.into_box();
    let is_copied = copy(session.reply(), bytes);
    out.put(session);
    is_copied
}

/// How many bytes the changes take that are still to be carried out.
#[unsafe(no_mangle)]
pub extern "C" fn kinolavust_session_journal_len(handle: Handle, out: &mut Given) -> usize {
    let session = handle.into_box();
    let len = session.journal().len();
    out.put(session);
    len
}

/// Copies the changes that are still to be carried out, if there is just room for them, and forgets them. Answers whether it did.
#[unsafe(no_mangle)]
pub extern "C" fn kinolavust_session_journal(
    handle: Handle,
    bytes: &mut [u8],
    out: &mut Given,
) -> bool {
    let session = handle.into_box();
    let is_taken = session.journal().take(bytes);
    out.put(session);
    is_taken
}

/// Lets go of a session. Open transactions are dropped.
#[unsafe(no_mangle)]
pub extern "C" fn kinolavust_session_close(handle: Handle) {
    drop(handle.into_box());
}

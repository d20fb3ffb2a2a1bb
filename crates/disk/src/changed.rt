//! The changes of a file in memory.

ghost use Rattle.std.specs.Prelude.{◌≡◌, ◌⊎◌, ◌+◌, ◌≤◌, ◌++◌, [], ◌∷◌, true, false, OnOk, OnErr, IfOk, IsTrue, IsFalse, take, drop, length, ℕ, Vec};
ghost use Rattle.std.specs.declared.alloc.Global.{Global};
ghost use Rattle.disk.specs.Calls.{overwritten};
ghost use Rattle.disk.specs.Landing.{has_landed};
ghost use Rattle.disk.specs.declared.change.Change.TheVariants.{Write, Cut, Sync};

use crate::change::Change;
use std::alloc::{AllocError, Global};

/// Puts bytes at an offset, or at the end where that comes before it.
pub fn put(content: &mut Vec<u8>, at: u64, bytes: &[u8]) -> Result<(), AllocError>
    ensures done { OnOk result (content.new.items ≡ overwritten at bytes.now content.old.items) }
    ensures failed { OnErr result (content.new.items ≡ content.old.items) }
{
    if at >= content.len() as u64 {
        return content.extend_from_slice(bytes);
    }
    let at = at as usize;
    let inside = bytes.len().min(content.len() - at);
    content.extend_from_slice(&bytes[inside..])?;
    content[at..at + inside].copy_from_slice(&bytes[..inside]);
    Ok(())
}

/// Cuts bytes to a length.
pub fn shorten(content: &mut Vec<u8>, len: u64)
    ensures { content.new.items ≡ take len content.old.items }
{
    if len < content.len() as u64 {
        content.truncate(len as usize);
    }
}

fn copy_of(alloc: Global, bytes: &[u8]) -> Result<Vec<u8>, AllocError>
    ensures { IfOk result (λ v. v.items ≡ bytes.now) }
{
    bytes.to_vec(alloc)
}

/// Records a write of these bytes, and puts them into the content if it is to land.
fn record_write(
    changes: &mut Vec<Change>,
    content: &mut Vec<u8>,
    at: u64,
    bytes: Vec<u8>,
    lands: bool,
) -> Result<(), AllocError>
    ensures landed { IsTrue lands → OnOk result
        (content.new.items ≡ overwritten at bytes.items content.old.items) }
    ensures not_landed { IsFalse lands → content.new.items ≡ content.old.items }
    ensures recorded { OnOk result (changes.new.items ≡ changes.old.items ++ Write at bytes lands ∷ []) }
    ensures refused { OnErr result ((content.new.items ≡ content.old.items)
        × (changes.new.items ≡ changes.old.items)) }
{
    changes.reserve(1)?;
    if lands {
        put(content, at, &bytes)?;
    }
    changes
        .push(Change::Write {
            at,
            bytes,
            landed: lands,
        })
        .map_err(AllocError::from)
}

/// Records a write, unless the file is gone, and makes it the content if it is to land. Answers whether it did.
pub fn overwrite(
    alloc: Global,
    changes: &mut Vec<Change>,
    content: &mut Vec<u8>,
    at: u64,
    bytes: &[u8],
    is_gone: bool,
    lands: bool,
) -> Result<bool, AllocError>
    requires { IsTrue is_gone → IsFalse lands }
    ensures landed { IsTrue (has_landed result)
        → (v : Vec ℕ Global) × (v.items ≡ bytes.now)
        × (changes.new.items ≡ changes.old.items ++ Write at v true ∷ [])
        × (content.new.items ≡ overwritten at bytes.now content.old.items) }
    ensures not_landed { IsFalse (has_landed result) → (content.new.items ≡ content.old.items)
        × ((changes.new.items ≡ changes.old.items)
        ⊎ ((v : Vec ℕ Global) × (v.items ≡ bytes.now)
        × (changes.new.items ≡ changes.old.items ++ Write at v false ∷ []))) }
    ensures recorded { IsFalse is_gone
        → OnOk result ((v : Vec ℕ Global) × (v.items ≡ bytes.now)
        × (changes.new.items ≡ changes.old.items ++ Write at v lands ∷ [])) }
    ensures answer { IfOk result (λ landed. landed ≡ lands) }
    ensures gone { IsTrue is_gone → changes.new.items ≡ changes.old.items }
{
    if !is_gone {
        record_write(changes, content, at, copy_of(alloc, bytes)?, lands)?;
    }
    Ok(lands)
}

/// Records a cut, unless the file is gone, and makes it the content if it is to land. Answers whether it did.
pub fn cut_to(
    changes: &mut Vec<Change>,
    content: &mut Vec<u8>,
    len: u64,
    is_gone: bool,
    lands: bool,
) -> Result<bool, AllocError>
    requires { IsTrue is_gone → IsFalse lands }
    ensures landed { IsTrue (has_landed result)
        → (changes.new.items ≡ changes.old.items ++ Cut len true ∷ [])
        × (content.new.items ≡ take len content.old.items) }
    ensures not_landed { IsFalse (has_landed result) → (content.new.items ≡ content.old.items)
        × ((changes.new.items ≡ changes.old.items)
        ⊎ (changes.new.items ≡ changes.old.items ++ Cut len false ∷ [])) }
    ensures recorded { IsFalse is_gone → OnOk result
        (changes.new.items ≡ changes.old.items ++ Cut len lands ∷ []) }
    ensures answer { IfOk result (λ landed. landed ≡ lands) }
    ensures gone { IsTrue is_gone → changes.new.items ≡ changes.old.items }
{
    if !is_gone {
        changes
            .push(Change::Cut { len, landed: lands })
            .map_err(AllocError::from)?;
    }
    if lands {
        shorten(content, len);
    }
    Ok(lands)
}

/// Records a sync, if it is to succeed. Answers whether it did.
pub fn note_sync(changes: &mut Vec<Change>, ok: bool) -> Result<bool, AllocError>
    ensures landed { IsTrue (has_landed result)
        → changes.new.items ≡ changes.old.items ++ Sync ∷ [] }
    ensures not_landed { IsFalse (has_landed result) → changes.new.items ≡ changes.old.items }
    ensures answer { IfOk result (λ landed. landed ≡ ok) }
{
    if ok {
        changes.push(Change::Sync).map_err(AllocError::from)?;
    }
    Ok(ok)
}

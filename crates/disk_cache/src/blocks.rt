//! Blocks that were read, each in the place that its offset has.

ghost use Rattle.std.specs.Prelude.{◌≡◌, ◌+◌, ◌/◌, ◌%◌, ◌<◌, ◌≤◌, ℕ, List, length, max, take, drop, IfSome};
ghost use Rattle.disk_cache.specs.Kept.{AreKept, IsKept};

use std::alloc::Global;

/// Bytes that were read from an offset on.
#[derive(Drop)]
pub struct Block {
    pub at: u64,
    pub bytes: Vec<u8>,
}

/// The place among so many of what begins at an offset and has this length: pages of one size that follow each other have places that do.
fn place_of(at: u64, len: usize, count: usize) -> usize
    requires { 0 < count }
    ensures within { result < count }
    ensures place { result ≡ at / max len 1 % count }
{
    (at / (len as u64).max(1) % count as u64) as usize
}

/// The bytes of a block, if it begins at this offset and is of this length.
fn bytes_of(block: &Block, at: u64, len: usize) -> Option<&[u8]>
    ensures { IfSome result (λ bytes. (block.now.at ≡ at) × (block.now.bytes.items ≡ bytes.now)
        × (length bytes.now ≡ len)) }
{
    if block.at == at && block.bytes.len() == len {
        Some(block.bytes.as_slice())
    } else {
        None
    }
}

/// The bytes that were read from an offset on, if so many of them are kept.
pub fn find(blocks: &[Block], at: u64, len: usize) -> Option<&[u8]>
    ensures { IfSome result (λ bytes. (length bytes.now ≡ len)
        × ((content : List ℕ) (end : ℕ) → AreKept content end blocks.now
        → bytes.now ≡ take len (drop at content))) }
{
    if blocks.len() == 0 {
        return None;
    }
    bytes_of(&blocks[place_of(at, len, blocks.len())], at, len)
}

/// How far an offset is from another, if it isn't before it.
fn distance(from: u64, at: u64) -> Option<usize>
    ensures { IfSome result (λ there. from + there ≡ at) }
{
    match at.checked_sub(from) {
        Some(there) => usize::try_from(there).ok(),
        None => None,
    }
}

/// So many bytes from a place on, if there are so many.
fn part_from(bytes: &[u8], from: usize, len: usize) -> Option<&[u8]>
    ensures { IfSome result (λ part. (from + len ≤ length bytes.now)
        × (part.now ≡ take len (drop from bytes.now)) × (length part.now ≡ len)) }
{
    match from.checked_add(len) {
        Some(end) if end <= bytes.len() => Some(&bytes[from..end]),
        _ => None,
    }
}

/// The bytes from an offset on that a block has, if it has so many there.
pub fn part(block: &Block, at: u64, len: usize) -> Option<&[u8]>
    ensures { IfSome result (λ bytes. (length bytes.now ≡ len)
        × ((content : List ℕ) (end : ℕ) → IsKept content end block.now
        → bytes.now ≡ take len (drop at content))) }
{
    match distance(block.at, at) {
        Some(from) => part_from(block.bytes.as_slice(), from, len),
        None => None,
    }
}

/// Lets go of what blocks have, and of what another one has.
pub fn let_go(blocks: &mut Vec<Block>, other: &mut Block)
    ensures { (content : List ℕ) (end : ℕ) → AreKept content end blocks.new.items
        × IsKept content end other.new }
{
    blocks.clear();
    other.bytes.clear();
    other.at = 0;
}

/// Puts other bytes, from an offset on, in the place of a block's, or none if there is no memory for them.
pub fn renew(block: &mut Block, at: u64, bytes: &[u8])
    ensures { (content : List ℕ) (end : ℕ) → at + length bytes.now ≤ end
        → bytes.now ≡ take (length bytes.now) (drop at content) → IsKept content end block.new }
{
    block.bytes.clear();
    block.at = 0;
    if block.bytes.extend_from_slice(bytes).is_ok() {
        block.at = at;
    }
}

/// Adds a block without bytes, and answers whether there was memory for it.
fn add_blank(alloc: Global, blocks: &mut Vec<Block>) -> bool
    ensures few { length blocks.new.items ≤ length blocks.old.items + 1 }
    ensures kept { (content : List ℕ) (end : ℕ) → AreKept content end blocks.old.items
        → AreKept content end blocks.new.items }
{
    let block = Block {
        at: 0,
        bytes: Vec::new(alloc),
    };
    blocks.push(block).is_ok()
}

/// Adds blocks without bytes, as many as there is memory for, but at most so many.
fn fill(alloc: Global, blocks: &mut Vec<Block>, count: usize)
    ensures few { length blocks.new.items ≤ length blocks.old.items + count }
    ensures kept { (content : List ℕ) (end : ℕ) → AreKept content end blocks.old.items
        → AreKept content end blocks.new.items }
{
    'blocks: for _ in 0..count {
        if !add_blank(alloc, blocks) {
            return;
        }
    }
}

/// Puts a block in the place of its offset.
fn put(blocks: &mut Vec<Block>, block: Block)
    ensures few { length blocks.new.items ≡ length blocks.old.items }
    ensures kept { (content : List ℕ) (end : ℕ) → AreKept content end blocks.old.items
        → IsKept content end block
        → AreKept content end blocks.new.items }
{
    let count = blocks.len();
    if count > 0 {
        let place = place_of(block.at, block.bytes.len(), count);
        blocks[place] = block;
    }
}

/// Adds blocks where there are none.
fn prepare(alloc: Global, blocks: &mut Vec<Block>, count: usize)
    ensures few { length blocks.new.items ≤ max (length blocks.old.items) count }
    ensures kept { (content : List ℕ) (end : ℕ) → AreKept content end blocks.old.items
        → AreKept content end blocks.new.items }
{
    if blocks.len() == 0 {
        fill(alloc, blocks, count);
    }
}

/// Keeps bytes that were read from an offset on, if there is memory for them. At most so many blocks are kept.
pub fn keep(alloc: Global, blocks: &mut Vec<Block>, count: usize, at: u64, bytes: &[u8])
    ensures few { length blocks.new.items ≤ max (length blocks.old.items) count }
    ensures kept { (content : List ℕ) (end : ℕ) → AreKept content end blocks.old.items
        → at + length bytes.now ≤ end
        → bytes.now ≡ take (length bytes.now) (drop at content)
        → AreKept content end blocks.new.items }
{
    prepare(alloc, blocks, count);
    if let Ok(bytes) = Vec::from_slice(alloc, bytes) {
        put(blocks, Block { at, bytes });
    }
}

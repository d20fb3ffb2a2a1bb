//! The cells of each kind as they are written.

ghost use Rattle.std.specs.Prelude.{◌≡◌, ℕ, ◌++◌, length, IfOk, IfErr};
ghost use Rattle.std.specs.Int.{w32, w64, to_be_bytes, cast_unsigned};
ghost use Rattle.record.specs.Varint.{varint};
ghost use Rattle.tree_page.specs.Node.{Local, IsRowCell, IsKeyCell, IsEntryCell, IsBetweenCell};
ghost use Rattle.tree_page.specs.Payload.{table_most, index_most, held_size};

use record::{put_varint, varint_len};
use sqlval::{Fault, R};
use std::alloc::Global;

/// The cell of a row: the length of its payload, its rowid, and what the cell holds of the payload, with the number of the
/// first overflow page, if there is one. (`Memory` alone.)
pub fn row_cell(alloc: Global, rowid: i64, size: u64, held: &[u8]) -> R<Vec<u8>>
    ensures is { (usable : ℕ) → length held.now ≡ held_size usable (table_most usable) size
        → IfOk result (λ cell. IsRowCell usable cell.items (rowid, record { size = size; bytes = held.now })) }
    ensures exact { IfOk result (λ cell. cell.items ≡ varint size ++
        (varint (cast_unsigned w64 rowid) ++ held.now)) }
    ensures refused { IfErr result (λ fault. fault ≡ Fault.Memory) }
{
    let rowid = rowid.cast_unsigned();
    let mut cell = Vec::with_capacity(alloc, varint_len(size) + varint_len(rowid) + held.len())?;
    put_varint(&mut cell, size)?;
    put_varint(&mut cell, rowid)?;
    cell.extend_from_slice(held)?;
    Ok(cell)
}

/// The cell of a child of a table's interior page: its page's number, and the key. (`Memory` alone.)
pub fn key_cell(alloc: Global, child: u32, key: i64) -> R<Vec<u8>>
    ensures is { IfOk result (λ cell. IsKeyCell cell.items (child, key)) }
    ensures exact { IfOk result (λ cell. cell.items ≡ to_be_bytes w32 child ++ varint (cast_unsigned w64 key)) }
    ensures refused { IfErr result (λ fault. fault ≡ Fault.Memory) }
{
    let key = key.cast_unsigned();
    let mut cell = Vec::with_capacity(alloc, 4 + varint_len(key))?;
    cell.extend_from_slice(&child.to_be_bytes())?;
    put_varint(&mut cell, key)?;
    Ok(cell)
}

/// The cell of an entry of an index: the length of its payload, and what the cell holds of it, with the number of the first
/// overflow page, if there is one. (`Memory` alone.)
pub fn entry_cell(alloc: Global, size: u64, held: &[u8]) -> R<Vec<u8>>
    ensures is { (usable : ℕ) → length held.now ≡ held_size usable (index_most usable) size
        → IfOk result (λ cell. IsEntryCell usable cell.items (record { size = size; bytes = held.now })) }
    ensures exact { IfOk result (λ cell. cell.items ≡ varint size ++ held.now) }
    ensures refused { IfErr result (λ fault. fault ≡ Fault.Memory) }
{
    let mut cell = Vec::with_capacity(alloc, varint_len(size) + held.len())?;
    put_varint(&mut cell, size)?;
    cell.extend_from_slice(held)?;
    Ok(cell)
}

/// The cell of a child of an index's interior page: its page's number, and the cell of the entry after it. (`Memory` alone.)
pub fn between_cell(alloc: Global, child: u32, size: u64, held: &[u8]) -> R<Vec<u8>>
    ensures is { (usable : ℕ) → length held.now ≡ held_size usable (index_most usable) size
        → IfOk result (λ cell. IsBetweenCell usable cell.items
        (child, record { size = size; bytes = held.now })) }
    ensures exact { IfOk result (λ cell. cell.items ≡ to_be_bytes w32 child ++ (varint size ++ held.now)) }
    ensures refused { IfErr result (λ fault. fault ≡ Fault.Memory) }
{
    let mut cell = Vec::with_capacity(alloc, 4 + varint_len(size) + held.len())?;
    cell.extend_from_slice(&child.to_be_bytes())?;
    put_varint(&mut cell, size)?;
    cell.extend_from_slice(held)?;
    Ok(cell)
}

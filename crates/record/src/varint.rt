//! Variable-length integers.

ghost use Rattle.std.specs.Prelude.{◌≡◌, ◌≤◌, ◌+◌, ◌++◌, ℕ, List, length, vec_capacity, OnOk, IfSome, IsSomeAnd, option_map};
ghost use Rattle.record.specs.Varint.{IsVarint, IsShortestVarint, varint_at, high_count, going_on, varint};

use std::alloc::AllocError;

/// The number at the front, and the bytes after it; None where no whole varint stands there. Every spelling is read,
/// not the shortest alone. A signed number is spelled as its 64 bits: callers cast.
#[inline(always)]
pub fn get_varint(bytes: &[u8]) -> Option<(u64, &[u8])>
    // What is read is a spelling of the number,
    ensures found { IfSome result (λ found. (text : List ℕ) × (bytes.now ≡ text ++ found.1.now)
        × IsVarint text found.0) }
    // and each spelling is read, whatever follows it.
    ensures only { (text rest : List ℕ) (n : ℕ) → IsVarint text n → bytes.now ≡ text ++ rest
        → IsSomeAnd result (λ found. (found.0 ≡ n) × (found.1.now ≡ rest)) }
    ensures exact { option_map (λ found. (found.0, found.1.now)) result ≡ varint_at bytes.now }
{
    read(bytes)
}

/// Most numbers are one byte.
#[inline(always)]
#[tactic(auto, unfolding(crate::specs::Varint::varint_at))]
fn read(bytes: &[u8]) -> Option<(u64, &[u8])>
    ensures { option_map (λ found. (found.0, found.1.now)) result ≡ varint_at bytes.now }
{
    let (first, after) = bytes.split_first()?;
    if *first < 128 {
        return Some((u64::from(*first), after));
    }
    read_digits(bytes)
}

/// A number of any length, digit by digit.
#[inline(never)]
#[tactic(auto, unfolding(crate::specs::Varint::varint_at))]
fn read_digits(bytes: &[u8]) -> Option<(u64, &[u8])>
    ensures { option_map (λ found. (found.0, found.1.now)) result ≡ varint_at bytes.now }
{
    let mut high = 0u64;
    let mut rest = bytes;
    'digits: for _ in 0..8usize {
        let (byte, after) = rest.split_first()?;
        let byte = u64::from(*byte);
        rest = after;
        if byte < 128 {
            return Some((high * 128 + byte, rest));
        }
        high = high * 128 + (byte - 128);
    }
    let (byte, after) = rest.split_first()?;
    Some((high * 256 + u64::from(*byte), after))
}

/// How many bytes go on before the last.
#[tactic(auto, unfolding(crate::specs::Varint::high_count))]
fn count_high(n: u64) -> u32
    ensures value { result ≡ high_count n }
    ensures small { result ≤ 8 }
{
    if n < 1 << 7 {
        0
    } else if n < 1 << 14 {
        1
    } else if n < 1 << 21 {
        2
    } else if n < 1 << 28 {
        3
    } else if n < 1 << 35 {
        4
    } else if n < 1 << 42 {
        5
    } else if n < 1 << 49 {
        6
    } else if n < 1 << 56 {
        7
    } else {
        8
    }
}

/// How many bytes the shortest spelling of a number takes: 1 to 9.
pub fn varint_len(n: u64) -> usize
    ensures value { result ≡ length (varint n) }
    ensures low { 1 ≤ result }
    ensures high { result ≤ 9 }
{
    count_high(n) as usize + 1
}

/// Writes the bytes that go on.
fn put_high(out: &mut Vec<u8>, n: u64, count: u32) -> Result<(), AllocError>
    ensures exact { OnOk result (out.new.items ≡ out.old.items ++ going_on count n) }
    ensures capacity { vec_capacity out.old ≤ vec_capacity out.new }
{
    if count > 0 {
        put_high(out, n / 128, count - 1)?;
        out.push(128 + (n % 128) as u8)?;
    }
    Ok(())
}

/// Writes a number at the end, in as few bytes as it takes.
pub fn put_varint(out: &mut Vec<u8>, n: u64) -> Result<(), AllocError>
    ensures shortest { OnOk result ((text : List ℕ) × (out.new.items ≡ out.old.items ++ text)
        × IsShortestVarint text n) }
    ensures exact { OnOk result (out.new.items ≡ out.old.items ++ varint n) }
{
    write(out, n)
}

/// Writes a number where there is room for it: most take one byte.
#[inline(always)]
pub(crate) fn put_reserved(out: &mut Vec<u8>, n: u64) -> Result<(), AllocError>
    requires { length out.old.items + length (varint n) ≤ vec_capacity out.old }
    ensures exact { OnOk result (out.new.items ≡ out.old.items ++ varint n) }
    ensures capacity { vec_capacity out.old ≤ vec_capacity out.new }
{
    if n < 1 << 7 {
        out.push_reserved(n as u8);
        return Ok(());
    }
    write(out, n)
}

/// Most numbers take one byte or two.
fn write(out: &mut Vec<u8>, n: u64) -> Result<(), AllocError>
    ensures exact { OnOk result (out.new.items ≡ out.old.items ++ varint n) }
    ensures capacity { vec_capacity out.old ≤ vec_capacity out.new }
{
    if n < 1 << 7 {
        out.push(n as u8)?;
    } else if n < 1 << 14 {
        out.push(128 + (n / 128) as u8)?;
        out.push((n % 128) as u8)?;
    } else {
        write_digits(out, n)?;
    }
    Ok(())
}

/// A number of any length, digit by digit.
#[tactic(auto, unfolding(crate::specs::Varint::varint))]
fn write_digits(out: &mut Vec<u8>, n: u64) -> Result<(), AllocError>
    ensures exact { OnOk result (out.new.items ≡ out.old.items ++ varint n) }
    ensures capacity { vec_capacity out.old ≤ vec_capacity out.new }
{
    if n < 1 << 56 {
        put_high(out, n / 128, count_high(n))?;
        out.push((n % 128) as u8)?;
    } else {
        put_high(out, n / 256, 8)?;
        out.push((n % 256) as u8)?;
    }
    Ok(())
}

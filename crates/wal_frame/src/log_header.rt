//! The header of a log.

ghost use Rattle.std.specs.Prelude.{◌≡◌, ◌+◌, ◌≤◌, ◌<◌, length, drop, Option, IfErr};
ghost use Rattle.wal_frame.specs.Log.{order_told, magic_told, sum_at, salts_at, header_in, header_front, header_sum, header_bytes, header_of_format, fields_in, is_summed};
ghost use Rattle.wal_frame.specs.Written.{HeaderFits};

use crate::sums::{Sum, WordOrder};
use byteorder::{BigEndian, ByteOrder};
use sqlval::{Fault, Feature, R};

const FORMAT: u32 = 3_007_000;

const BIG_MAGIC: u32 = 0x377f_0683;

const LITTLE_MAGIC: u32 = 0x377f_0682;

/// The two numbers that distinguish the frames of this log from older ones.
#[derive(Clone, Copy, Debug, PartialEq, Eq)]
pub struct Salts {
    pub first: u32,
    pub second: u32,
}

/// The header of a log of format 3007000.
#[derive(Clone, Copy, Debug, PartialEq, Eq)]
pub struct LogHeader {
    pub order: WordOrder,
    /// The page size, in bytes.
    pub page_size: u32,
    /// The checkpoint sequence number: how often the log was restarted.
    pub sequence: u32,
    pub salts: Salts,
}

fn order_of(magic: u32) -> Option<WordOrder>
    ensures { result ≡ order_told magic }
{
    match magic {
        BIG_MAGIC => Some(WordOrder::Big),
        LITTLE_MAGIC => Some(WordOrder::Little),
        _ => None,
    }
}

fn magic_of(order: WordOrder) -> u32
    ensures { result ≡ magic_told order }
{
    match order {
        WordOrder::Big => BIG_MAGIC,
        WordOrder::Little => LITTLE_MAGIC,
    }
}

/// The sums that stand in 8 bytes.
pub fn sum_in(bytes: &[u8]) -> Sum
    requires { 8 ≤ length bytes.now }
    ensures { result ≡ sum_at 0 bytes.now }
{
    Sum {
        first: BigEndian::read_u32(bytes),
        second: BigEndian::read_u32(&bytes[4..]),
    }
}

pub fn salts_in(bytes: &[u8]) -> Salts
    requires { 8 ≤ length bytes.now }
    ensures { result ≡ salts_at 0 bytes.now }
{
    Salts {
        first: BigEndian::read_u32(bytes),
        second: BigEndian::read_u32(&bytes[4..]),
    }
}

/// Whether the sums of the first 24 bytes stand after them.
fn has_sums(order: WordOrder, bytes: &[u8]) -> bool
    requires { 32 ≤ length bytes.now }
    ensures { result ≡ is_summed order bytes.now }
{
    Sum::ZERO.step(order, &bytes[..24]) == sum_in(&bytes[24..])
}

impl LogHeader {
    /// The bytes of the header.
    pub const LEN: u64 = 32;

    /// The header that a log begins with; None where it isn't valid: fewer than 32 bytes, another magic number, or wrong sums.
    /// (`Unsupported(LogFormat)` where it is valid and of another format.)
    pub fn read(bytes: &[u8]) -> R<Option<LogHeader>>
        ensures read { result ≡ header_in bytes.now }
        ensures refused { IfErr result (λ fault. fault ≡ Fault.Unsupported Feature.LogFormat) }
    {
        if bytes.len() < LogHeader::LEN as usize {
            return Ok(None);
        }
        let Some(order) = order_of(BigEndian::read_u32(bytes)) else {
            return Ok(None);
        };
        if has_sums(order, bytes) {
            LogHeader::of_format(order, bytes)
        } else {
            Ok(None)
        }
    }

    fn of_format(order: WordOrder, bytes: &[u8]) -> R<Option<LogHeader>>
        requires { 32 ≤ length bytes.now }
        ensures read { result ≡ header_of_format order bytes.now }
        ensures refused { IfErr result (λ fault. fault ≡ Fault.Unsupported Feature.LogFormat) }
    {
        if BigEndian::read_u32(&bytes[4..]) == FORMAT {
            Ok(Some(LogHeader::fields(order, bytes)))
        } else {
            Err(Fault::Unsupported(Feature::LogFormat))
        }
    }

    fn fields(order: WordOrder, bytes: &[u8]) -> LogHeader
        requires { 32 ≤ length bytes.now }
        ensures { result ≡ fields_in order bytes.now }
    {
        LogHeader {
            order,
            page_size: BigEndian::read_u32(&bytes[8..]),
            sequence: BigEndian::read_u32(&bytes[12..]),
            salts: salts_in(&bytes[16..]),
        }
    }

    fn front(self) -> [u8; 24]
        ensures bytes { result ≡ header_front self }
        ensures fits { HeaderFits self }
    {
        let [a, b, c, d] = magic_of(self.order).to_be_bytes();
        let [e, f, g, h] = FORMAT.to_be_bytes();
        let [i, j, k, l] = self.page_size.to_be_bytes();
        let [m, n, o, p] = self.sequence.to_be_bytes();
        let [q, r, s, t] = self.salts.first.to_be_bytes();
        let [u, v, w, x] = self.salts.second.to_be_bytes();
        [
            a, b, c, d, e, f, g, h, i, j, k, l, m, n, o, p, q, r, s, t, u, v, w, x,
        ]
    }

    /// The header's sums, from which those of its frames go on.
    pub fn sum(&self) -> Sum
        ensures { result ≡ header_sum self.now }
    {
        Sum::ZERO.step(self.order, &self.front())
    }

    /// The 32 bytes of the header.
    pub fn write(&self) -> [u8; 32]
        ensures bytes { result ≡ header_bytes self.now }
        ensures fits { HeaderFits self.now }
    {
        let sum = self.sum();
        let mut out = [0; 32];
        out[..24].copy_from_slice(&self.front());
        BigEndian::write_u32(&mut out[24..], sum.first);
        BigEndian::write_u32(&mut out[28..], sum.second);
        out
    }
}

//! The header of a frame.

ghost use Rattle.std.specs.Prelude.{◌≡◌, ◌++◌, ◌≤◌, length, IfOk, OnOk, take, drop, Option, if◌then◌else◌};
ghost use Rattle.wal_frame.specs.Written.{SaltsFit};
ghost use Rattle.wal_frame.specs.Log.{frame_front, frame_sum, frame_head, frame_bytes, frame_of, sum_over, is_frame};

use crate::log_header::{LogHeader, Salts, salts_in, sum_in};
use crate::sums::{Sum, WordOrder};
use byteorder::{BigEndian, ByteOrder};
use std::alloc::AllocError;

/// The header of a frame: its page and, after a commit, the database's size.
#[derive(Clone, Copy, Debug, PartialEq, Eq)]
pub struct FrameHeader {
    /// The page's number.
    pub page: u32,
    /// The database's size in pages after a commit that ends here; 0 in other frames.
    pub size: u32,
}

impl FrameHeader {
    /// The bytes of a frame's header.
    pub const LEN: usize = 24;

    fn front(&self) -> [u8; 8]
        ensures { result ≡ frame_front self.now }
    {
        let [a, b, c, d] = self.page.to_be_bytes();
        let [e, f, g, h] = self.size.to_be_bytes();
        [a, b, c, d, e, f, g, h]
    }

    /// The sums carried over a frame with these bytes of the page.
    pub fn sum(&self, order: WordOrder, before: Sum, page: &[u8]) -> Sum
        ensures { result ≡ frame_sum order before self.now page.now }
    {
        before.step(order, &self.front()).step(order, page)
    }

    fn head(&self, salts: Salts, sum: Sum) -> [u8; 24]
        ensures bytes { result ≡ frame_head salts sum self.now }
        ensures fits { SaltsFit salts }
    {
        let [a, b, c, d, e, f, g, h] = self.front();
        let [i, j, k, l] = salts.first.to_be_bytes();
        let [m, n, o, p] = salts.second.to_be_bytes();
        let [q, r, s, t] = sum.first.to_be_bytes();
        let [u, v, w, x] = sum.second.to_be_bytes();
        [
            a, b, c, d, e, f, g, h, i, j, k, l, m, n, o, p, q, r, s, t, u, v, w, x,
        ]
    }

    /// Puts a frame after these bytes, and answers the sums carried over it.
    pub fn put(
        &self,
        out: &mut Vec<u8>,
        log: &LogHeader,
        before: Sum,
        page: &[u8],
    ) -> Result<Sum, AllocError>
        ensures sum { IfOk result (λ sum. sum ≡ frame_sum log.now.order before self.now page.now) }
        ensures fits { SaltsFit log.now.salts }
        ensures bytes { IfOk result (λ sum. out.new.items
            ≡ out.old.items ++ frame_bytes log.now.salts sum self.now page.now) }
    {
        let sum = self.sum(log.order, before, page);
        out.extend_from_slice(&self.head(log.salts, sum))?;
        out.extend_from_slice(page)?;
        Ok(sum)
    }
}

/// What the first 8 bytes of a frame say.
pub fn read_frame(frame: &[u8]) -> FrameHeader
    requires { 8 ≤ length frame.now }
    ensures { result ≡ frame_of frame.now }
{
    FrameHeader {
        page: BigEndian::read_u32(frame),
        size: BigEndian::read_u32(&frame[4..]),
    }
}

/// The sums that are to stand in a frame.
pub fn sum_of(log: &LogHeader, before: Sum, frame: &[u8]) -> Sum
    requires { 24 ≤ length frame.now }
    ensures { result ≡ sum_over log.now before frame.now }
{
    before
        .step(log.order, &frame[..8])
        .step(log.order, &frame[24..])
}

/// Whether a frame has the header's salts and these sums.
pub fn stands(log: &LogHeader, sum: Sum, frame: &[u8]) -> bool
    requires { 24 ≤ length frame.now }
    ensures { result ≡ is_frame log.now sum frame.now }
{
    salts_in(&frame[8..]) == log.salts && sum_in(&frame[16..]) == sum
}

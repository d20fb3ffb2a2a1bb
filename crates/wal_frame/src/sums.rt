//! The sums that a log is checked by.

ghost use Rattle.std.specs.Prelude.{◌≡◌, List};

/// The order of the bytes in a word that is summed.
#[derive(Clone, Copy, Debug, PartialEq, Eq)]
pub enum WordOrder {
    /// The highest byte first.
    Big,
    /// The lowest byte first.
    Little,
}

impl WordOrder {
    ghost use Rattle.wal_frame.specs.Sums.{word_of};

    fn word(self, bytes: [u8; 4]) -> u32
        ensures { result ≡ word_of self bytes }
    {
        match self {
            WordOrder::Big => u32::from_be_bytes(bytes),
            WordOrder::Little => u32::from_le_bytes(bytes),
        }
    }
}

/// The two sums over a list of words, each modulo 2^32.
#[derive(Clone, Copy, Debug, PartialEq, Eq)]
pub struct Sum {
    pub first: u32,
    pub second: u32,
}

impl Sum {
    ghost use Rattle.wal_frame.specs.Sums.{words, carried, next};

    /// The sums of no word.
    pub const ZERO: Sum = Sum {
        first: 0,
        second: 0,
    };

    /// Two words more.
    fn pair(self, one: u32, other: u32) -> Sum
        ensures { result ≡ next self one other }
    {
        let first = self.first.wrapping_add(one.wrapping_add(self.second));
        let second = self.second.wrapping_add(other.wrapping_add(first));
        Sum { first, second }
    }

    /// The sums carried over these bytes, 8 at a time; fewer at the end count as none.
    pub fn step(self, order: WordOrder, bytes: &[u8]) -> Sum
        ensures { result ≡ carried self (words order bytes.now) }
    {
        let mut sum = self;
        let mut rest = bytes;
        'pairs: while let Some((one, after)) = rest.split_first_chunk::<4>() {
            let Some((other, more)) = after.split_first_chunk::<4>() else {
                return sum;
            };
            sum = sum.pair(order.word(*one), order.word(*other));
            rest = more;
        }
        sum
    }
}

//! Logs: their sums, and their header.

use std::test::*;
use wal_frame::{LogHeader, Salts, Sum, WordOrder};

/// The salts of each new log.
const SALTS: Salts = Salts {
    first: 1,
    second: 2,
};

const FIRST_HEADER: [u8; 32] = [
    0x37, 0x7F, 0x06, 0x83, 0x00, 0x2D, 0xE2, 0x18, 0x00, 0x00, 0x02, 0x00, 0x00, 0x00, 0x00, 0x00,
    0x00, 0x00, 0x00, 0x01, 0x00, 0x00, 0x00, 0x02, 0x16, 0x04, 0xCA, 0xD8, 0xBC, 0xDD, 0xA4, 0x93,
];

fn first_header() -> LogHeader {
    LogHeader {
        order: WordOrder::Big,
        page_size: 512,
        sequence: 0,
        salts: SALTS,
    }
}

#[test]
fn sums_of_counted_words(rt: HostRuntime) -> Result<(), Fail> {
    let words = [0, 0, 0, 1, 0, 0, 0, 2, 0, 0, 0, 3, 0, 0, 0, 4];
    assert_eq!(rt;
        Sum::ZERO.step(WordOrder::Big, &words[..8]),
        Sum {
            first: 1,
            second: 3
        }
    );
    assert_eq!(rt;
        Sum::ZERO.step(WordOrder::Big, &words),
        Sum {
            first: 7,
            second: 14
        }
    );
    Ok(())
}

#[test]
fn sums_of_the_first_header(rt: HostRuntime) -> Result<(), Fail> {
    let one = Sum::ZERO.step(WordOrder::Big, &FIRST_HEADER[..8]);
    assert_eq!(rt;
        one,
        Sum {
            first: 0x377F_0683,
            second: 0x37AC_E89B
        }
    );
    let two = one.step(WordOrder::Big, &FIRST_HEADER[8..16]);
    assert_eq!(rt;
        two,
        Sum {
            first: 0x6F2B_F11E,
            second: 0xA6D8_D9B9
        }
    );
    let three = two.step(WordOrder::Big, &FIRST_HEADER[16..24]);
    assert_eq!(rt;
        three,
        Sum {
            first: 0x1604_CAD8,
            second: 0xBCDD_A493
        }
    );
    Ok(())
}

#[test]
fn the_first_header_is_written_and_read(rt: HostRuntime) -> Result<(), Fail> {
    assert_eq!(rt; first_header().write(), FIRST_HEADER);
    assert_eq!(rt;
        first_header().sum(),
        Sum {
            first: 0x1604_CAD8,
            second: 0xBCDD_A493
        }
    );
    assert_eq!(rt; LogHeader::read(&FIRST_HEADER)?, Some(first_header()));
    assert_eq!(rt; LogHeader::read(&FIRST_HEADER[..31])?, None);
    Ok(())
}

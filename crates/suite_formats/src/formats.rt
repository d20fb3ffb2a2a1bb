//! The bytes of records, of the database file's header and of a table's page.

use db_header::Header;
use record::{Record, encode, get_varint, is_storable, put_varint, varint_len};
use sqlval::{Damage, Fault, Feature, Field, Text, Value, is_page_size};
use std::test::*;
use tree_leaf::{Cell, build};

#[test]
fn varints_are_as_short_as_can_be(rt: HostRuntime) -> Result<(), Fail> {
    let mut out = Vec::new(rt.alloc());
    put_varint(&mut out, 0)?;
    put_varint(&mut out, 127)?;
    put_varint(&mut out, 128)?;
    put_varint(&mut out, 300)?;
    put_varint(&mut out, 16383)?;
    assert_eq!(rt;
        out.as_slice(),
        b"\x00\x7f\x81\x00\x82\x2c\xff\x7f".as_slice()
    );
    assert_eq!(rt; varint_len(300), 2);
    Ok(())
}

#[test]
fn varints_of_nine_bytes(rt: HostRuntime) -> Result<(), Fail> {
    let mut wide = Vec::new(rt.alloc());
    put_varint(&mut wide, 72057594037927936)?;
    put_varint(&mut wide, u64::MAX)?;
    assert_eq!(rt;
        wide.as_slice(),
        b"\x80\xc0\x80\x80\x80\x80\x80\x80\x00\xff\xff\xff\xff\xff\xff\xff\xff\xff".as_slice()
    );
    assert!(rt; matches!(get_varint(&wide), Some((72057594037927936, _))));
    Ok(())
}

#[test]
fn a_row_and_its_record(rt: HostRuntime) -> Result<(), Fail> {
    let mut row = Vec::new(rt.alloc());
    row.push(Value::Null)?;
    row.push(Value::Int(1))?;
    row.push(Value::Text(Text::from_str(rt.alloc(), "a")?))?;
    row.push(Value::Int(300))?;
    assert!(rt; is_storable(&row));
    let bytes = encode(rt.alloc(), &row)?;
    assert_eq!(rt;
        bytes.as_slice(),
        b"\x05\x00\x09\x0f\x02\x61\x01\x2c".as_slice()
    );
    let back = Record::over(rt.alloc(), &bytes)?;
    assert_eq!(rt; back.len(), 4);
    assert!(rt; matches!(back.column(3), Field::Int(300)));
    Ok(())
}

#[test]
fn integers_of_one_byte_and_two(rt: HostRuntime) -> Result<(), Fail> {
    let mut row = Vec::new(rt.alloc());
    row.push(Value::Int(-128))?;
    row.push(Value::Int(128))?;
    row.push(Value::Int(0))?;
    let bytes = encode(rt.alloc(), &row)?;
    assert_eq!(rt;
        bytes.as_slice(),
        b"\x04\x01\x02\x08\x80\x00\x80".as_slice()
    );
    Ok(())
}

#[test]
fn records_with_a_float_or_cut_short_are_refused(rt: HostRuntime) {
    let float = b"\x02\x07\x00\x00\x00\x00\x00\x00\x00\x00";
    assert!(rt;
        matches!(
            Record::over(rt.alloc(), float.as_slice()),
            Err(Fault::Unsupported(Feature::Float))
        )
    );
    let cut = b"\x02\x01";
    assert!(rt;
        matches!(
            Record::over(rt.alloc(), cut.as_slice()),
            Err(Fault::Damaged(Damage::Record, 0))
        )
    );
}

#[test]
fn the_header_of_the_empty_database(rt: HostRuntime) -> Result<(), Fail> {
    assert!(rt; is_page_size(512));
    assert!(rt; !is_page_size(513));
    let header = Header::empty(512);
    let bytes = db_header::write(&header);
    assert_eq!(rt;
        &bytes[16..32],
        b"\x02\x00\x02\x02\x00\x40\x20\x20\x00\x00\x00\x01\x00\x00\x00\x01".as_slice()
    );
    assert_eq!(rt; db_header::read(&bytes)?, header);
    assert_eq!(rt; header.counted_size(), Some(1));
    Ok(())
}

#[test]
fn headers_are_refused_for_the_first_fault(rt: HostRuntime) {
    let mut bytes = db_header::write(&Header::empty(512));
    assert!(rt;
        matches!(
            db_header::read(b"SQLite format 3\0".as_slice()),
            Err(Fault::NotADatabase)
        )
    );
    bytes[72] = 1;
    assert!(rt;
        matches!(
            db_header::read(&bytes),
            Err(Fault::Damaged(Damage::Header, 1))
        )
    );
    bytes[18] = 1;
    assert!(rt;
        matches!(
            db_header::read(&bytes),
            Err(Fault::Unsupported(Feature::FileVersion))
        )
    );
    bytes[0] = 0;
    assert!(rt; matches!(db_header::read(&bytes), Err(Fault::NotADatabase)));
}

#[test]
fn a_long_row_is_refused(rt: HostRuntime) -> Result<(), Fail> {
    let payload = vec![in rt.alloc(); 5; 512]?;
    let cell = Cell {
        rowid: 1,
        payload: &payload,
    };
    assert!(rt; matches!(build(rt.alloc(), &[], 512, &[cell]), Err(Fault::TooLong)));
    Ok(())
}

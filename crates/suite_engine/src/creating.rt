//! A file in which no database is made.

use crate::databases::file;
use disk::Disk;
use engine::create;
use sqlval::Fault;
use std::test::*;

#[test]
fn a_file_that_is_not_blank_is_no_new_database(rt: HostRuntime) -> Result<(), Fail> {
    let alloc = rt.alloc();
    let mut full = file(alloc, &vec![in alloc; 1; 40]?)?;
    let mut log = file(alloc, b"")?;
    assert!(rt;
        matches!(
            create(alloc, &mut full, &mut log, 512),
            Err(Fault::Misuse(_))
        )
    );
    assert_eq!(rt; full.len()?, 40);
    Ok(())
}

//! Files in memory: what a crash leaves of them, and calls that fail.

use crate::files::{file, filled};
use disk::{Disk, MemDisk};
use std::test::*;

#[test]
fn a_crash_leaves_each_sector_of_one_version(rt: HostRuntime) -> Result<(), Fail> {
    let alloc = rt.alloc();
    let mut disk = file(alloc, &filled(alloc, 0, 512)?, None)?;
    disk.write_at(0, &filled(alloc, 1, 1024)?)?;
    let mut grown = filled(alloc, 0, 512)?;
    grown.extend_from_slice(&filled(alloc, 1, 512)?)?;
    assert_eq!(rt; disk.crash(alloc, &[1, 0, 1])?.as_slice(), grown.as_slice());
    let mut first = filled(alloc, 1, 512)?;
    first.extend_from_slice(&filled(alloc, 0, 512)?)?;
    assert_eq!(rt; disk.crash(alloc, &[1, 1, 0])?.as_slice(), first.as_slice());
    let blank = filled(alloc, 0, 1024)?;
    assert_eq!(rt; disk.crash(alloc, &[1])?.as_slice(), blank.as_slice());
    Ok(())
}

#[test]
fn a_cut_lands_whole(rt: HostRuntime) -> Result<(), Fail> {
    let alloc = rt.alloc();
    let old = filled(alloc, 1, 1024)?;
    let mut disk = file(alloc, &old, None)?;
    disk.cut(0)?;
    disk.write_at(0, &filled(alloc, 2, 512)?)?;
    assert_eq!(rt; disk.crash(alloc, &[0, 2, 2])?.as_slice(), old.as_slice());
    assert_eq!(rt; disk.content(), filled(alloc, 2, 512)?.as_slice());
    Ok(())
}

#[test]
fn calls_fail_as_told(rt: HostRuntime) -> Result<(), Fail> {
    let alloc = rt.alloc();
    let mut disk = MemDisk::new(alloc, filled(alloc, 7, 600)?, Some(2), None)?;
    assert_eq!(rt; disk.len()?, 600);
    assert_eq!(rt; disk.sync().is_err(), true);
    assert_eq!(rt; disk.lacks_memory(), false);
    disk.write_at(600, &[8])?;
    disk.sync()?;
    let len = disk.len()?;
    assert_eq!(rt; len, 601);
    let mut last = [0; 2];
    disk.read_at(599, &mut last)?;
    assert_eq!(rt; last, [7, 8]);
    assert_eq!(rt; disk.crash(alloc, &[])?.len(), 601);
    Ok(())
}

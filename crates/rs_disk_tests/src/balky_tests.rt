//! A disk over a file of which the system moves few bytes at a time and fails one call, and how many calls of the
//! system a page takes.

use crate::balky::BalkyFile;
use crate::disk_steps::{Step, Taken, expect_all, take_all};
use crate::expect::expect;
use crate::fresh_path::fresh_path;
use rs_disk::{Disk, FileDisk};
use rs_page::PAGE_SIZE;
use std::cell::Cell;
use std::fs::File;
use std::test::Fail;
use std::{fs, io};

/// Calls that may be made again after a fault: the bytes are read as written.
static CALLS: [Step; 5] = [
    Step::Write(4_090, b"abcdefghijkl"),
    Step::Sync,
    Step::Write(4_092, b"CDE"),
    Step::Cut(1),
    Step::Read(4_089, b"\0abCDEf\0\0\0"),
];

/// How many bytes a call of the system moves at the most, and how one call fails.
static WAYS: [(usize, io::ErrorKind); 4] = [
    (1, io::ErrorKind::Other),
    (5, io::ErrorKind::Other),
    (5, io::ErrorKind::Interrupted),
    (100, io::ErrorKind::Interrupted),
];

fn calls() -> &'static [Step] {
    &CALLS
}

fn ways() -> &'static [(usize, io::ErrorKind)] {
    &WAYS
}

/// Makes the calls on a fresh file, once more where one has failed; answers whether one has.
fn fails_once(file: BalkyFile<'_>) -> Result<bool, Fail> {
    let mut disk = FileDisk::over(file);
    let mut taken = take_all(&mut disk, calls());
    let is_fault = matches!(taken, Taken::Fault(_));
    if is_fault {
        taken = take_all(&mut disk, calls());
    }
    expect_all(taken)?;
    let is_counted = disk.failures() == u64::from(is_fault);
    expect(is_counted, "each failure is counted")?;
    Ok(is_fault)
}

/// Whether a call of a disk over a fresh file fails, where a call of the system does.
fn fails_with(
    rt: &HostRuntime,
    path: &str,
    (most, error): (usize, io::ErrorKind),
    failing_call: u64,
) -> Result<bool, Fail> {
    let file = File::create_new(rt, path)?;
    let calls = Cell::new(0);
    let is_fault = fails_once(BalkyFile::new(file, most, failing_call, error, &calls))?;
    fs::remove_file(rt, path)?;
    Ok(is_fault)
}

/// Of how many calls of the system the failure is one of the disk, of the first 39 and none.
fn faults(rt: &HostRuntime, path: &str, way: (usize, io::ErrorKind)) -> Result<u64, Fail> {
    let mut faults = 0u64;
    for failing_call in 0..40 {
        let is_fault = fails_with(rt, path, way, failing_call)?;
        faults = faults.saturating_add(u64::from(is_fault));
    }
    Ok(faults)
}

#[test]
fn the_system_moves_few_bytes_and_fails_once(rt: HostRuntime) -> Result<(), Fail> {
    let path = fresh_path(&rt, "balky")?;
    for way in ways() {
        let count = faults(&rt, path.as_str(), *way)?;
        expect(count > 3 && count < 39, "some calls fail and some don't")?;
    }
    Ok(())
}

#[test]
fn a_page_is_read_by_one_call_of_the_system(rt: HostRuntime) -> Result<(), Fail> {
    let path = fresh_path(&rt, "one_call")?;
    let file = File::create_new(&rt, path.as_str())?;
    let calls = Cell::new(0);
    let mut disk = FileDisk::over(BalkyFile::new(file, PAGE_SIZE, 0, io::ErrorKind::Other, &calls));
    let written = vec![in rt.alloc(); 7u8; 2 * PAGE_SIZE]?;
    disk.write(0, written.as_slice())?;
    calls.set(0);
    let mut page = vec![in rt.alloc(); 0xee_u8; PAGE_SIZE]?;
    disk.read(PAGE_SIZE as u64, page.as_mut_slice())?;
    expect(calls.get() == 1, "one call of the system")?;
    expect(
        page.as_slice() == &written[PAGE_SIZE..],
        "the page is read as written",
    )?;
    drop(disk);
    fs::remove_file(&rt, path.as_str())?;
    Ok(())
}

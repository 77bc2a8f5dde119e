//! What a call of a disk leaves where it is said to fail.

use crate::expect::expect;
use rs_disk::{Disk, DiskFault, FailedCut, FailingDisk, MemoryDisk};
use rs_page::PAGE_SIZE;
use std::alloc::Global;
use std::test::Fail;

/// A disk of two pages of the letter `a`, of which the first call fails.
fn two_pages(alloc: Global, failed_cut: FailedCut) -> Result<FailingDisk<MemoryDisk>, Fail> {
    let mut disk = MemoryDisk::new(alloc);
    let pages = vec![in alloc; b'a'; 2 * PAGE_SIZE]?;
    disk.write(0, pages.as_slice())?;
    Ok(FailingDisk::new(disk, 1, failed_cut))
}

/// How many pages a cut to one leaves where it fails.
fn pages_after_a_failed_cut(alloc: Global, failed_cut: FailedCut) -> Result<u32, Fail> {
    let mut disk = two_pages(alloc, failed_cut)?;
    expect(disk.cut(1).is_err(), "the cut fails")?;
    Ok(disk.pages())
}

#[test]
fn a_failed_cut_is_done_or_not_as_was_said(rt: HostRuntime) -> Result<(), Fail> {
    let alloc = rt.alloc();
    let done = pages_after_a_failed_cut(alloc, FailedCut::Done)?;
    let not_done = pages_after_a_failed_cut(alloc, FailedCut::NotDone)?;
    expect(done == 1 && not_done == 2, "one page is left, or two")
}

/// The first six bytes of a disk.
fn start(disk: &mut FailingDisk<MemoryDisk>) -> Result<[u8; 6], DiskFault> {
    let mut start = [0; 6];
    disk.read(0, &mut start)?;
    Ok(start)
}

#[test]
fn a_failed_write_leaves_half_its_range(rt: HostRuntime) -> Result<(), Fail> {
    let alloc = rt.alloc();
    let mut disk = two_pages(alloc, FailedCut::Done)?;
    expect(disk.write(1, b"wxyz").is_err(), "the write fails")?;
    expect(start(&mut disk)? == *b"awxaaa", "half the range is written")
}

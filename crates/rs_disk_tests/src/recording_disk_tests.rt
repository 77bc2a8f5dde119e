//! What a recording disk gives as left by a crash, and what it does where a call fails.

use crate::disk_steps::{Step, expect_all, take_all};
use crate::expect::expect;
use rs_disk::{Disk, FailedCut};
use rs_page::PAGE_SIZE;
use rs_recording_disk::{RecordingDisk, Unsynced};
use std::alloc::Global;
use std::test::Fail;

/// A disk of two pages of the letter `a`, of which the call with this number fails.
fn two_pages(
    alloc: Global,
    failing_call: u64,
    failed_cut: FailedCut,
) -> Result<RecordingDisk, Fail> {
    let pages = vec![in alloc; b'a'; 2 * PAGE_SIZE]?;
    Ok(RecordingDisk::new(alloc, pages, failing_call, failed_cut)?)
}

/// Whether a crash after so many calls leaves a disk of this size that begins with these bytes.
fn leaves(
    alloc: Global,
    disk: &RecordingDisk,
    moment: usize,
    unsynced: Unsynced,
    size: usize,
    start: &[u8],
) -> Result<bool, Fail> {
    if disk.calls().len() < moment {
        return Ok(false);
    }
    let image = disk.image(alloc, moment, unsynced)?;
    Ok(image.len() == size && image.as_slice().starts_with(start))
}

/// A sync, a write over the start, one past the end, a cut to one page, a sync.
const CALLS: [Step; 5] = [
    Step::Sync,
    Step::Write(0, b"wxyz"),
    Step::Write(8192, b"end"),
    Step::Cut(1),
    Step::Sync,
];

#[test]
fn what_is_not_synced_is_kept_lost_or_filled(rt: HostRuntime) -> Result<(), Fail> {
    let alloc = rt.alloc();
    let mut disk = two_pages(alloc, 0, FailedCut::Done)?;
    expect_all(take_all(&mut disk, &CALLS))?;
    let filled = [165, 165, 165, 165, b'a'];
    let kept = leaves(alloc, &disk, 3, Unsynced::Kept, 8195, b"wxyza")?;
    let lost = leaves(alloc, &disk, 3, Unsynced::Lost, 8192, b"aaaaa")?;
    let filled = leaves(alloc, &disk, 3, Unsynced::Filled, 8195, &filled)?;
    expect(kept && lost && filled, "before the cut")?;
    let kept = leaves(alloc, &disk, 4, Unsynced::Kept, 4096, b"wxyza")?;
    let lost = leaves(alloc, &disk, 4, Unsynced::Lost, 8192, b"aaaaa")?;
    expect(kept && lost, "before the sync")?;
    for unsynced in [Unsynced::Kept, Unsynced::Lost, Unsynced::Filled] {
        let left = leaves(alloc, &disk, 5, unsynced, 4096, b"wxyza")?;
        expect(left, "after the sync")?;
    }
    Ok(())
}

#[test]
fn a_sync_that_fails_leaves_what_was_left_before(rt: HostRuntime) -> Result<(), Fail> {
    let alloc = rt.alloc();
    let mut disk = two_pages(alloc, 2, FailedCut::Done)?;
    disk.write(0, b"wxyz")?;
    expect(disk.sync().is_err(), "the sync fails")?;
    let kept = leaves(alloc, &disk, 2, Unsynced::Kept, 8192, b"wxyza")?;
    let lost = leaves(alloc, &disk, 2, Unsynced::Lost, 8192, b"aaaaa")?;
    expect(kept && lost && disk.failures() == 1, "as before the sync")
}

/// How many pages a cut to one leaves where it fails.
fn pages_after_a_failed_cut(alloc: Global, failed_cut: FailedCut) -> Result<u32, Fail> {
    let mut disk = two_pages(alloc, 1, failed_cut)?;
    expect(disk.cut(1).is_err(), "the cut fails")?;
    Ok(disk.pages())
}

#[test]
fn a_change_that_fails_is_done_in_part(rt: HostRuntime) -> Result<(), Fail> {
    let alloc = rt.alloc();
    let mut disk = two_pages(alloc, 1, FailedCut::Done)?;
    expect(disk.write(0, b"wxyz").is_err(), "the write fails")?;
    let filled = [165, 165, 165, 165, b'a'];
    let kept = leaves(alloc, &disk, 1, Unsynced::Kept, 8192, b"wxaaa")?;
    let filled = leaves(alloc, &disk, 1, Unsynced::Filled, 8192, &filled)?;
    expect(kept && filled, "half of it is written")?;
    let done = pages_after_a_failed_cut(alloc, FailedCut::Done)?;
    let not_done = pages_after_a_failed_cut(alloc, FailedCut::NotDone)?;
    expect(done == 1 && not_done == 2, "one page is left, or two")
}

#[test]
fn reads_are_recorded_too(rt: HostRuntime) -> Result<(), Fail> {
    let alloc = rt.alloc();
    let mut disk = two_pages(alloc, 2, FailedCut::Done)?;
    let mut start = [0; 2];
    disk.read(0, &mut start)?;
    expect(start == *b"aa", "what was there first")?;
    expect(disk.read(0, &mut start).is_err(), "the second read fails")?;
    expect(disk.calls().len() == 2, "two calls")
}

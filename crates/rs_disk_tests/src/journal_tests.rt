//! Checkpoints on a recording disk, stopped after their calls, and recovered.

use crate::crash_images::{Found, expect_either, pages_found};
use crate::expect::expect;
use crate::forgetful::ForgetfulDisk;
use crate::lettered_files::{
    LATER, MANY, NEW, NONE, ONE, Plan, THREE, checkpoint, file_after, file_before, kept_disk,
};
use rs_disk::FailedCut;
use rs_journal::Stage;
use rs_recording_disk::RecordingDisk;
use std::alloc::Global;
use std::test::Fail;

/// Takes a checkpoint, looks at what a crash leaves of it, and expects so many calls.
fn expect_crash_safe(alloc: Global, plan: Plan, calls: usize) -> Result<(), Fail> {
    let mut disk = kept_disk(alloc, plan, 0, FailedCut::Done)?;
    let mut stage = Stage::Fresh;
    expect(
        checkpoint(&mut disk, &mut stage, plan, NEW),
        "the checkpoint ends",
    )?;
    expect(disk.calls().len() == calls, "so many calls")?;
    let before = file_before(alloc, plan)?;
    let after = file_after(alloc, plan, NEW)?;
    expect_either(alloc, &disk, 0, &before, &after)?;
    Ok(())
}

#[test]
fn a_crash_in_a_checkpoint_leaves_either_pages(rt: HostRuntime) -> Result<(), Fail> {
    let alloc = rt.alloc();
    expect_crash_safe(alloc, ONE, 12)?;
    expect_crash_safe(alloc, THREE, 16)?;
    expect_crash_safe(alloc, MANY, 2_211)
}

#[test]
fn a_checkpoint_of_no_page_changes_none(rt: HostRuntime) -> Result<(), Fail> {
    let alloc = rt.alloc();
    let mut disk = kept_disk(alloc, NONE, 0, FailedCut::Done)?;
    let mut stage = Stage::Fresh;
    let ends = checkpoint(&mut disk, &mut stage, NONE, NEW);
    expect(ends, "the checkpoint ends")?;
    let pages = file_before(alloc, NONE)?;
    expect_either(alloc, &disk, 0, &pages, &pages)?;
    Ok(())
}

/// A checkpoint of which the call with this number fails, taken up again. Answers the disk, and the calls up to the fault.
fn resumed(
    alloc: Global,
    plan: Plan,
    failing_call: u64,
    failed_cut: FailedCut,
) -> Result<(RecordingDisk, usize), Fail> {
    let mut disk = kept_disk(alloc, plan, failing_call, failed_cut)?;
    let mut stage = Stage::Fresh;
    let ends = checkpoint(&mut disk, &mut stage, plan, NEW);
    expect(!ends, "a call fails")?;
    let calls = disk.calls().len();
    let ends = checkpoint(&mut disk, &mut stage, plan, NEW);
    expect(ends && stage == Stage::Fresh, "the next one ends it")?;
    Ok((disk, calls))
}

/// A crash during a checkpoint that is resumed leaves either pages, and one during a later checkpoint, that begins afresh.
fn expect_resumed(
    alloc: Global,
    plan: Plan,
    failing_call: u64,
    failed_cut: FailedCut,
) -> Result<(), Fail> {
    let (mut disk, _calls) = resumed(alloc, plan, failing_call, failed_cut)?;
    let before = file_before(alloc, plan)?;
    let after = file_after(alloc, plan, NEW)?;
    expect_either(alloc, &disk, 0, &before, &after)?;
    let calls = disk.calls().len();
    let mut stage = Stage::Fresh;
    let ends = checkpoint(&mut disk, &mut stage, plan, LATER);
    expect(ends, "a later one ends")?;
    let later = file_after(alloc, plan, LATER)?;
    expect_either(alloc, &disk, calls, &after, &later)?;
    Ok(())
}

#[test]
fn a_checkpoint_is_resumed_after_each_fault(rt: HostRuntime) -> Result<(), Fail> {
    let alloc = rt.alloc();
    for failing_call in 1..=12 {
        expect_resumed(alloc, ONE, failing_call, FailedCut::Done)?;
    }
    for failing_call in 1..=16 {
        expect_resumed(alloc, THREE, failing_call, FailedCut::Done)?;
        expect_resumed(alloc, THREE, failing_call, FailedCut::NotDone)?;
    }
    Ok(())
}

/// The sync of the large checkpoint's open gate.
const FAILING_CALLS: [u64; 1] = [1_106];

#[test]
fn a_large_checkpoint_is_resumed(rt: HostRuntime) -> Result<(), Fail> {
    let alloc = rt.alloc();
    let before = file_before(alloc, MANY)?;
    let after = file_after(alloc, MANY, NEW)?;
    for failing_call in FAILING_CALLS {
        let (disk, calls) = resumed(alloc, MANY, failing_call, FailedCut::Done)?;
        expect_either(alloc, &disk, calls, &before, &after)?;
    }
    Ok(())
}

/// Takes a checkpoint of which the sync with this number fails on a disk that forgets what was to be written, and takes it up
/// again. Whenever power fails, the medium has the pages before or after; at the end it has those after.
fn expect_written_again(alloc: Global, plan: Plan, failing_sync: u64) -> Result<(), Fail> {
    let before = file_before(alloc, plan)?;
    let after = file_after(alloc, plan, NEW)?;
    let mut disk = ForgetfulDisk::new(alloc, before.clone()?, failing_sync)?;
    let mut stage = Stage::Fresh;
    let ends = checkpoint(&mut disk, &mut stage, plan, NEW);
    expect(!ends, "a sync fails")?;
    let found = pages_found(disk.medium().clone()?, &before, &after);
    expect(found != Found::Neither, "before or after")?;
    let ends = checkpoint(&mut disk, &mut stage, plan, NEW);
    expect(ends, "the next one ends")?;
    let found = pages_found(disk.medium().clone()?, &before, &after);
    expect(found == Found::After, "it is on the medium")
}

#[test]
fn a_stage_that_is_resumed_writes_again_what_was_forgotten(rt: HostRuntime) -> Result<(), Fail> {
    let alloc = rt.alloc();
    for failing_sync in 1..=4 {
        expect_written_again(alloc, ONE, failing_sync)?;
        expect_written_again(alloc, THREE, failing_sync)?;
    }
    Ok(())
}

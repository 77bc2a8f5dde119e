//! Recovery that is stopped or fails itself, and journals that are not well formed.

use crate::crash_images::{Found, expect_either, image_after, pages_found};
use crate::expect::expect;
use crate::lettered_files::{
    MANY, NEW, ONE, Plan, THREE, checkpoint, file_after, file_before, kept_disk,
};
use rs_disk::{Disk, FailedCut, MemoryDisk};
use rs_journal::{Stage, recover};
use rs_page::PAGE_SIZE;
use rs_page::bytes::number_of_four;
use rs_recording_disk::{RecordingDisk, Unsynced};
use rs_refusal::Refusal;
use std::alloc::Global;
use std::test::Fail;

/// The disk that a crash leaves right after the gate was opened and synced.
pub fn opened(alloc: Global, plan: Plan) -> Result<Vec<u8>, Fail> {
    let mut disk = kept_disk(alloc, plan, 0, FailedCut::Done)?;
    let mut stage = Stage::Fresh;
    let ends = checkpoint(&mut disk, &mut stage, plan, NEW);
    expect(ends, "the checkpoint ends")?;
    let number_pages = u64::from(plan.copies).div_ceil(1_024);
    let calls = number_pages + u64::from(plan.copies) + 4;
    image_after(alloc, &disk, calls as usize, Unsynced::Lost)
}

/// Recovers with one call that fails, and again; stops both after each of their calls. Answers whether a call failed.
fn expect_recovered(alloc: Global, plan: Plan, failing_call: u64) -> Result<bool, Fail> {
    let image = opened(alloc, plan)?;
    let after = file_after(alloc, plan, NEW)?;
    let mut disk = RecordingDisk::new(alloc, image, failing_call, FailedCut::Done)?;
    let is_refused = recover(&mut disk) == Err(Refusal::Disk);
    if is_refused {
        expect(recover(&mut disk).is_ok(), "the next one succeeds")?;
    }
    expect_either(alloc, &disk, 0, &after, &after)?;
    expect(is_refused == (disk.failures() == 1), "a call failed")?;
    Ok(is_refused)
}

/// How many calls of recovery fail it, up to the first that is not there.
fn failing_calls(alloc: Global, plan: Plan) -> Result<u64, Fail> {
    let mut failed = 0u64;
    for failing_call in 1..100 {
        if !expect_recovered(alloc, plan, failing_call)? {
            return Ok(failed);
        }
        failed = failed.saturating_add(1);
    }
    Ok(failed)
}

#[test]
fn recovery_is_stopped_after_each_of_its_calls(rt: HostRuntime) -> Result<(), Fail> {
    let alloc = rt.alloc();
    expect(failing_calls(alloc, ONE)? == 14, "14 calls for a page")?;
    expect(failing_calls(alloc, THREE)? == 22, "22 calls for three")?;
    expect(!expect_recovered(alloc, MANY, 0)?, "none fails")
}

/// Whether the numbers of a journal in a file ascend, and are below its first page.
fn is_well_formed(file: &[u8], plan: Plan) -> bool {
    let mut least = 0;
    for place in 0..plan.copies as usize {
        let at = PAGE_SIZE * plan.pages as usize + 4 * place;
        if file.len() < at + 4 {
            return false;
        }
        let number = u64::from(number_of_four(file, at));
        if number < least || number >= u64::from(plan.pages) {
            return false;
        }
        least = number + 1;
    }
    true
}

/// Whether recovery refuses a disk by 94 where the journal's numbers aren't well formed, and else succeeds.
fn is_judged(disk: &mut MemoryDisk, plan: Plan) -> bool {
    let wanted = is_well_formed(disk.bytes(), plan);
    match recover(disk) {
        Ok(()) => wanted,
        Err(refusal) => !wanted && refusal == Refusal::DamagedFile,
    }
}

/// Changes one byte of a file at a time, of the numbers at these places of its journal, by each of these masks.
fn expect_judged(alloc: Global, plan: Plan, places: &[usize], masks: &[u8]) -> Result<(), Fail> {
    let file = opened(alloc, plan)?;
    let mut disk = MemoryDisk::from_bytes(file.clone()?);
    for place in places {
        for mask in masks {
            let number = (PAGE_SIZE * plan.pages as usize).saturating_add(place.saturating_mul(4));
            expect_number_judged(&mut disk, plan, &file, number, *mask)?;
        }
    }
    expect(disk.bytes() == file.as_slice(), "a refusal changes nothing")
}

/// Changes each byte of the number at an offset, and recovers. The disk is as before afterwards.
fn expect_number_judged(
    disk: &mut MemoryDisk,
    plan: Plan,
    file: &Vec<u8>,
    number: usize,
    mask: u8,
) -> Result<(), Fail> {
    for place in number..number.saturating_add(4) {
        let byte = *file.get(place).ok_or("the file has the journal")?;
        disk.write(place as u64, &[byte ^ mask])?;
        expect(is_judged(disk, plan), "judged by its numbers")?;
        if disk.bytes().get(64) == Some(&1) {
            disk.write(place as u64, &[byte])?;
        } else {
            *disk = MemoryDisk::from_bytes(file.clone()?);
        }
    }
    Ok(())
}

#[test]
fn each_byte_of_a_journals_numbers_is_looked_at(rt: HostRuntime) -> Result<(), Fail> {
    let alloc = rt.alloc();
    let mut masks = Vec::new(alloc);
    for mask in 1..=u8::MAX {
        masks.push(mask)?;
    }
    expect_judged(alloc, THREE, &[0, 1, 2], &masks)?;
    expect_judged(alloc, MANY, &[0, 1, 512, 1_023, 1_024, 1_099], &[1, 2, 128])
}

/// What recovery answers on a file of which the byte at a place is another, cut to a size.
fn answered(
    alloc: Global,
    file: &[u8],
    size: usize,
    (place, byte): (usize, u8),
) -> Result<Result<(), Refusal>, Fail> {
    let mut file = file.to_vec(alloc)?;
    if let Some(at) = file.get_mut(place) {
        *at = byte;
    }
    file.truncate(size);
    Ok(recover(&mut MemoryDisk::from_bytes(file)))
}

#[test]
fn a_journal_that_is_not_in_the_file_is_refused(rt: HostRuntime) -> Result<(), Fail> {
    let alloc = rt.alloc();
    let file = opened(alloc, THREE)?;
    let size = file.len();
    let damaged = Err(Refusal::DamagedFile);
    let as_it_is = (75, 3);
    let one_copy_more = (75, 4);
    let one_page_later = (71, 5);
    expect(
        answered(alloc, &file, size, as_it_is)? == Ok(()),
        "as written",
    )?;
    expect(
        answered(alloc, &file, size.saturating_sub(1), as_it_is)? == damaged,
        "cut",
    )?;
    expect(
        answered(alloc, &file, 100, as_it_is)? == damaged,
        "no page 0",
    )?;
    expect(
        answered(alloc, &file, size, one_copy_more)? == damaged,
        "a copy too many",
    )?;
    expect(
        answered(alloc, &file, size, one_page_later)? == damaged,
        "a page later",
    )
}

#[test]
fn a_gate_is_open_where_its_byte_is_one(rt: HostRuntime) -> Result<(), Fail> {
    let alloc = rt.alloc();
    let file = opened(alloc, THREE)?;
    let before = file_before(alloc, THREE)?;
    let after = file_after(alloc, THREE, NEW)?;
    for gate in 0..=u8::MAX {
        let mut image = file.clone()?;
        if let Some(byte) = image.get_mut(64) {
            *byte = gate;
        }
        let wanted = if gate == 1 {
            Found::After
        } else {
            Found::Before
        };
        expect(
            pages_found(image, &before, &after) == wanted,
            "open by 1 alone",
        )?;
    }
    Ok(())
}

//! Disks that show what stands after recovery, over files whose gate is open, or that are closed.

use crate::crash_images::has_pages;
use crate::expect::expect;
use crate::lettered_files::{NEW, ONE, THREE, file_after, file_before};
use crate::recovery_tests::opened;
use rs_disk::{Disk, FailedCut, FailingDisk, MemoryDisk};
use rs_journal::Looked;
use rs_page::PAGE_SIZE;
use rs_page::bytes::{number_of_four, put_four};
use rs_refusal::Refusal;
use std::alloc::Global;
use std::test::Fail;

/// A look at a disk over these bytes, which is not refused.
fn look(alloc: Global, file: Vec<u8>) -> Result<Looked<MemoryDisk>, Fail> {
    match Looked::new(alloc, MemoryDisk::from_bytes(file)) {
        Ok(looked) => Ok(looked),
        Err((_, refusal)) => Err(Fail::new(format_args!("refused {}", refusal.number()))),
    }
}

/// Looks at a file, expects these pages, whole and in parts, and that nothing is written.
fn expect_shown(alloc: Global, file: Vec<u8>, pages: &[u8]) -> Result<(), Fail> {
    let kept = file.clone()?;
    let mut looked = look(alloc, file)?;
    let mut shown = Vec::new(alloc);
    shown.resize(pages.len(), 7)?;
    looked.read(0, &mut shown)?;
    expect(has_pages(&shown, pages), "the pages are shown")?;
    expect(shown.get(64..76) == Some([0; 12].as_slice()), "no gate")?;
    let mut part = [0; 5_000];
    for step in 0..8usize {
        let at = step.saturating_mul(1_500);
        let wanted = shown.get(at..at.saturating_add(5_000));
        looked.read(at as u64, &mut part)?;
        expect(
            wanted.is_none_or(|bytes| part.as_slice() == bytes),
            "in parts too",
        )?;
    }
    expect(looked.write(0, b"x").is_err(), "nothing is written")?;
    expect(looked.cut(0).is_err() && looked.sync().is_ok(), "or cut")?;
    expect(looked.failures() == 2, "which counts")?;
    expect(looked.into_disk().bytes() == kept.as_slice(), "as it was")
}

#[test]
fn copies_are_shown_in_place_of_their_pages(rt: HostRuntime) -> Result<(), Fail> {
    let alloc = rt.alloc();
    for plan in [ONE, THREE] {
        let before = file_before(alloc, plan)?;
        let after = file_after(alloc, plan, NEW)?;
        expect_shown(alloc, opened(alloc, plan)?, &after)?;
        expect_shown(alloc, before.clone()?, &before)?;
    }
    Ok(())
}

/// The format that is shown of a page 0 with this format, open flag and gate byte.
fn shown_format(alloc: Global, format: u32, flag: u8, gate: u8) -> Result<u32, Fail> {
    let mut page = [0; PAGE_SIZE];
    put_four(&mut page, 24, format);
    page[28] = flag;
    page[64] = gate;
    let mut looked = look(alloc, page.to_vec(alloc)?)?;
    let mut shown = [0; 4];
    looked.read(24, &mut shown)?;
    let is_first = (format, flag) == (1, 0) && gate != 1;
    expect(looked.is_first_version() == is_first, "so it is told")?;
    Ok(number_of_four(&shown, 0))
}

#[test]
fn a_closed_file_of_version_1_is_shown_as_version_2(rt: HostRuntime) -> Result<(), Fail> {
    let alloc = rt.alloc();
    expect(shown_format(alloc, 1, 0, 0)? == 2, "closed")?;
    expect(shown_format(alloc, 1, 0, 7)? == 2, "a gate that is shut")?;
    expect(shown_format(alloc, 1, 1, 0)? == 1, "not closed")?;
    expect(shown_format(alloc, 1, 0, 1)? == 1, "an open gate")?;
    expect(shown_format(alloc, 2, 0, 0)? == 2, "version 2")?;
    expect(shown_format(alloc, 257, 0, 0)? == 257, "no version")
}

#[test]
fn a_journal_that_is_not_well_formed_is_refused(rt: HostRuntime) -> Result<(), Fail> {
    let alloc = rt.alloc();
    let mut file = opened(alloc, THREE)?;
    let first_number = PAGE_SIZE * 4 + 3;
    if let Some(byte) = file.get_mut(first_number) {
        *byte = 3;
    }
    let kept = file.clone()?;
    match Looked::new(alloc, MemoryDisk::from_bytes(file)) {
        Ok(_) => Err("looked at".into()),
        Err((disk, refusal)) => {
            expect(refusal == Refusal::DamagedFile, "by 94")?;
            expect(disk.bytes() == kept.as_slice(), "and handed back")
        }
    }
}

/// Looks at a disk of which the call with this number fails, and reads a page. Answers whether a call failed.
fn is_failed(alloc: Global, file: Vec<u8>, failing_call: u64) -> Result<bool, Fail> {
    let disk = FailingDisk::new(MemoryDisk::from_bytes(file), failing_call, FailedCut::Done);
    match Looked::new(alloc, disk) {
        Ok(mut looked) => {
            let is_failed = looked.read(0, &mut [0; PAGE_SIZE]).is_err();
            expect(is_failed == (looked.failures() == 1), "it is counted")?;
            let below = looked.into_disk();
            expect(is_failed == (below.failures() == 1), "below too")?;
            Ok(is_failed)
        }
        Err((disk, refusal)) => {
            expect(refusal == Refusal::Disk, "by 91")?;
            expect(disk.failures() == 1, "and handed back")?;
            Ok(true)
        }
    }
}

#[test]
fn a_call_below_that_fails_is_passed_on(rt: HostRuntime) -> Result<(), Fail> {
    let alloc = rt.alloc();
    let file = opened(alloc, THREE)?;
    let mut failing_call = 1u64;
    for _ in 0..100 {
        if !is_failed(alloc, file.clone()?, failing_call)? {
            break;
        }
        failing_call = failing_call.saturating_add(1);
    }
    expect(failing_call == 12, "11 calls: 9 of the look, 2 of the read")
}

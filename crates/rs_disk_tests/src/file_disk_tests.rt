//! Bytes that are written, cut and read, on a disk over a file.
//!
//! What a disk in memory does with its bytes is proved; that a file does the same is tested.

use crate::disk_steps::{Step, expect_all, take_all};
use crate::expect::expect;
use crate::fresh_path::fresh_path;
use rs_disk::{Disk, DiskFault, FileDisk};
use rs_page::PAGE_SIZE;
use std::fs;
use std::test::Fail;

/// Calls of an empty disk, which is two pages and a byte long then.
static MADE: [Step; 20] = [
    Step::Pages(0),
    // zeros before and past the end, and of the second page there are two bytes
    Step::Write(4_095, b"abc"),
    Step::Read(4_094, b"\0abc\0\0\0\0\0\0"),
    Step::Pages(1),
    // a write of no bytes makes nothing longer
    Step::Write(1 << 40, b""),
    Step::Pages(1),
    // the last write shows, and the first one
    Step::Write(10_001, b"xyz"),
    Step::Write(10_002, b"Y"),
    Step::Sync,
    Step::Read(10_000, b"\0xYz\0\0\0\0\0\0"),
    Step::Read(4_094, b"\0abc\0\0\0\0\0\0"),
    // a cut makes nothing longer, nor drops a part of a page
    Step::Cut(7),
    Step::Pages(2),
    Step::Read(10_000, b"\0xYz\0\0\0\0\0\0"),
    Step::Cut(1),
    Step::Pages(1),
    // what was cut is gone
    Step::Write(8_192, b"!"),
    Step::Sync,
    Step::Read(4_094, b"\0a\0\0\0\0\0\0\0\0"),
    Step::Failures(0),
];

/// Calls of the same disk, opened again: the bytes are kept, all are cut, and no file reaches as far as the last write.
static KEPT: [Step; 5] = [
    Step::Pages(2),
    Step::Read(8_192, b"!\0\0\0\0\0\0\0\0\0"),
    Step::Cut(0),
    Step::NoWrite(u64::MAX, b"ab"),
    Step::Failures(1),
];

/// Calls of a disk over a file of 100 bytes: no page is whole, and zeros follow the bytes.
static SHORT: [Step; 2] = [
    Step::Pages(0),
    Step::Read(97, b"\x07\x07\x07\0\0\0\0\0\0\0"),
];

fn made() -> &'static [Step] {
    &MADE
}

fn kept() -> &'static [Step] {
    &KEPT
}

fn short() -> &'static [Step] {
    &SHORT
}

/// Makes the calls, one after the other, and closes the file.
fn take(mut disk: FileDisk, steps: &[Step]) -> Result<(), Fail> {
    expect_all(take_all(&mut disk, steps))
}

#[test]
fn a_file_keeps_its_bytes(rt: HostRuntime) -> Result<(), Fail> {
    let path = fresh_path(&rt, "kept")?;
    let path = path.as_str();
    take(FileDisk::create(&rt, path)?, made())?;
    take(FileDisk::open(&rt, path)?, kept())?;
    expect(fs::metadata(&rt, path)?.len() == 0, "all was cut")?;
    fs::write(&rt, path, [7u8; 100].as_slice())?;
    take(FileDisk::open(&rt, path)?, short())?;
    fs::remove_file(&rt, path)?;
    Ok(())
}

/// Writes 40 pages, the last one first.
fn write_whole_pages(disk: &mut FileDisk, page: &mut [u8]) -> Result<(), DiskFault> {
    for number in (0..40u8).rev() {
        page.fill(number);
        disk.write(u64::from(number) * 4_096, page)?;
    }
    Ok(())
}

/// Whether each of 40 pages is read as it was written.
fn are_whole_pages(disk: &mut FileDisk, page: &mut [u8]) -> Result<bool, DiskFault> {
    for number in 0..40u8 {
        page.fill(0xee);
        disk.read(u64::from(number) * 4_096, page)?;
        if page.iter().any(|byte| *byte != number) {
            return Ok(false);
        }
    }
    Ok(disk.pages() == 40)
}

#[test]
fn a_file_is_written_and_read_by_whole_pages(rt: HostRuntime) -> Result<(), Fail> {
    let path = fresh_path(&rt, "pages")?;
    let mut disk = FileDisk::create(&rt, path.as_str())?;
    let mut page = vec![in rt.alloc(); 0u8; PAGE_SIZE]?;
    write_whole_pages(&mut disk, page.as_mut_slice())?;
    let are_read = are_whole_pages(&mut disk, page.as_mut_slice())?;
    expect(are_read, "pages are read as written")?;
    fs::remove_file(&rt, path.as_str())?;
    Ok(())
}

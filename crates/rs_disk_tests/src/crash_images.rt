//! What recovery finds on the images that a crash may leave.

use crate::expect::expect;
use rs_disk::MemoryDisk;
use rs_journal::recover;
use rs_page::PAGE_SIZE;
use rs_recording_disk::{Call, RecordingDisk, Unsynced};
use std::alloc::Global;
use std::test::Fail;

/// The three images of what was not synced.
pub const IMAGES: [Unsynced; 3] = [Unsynced::Kept, Unsynced::Lost, Unsynced::Filled];

/// Which pages a disk has: those that it had before, or those after.
#[derive(Clone, Copy, PartialEq, Eq, Debug)]
pub enum Found {
    Before,
    After,
    Neither,
}

/// Whether the file begins with these pages, but for the gate and the journal's fields.
pub fn has_pages(file: &[u8], pages: &[u8]) -> bool {
    if pages.len() < PAGE_SIZE || file.len() < pages.len() {
        return false;
    }
    let start = &pages[0..64];
    let rest = &pages[76..];
    let past_the_fields = &file[76..];
    file.starts_with(start) && past_the_fields.starts_with(rest)
}

/// Recovers an image, and looks which pages are there. A file whose gate was open has no others.
pub fn pages_found(image: Vec<u8>, before: &[u8], after: &[u8]) -> Found {
    let was_open = image.get(64) == Some(&1);
    let mut disk = MemoryDisk::from_bytes(image);
    if recover(&mut disk).is_err() {
        return Found::Neither;
    }
    let file = disk.bytes();
    if has_pages(file, after) && (!was_open || file.len() == after.len()) {
        Found::After
    } else if has_pages(file, before) && (!was_open || file.len() == before.len()) {
        Found::Before
    } else {
        Found::Neither
    }
}

/// The bytes that a crash leaves after so many calls.
pub fn image_after(
    alloc: Global,
    disk: &RecordingDisk,
    moment: usize,
    unsynced: Unsynced,
) -> Result<Vec<u8>, Fail> {
    if disk.calls().len() < moment {
        return Err(Fail::new(format_args!("there are fewer calls than {moment}")));
    }
    Ok(disk.image(alloc, moment, unsynced)?)
}

/// Whether a call is a read, or writes a whole page.
fn is_plain(call: Option<&Call>) -> bool {
    match call {
        Some(Call::Read) => true,
        Some(Call::Write(range)) => range.len() == PAGE_SIZE,
        _ => false,
    }
}

/// Whether a moment is looked at. Of more than 200 calls it is every 1,000th, the last, and the one before each call that
/// neither reads nor writes a whole page.
fn is_looked_at(calls: &[Call], moment: usize) -> bool {
    calls.len() <= 200 || moment % 1_000 == 0 || !is_plain(calls.get(moment))
}

/// Looks after each call from a moment on, in each of the images: recovery finds the pages before, and from some moment on
/// those after. Answers how many images were recovered.
pub fn expect_either(
    alloc: Global,
    disk: &RecordingDisk,
    from: usize,
    before: &[u8],
    after: &[u8],
) -> Result<u64, Fail> {
    let mut recovered = 0u64;
    for unsynced in IMAGES {
        let mut is_done = false;
        for moment in from..=disk.calls().len() {
            if is_looked_at(disk.calls(), moment) {
                let image = image_after(alloc, disk, moment, unsynced)?;
                is_done = expect_on(is_done, pages_found(image, before, after))?;
                recovered = recovered.saturating_add(1);
            }
        }
        expect(is_done, "the pages after are there at the end")?;
    }
    Ok(recovered)
}

/// Whether the pages after are there. Once they were, they are.
fn expect_on(is_done: bool, found: Found) -> Result<bool, Fail> {
    match found {
        Found::Before => expect(!is_done, "the checkpoint is kept")?,
        Found::After => {}
        Found::Neither => return Err("neither the pages before nor those after".into()),
    }
    Ok(found == Found::After)
}

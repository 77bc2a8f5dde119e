//! Images of a disk: what a crash may leave at the moment after each call.

ghost use Rattle.std.specs.Prelude.{◌≡◌, ◌+◌, ◌^◌, ◌<◌, false, true, IfOk, OnOk, length, replicate, reverse};
ghost use Rattle.rs_disk.specs.Content.{content_of};
ghost use Rattle.rs_recording_disk.specs.declared.image.TheConstants.{FILL};
ghost use Rattle.rs_recording_disk.specs.Image.{image_after, image_of, left_of_cut, left_of_write};
ghost use Rattle.rs_recording_disk.specs.Recorded.{content_after, cut_to, written};

use crate::call::{Call, WrittenRange};
use crate::recording::cut_to_pages;
use rs_disk::{Disk, MemoryDisk};
use std::alloc::{AllocError, Global};

/// The byte that fills the ranges that were written.
pub const FILL: u8 = 165;

/// The byte is 165.
pub fn fill_is_that()
    ensures { FILL ≡ 165 }
{}

/// What a crash makes of what was written and cut since the last sync.
#[derive(Clone, Copy, Debug, PartialEq, Eq)]
pub enum Unsynced {
    /// It is kept, so that the image is the disk as it reads.
    Kept,
    /// It is lost, so that the image is the disk as it was synced last.
    Lost,
    /// Each range that was written is filled with 165, and the cuts are kept.
    Filled,
}

/// The bytes that a crash leaves after these calls, of which the last was made at its moment.
pub(crate) fn left_by(
    alloc: Global,
    start: &[u8],
    calls: &[Call],
    unsynced: Unsynced,
) -> Result<Vec<u8>, AllocError>
    ensures { IfOk result (λ bytes. content_of bytes.items
        ≡ image_of unsynced (content_of start.now) (reverse calls.now)) }
{
    let mut content = MemoryDisk::from_bytes(start.to_vec(alloc)?);
    let mut image = MemoryDisk::from_bytes(start.to_vec(alloc)?);
    for call in calls {
        redo(alloc, call, unsynced, &mut content, &mut image)?;
    }
    Ok(image.into_bytes())
}

/// Does a call again on the content, and with what a crash makes of it on the image.
fn redo(
    alloc: Global,
    call: &Call,
    unsynced: Unsynced,
    content: &mut MemoryDisk,
    image: &mut MemoryDisk,
) -> Result<(), AllocError>
    ensures content { OnOk result (content_of content.new.bytes
        ≡ content_after call.now (content_of content.old.bytes)) }
    ensures image { OnOk result (content_of image.new.bytes
        ≡ image_after unsynced call.now
        (content_of content.old.bytes) (content_of image.old.bytes)) }
{
    match call {
        Call::Read => Ok(()),
        Call::Write(range) => {
            write_again(content, range.at(), range.bytes())?;
            leave_write(alloc, image, range, unsynced)
        }
        Call::Sync { is_done } => {
            if *is_done {
                *image = MemoryDisk::from_bytes(content.bytes().to_vec(alloc)?);
            }
            Ok(())
        }
        Call::Cut { pages, is_done } => {
            cut_again(content, *pages, *is_done);
            leave_cut(image, *pages, *is_done, unsynced);
            Ok(())
        }
    }
}

/// Writes, and fails for want of memory alone.
fn write_again(disk: &mut MemoryDisk, at: u64, bytes: &[u8]) -> Result<(), AllocError>
    ensures { OnOk result (content_of disk.new.bytes
        ≡ written at bytes.now (content_of disk.old.bytes)) }
{
    disk.write(at, bytes).map_err(|_| AllocError)
}

/// Leaves of a write what the crash leaves of it.
fn leave_write(
    alloc: Global,
    image: &mut MemoryDisk,
    range: &WrittenRange,
    unsynced: Unsynced,
) -> Result<(), AllocError>
    ensures { OnOk result (content_of image.new.bytes
        ≡ left_of_write unsynced range.now (content_of image.old.bytes)) }
{
    match unsynced {
        Unsynced::Kept => write_again(image, range.at(), range.bytes()),
        Unsynced::Lost => Ok(()),
        Unsynced::Filled => {
            let bytes = vec![in alloc; FILL; range.len()]?;
            write_again(image, range.at(), bytes.as_slice())
        }
    }
}

/// Cuts, if the cut was done.
fn cut_again(disk: &mut MemoryDisk, pages: u32, is_done: bool)
    ensures { content_of disk.new.bytes
        ≡ content_after (Call.Cut pages is_done) (content_of disk.old.bytes) }
{
    if is_done {
        cut_to_pages(disk, pages);
    }
}

/// Leaves of a cut what the crash leaves of it.
fn leave_cut(image: &mut MemoryDisk, pages: u32, is_done: bool, unsynced: Unsynced)
    ensures { content_of image.new.bytes
        ≡ left_of_cut unsynced pages is_done (content_of image.old.bytes) }
{
    match unsynced {
        Unsynced::Lost => {}
        Unsynced::Kept | Unsynced::Filled => cut_again(image, pages, is_done),
    }
}

//! Records that are cleared while nothing else changes: the version that was accepted last stays.

ghost use Rattle.std.specs.Prelude.{◌≡◌, ◌≢◌, true, Err, OnOk};
ghost use Rattle.rs_file_parts.specs.Parts.{KeepsCommitted};
ghost use Rattle.rs_changes.specs.Calls.{LeavesFile, MayChange};
ghost use Rattle.rs_changes.specs.Garbage.{Clears};

use crate::completing::LEAST_CLEARED;
use rs_file::OpenedFile;
use rs_file_parts::{clear, write_directory};
use rs_pages::Pages;
use rs_refusal::Refusal;
use std::alloc::Global;

/// Clears records that no version from `oldest` on sees, 64 of them or all where they are fewer, and answers how many. Versions from
/// there on see what they saw. No page is needed: it is refused with 90, with 91, and with 94 only where the file holds no contents with
/// what is open.
pub fn clear_only<P: Pages>(
    alloc: Global,
    pages: &mut P,
    file: &mut OpenedFile,
    oldest: u64,
) -> Result<u64, Refusal>
    requires begun { (P.store pages.old).is_begun ≡ true }
    requires may { MayChange file.old }
    ensures leaves { LeavesFile P.Pages file.old result pages.old pages.new }
    ensures clears { Clears P.Pages oldest file.old file.new result pages.old pages.new }
    ensures may { OnOk result (MayChange file.new) }
    ensures keeps { KeepsCommitted file.old file.new }
    ensures room { result ≢ Err Refusal.FileFull }
{
    let version = file.accepted;
    let gone = clear(alloc, pages, file, oldest, LEAST_CLEARED, version as usize)?;
    write_directory(alloc, pages, file, version)?;
    Ok(gone)
}

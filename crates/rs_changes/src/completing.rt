//! What completes a change once its part has changed: records are cleared, and the slots of the directory are written with the next version.

ghost use Rattle.std.specs.Prelude.{◌≡◌, ◌≢◌, ◌<◌, ◌+◌, true, Err, OnErr, OnOk};
ghost use Rattle.rs_file_parts.specs.Parts.{HaveAllDiedBy, IsReady, KeepsCommitted};
ghost use Rattle.rs_machine.specs.declared.limits.TheConstants.{CHANGES};
ghost use Rattle.rs_page_owners.specs.Calls.{Leaves};
ghost use Rattle.rs_changes.specs.Calls.{IsNext};
ghost use Rattle.rs_changes.specs.Completing.{Completes, HoldsNoneToComplete};

use rs_file::OpenedFile;
use rs_file_parts::{clear, write_slots};
use rs_pages::Pages;
use rs_refusal::Refusal;
use std::alloc::Global;

/// How many records that no live version sees are cleared at the least, where there are so many.
pub(crate) const LEAST_CLEARED: u64 = 64;

// decision: tables-cleared-in-turn
/// Clears records that no version from `oldest` on sees, and writes the slots of the directory with the next version as the one
/// that was accepted last. `ended` is how many records the change has left dead: as many more may go. The tables take turns in being
/// first. It is refused with 90, with 91, and with 94 only where no contents lie there with what is open.
pub(crate) fn complete<P: Pages>(
    alloc: Global,
    pages: &mut P,
    file: &mut OpenedFile,
    oldest: u64,
    ended: u64,
) -> Result<(), Refusal>
    requires begun { (P.store pages.old).is_begun ≡ true }
    requires ready { IsReady file.old }
    requires order { HaveAllDiedBy (file.old.accepted + 1) file.old }
    requires room { file.old.accepted < CHANGES }
    ensures leaves { Leaves P.Pages (HoldsNoneToComplete (P.store pages.old).map file.old) result pages.old pages.new }
    ensures completes { Completes P.Pages oldest ended file.old file.new result pages.old pages.new }
    ensures next { OnOk result (IsNext file.old.definitions file.old file.new) }
    ensures keeps { OnErr result (KeepsCommitted file.old file.new) }
    ensures room { result ≢ Err Refusal.FileFull }
{
    let version = file.accepted + 1;
    let most = ended.saturating_add(LEAST_CLEARED);
    clear(alloc, pages, file, oldest, most, version as usize)?;
    write_slots(pages, file, version)?;
    file.accepted = version;
    Ok(())
}

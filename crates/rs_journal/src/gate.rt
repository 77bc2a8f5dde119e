//! The gate: one byte of page 0, written alone, and the cut of the file.

ghost use Rattle.std.specs.Prelude.{◌≡◌, ◌*◌, ◌<◌, ◌≤◌, max, IsTrue, OnOk};
ghost use Rattle.rs_disk.specs.Content.{CutsTo};
ghost use Rattle.rs_disk.specs.Crash.{Only};
ghost use Rattle.rs_page.specs.declared.page.TheConstants.{PAGE_SIZE};
ghost use Rattle.rs_journal.specs.Calls.{CallsDisk, SyncsDisk};
ghost use Rattle.rs_journal.specs.Journal.{Journal, Carries, MakesPages};
ghost use Rattle.rs_journal.specs.FilePages.{FilePages};
ghost use Rattle.rs_journal.specs.Stages.{IsQuiet, IsGate, IsHome, IsClosing, EveryImage, Goes, Remains, GateAlone};
ghost use Rattle.rs_journal.specs.declared.limits.TheConstants.{GATE, GATE_END, CLOSED};
ghost use Rattle.rs_disk.specs.Reaches.{IsOutside, KeepsWhere, Reaches};

use crate::limits::{CLOSED, GATE, OPEN};
use crate::writing::{sync, write_at};
use rs_disk::Disk;
use rs_refusal::Refusal;

/// Writes the gate byte alone, and waits until it is on the medium. Until then it may be any byte after a crash.
pub(crate) fn write_gate<D: Disk>(disk: &mut D, byte: u8) -> Result<(), Refusal>
    ensures written { IsTrue (D.is_honest disk.old) → OnOk result ((D.seen disk.new).byte GATE ≡ byte) }
    ensures reaches { Reaches D.Disk (KeepsWhere (IsOutside GATE GATE_END)) disk.old disk.new }
    ensures durable { IsTrue (D.keeps_crashes disk.old)
        → OnOk result (Only (D.seen disk.new) (D.may_leave disk.new)) }
    ensures no_longer { IsTrue (D.is_honest disk.old) → (D.seen disk.new).size ≤ max (D.seen disk.old).size GATE_END }
    ensures calls { SyncsDisk D.Disk result disk.old disk.new }
{
    write_at(disk, GATE, &[byte])?;
    sync(disk)
}

/// Opens the gate of a journal that is on the medium. Until that is on the medium too, a crash leaves either pages.
pub(crate) fn open_gate<D: Disk>(disk: &mut D) -> Result<(), Refusal>
    ensures goes { (journal : Journal) (kept checkpoint : FilePages) → MakesPages journal kept checkpoint
        → EveryImage D.Disk (IsGate kept journal) disk.old
        → Goes D.Disk (IsGate kept journal) (IsHome journal checkpoint) result disk.old disk.new }
    ensures calls { CallsDisk D.Disk result disk.old disk.new }
{
    write_gate(disk, OPEN)
}

/// Closes the gate once the copies are at home. A crash leaves the checkpoint's pages, whatever becomes of the byte.
pub(crate) fn close_gate<D: Disk>(disk: &mut D) -> Result<(), Refusal>
    ensures goes { (journal : Journal) (checkpoint : FilePages) → Carries journal checkpoint
        → EveryImage D.Disk (IsClosing journal checkpoint) disk.old
        → Goes D.Disk (IsClosing journal checkpoint) (IsQuiet checkpoint) result disk.old disk.new }
    ensures written { IsTrue (D.is_honest disk.old) → OnOk result ((D.seen disk.new).byte GATE ≡ CLOSED) }
    ensures gate_alone { IsTrue (D.is_honest disk.old) → GateAlone (D.seen disk.old) (D.seen disk.new) }
    ensures calls { SyncsDisk D.Disk result disk.old disk.new }
{
    write_gate(disk, CLOSED)
}

/// Drops all bytes past so many pages. The pages that are kept stay, after a fault too.
pub fn cut<D: Disk>(disk: &mut D, pages: u32) -> Result<(), Refusal>
    ensures remains { (kept : FilePages) → 0 < kept.count → kept.count ≤ pages
        → EveryImage D.Disk (IsQuiet kept) disk.old → Remains D.Disk (IsQuiet kept) disk.old disk.new }
    ensures cut { IsTrue (D.is_honest disk.old)
        → CutsTo result (PAGE_SIZE * pages) (D.seen disk.old) (D.seen disk.new) }
    ensures calls { CallsDisk D.Disk result disk.old disk.new }
{
    disk.cut(pages).map_err(|_| Refusal::Disk)
}

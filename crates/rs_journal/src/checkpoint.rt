//! A checkpoint, from the stage that it has reached to its last.
//!
//! A fault leaves the stage that was reached, and the next call resumes there: it writes again all that the stage had
//! written before it syncs, since a system may drop what a failed sync could not write. After the last stage the
//! checkpoint's pages are the ones kept; the file is cut apart from that, so that a fault there changes nothing of it.

ghost use Rattle.std.specs.Prelude.{◌≡◌, ◌≢◌, ℕ, ◌<◌, IsTrue, OnOk, OnErr};
ghost use Rattle.rs_disk.specs.Content.{Content};
ghost use Rattle.rs_journal.specs.Calls.{SyncsDisk};
ghost use Rattle.rs_journal.specs.Journal.{Journal, Ascends, MakesPages, Recovers, journal_of};
ghost use Rattle.rs_journal.specs.FilePages.{FilePages};
ghost use Rattle.rs_journal.specs.Stages.{IsQuiet, IsGate, IsHome, IsClosing, IsEither, GivesFrom, StageImage, EveryImage, Meanwhile, EndsOrStops};
ghost use Rattle.rs_journal.specs.declared.stage.Stage.TheVariants.{Fresh, Gate, Home, Closing};

use crate::copies::Copies;
use crate::gate::{close_gate, open_gate};
use crate::home::bring_home;
use crate::journal::begin;
use crate::stage::Stage;
use rs_disk::Disk;
use rs_refusal::Refusal;

/// Takes a checkpoint of these copies from the stage that it has reached to its last. The journal comes after the file's
/// pages, from the page `first` on.
///
/// After Ok the checkpoint's pages are the ones kept, and the stage is the first. After a fault (91) the stage is the one
/// that was reached; where it is `Fresh`, the gate was not touched and the pages kept last stay.
pub fn complete<D: Disk, C: Copies>(
    disk: &mut D,
    stage: &mut Stage,
    first: u32,
    copies: &C,
) -> Result<(), Refusal>
    requires first { 0 < first }
    requires ascending { Ascends (C.count copies.now) (C.number copies.now) }
    ensures ends { (kept checkpoint : FilePages) → MakesPages (journal_of C.Copies first copies.now) kept checkpoint
        → EveryImage D.Disk (StageImage stage.old kept (journal_of C.Copies first copies.now) checkpoint) disk.old
        → EndsOrStops D.Disk kept (journal_of C.Copies first copies.now) checkpoint
        (GivesFrom stage.old kept checkpoint) result stage.new disk.old disk.new }
    ensures since { (kept checkpoint : FilePages) → MakesPages (journal_of C.Copies first copies.now) kept checkpoint
        → EveryImage D.Disk (StageImage stage.old kept (journal_of C.Copies first copies.now) checkpoint) disk.old
        → IsTrue (D.keeps_crashes disk.old) → (image : Content) → D.left_since disk.old disk.new image
        → GivesFrom stage.old kept checkpoint image }
    ensures untouched { (kept checkpoint : FilePages) → MakesPages (journal_of C.Copies first copies.now) kept checkpoint
        → EveryImage D.Disk (StageImage stage.old kept (journal_of C.Copies first copies.now) checkpoint) disk.old
        → OnErr result (stage.new ≡ Fresh → Meanwhile D.Disk (IsQuiet kept) disk.old disk.new) }
    ensures goes_on { stage.old ≢ Fresh → OnErr result (stage.new ≢ Fresh) }
    ensures fresh { OnOk result (stage.new ≡ Fresh) }
    ensures calls { SyncsDisk D.Disk result disk.old disk.new }
{
    match *stage {
        Stage::Fresh => from_fresh(disk, stage, first, copies),
        Stage::Gate => from_gate(disk, stage, copies),
        Stage::Home => from_home(disk, stage, copies),
        Stage::Closing => from_closing(disk, stage),
    }
}

/// Writes the journal, and goes on.
fn from_fresh<D: Disk, C: Copies>(
    disk: &mut D,
    stage: &mut Stage,
    first: u32,
    copies: &C,
) -> Result<(), Refusal>
    requires stage { stage.old ≡ Fresh }
    requires first { 0 < first }
    requires ascending { Ascends (C.count copies.now) (C.number copies.now) }
    ensures ends { (kept checkpoint : FilePages) → MakesPages (journal_of C.Copies first copies.now) kept checkpoint
        → EveryImage D.Disk (IsQuiet kept) disk.old
        → EndsOrStops D.Disk kept (journal_of C.Copies first copies.now) checkpoint
        (IsEither kept checkpoint) result stage.new disk.old disk.new }
    ensures untouched { (kept checkpoint : FilePages) → MakesPages (journal_of C.Copies first copies.now) kept checkpoint
        → EveryImage D.Disk (IsQuiet kept) disk.old
        → OnErr result (stage.new ≡ Fresh → Meanwhile D.Disk (IsQuiet kept) disk.old disk.new) }
    ensures fresh { OnOk result (stage.new ≡ Fresh) }
    ensures calls { SyncsDisk D.Disk result disk.old disk.new }
{
    begin(disk, first, copies)?;
    *stage = Stage::Gate;
    from_gate(disk, stage, copies)
}

/// Opens the gate, and goes on.
fn from_gate<D: Disk, C: Copies>(disk: &mut D, stage: &mut Stage, copies: &C) -> Result<(), Refusal>
    requires stage { stage.old ≡ Gate }
    requires ascending { Ascends (C.count copies.now) (C.number copies.now) }
    ensures ends { (first : ℕ) (kept checkpoint : FilePages) → MakesPages (journal_of C.Copies first copies.now) kept checkpoint
        → EveryImage D.Disk (IsGate kept (journal_of C.Copies first copies.now)) disk.old
        → EndsOrStops D.Disk kept (journal_of C.Copies first copies.now) checkpoint
        (IsEither kept checkpoint) result stage.new disk.old disk.new }
    ensures goes_on { OnErr result (stage.new ≢ Fresh) }
    ensures fresh { OnOk result (stage.new ≡ Fresh) }
    ensures calls { SyncsDisk D.Disk result disk.old disk.new }
{
    open_gate(disk)?;
    *stage = Stage::Home;
    from_home(disk, stage, copies)
}

/// Brings the copies home, and goes on.
fn from_home<D: Disk, C: Copies>(disk: &mut D, stage: &mut Stage, copies: &C) -> Result<(), Refusal>
    requires stage { stage.old ≡ Home }
    requires ascending { Ascends (C.count copies.now) (C.number copies.now) }
    ensures ends { (first : ℕ) (kept checkpoint : FilePages) → MakesPages (journal_of C.Copies first copies.now) kept checkpoint
        → EveryImage D.Disk (IsHome (journal_of C.Copies first copies.now) checkpoint) disk.old
        → EndsOrStops D.Disk kept (journal_of C.Copies first copies.now) checkpoint
        (λ image. Recovers image checkpoint) result stage.new disk.old disk.new }
    ensures goes_on { OnErr result (stage.new ≢ Fresh) }
    ensures fresh { OnOk result (stage.new ≡ Fresh) }
    ensures calls { SyncsDisk D.Disk result disk.old disk.new }
{
    bring_home(disk, copies)?;
    *stage = Stage::Closing;
    from_closing(disk, stage)
}

/// Closes the gate.
fn from_closing<D: Disk>(disk: &mut D, stage: &mut Stage) -> Result<(), Refusal>
    requires { stage.old ≡ Closing }
    ensures ends { (journal : Journal) (kept checkpoint : FilePages) → MakesPages journal kept checkpoint
        → EveryImage D.Disk (IsClosing journal checkpoint) disk.old
        → EndsOrStops D.Disk kept journal checkpoint (λ image. Recovers image checkpoint) result stage.new disk.old disk.new }
    ensures goes_on { OnErr result (stage.new ≢ Fresh) }
    ensures fresh { OnOk result (stage.new ≡ Fresh) }
    ensures calls { SyncsDisk D.Disk result disk.old disk.new }
{
    close_gate(disk)?;
    *stage = Stage::Fresh;
    Ok(())
}

//! A look at a file: a disk that shows the pages that stand after recovery, over which a pager is opened with nothing written.

ghost use Rattle.std.specs.Prelude.{◌≡◌, ◌⊎◌, IfErr, IfOk, IsTrue, MatchResult};
ghost use Rattle.rs_disk.specs.Content.{Content};
ghost use Rattle.rs_disk.specs.Crash.{Same};
ghost use Rattle.rs_disk.specs.Reaches.{Reaches};
ghost use Rattle.rs_journal.specs.Look.{shown};
ghost use Rattle.rs_journal.specs.declared.limits.TheConstants.{FIRST_FORMAT, FORMAT_BYTE, GATE, OPEN};
ghost use Rattle.rs_pager.specs.LookedAt.{IsFileOfNone, ShowsSameFile};
ghost use Rattle.rs_pager.specs.Opened.{CountsFault};

use rs_disk::Disk;
use rs_journal::Looked;
use rs_journal::limits::{FIRST_FORMAT, FORMAT_BYTE, GATE, OPEN};
use rs_refusal::Refusal;
use std::alloc::Global;

/// Looks at the file that the disk holds. What is shown is a file of the same pages, in version 2 where it was closed, or no file.
///
/// It is refused with 94 where an open gate's journal isn't well formed or gives a page 0 in format 1, with 90 and 91. The disk is only
/// read, and a refusal hands it back.
pub fn look_at_file<D: Disk>(alloc: Global, disk: D) -> Result<Looked<D>, (D, Refusal)>
    ensures shows { IsTrue (D.is_honest disk) → IfOk result (λ looked. ShowsSameFile (D.seen disk) (shown (D.seen looked.disk))) }
    ensures damaged { IsTrue (D.is_honest disk) → IfErr result (λ refused. refused.1 ≡ Refusal.DamagedFile → IsFileOfNone (D.seen disk)) }
    ensures refused { IfErr result (λ refused. (refused.1 ≡ Refusal.OutOfMemory) ⊎ (refused.1 ≡ Refusal.Disk) ⊎ (refused.1 ≡ Refusal.DamagedFile)) }
    ensures reads { MatchResult result (λ looked. Reaches D.Disk Same disk looked.disk) (λ refused. Reaches D.Disk Same disk refused.0) }
    ensures count { MatchResult result (λ looked. D.failures looked.disk ≡ D.failures disk)
        (λ refused. CountsFault refused.1 (D.failures disk) (D.failures refused.0)) }
{
    let mut disk = disk;
    let gate = match read_gate(&mut disk) {
        Ok(gate) => gate,
        Err(refusal) => return Err((disk, refusal)),
    };
    let mut looked = Looked::new(alloc, disk)?;
    if gate != OPEN {
        return Ok(looked);
    }
    match shown_format(&mut looked) {
        Ok(FIRST_FORMAT) => Err((looked.into_disk(), Refusal::DamagedFile)),
        Ok(_) => Ok(looked),
        Err(refusal) => Err((looked.into_disk(), refusal)),
    }
}

/// Reads the gate byte.
fn read_gate<D: Disk>(disk: &mut D) -> Result<u8, Refusal>
    ensures gate { IsTrue (D.is_honest disk.old) → IfOk result (λ byte. byte ≡ (D.seen disk.old).byte GATE) }
    ensures reaches { Reaches D.Disk Same disk.old disk.new }
    ensures refused { IfErr result (λ why. why ≡ Refusal.Disk) }
    ensures count { MatchResult result (λ _. D.failures disk.new ≡ D.failures disk.old)
        (λ why. CountsFault why (D.failures disk.old) (D.failures disk.new)) }
{
    let mut bytes = [0; 1];
    disk.read(GATE, &mut bytes).map_err(|_| Refusal::Disk)?;
    Ok(bytes[0])
}

/// Reads the last byte of the format that a look shows.
fn shown_format<D: Disk>(look: &mut Looked<D>) -> Result<u8, Refusal>
    ensures format { IsTrue (D.is_honest look.old.disk) → IfOk result (λ byte. byte ≡ (shown (D.seen look.old.disk)).byte FORMAT_BYTE) }
    ensures reaches { Reaches D.Disk Same look.old.disk look.new.disk }
    ensures refused { IfErr result (λ why. why ≡ Refusal.Disk) }
    ensures count { MatchResult result (λ _. D.failures look.new.disk ≡ D.failures look.old.disk)
        (λ why. CountsFault why (D.failures look.old.disk) (D.failures look.new.disk)) }
{
    let mut bytes = [0; 1];
    look.read(FORMAT_BYTE, &mut bytes)
        .map_err(|_| Refusal::Disk)?;
    Ok(bytes[0])
}

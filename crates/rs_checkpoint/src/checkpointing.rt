//! Checkpoints, with what a crash leaves of them.

ghost use Rattle.std.specs.Prelude.{◌≡◌, ◌⊎◌, true, false, [], IfErr, IsOk, Err, MatchResult, OnErr, OnOk};
ghost use Rattle.rs_checkpoint.specs.Crashes.{KeepsCommitted, LeavesKept, Migrates};
ghost use Rattle.rs_journal.specs.declared.stage.Stage.TheVariants.{Fresh};
ghost use Rattle.rs_pager.specs.Lasts.{Checkpoints};
ghost use Rattle.rs_pager.specs.Maps.{HoldsNoChange, KeepsChanges};
ghost use Rattle.rs_pager.specs.Opened.{CountsFault};
ghost use Rattle.rs_pager.specs.Paged.{Paged};

use rs_disk::Disk;
use rs_pager::Pager;
use rs_refusal::Refusal;

/// Makes all that is committed the file's, by a checkpoint, or by the rest of one that a fault stopped. Where the disk lacks nothing,
/// nothing is called.
///
/// It is refused with 90, before anything is written, and with 91. Each image that a crash might have left since its start has the
/// pages kept last, with a closed gate, or gives the committed ones; after Ok the committed ones are kept.
pub fn checkpoint<D: Disk>(pager: &mut Pager<D>) -> Result<(), Refusal>
    requires { pager.old.is_begun ≡ false }
    ensures leaves { LeavesKept D.Disk pager.old pager.new }
    ensures keeps { KeepsCommitted D.Disk result pager.old pager.new }
    ensures checkpoints { Checkpoints D.Disk result pager.old pager.new }
    ensures idle { pager.old.under_way.stage ≡ Fresh → pager.old.changes ≡ [] → pager.old.is_header_changed ≡ false → IsOk result × (pager.new ≡ pager.old) }
    ensures memory { result ≡ Err Refusal.OutOfMemory → (pager.old.under_way.stage ≡ Fresh) × (pager.new ≡ record pager.old { clean = []; under_way = pager.new.under_way }) }
    ensures no_change { OnOk result (HoldsNoChange pager.new) }
    ensures fresh { OnOk result (pager.new.under_way.stage ≡ Fresh) }
    ensures changes { OnErr result (KeepsChanges pager.old pager.new ⊎ HoldsNoChange pager.new) }
    ensures shut { pager.new.is_begun ≡ false }
    ensures refusal { IfErr result (λ why. (why ≡ Refusal.OutOfMemory) ⊎ (why ≡ Refusal.Disk)) }
    ensures count { MatchResult result (λ _. D.failures pager.new.disk ≡ D.failures pager.old.disk)
        (λ why. CountsFault why (D.failures pager.old.disk) (D.failures pager.new.disk)) }
{
    pager.checkpoint()
}

/// Makes a file of version 1, which was closed and of which nothing is changed, one of version 2 with the same pages. It is refused with
/// 90, before anything is written, and with 91. A crash meanwhile leaves the file of version 1 or that of version 2.
pub fn migrate<D: Disk>(pager: &mut Pager<D>) -> Result<(), Refusal>
    requires shut { pager.old.is_begun ≡ false }
    requires first { pager.old.is_header_changed ≡ true }
    ensures leaves { LeavesKept D.Disk pager.old pager.new }
    ensures migrates { Migrates D.Disk result pager.old pager.new }
    ensures checkpoints { Checkpoints D.Disk result pager.old pager.new }
    ensures shut { pager.new.is_begun ≡ false }
    ensures refusal { IfErr result (λ why. (why ≡ Refusal.OutOfMemory) ⊎ (why ≡ Refusal.Disk)) }
    ensures count { MatchResult result (λ _. D.failures pager.new.disk ≡ D.failures pager.old.disk)
        (λ why. CountsFault why (D.failures pager.old.disk) (D.failures pager.new.disk)) }
{
    checkpoint(pager)
}

//! How what is committed is made the file's: by a checkpoint of the committed pages that the disk lacks.
//!
//! At each moment of it a crash leaves the pages kept last or the committed ones. A checkpoint that a fault stopped is resumed by the
//! next, before any change: meanwhile what it copies is held as it is. The clean pages are dropped first, since after a failed write they
//! may be other than the disk's.

ghost use Rattle.std.specs.Prelude.{IsOk, Err, ◌≡◌, ◌≢◌, ◌⊎◌, ℕ, OnOk, OnErr, IfErr, IsOkUnless, MatchResult, true, false, []};
ghost use Rattle.rs_disk.specs.Counts.{Counts};
ghost use Rattle.rs_journal.specs.FilePages.{FilePages};
ghost use Rattle.rs_journal.specs.declared.stage.Stage.TheVariants.{Fresh};
ghost use Rattle.rs_pager.specs.Lasts.{Carried, Checkpoints, Cuts, stopped_pager, written_pager};
ghost use Rattle.rs_pager.specs.Maps.{committed, ArePages, CarriesOn, HoldsNoChange, IsKept, IsTied, KeepsChanges, KeepsMaps};
ghost use Rattle.rs_pager.specs.Opened.{CountsFault};
ghost use Rattle.rs_pager.specs.Paged.{Paged};
ghost use Rattle.rs_pager.specs.Stored.{Stores};

use crate::pager::Pager;
use crate::second_header::second_page;
use rs_disk::Disk;
use rs_journal::{Stage, cut};
use rs_refusal::Refusal;

impl<D: Disk> Pager<D> {
    /// Makes all that is committed the file's, by a checkpoint, or by the rest of one that a fault stopped. Where the disk lacks nothing,
    /// nothing is called. It is refused with 90 before anything is written, and with 91: then what was held as changed is held still,
    /// or, where the cut of the file alone failed, the committed pages are kept.
    pub fn checkpoint(&mut self) -> Result<(), Refusal>
        requires { self.old.is_begun ≡ false }
        ensures checkpoints { Checkpoints D.Disk result self.old self.new }
        ensures idle { self.old.under_way.stage ≡ Fresh → self.old.changes ≡ [] → self.old.is_header_changed ≡ false → IsOk result × (self.new ≡ self.old) }
        ensures memory { result ≡ Err Refusal.OutOfMemory → (self.old.under_way.stage ≡ Fresh) × (self.new ≡ record self.old { clean = []; under_way = self.new.under_way }) }
        ensures no_change { OnOk result (HoldsNoChange self.new) }
        ensures no_held { OnOk result (self.new.changes ≡ []) }
        ensures fresh { OnOk result (self.new.under_way.stage ≡ Fresh) }
        ensures changes { OnErr result (KeepsChanges self.old self.new ⊎ HoldsNoChange self.new) }
        ensures shut { self.new.is_begun ≡ false }
        ensures refusal { IfErr result (λ why. (why ≡ Refusal.OutOfMemory) ⊎ (why ≡ Refusal.Disk)) }
        ensures count { MatchResult result (λ _. D.failures self.new.disk ≡ D.failures self.old.disk)
            (λ why. CountsFault why (D.failures self.old.disk) (D.failures self.new.disk)) }
    {
        // For the proof: that the pager is sound.
        let _ = &self.disk;
        if self.lacks_nothing() {
            return Ok(());
        }
        self.ready()?;
        self.complete()?;
        self.cut()
    }

    /// Whether no checkpoint is under way and the disk has all that is committed.
    fn lacks_nothing(&self) -> bool
        ensures yes { result ≡ true → (self.now.under_way.stage ≡ Fresh) × (self.now.changes ≡ []) × (self.now.is_header_changed ≡ false) }
        ensures no { self.now.under_way.stage ≡ Fresh → self.now.changes ≡ [] → self.now.is_header_changed ≡ false → result ≡ true }
    {
        self.under_way.stage() == Stage::Fresh && !self.is_header_changed && self.changes.is_empty()
    }

    /// Drops the clean pages, and lists the pages that a checkpoint copies, where none is under way. It is refused with 90 alone. The disk
    /// is not called.
    fn ready(&mut self) -> Result<(), Refusal>
        requires { self.old.is_begun ≡ false }
        ensures carries { (pages : FilePages) → IsTied D.Disk self.old → IsKept D.Disk self.old pages → OnOk result (CarriesOn D.Disk self.new pages) }
        ensures alone { self.new ≡ record self.old { clean = []; under_way = self.new.under_way } }
        ensures stage { self.new.under_way.stage ≡ self.old.under_way.stage }
        ensures resumed { self.old.under_way.stage ≢ Fresh → self.new.under_way ≡ self.old.under_way }
        ensures memory { OnErr result (self.old.under_way.stage ≡ Fresh) }
        ensures refusal { IsOkUnless result Refusal.OutOfMemory }
    {
        self.clean.clear();
        if self.under_way.stage() != Stage::Fresh {
            return Ok(());
        }
        let first_page = second_page(&self.committed_fields);
        self.under_way
            .list(&self.changes, &first_page, self.is_header_changed)
    }

    /// Takes the checkpoint of the pages that were listed to its last stage. After Ok the disk has all that is committed; after a fault (91)
    /// the checkpoint stands at the stage that it reached.
    fn complete(&mut self) -> Result<(), Refusal>
        requires shut { self.old.is_begun ≡ false }
        requires clean { self.old.clean ≡ [] }
        ensures carried { (pages : FilePages) → IsKept D.Disk self.old pages → CarriesOn D.Disk self.old pages
            → Carried D.Disk pages result self.old self.new }
        ensures done { OnOk result (self.new ≡ written_pager self.new.disk self.new.under_way self.old) }
        ensures fresh { OnOk result (self.new.under_way.stage ≡ Fresh) }
        ensures stopped { OnErr result (self.new ≡ stopped_pager self.new.disk self.new.under_way.stage self.old) }
        ensures honesty { D.is_honest self.new.disk ≡ D.is_honest self.old.disk }
        ensures keeping { D.keeps_crashes self.new.disk ≡ D.keeps_crashes self.old.disk }
        ensures refusal { IsOkUnless result Refusal.Disk }
        ensures count { Counts result (D.failures self.old.disk) (D.failures self.new.disk) }
    {
        self.under_way
            .complete(&mut self.disk, self.committed_fields.pages, &self.changes)?;
        self.changes.clear();
        self.is_header_changed = false;
        Ok(())
    }

    /// Cuts the file to its pages, which are all kept. A fault (91) changes nothing of them.
    fn cut(&mut self) -> Result<(), Refusal>
        requires { self.old.is_begun ≡ false }
        ensures cuts { (pages : FilePages) → IsTied D.Disk self.old → self.old.under_way.stage ≡ Fresh → IsKept D.Disk self.old pages
            → ArePages (committed D.Disk self.old) pages → HoldsNoChange self.old → Cuts D.Disk pages self.old self.new }
        ensures alone { self.new ≡ record self.old { disk = self.new.disk; clean = [] } }
        ensures honesty { D.is_honest self.new.disk ≡ D.is_honest self.old.disk }
        ensures keeping { D.keeps_crashes self.new.disk ≡ D.keeps_crashes self.old.disk }
        ensures refusal { IsOkUnless result Refusal.Disk }
        ensures count { Counts result (D.failures self.old.disk) (D.failures self.new.disk) }
    {
        self.clean.clear();
        cut(&mut self.disk, self.committed_fields.pages)
    }
}

//! A checkpoint that is under way: its stage, and the pages that it copies.
//!
//! Its pages are listed in the first stage, which may want memory. From there on each stage takes none.

ghost use Rattle.std.specs.Prelude.{◌≡◌, ◌≢◌, ◌<◌, ℕ, [], IsSome, IsTrue, IfOk, OnOk, OnErr, IsOkUnless};
ghost use Rattle.rs_disk.specs.Content.{Content};
ghost use Rattle.rs_journal.specs.Calls.{SyncsDisk};
ghost use Rattle.rs_journal.specs.FilePages.{FilePages};
ghost use Rattle.rs_journal.specs.Journal.{MakesPages, Recovers};
ghost use Rattle.rs_journal.specs.Stages.{GivesFrom, IsQuiet, StageImage, EveryImage, Meanwhile, EndsOrStops};
ghost use Rattle.rs_journal.specs.declared.stage.Stage.TheVariants.{Fresh};
ghost use Rattle.rs_page_cache.specs.Changes.{held_at};
ghost use Rattle.rs_pages.specs.declared.pages.TheConstants.{GREATEST_LIMIT};
ghost use Rattle.rs_page_copies.specs.Listed.{ListsCommitted, journal_from};

use crate::copied::Copied;
use crate::listing::list_committed;
use rs_disk::Disk;
use rs_journal::{Stage, complete};
use rs_page::Page;
use rs_page_cache::Changes;
use rs_refusal::Refusal;
use std::alloc::{AllocError, Global};
use std::marker::Model;

/// A checkpoint that is under way, or none: then its stage is the first.
#[derive(Drop)]
pub struct UnderWay {
    stage: Stage,
    /// The numbers of the pages that it copies, in ascending order.
    numbers: Vec<u32>,
    /// Page 0 as it is copied, where it is.
    first_page: Box<Page>,
}

impl Model for UnderWay {
    ghost use Rattle.rs_page_copies.specs.Listed.{Checkpoint, AreOrdered};

    ghost Value = { Checkpoint };

    ghost view = { λ u. record { stage = u.stage; numbers = u.numbers.items; first_page = u.first_page.value.bytes } };

    ghost invariant = { λ u. AreOrdered u.numbers.items };
}

impl UnderWay {
    /// No checkpoint is under way.
    pub fn new(alloc: Global) -> Result<UnderWay, AllocError>
        ensures stage { IfOk result (λ u. u.stage ≡ Fresh) }
        ensures numbers { IfOk result (λ u. u.numbers ≡ []) }
    {
        let first_page = Box::new(alloc, Page::new()).map_err(|_| AllocError)?;
        Ok(UnderWay {
            stage: Stage::Fresh,
            numbers: Vec::new(alloc),
            first_page,
        })
    }

    /// The stage that it has reached.
    pub fn stage(&self) -> Stage
        ensures { result ≡ self.now.stage }
    {
        self.stage
    }

    /// Lists the pages that a checkpoint copies: page 0 as it is given, where its fields are changed, and the committed pages that are
    /// held. It is refused with 90 alone.
    pub fn list(
        &mut self,
        changes: &Changes,
        first_page: &Page,
        is_header_changed: bool,
    ) -> Result<(), Refusal>
        requires fresh { self.old.stage ≡ Fresh }
        requires after { (number : ℕ) → IsSome (held_at changes.now number).committed → 0 < number }
        requires below { (number : ℕ) → IsSome (held_at changes.now number).committed → number < GREATEST_LIMIT }
        ensures lists { OnOk result (ListsCommitted changes.now is_header_changed self.new.numbers) }
        ensures first_page { self.new.first_page ≡ first_page.now.bytes }
        ensures stage { self.new.stage ≡ self.old.stage }
        ensures refusal { IsOkUnless result Refusal.OutOfMemory }
    {
        *self.first_page = *first_page;
        match list_committed(&mut self.numbers, changes, is_header_changed) {
            Ok(()) => Ok(()),
            Err(_) => {
                self.numbers.clear();
                Err(Refusal::OutOfMemory)
            }
        }
    }

    /// Takes the checkpoint of the pages that were listed from the stage that it has reached to its last. The journal comes after
    /// the file's pages, from the page `first` on. It takes no memory.
    ///
    /// After Ok the checkpoint's pages are the ones kept, and the stage is the first. After a fault (91) the stage is the one
    /// that was reached; where it is `Fresh`, the gate was not touched and the pages kept last stay.
    pub fn complete<D: Disk>(
        &mut self,
        disk: &mut D,
        first: u32,
        changes: &Changes,
    ) -> Result<(), Refusal>
        requires { 0 < first }
        ensures pages { self.new ≡ record self.old { stage = self.new.stage } }
        ensures ends { (kept checkpoint : FilePages) → MakesPages (journal_from first changes.now self.old) kept checkpoint
            → EveryImage D.Disk (StageImage self.old.stage kept (journal_from first changes.now self.old) checkpoint) disk.old
            → EndsOrStops D.Disk kept (journal_from first changes.now self.old) checkpoint
            (GivesFrom self.old.stage kept checkpoint) result self.new.stage disk.old disk.new }
        ensures since { (kept checkpoint : FilePages) → MakesPages (journal_from first changes.now self.old) kept checkpoint
            → EveryImage D.Disk (StageImage self.old.stage kept (journal_from first changes.now self.old) checkpoint) disk.old
            → IsTrue (D.keeps_crashes disk.old) → (image : Content) → D.left_since disk.old disk.new image
            → GivesFrom self.old.stage kept checkpoint image }
        ensures untouched { (kept checkpoint : FilePages) → MakesPages (journal_from first changes.now self.old) kept checkpoint
            → EveryImage D.Disk (StageImage self.old.stage kept (journal_from first changes.now self.old) checkpoint) disk.old
            → OnErr result (self.new.stage ≡ Fresh → Meanwhile D.Disk (IsQuiet kept) disk.old disk.new) }
        ensures goes_on { self.old.stage ≢ Fresh → OnErr result (self.new.stage ≢ Fresh) }
        ensures fresh { OnOk result (self.new.stage ≡ Fresh) }
        ensures calls { SyncsDisk D.Disk result disk.old disk.new }
    {
        let copied = Copied::new(&self.numbers, changes, &self.first_page);
        complete(disk, &mut self.stage, first, &copied)
    }
}

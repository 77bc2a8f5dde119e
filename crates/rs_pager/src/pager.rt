//! The pager: two maps of pages over a disk.
//!
//! The committed pages are what the disk holds, but for those that are changed and held. The working pages
//! are the committed ones with the changes since `begin`. Clean pages are held too, a bounded number of them.

ghost use Rattle.std.specs.Prelude.{◌≡◌, ◌≢◌, ◌⊎◌, ◌<◌, ◌≤◌, ◌^◌, ◌-◌, min, ℕ, true, false, None, IsOk, OnOk, OnErr, IfErr, MatchResult, length, []};
ghost use Rattle.rs_journal.specs.FilePages.{FilePages};
ghost use Rattle.rs_pages.specs.PageMap.{SamePages};
ghost use Rattle.rs_page_cache.specs.Changes.{ListsHeld};
ghost use Rattle.rs_pager.specs.Paged.{held};
ghost use Rattle.rs_journal.specs.declared.stage.Stage.TheVariants.{Fresh};
ghost use Rattle.rs_pager.specs.Lasts.{Lasts};
ghost use Rattle.rs_pager.specs.Maps.{committed, working, KeepsChanges, KeepsMaps, HoldsNoChange, IsKept, IsTied};
ghost use Rattle.rs_pager.specs.Opened.{Commits, Abandons, CountsFault};

use rs_disk::Disk;
use rs_journal::Stage;
use rs_page::FileHeader;
use rs_page_cache::{Changes, CleanPages, MOST_CLEAN};
use rs_page_copies::UnderWay;
use rs_refusal::Refusal;
use std::marker::Model;

/// The greatest number of changed pages that are held once room was made for changes.
pub const MOST_CHANGED: usize = 1_024;

/// Pages over a disk. Changed pages are held until they are written, and clean ones while there is room.
#[derive(Drop)]
pub struct Pager<D: Disk> {
    pub(crate) disk: D,
    pub(crate) limit: u32,
    pub(crate) changes: Changes,
    pub(crate) clean: CleanPages,
    pub(crate) committed_fields: FileHeader,
    pub(crate) working: FileHeader,
    /// The disk lacks the committed fields of page 0.
    pub(crate) is_header_changed: bool,
    pub(crate) is_begun: bool,
    pub(crate) full_refusals: u64,
    /// The checkpoint that is under way.
    pub(crate) under_way: UnderWay,
}

impl<D: Disk> Model for Pager<D> {
    ghost use Rattle.rs_pager.specs.Paged.{Paged, IsSound};

    ghost Value = { Paged D };

    ghost view = { λ p. record {
      disk = p.disk;
      limit = p.limit;
      changes = p.changes;
      clean = p.clean;
      committed_fields = p.committed_fields;
      working = p.working;
      is_header_changed = p.is_header_changed;
      is_begun = p.is_begun;
      full_refusals = p.full_refusals;
      under_way = p.under_way;
    } };

    ghost invariant = { λ p. IsSound p.limit p.changes p.committed_fields p.working p.is_begun p.under_way.stage };
}

impl<D: Disk> Pager<D> {
    /// Makes room for changes: where a checkpoint was stopped by a fault, or more than `MOST_CHANGED` pages are held as changes, all that is
    /// committed is made the file's by a checkpoint. After a refusal (90, 91) what was held as changed is held still, or is kept.
    pub fn make_room(&mut self) -> Result<(), Refusal>
        requires { self.old.is_begun ≡ false }
        ensures keeps { KeepsMaps D.Disk self.old self.new }
        ensures lasts { Lasts D.Disk self.old self.new }
        ensures same { SamePages (working D.Disk self.new) (committed D.Disk self.new) }
        ensures few { self.old.under_way.stage ≡ Fresh → length self.old.changes ≤ MOST_CHANGED → IsOk result × (self.new ≡ self.old) }
        ensures many { (MOST_CHANGED < length self.old.changes) ⊎ (self.old.under_way.stage ≢ Fresh) → OnOk result (HoldsNoChange self.new × (self.new.changes ≡ [])) }
        ensures shut { self.new.is_begun ≡ false }
        ensures fresh { OnOk result (self.new.under_way.stage ≡ Fresh) }
        ensures bound { OnOk result (length self.new.changes ≤ MOST_CHANGED) }
        ensures copies { (number : ℕ) → (held self.new number).copy ≡ None }
        ensures refused { OnErr result (KeepsChanges self.old self.new ⊎ HoldsNoChange self.new) }
        ensures refusal { IfErr result (λ why. (why ≡ Refusal.OutOfMemory) ⊎ (why ≡ Refusal.Disk)) }
        ensures count { MatchResult result (λ _. D.failures self.new.disk ≡ D.failures self.old.disk)
            (λ why. CountsFault why (D.failures self.old.disk) (D.failures self.new.disk)) }
    {
        if self.changes.len() > MOST_CHANGED || self.under_way.stage() != Stage::Fresh {
            self.checkpoint()?;
        }
        Ok(())
    }

    /// Begins changes, for which there is room. It takes no memory and touches no disk.
    pub fn begin(&mut self)
        requires shut { self.old.is_begun ≡ false }
        requires few { length self.old.changes ≤ MOST_CHANGED }
        requires fresh { self.old.under_way.stage ≡ Fresh }
        ensures begins { self.new ≡ record self.old { is_begun = true } }
        ensures keeps { KeepsMaps D.Disk self.old self.new }
        ensures same { SamePages (working D.Disk self.new) (committed D.Disk self.new) }
    {
        self.is_begun = true;
    }

    /// The working pages become the committed ones. It takes no memory and touches no disk.
    pub fn commit(&mut self)
        requires { self.old.is_begun ≡ true }
        ensures commits { Commits self.old self.new }
        ensures committed { SamePages (committed D.Disk self.new) (working D.Disk self.old) }
        ensures working { SamePages (working D.Disk self.new) (working D.Disk self.old) }
        ensures tied { IsTied D.Disk self.old → IsTied D.Disk self.new }
        ensures kept { (pages : FilePages) → IsKept D.Disk self.old pages → IsKept D.Disk self.new pages }
    {
        self.changes.commit();
        self.is_header_changed = self.is_header_changed || self.committed_fields != self.working;
        self.committed_fields = self.working;
        self.is_begun = false;
    }

    /// The working pages are the committed ones again. It takes no memory and touches no disk.
    pub fn abandon(&mut self)
        requires { self.old.is_begun ≡ true }
        ensures abandons { Abandons self.old self.new }
        ensures committed { SamePages (committed D.Disk self.new) (committed D.Disk self.old) }
        ensures working { SamePages (working D.Disk self.new) (committed D.Disk self.old) }
        ensures tied { IsTied D.Disk self.old → IsTied D.Disk self.new }
        ensures kept { (pages : FilePages) → IsKept D.Disk self.old pages → IsKept D.Disk self.new pages }
    {
        self.changes.abandon();
        self.working = self.committed_fields;
        self.is_begun = false;
    }

    /// Drops the clean pages that are held, so that they are read from the disk again. It is never refused.
    pub fn forget(&mut self)
        ensures forgets { self.new ≡ record self.old { clean = [] } }
        ensures keeps { KeepsMaps D.Disk self.old self.new }
    {
        self.clean.clear();
    }

    /// Gives the disk back, and writes nothing.
    pub fn into_disk(self) -> D
        ensures { result ≡ self.disk }
    {
        let Pager {
            disk,
            limit: _,
            changes,
            clean,
            committed_fields: _,
            working: _,
            is_header_changed: _,
            is_begun: _,
            full_refusals: _,
            under_way,
        } = self;
        drop(changes);
        drop(clean);
        drop(under_way);
        disk
    }

    /// How many changed pages (2^32 - 1 at the most) and how many clean ones are held.
    pub fn held(&self) -> (u32, u32)
        ensures changed { result.0 ≡ min (length self.now.changes) (2 ^ 32 - 1) }
        ensures pages { ListsHeld self.now.changes }
        ensures clean { result.1 ≡ length self.now.clean }
        ensures bound { result.1 ≤ MOST_CLEAN }
    {
        let changed = self.changes.held().min(u32::MAX as usize);
        (changed as u32, self.clean.len() as u32)
    }

    /// The greatest number of pages. No more are committed.
    pub fn limit(&self) -> u32
        ensures limit { result ≡ self.now.limit }
        ensures within { self.now.committed_fields.pages ≤ self.now.limit }
    {
        self.limit
    }

    /// Whether the disk lacks page 0 as it is committed. Once a file was opened, it does where the file is one of version 1.
    pub fn lacks_first_page(&self) -> bool
        ensures { result ≡ self.now.is_header_changed }
    {
        self.is_header_changed
    }

    /// How often a page was refused because the file is full. The count stops at 2^64 - 1.
    pub fn full_refusals(&self) -> u64
        ensures { result ≡ self.now.full_refusals }
    {
        self.full_refusals
    }
}

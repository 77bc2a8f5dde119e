//! This module writes what a store keeps to its disk: it is saved, read anew, and closed.

ghost use Rattle.std.specs.Prelude.{◌≡◌, ◌≢◌, ◌⊎◌, ℕ, Err, IfErr, MatchResult, OnErr, OnOk};
ghost use Rattle.rs_file.specs.Calls.{RefusesToLoad};
ghost use Rattle.rs_machine.specs.State.{State};
ghost use Rattle.rs_pager.specs.Maps.{HoldsNoChange, KeepsBelow, KeepsChanges};
ghost use Rattle.rs_pager.specs.Opened.{CountsFault};
ghost use Rattle.rs_store.specs.Calls.{Closes, CountsClosing, KeepsStore, Reopens, Saves};
ghost use Rattle.rs_store.specs.Changing.{StillHolds};
ghost use Rattle.rs_store.specs.Kept.{StandsIn};

use crate::loading::{Loaded, load_state};
use crate::store::Store;
use rs_checkpoint::checkpoint;
use rs_disk::Disk;
use rs_file::laws::file_holds_one_thing;
use rs_file_meaning::changes::meant_contents_stay_meant;
use rs_file_meaning::standing::contents_have_one_state;
use rs_refusal::Refusal;
use std::alloc::Global;

impl<D: Disk> Store<D> {
    /// Makes all that the store keeps the file's, by a checkpoint, and waits until it is on the medium. The store keeps what it kept,
    /// whatever is answered; a crash meanwhile leaves what was saved last or what is saved now. It is refused with 90 before anything is
    /// written, and with 91; then it holds the same changes, or all of them are written and only the cut of the file failed.
    pub fn save(&mut self) -> Result<(), Refusal>
        ensures keeps { KeepsStore D.Disk self.old self.new }
        ensures changes { StillHolds D.Disk self.old.pager self.new.pager }
        ensures saves { Saves D.Disk result self.old self.new }
        ensures written { OnOk result (HoldsNoChange self.new.pager) }
        ensures refused { IfErr result (λ why. (why ≡ Refusal.OutOfMemory) ⊎ (why ≡ Refusal.Disk)) }
        ensures count { MatchResult result (λ _. D.failures self.new.pager.disk ≡ D.failures self.old.pager.disk)
            (λ why. CountsFault why (D.failures self.old.pager.disk) (D.failures self.new.pager.disk)) }
    {
        checkpoint(&mut self.pager)
    }

    // decision: reopen-beside
    /// Saves, and reads and checks the whole file anew, page 0 first, beside what is in use, which it then takes the place of. It is refused
    /// with 90, with 91, and with 94 only where the disk does not give back what was written; after a refusal the store keeps what it kept.
    pub fn reopen(&mut self, alloc: Global) -> Result<(), Refusal>
        ensures reopens { Reopens D.Disk result self.old self.new }
        ensures saves { Saves D.Disk result self.old self.new }
        ensures refused { RefusesToLoad result }
        ensures count { MatchResult result (λ _. D.failures self.new.pager.disk ≡ D.failures self.old.pager.disk)
            (λ why. CountsFault why (D.failures self.old.pager.disk) (D.failures self.new.pager.disk)) }
    {
        self.save()?;
        self.check_first_page()?;
        self.read_anew(alloc)
    }

    /// Saves, and gives the disk back. A refusal (90, 91) hands back the store, which keeps what it kept.
    pub fn close(self) -> Result<D, (Store<D>, Refusal)>
        ensures closes { Closes D.Disk self result }
        ensures count { CountsClosing D.Disk self result }
    {
        let mut store = self;
        match store.save() {
            Ok(()) => Ok(store.into_disk()),
            Err(refusal) => Err((store, refusal)),
        }
    }

    /// Reads page 0 anew, once all is written. It is refused with 91, and with 94 where page 0 is no longer what was written; whatever is
    /// answered, the store keeps what it kept.
    fn check_first_page(&mut self) -> Result<(), Refusal>
        requires written { HoldsNoChange self.old.pager }
        ensures keeps { KeepsStore D.Disk self.old self.new }
        ensures changes { KeepsChanges self.old.pager self.new.pager }
        ensures below { KeepsBelow D.Disk self.old.pager self.new.pager }
        ensures sound { (oldest : ℕ) (state : State) → StandsIn D.Disk oldest self.old state → result ≢ Err Refusal.DamagedFile }
        ensures refused { RefusesToLoad result }
        ensures count { MatchResult result (λ _. D.failures self.new.pager.disk ≡ D.failures self.old.pager.disk)
            (λ why. CountsFault why (D.failures self.old.pager.disk) (D.failures self.new.pager.disk)) }
    {
        self.pager.check_first_page()
    }

    /// Reads and checks the whole file beside what is in use, and puts it in the place of that. It is refused with 90, with 91 and with
    /// 94; after a refusal the store keeps what it kept.
    fn read_anew(&mut self, alloc: Global) -> Result<(), Refusal>
        ensures reopens { Reopens D.Disk result self.old self.new }
        ensures changes { OnErr result (KeepsChanges self.old.pager self.new.pager) }
        ensures below { KeepsBelow D.Disk self.old.pager self.new.pager }
        ensures refused { RefusesToLoad result }
        ensures count { MatchResult result (λ _. D.failures self.new.pager.disk ≡ D.failures self.old.pager.disk)
            (λ why. CountsFault why (D.failures self.old.pager.disk) (D.failures self.new.pager.disk)) }
    {
        file_holds_one_thing();
        contents_have_one_state();
        meant_contents_stay_meant();
        self.pager.forget();
        let Loaded {
            file,
            catalog,
            referents,
        } = load_state(alloc, &mut self.pager)?;
        self.file = file;
        self.catalog = catalog;
        self.referents = referents;
        Ok(())
    }

    /// Gives the disk back, and writes nothing, not even what is held of changes: for a store that was only read.
    pub fn into_disk(self) -> D
        ensures { result ≡ self.pager.disk }
    {
        let Store {
            pager,
            file,
            catalog,
            referents,
        } = self;
        drop(file);
        drop(catalog);
        drop(referents);
        pager.into_disk()
    }
}

//! This module makes a file in which nothing is defined, as a store.

ghost use Rattle.std.specs.Prelude.{◌≡◌, ◌≢◌, ◌≤◌, [], false, Err, IfErr, IfOk, IsTrue, MatchResult, OnOk};
ghost use Rattle.rs_machine.specs.State.{fresh};
ghost use Rattle.rs_journal.specs.declared.stage.Stage.TheVariants.{Fresh};
ghost use Rattle.rs_pager.specs.Opened.{CountsFault, IsCreated};
ghost use Rattle.rs_store.specs.Calls.{Creates, HandsOver, WantsCreating};
ghost use Rattle.rs_store.specs.Kept.{IsAtRest};
ghost use Rattle.rs_store.specs.Making.{HasFresh, IsFreshFile};

use crate::loading::{Loaded, load_state};
use crate::opening::store_of;
use crate::store::Store;
use rs_checkpoint::checkpoint;
use rs_disk::Disk;
use rs_file::laws::file_holds_one_thing;
use rs_file_meaning::changes::meant_contents_stay_meant;
use rs_file_meaning::standing::{contents_have_one_state, created_file_stands_for_the_fresh_state};
use rs_pager::Pager;
use rs_pages::{GREATEST_LIMIT, LEAST_LIMIT};
use rs_refusal::Refusal;
use std::alloc::Global;

impl<D: Disk> Store<D> {
    /// Writes a file of version 2 in which nothing is defined in place of all that the disk holds, and syncs it. `limit` is the greatest number of
    /// pages. It is refused with 90 and 91; with 92 never, though no clause says so, since three pages have room within each
    /// limit; and with 94 only where the disk does not give back what was written. A refusal hands the disk back, with any part of this
    /// done.
    pub fn create(alloc: Global, disk: D, limit: u32) -> Result<Store<D>, (D, Refusal)>
        requires least { LEAST_LIMIT ≤ limit }
        requires greatest { limit ≤ GREATEST_LIMIT }
        ensures creates { IsTrue (D.is_honest disk) → Creates D.Disk result }
        ensures hands { HandsOver D.Disk limit disk result }
        ensures refused { IfErr result (λ refused. WantsCreating refused.1) }
    {
        let mut pager = Pager::create(alloc, disk, limit)?;
        match create_pages(alloc, &mut pager) {
            Ok(loaded) => Ok(store_of(pager, loaded)),
            Err(refusal) => Err((pager.into_disk(), refusal)),
        }
    }
}

/// Writes the file, and reads it back. It is refused with 90, with 91 and with 92; with 94 only on a disk that
/// isn't honest.
fn create_pages<D: Disk>(alloc: Global, pager: &mut Pager<D>) -> Result<Loaded, Refusal>
    requires shut { pager.old.is_begun ≡ false }
    requires few { pager.old.changes ≡ [] }
    requires fresh { pager.old.under_way.stage ≡ Fresh }
    ensures made { IsTrue (D.is_honest pager.old.disk) → IsCreated D.Disk pager.old
        → IfOk result (λ loaded. HasFresh D.Disk pager.new loaded.file loaded.catalog loaded.referents) }
    ensures sound { IsTrue (D.is_honest pager.old.disk) → IsCreated D.Disk pager.old → result ≢ Err Refusal.DamagedFile }
    ensures file { IfOk result (λ loaded. IsAtRest loaded.file loaded.catalog) }
    ensures shut { OnOk result (pager.new.is_begun ≡ false) }
    ensures limit { pager.new.limit ≡ pager.old.limit }
    ensures honesty { D.is_honest pager.new.disk ≡ D.is_honest pager.old.disk }
    ensures keeping { D.keeps_crashes pager.new.disk ≡ D.keeps_crashes pager.old.disk }
    ensures refused { IfErr result WantsCreating }
    ensures count { MatchResult result (λ _. D.failures pager.new.disk ≡ D.failures pager.old.disk)
        (λ why. CountsFault why (D.failures pager.old.disk) (D.failures pager.new.disk)) }
{
    file_holds_one_thing();
    contents_have_one_state();
    meant_contents_stay_meant();
    write_nothing(alloc, pager)?;
    load_state(alloc, pager)
}

/// Writes that nothing is defined, in a file of page 0 and an empty directory.
fn write_nothing<D: Disk>(alloc: Global, pager: &mut Pager<D>) -> Result<(), Refusal>
    requires shut { pager.old.is_begun ≡ false }
    requires few { pager.old.changes ≡ [] }
    requires fresh { pager.old.under_way.stage ≡ Fresh }
    ensures writes { IsTrue (D.is_honest pager.old.disk) → IsCreated D.Disk pager.old → OnOk result (IsFreshFile D.Disk pager.new) }
    ensures sound { IsTrue (D.is_honest pager.old.disk) → IsCreated D.Disk pager.old → result ≢ Err Refusal.DamagedFile }
    ensures shut { OnOk result (pager.new.is_begun ≡ false) }
    ensures limit { pager.new.limit ≡ pager.old.limit }
    ensures honesty { D.is_honest pager.new.disk ≡ D.is_honest pager.old.disk }
    ensures keeping { D.keeps_crashes pager.new.disk ≡ D.keeps_crashes pager.old.disk }
    ensures refused { IfErr result WantsCreating }
    ensures count { MatchResult result (λ _. D.failures pager.new.disk ≡ D.failures pager.old.disk)
        (λ why. CountsFault why (D.failures pager.old.disk) (D.failures pager.new.disk)) }
{
    pager.begin();
    if let Err(refusal) = rs_file::create(alloc, pager) {
        pager.abandon();
        return Err(refusal);
    }
    pager.commit();
    created_file_stands_for_the_fresh_state();
    checkpoint(pager)
}

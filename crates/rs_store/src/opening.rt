//! This module opens the file that a disk holds, as a store: one of version 2 is recovered, and one of version 1 that was closed becomes one
//! of version 2.

ghost use Rattle.std.specs.Prelude.{◌≡◌, ◌≢◌, ◌≤◌, ◌⊎◌, true, false, Err, IfErr, IfOk, IsTrue, MatchResult, OnOk};
ghost use Rattle.rs_page.specs.declared.file_header.TheConstants.{FLAG_OFFSET};
ghost use Rattle.rs_pager.specs.Lasts.{KeepsMap};
ghost use Rattle.rs_pager.specs.Maps.{committed, working, IsTied, KeepsBelow, KeepsMaps};
ghost use Rattle.rs_pager.specs.Opened.{CountsFault};
ghost use Rattle.rs_store.specs.Calls.{HandsOver, Opens, OpensPages, PreservesFile, WantsOpening};
ghost use Rattle.rs_store.specs.Kept.{IsAtRest};
ghost use Rattle.rs_store.specs.Lasting.{Endures};
ghost use Rattle.rs_store.specs.Loading.{LoadsState, StandsForNone, StandsForSome};

use crate::loading::{Loaded, load_state};
use crate::store::Store;
use rs_disk::Disk;
use rs_pager::Pager;
use rs_pager::laws::disk_stands_for_one_map;
use rs_pages::{GREATEST_LIMIT, LEAST_LIMIT};
use rs_refusal::Refusal;
use std::alloc::Global;

impl<D: Disk> Store<D> {
    // decision: recovered-then-checked
    /// Opens the file that the disk holds, and checks it as a whole. One of version 2 is recovered first, where its gate is open; else nothing
    /// of it is written. One of version 1 that was closed becomes one of version 2. `limit` is the greatest number of pages.
    ///
    /// It is refused with 94 only where the disk is a file of no state, closed or not, and with 95 only where it is one of version 1 and was
    /// not closed; it may be refused with 90 or 91 instead. A refusal hands the disk back. Whatever is answered, a file
    /// that stood for a state stands for it still, and so does what a crash meanwhile leaves of it, but for what one might have left before.
    pub fn open(alloc: Global, disk: D, limit: u32) -> Result<Store<D>, (D, Refusal)>
        requires least { LEAST_LIMIT ≤ limit }
        requires greatest { limit ≤ GREATEST_LIMIT }
        ensures opens { IsTrue (D.is_honest disk) → Opens D.Disk limit disk result }
        ensures preserves { IsTrue (D.is_honest disk) → PreservesFile D.Disk limit disk result }
        ensures hands { HandsOver D.Disk limit disk result }
        ensures full { IfOk result (λ store. store.pager.full_refusals ≡ 0) }
        ensures refused { IfErr result (λ refused. WantsOpening refused.1) }
    {
        disk_stands_for_one_map();
        let mut pager = Pager::open(alloc, disk, limit)?;
        match open_pages(alloc, &mut pager) {
            Ok(loaded) => Ok(store_of(pager, loaded)),
            Err(refusal) => Err((pager.into_disk(), refusal)),
        }
    }
}

/// The store over these pages, of which this is open and in memory.
pub(crate) fn store_of<D: Disk>(pager: Pager<D>, loaded: Loaded) -> Store<D>
    requires shut { pager.is_begun ≡ false }
    requires rests { IsAtRest loaded.file loaded.catalog }
    ensures { result ≡ record { pager = pager; file = loaded.file; catalog = loaded.catalog; referents = loaded.referents } }
{
    let Loaded {
        file,
        catalog,
        referents,
    } = loaded;
    Store {
        pager,
        file,
        catalog,
        referents,
    }
}

/// Reads and checks the file, and makes one of version 1 that was closed one of version 2. It is refused with 90, with 91, with 94 only where
/// the pages stand for no state, and with 95 only where they do and are of version 1 and not closed. Nothing is written but to a file
/// of version 1 that was closed and stands for a state.
fn open_pages<D: Disk>(alloc: Global, pager: &mut Pager<D>) -> Result<Loaded, Refusal>
    requires shut { pager.old.is_begun ≡ false }
    ensures opens { OnOk result (OpensPages D.Disk pager.old pager.new) }
    ensures read { pager.old.is_header_changed ≡ false → KeepsBelow D.Disk pager.old pager.new }
    ensures endures { Endures D.Disk pager.old pager.new }
    ensures unclosed { IsTied D.Disk pager.old → KeepsBelow D.Disk pager.old pager.new
        ⊎ ((pager.old.is_header_changed ≡ true) × StandsForSome (working D.Disk pager.old) × ((D.seen pager.old.disk).byte FLAG_OFFSET ≡ 0)) }
    ensures shut { pager.new.is_begun ≡ pager.old.is_begun }
    ensures honesty { D.is_honest pager.new.disk ≡ D.is_honest pager.old.disk }
    ensures limit { pager.new.limit ≡ pager.old.limit }
    ensures full { pager.new.full_refusals ≡ pager.old.full_refusals }
    ensures loads { IsTied D.Disk pager.old → IfOk result (λ loaded. LoadsState (working D.Disk pager.old) loaded.file loaded.catalog loaded.referents) }
    ensures file { IfOk result (λ loaded. IsAtRest loaded.file loaded.catalog) }
    ensures closed { IsTrue (D.is_honest pager.old.disk) → OnOk result (pager.old.is_header_changed ≡ true → (D.seen pager.old.disk).byte FLAG_OFFSET ≡ 0) }
    ensures damaged { IsTied D.Disk pager.old → result ≡ Err Refusal.DamagedFile → StandsForNone (working D.Disk pager.old) }
    ensures left_open { IsTied D.Disk pager.old → result ≡ Err Refusal.FileNotClosed
        → (pager.old.is_header_changed ≡ true) × StandsForSome (working D.Disk pager.old) × ((D.seen pager.old.disk).byte FLAG_OFFSET ≢ 0) }
    ensures refused { IfErr result WantsOpening }
    ensures count { MatchResult result (λ _. D.failures pager.new.disk ≡ D.failures pager.old.disk)
        (λ why. CountsFault why (D.failures pager.old.disk) (D.failures pager.new.disk)) }
{
    let loaded = load_state(alloc, pager)?;
    migrate(pager)?;
    Ok(loaded)
}

/// Makes a file of version 1 that was closed one of version 2, by a checkpoint. One of version 2 is left alone. It is refused with 95 where the
/// file was not closed, and with 90 and 91.
fn migrate<D: Disk>(pager: &mut Pager<D>) -> Result<(), Refusal>
    requires { pager.old.is_begun ≡ false }
    ensures alone { pager.old.is_header_changed ≡ false → pager.new ≡ pager.old }
    ensures keeps { pager.old.is_header_changed ≡ true → KeepsMaps D.Disk pager.old pager.new }
    ensures endures { Endures D.Disk pager.old pager.new }
    ensures unclosed { IsTrue (D.is_honest pager.old.disk) → KeepsBelow D.Disk pager.old pager.new
        ⊎ ((pager.old.is_header_changed ≡ true) × ((D.seen pager.old.disk).byte FLAG_OFFSET ≡ 0)) }
    ensures kept { pager.old.is_header_changed ≡ true → IsTied D.Disk pager.old → OnOk result (KeepsMap D.Disk pager.new (committed D.Disk pager.old)) }
    ensures begun { pager.new.is_begun ≡ pager.old.is_begun }
    ensures honesty { D.is_honest pager.new.disk ≡ D.is_honest pager.old.disk }
    ensures limit { pager.new.limit ≡ pager.old.limit }
    ensures full { pager.new.full_refusals ≡ pager.old.full_refusals }
    ensures closed { IsTrue (D.is_honest pager.old.disk) → OnOk result (pager.old.is_header_changed ≡ true → (D.seen pager.old.disk).byte FLAG_OFFSET ≡ 0) }
    ensures open { IsTrue (D.is_honest pager.old.disk) → result ≡ Err Refusal.FileNotClosed
        → (pager.old.is_header_changed ≡ true) × ((D.seen pager.old.disk).byte FLAG_OFFSET ≢ 0) }
    ensures refused { IfErr result (λ why. (why ≡ Refusal.OutOfMemory) ⊎ (why ≡ Refusal.Disk) ⊎ (why ≡ Refusal.FileNotClosed)) }
    ensures count { MatchResult result (λ _. D.failures pager.new.disk ≡ D.failures pager.old.disk)
        (λ why. CountsFault why (D.failures pager.old.disk) (D.failures pager.new.disk)) }
{
    if !pager.lacks_first_page() {
        return Ok(());
    }
    check_closed(pager)?;
    rs_checkpoint::migrate(pager)
}

/// Ok exactly where the disk says that the file is closed; 95 where not, and 91. Nothing changes.
fn check_closed<D: Disk>(pager: &mut Pager<D>) -> Result<(), Refusal>
    ensures keeps { KeepsMaps D.Disk pager.old pager.new }
    ensures below { KeepsBelow D.Disk pager.old pager.new }
    ensures begun { pager.new.is_begun ≡ pager.old.is_begun }
    ensures closed { IsTrue (D.is_honest pager.old.disk) → OnOk result ((D.seen pager.old.disk).byte FLAG_OFFSET ≡ 0) }
    ensures open { IsTrue (D.is_honest pager.old.disk) → result ≡ Err Refusal.FileNotClosed → (D.seen pager.old.disk).byte FLAG_OFFSET ≢ 0 }
    ensures refused { IfErr result (λ why. (why ≡ Refusal.Disk) ⊎ (why ≡ Refusal.FileNotClosed)) }
    ensures count { MatchResult result (λ _. D.failures pager.new.disk ≡ D.failures pager.old.disk)
        (λ why. CountsFault why (D.failures pager.old.disk) (D.failures pager.new.disk)) }
{
    if pager.open_flag()? == 0 {
        Ok(())
    } else {
        Err(Refusal::FileNotClosed)
    }
}

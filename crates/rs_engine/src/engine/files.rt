//! How an engine comes to be over a disk, is saved, read anew and put away.
//!
//! It promises that the file it leaves stands for the state that it was in, without cursors, and that it opens a file as the state
//! that the file stands for.

ghost use Rattle.std.specs.Prelude.{◌≡◌, ◌≤◌, ◌-◌, ◌^◌, ◌⊎◌, ℕ, IfErr, IsTrue, MatchResult, Ok, OnErr, OnOk, length, min};
ghost use Rattle.rs_file.specs.Calls.{RefusesToLoad};
ghost use Rattle.std.specs.FinMap as names;
ghost use Rattle.rs_cursor.specs.Held.{held_of};
ghost use Rattle.rs_engine.specs.Files.{Closes, Creates, Opens, Saves, stores_back, stores_of};
ghost use Rattle.rs_engine.specs.Replied.{count_reply_of, nothing_reply_of};
ghost use Rattle.rs_engine.specs.Serving.{Serves};
ghost use Rattle.rs_engine.specs.Staying.{HasNone, LeavesCursors, StaysAsItWas};
ghost use Rattle.rs_machine.specs.State.{State};
ghost use Rattle.rs_machine.specs.Step.{counted, without_cursors};
ghost use Rattle.rs_page_cache.specs.Changes.{ListsHeld};
ghost use Rattle.rs_page_cache.specs.declared.clean.TheConstants.{MOST_CLEAN};
ghost use Rattle.rs_pager.specs.Lasts.{Lasts};
ghost use Rattle.rs_pager.specs.Opened.{CountsFault};
ghost use Rattle.rs_store_source.specs.Calls.{CountsClosing, HandsOver, PreservesFile, WantsCreating, WantsOpening};
ghost use Rattle.rs_store_source.specs.Kept.{garbage_of};

use crate::engine::Engine;
use crate::engine::ahead::LinesAhead;
use crate::engine::live::LiveStore;
use crate::engine::open::OpenCursors;
use rs_cursor::Cursors;
use rs_disk::Disk;
use rs_machine_laws::lawful::{accepted_step_leaves_the_state_lawful, fresh_state_is_lawful};
use rs_pages::{GREATEST_LIMIT, LEAST_LIMIT};
use rs_refusal::Refusal;
use rs_store_source::rs_store::Store;
use rs_store_source::rs_store::laws::state_of_a_disk_is_lawful;
use std::alloc::Global;

impl<D: Disk> Engine<D> {
    /// Writes a file in which nothing is defined in place of all that the disk holds, as `create_within` does with the greatest limit.
    pub fn create(alloc: Global, disk: D) -> Result<Engine<D>, (D, Refusal)>
        ensures creates { IsTrue (D.is_honest disk) → Creates D.Disk result }
        ensures hands { HandsOver D.Disk GREATEST_LIMIT disk (stores_of result) }
        ensures refused { IfErr result (λ refused. WantsCreating refused.1) }
    {
        Engine::create_within(alloc, disk, GREATEST_LIMIT)
    }

    /// Writes a file of version 2 in which nothing is defined in place of all that the disk holds, and syncs it. `limit` is the greatest
    /// number of pages. It is refused with 90, 91 and 92, and with 94 only where the disk does not give back what was written. A
    /// refusal hands the disk back, with any part of this done.
    pub fn create_within(alloc: Global, disk: D, limit: u32) -> Result<Engine<D>, (D, Refusal)>
        requires least { LEAST_LIMIT ≤ limit }
        requires greatest { limit ≤ GREATEST_LIMIT }
        ensures creates { IsTrue (D.is_honest disk) → Creates D.Disk result }
        ensures hands { HandsOver D.Disk limit disk (stores_of result) }
        ensures refused { IfErr result (λ refused. WantsCreating refused.1) }
    {
        fresh_state_is_lawful();
        let store = Store::create(alloc, disk, limit)?;
        Ok(engine_over(alloc, store))
    }

    /// Opens the file that the disk holds, and checks it as a whole, as `open_within` does with the greatest limit.
    pub fn open(alloc: Global, disk: D) -> Result<Engine<D>, (D, Refusal)>
        ensures opens { IsTrue (D.is_honest disk) → Opens D.Disk GREATEST_LIMIT disk result }
        ensures preserves { IsTrue (D.is_honest disk) → PreservesFile D.Disk GREATEST_LIMIT disk (stores_of result) }
        ensures hands { HandsOver D.Disk GREATEST_LIMIT disk (stores_of result) }
        ensures refused { IfErr result (λ refused. WantsOpening refused.1) }
    {
        Engine::open_within(alloc, disk, GREATEST_LIMIT)
    }

    /// Opens the file that the disk holds, and checks it as a whole. One of version 2 is recovered first, where a checkpoint was cut short;
    /// else nothing of it is written. One of version 1 that was closed becomes one of version 2. `limit` is the greatest number of pages.
    ///
    /// It is refused with 94 only where the disk is a file of no state, closed or not, and with 95 only where it is one of version 1 and was
    /// not closed; it may be refused with 90 or 91 instead. A refusal hands the disk back. Whatever is answered, a file
    /// that stood for a state stands for it still, and so does what a crash meanwhile leaves of it, but for what one might have left before.
    pub fn open_within(alloc: Global, disk: D, limit: u32) -> Result<Engine<D>, (D, Refusal)>
        requires least { LEAST_LIMIT ≤ limit }
        requires greatest { limit ≤ GREATEST_LIMIT }
        ensures opens { IsTrue (D.is_honest disk) → Opens D.Disk limit disk result }
        ensures preserves { IsTrue (D.is_honest disk) → PreservesFile D.Disk limit disk (stores_of result) }
        ensures hands { HandsOver D.Disk limit disk (stores_of result) }
        ensures refused { IfErr result (λ refused. WantsOpening refused.1) }
    {
        state_of_a_disk_is_lawful();
        let store = Store::open(alloc, disk, limit)?;
        Ok(engine_over(alloc, store))
    }

    /// Saves, and gives the disk back. Cursors are closed. A refusal (90, 91) hands back the engine as it was.
    pub fn close(self) -> Result<D, (Engine<D>, Refusal)>
        ensures closes { Closes D.Disk self result }
        ensures count { CountsClosing D.Disk self.store (stores_back result) }
    {
        let Engine {
            alloc,
            live: LiveStore { store, oldest },
            cursors,
        } = self;
        match store.close() {
            Ok(disk) => Ok(disk),
            Err((store, refusal)) => Err((
                Engine {
                    alloc,
                    live: LiveStore { store, oldest },
                    cursors,
                },
                refusal,
            )),
        }
    }

    /// Makes all that is kept the file's, by a checkpoint, and waits until it is on the medium; a crash meanwhile leaves what was saved
    /// last or what is saved now. It answers 0. It is refused with 90 before anything is written, and with 91; then the changes are held
    /// still, or all of them are written.
    pub(crate) fn save(&mut self) -> Result<u128, Refusal>
        ensures serves { Serves D.Disk (λ (state : State). Ok (counted 0 state)) (count_reply_of result) self.old self.new }
        ensures saves { Saves D.Disk result self.old self.new }
        ensures refused { IfErr result (λ why. (why ≡ Refusal.OutOfMemory) ⊎ (why ≡ Refusal.Disk)) }
        ensures count { MatchResult result (λ _. D.failures self.new.store.pager.disk ≡ D.failures self.old.store.pager.disk)
            (λ why. CountsFault why (D.failures self.old.store.pager.disk) (D.failures self.new.store.pager.disk)) }
        ensures leaves { LeavesCursors D.Disk result self.old self.new }
    {
        self.live.store.save()?;
        Ok(0)
    }

    /// Saves, reads and checks the whole file anew beside what is in use, which it then takes the place of, and closes all cursors. It
    /// is refused with 90, with 91, and with 94 only where the disk does not give back what was written; a refusal changes nothing. On a
    /// disk that lies too it leaves each cursor and its place, what is open, and the held changes, or they are all written.
    pub fn reopen(&mut self) -> Result<(), Refusal>
        ensures serves { Serves D.Disk (λ (state : State). Ok (counted 0 (without_cursors state))) (nothing_reply_of result) self.old self.new }
        ensures saves { Saves D.Disk result self.old self.new }
        ensures cursors { OnErr result (self.new.cursors ≡ self.old.cursors) }
        ensures stays { OnErr result (StaysAsItWas D.Disk self.old self.new) }
        ensures none { OnOk result (HasNone self.new) }
        ensures lasts { Lasts D.Disk self.old.store.pager self.new.store.pager }
        ensures refused { RefusesToLoad result }
        ensures count { MatchResult result (λ _. D.failures self.new.store.pager.disk ≡ D.failures self.old.store.pager.disk)
            (λ why. CountsFault why (D.failures self.old.store.pager.disk) (D.failures self.new.store.pager.disk)) }
    {
        accepted_step_leaves_the_state_lawful();
        self.live.store.reopen(self.alloc)?;
        self.live.oldest = self.live.store.accepted();
        self.cursors.held.close_all();
        self.cursors.ahead.clear();
        Ok(())
    }

    /// The greatest number of pages. No more are kept.
    pub fn limit(&self) -> u32
        ensures limit { result ≡ self.now.store.pager.limit }
        ensures within { self.now.store.pager.committed_fields.pages ≤ self.now.store.pager.limit }
    {
        self.live.store.limit()
    }

    /// How many changed pages (2^32 - 1 at the most) and how many clean ones are held in memory.
    pub fn held(&self) -> (u32, u32)
        ensures changed { result.0 ≡ min (length self.now.store.pager.changes) (2 ^ 32 - 1) }
        ensures pages { ListsHeld self.now.store.pager.changes }
        ensures clean { result.1 ≡ length self.now.store.pager.clean }
        ensures bound { result.1 ≤ MOST_CLEAN }
    {
        self.live.store.held()
    }

    /// How many records of all tables and of the referents are dead and not cleared (2^64 - 1 at the most).
    pub fn garbage(&self) -> u64
        ensures { result ≡ min (garbage_of self.now.store.file) (2 ^ 64 - 1) }
    {
        self.live.store.garbage()
    }
}

/// An engine over the store, with no cursors.
fn engine_over<D: Disk>(alloc: Global, store: Store<D>) -> Engine<D>
    ensures store { result.store ≡ store }
    ensures oldest { result.oldest ≡ store.file.accepted }
    ensures cursors { (session : ℕ) → held_of result.cursors.held session ≡ names.empty }
{
    let oldest = store.accepted();
    Engine {
        alloc,
        live: LiveStore { store, oldest },
        cursors: OpenCursors {
            held: Cursors::new(alloc),
            ahead: LinesAhead::new(alloc),
        },
    }
}

//! These laws say that an engine is one machine, which lines its cursors have left, which state it stands for as a source, that its
//! plans are chosen by that state, that a session has a number in its range, what may be cleared where no cursor is open, and which state
//! a crash leaves, in one step and over any list of them.

ghost use Rattle.std.specs.Prelude.{◌≡◌, ◌<◌, ◌≤◌, ◌⊎◌, ℕ, IsTrue, List, Some, false};
ghost use Rattle.std.specs.FinMap as names;
ghost use Rattle.rs_answers.specs.Counts.{AreCounted};
ghost use Rattle.rs_cursor.specs.Held.{held_of};
ghost use Rattle.rs_cursor.specs.declared.cursor.Cursor.{Cursor};
ghost use Rattle.rs_engine.specs.Crashes.{AreSteps, Call, ComeTo, LeaveAFront};
ghost use Rattle.rs_engine.specs.Giving.{HasItsLines};
ghost use Rattle.rs_engine.specs.Kept.{EngineState, IsMachine, IsOldestIn, seen_at};
ghost use Rattle.rs_engine.specs.Laws.{StoreLaws};
ghost use Rattle.rs_engine.specs.Reads.{IsSeenNow, StandsNow, counted_of};
ghost use Rattle.rs_engine.specs.Single.{IsOneMachine};
ghost use Rattle.rs_facts.specs.Fact.{Name};
ghost use Rattle.rs_file_parts.specs.Clearing.{clearable};
ghost use Rattle.rs_machine.specs.Served.{Machine};
ghost use Rattle.rs_machine.specs.State.{State, some_cursor};
ghost use Rattle.rs_machine.specs.Step.{without_cursors};
ghost use Rattle.rs_machine.specs.declared.limits.TheConstants.{SESSIONS};
ghost use Rattle.rs_pager.specs.Lasts.{Lasts};
ghost use Rattle.rs_plan.specs.declared.counts.Index.{Index};
ghost use Rattle.rs_store_source.specs.Kept.{garbage_of};
ghost use Rattle.rs_store_source.specs.Lasting.{IsLast, LeavesOneOf};

use rs_disk::Disk;
use rs_file_meaning::live::version_that_sees_the_same_has_the_same_world;
use rs_serve::Session;
use rs_store_source::laws::{
    living_records_are_the_runs_of_the_state, store_shows_the_facts_of_its_state,
};
use rs_store_source::rs_store::laws::{dead_records_may_be_cleared, store_stands_in_one_state};

/// An engine that is a machine is that one as it serves.
pub fn machine_is_the_only_one<D: Disk>()
    ensures { (engine : EngineState D) (machine : Machine) → IsMachine D.Disk engine machine → IsOneMachine D.Disk engine machine }
{
    stores_have_their_laws::<D>();
}

/// Whichever step left the engine so: each cursor that is open, of any session, has the machine's lines left. What `next_lines` gives of
/// it, where that is not refused, are the first of them, since all that its clauses ask is so.
pub fn open_cursors_have_the_lines_of_the_machine<D: Disk>()
    ensures { (engine : EngineState D) (machine : Machine) → IsMachine D.Disk engine machine → (session : ℕ) (name : Name) (cursor : Cursor)
        → names.get (held_of engine.cursors.held session) name ≡ Some cursor → HasItsLines D.Disk engine machine session name cursor }
{}

/// A store that stands in a state has that of what is in memory, and a change shows live versions what they were shown.
pub(crate) fn stores_have_their_laws<D: Disk>()
    ensures { StoreLaws D.Disk }
{
    store_stands_in_one_state::<D>();
    version_that_sees_the_same_has_the_same_world();
}

/// At the version that was accepted last an engine stands for the state of the machine that it is, and that version sees it.
pub(crate) fn engine_stands_for_its_state<D: Disk>()
    ensures state { (engine : EngineState D) (machine : Machine) → IsMachine D.Disk engine machine → StandsNow D.Disk engine machine.state }
    ensures seen { (engine : EngineState D) (machine : Machine) (is : IsMachine D.Disk engine machine)
        → IsSeenNow engine machine.state (seen_at is.stands.contents engine.store.file.accepted) }
{
    stores_have_their_laws::<D>();
    store_stands_in_one_state::<D>();
    store_shows_the_facts_of_its_state::<D>();
}

/// Its plans are chosen by the maximal runs of the tables of that state.
pub(crate) fn plans_are_chosen_by_its_state<D: Disk>()
    ensures { (engine : EngineState D) (machine : Machine) → IsMachine D.Disk engine machine
        → (indexes : List Index) → AreCounted engine.store.catalog machine.state (counted_of engine.store indexes) }
{
    stores_have_their_laws::<D>();
    living_records_are_the_runs_of_the_state::<D>();
}

/// The number of a session is below the number of sessions.
pub(crate) fn session_is_in_range(session: Session)
    ensures { session < SESSIONS }
{
    session.number();
}

/// Where no cursor is open, the version that was accepted last is the oldest one that is looked at. Just the dead records may be cleared
/// then: as many as `garbage` counts.
pub fn dead_records_may_be_cleared_where_no_cursor_is_open<D: Disk>()
    ensures oldest { (engine : EngineState D) (machine : Machine) → IsMachine D.Disk engine machine → some_cursor machine.state.cursors ≡ false
        → (oldest : ℕ) → IsOldestIn engine engine.store.file.accepted oldest → oldest ≡ engine.store.file.accepted }
    ensures dead { (engine : EngineState D) (machine : Machine) (is : IsMachine D.Disk engine machine)
        → clearable engine.store.file.accepted is.stands.contents ≡ garbage_of engine.store.file }
{
    dead_records_may_be_cleared::<D>();
}

/// A crash in a step, of which each says that what lasts, lasts: an image that it might have left since any start was left before, or
/// stands for the state kept last or for the machine's, without its cursors. After the step one of these two is kept last.
pub fn a_crash_leaves_a_state_that_was_kept<D: Disk>()
    ensures leaves { (old new : EngineState D) (machine : Machine) (last : State) → IsMachine D.Disk old machine → IsLast D.Disk old.store.pager last
        → Lasts D.Disk old.store.pager new.store.pager → old.store.pager.committed_fields.pages ≤ old.store.pager.limit → IsTrue (D.keeps_crashes old.store.pager.disk)
        → LeavesOneOf D.Disk old.store.pager.limit last (without_cursors machine.state) old.store.pager.disk new.store.pager.disk }
    ensures keeps { (old new : EngineState D) (machine : Machine) (last : State) → IsMachine D.Disk old machine → IsLast D.Disk old.store.pager last
        → Lasts D.Disk old.store.pager new.store.pager → old.store.pager.committed_fields.pages ≤ old.store.pager.limit → new.store.pager.limit ≡ old.store.pager.limit
        → IsLast D.Disk new.store.pager last ⊎ IsLast D.Disk new.store.pager (without_cursors machine.state) }
{}

// decision: steps-of-a-service
/// Over any list of steps, from a machine on, where a state was kept last: each image that a crash might have left meanwhile was left
/// before, or stands for the state after a front of them, none skipped and none in part. What is kept after them holds all up to the last
/// SAVE or REOPEN that was accepted, and so does each image that a crash may leave then. They come to a machine, which the engine is.
pub fn steps_leave_a_front<D: Disk>()
    ensures comes { (calls : List Call) (old new : EngineState D) (machine : Machine) → AreSteps D.Disk calls old new → IsOneMachine D.Disk old machine
        → ComeTo D.Disk calls machine old new }
    ensures leaves { (calls : List Call) (old new : EngineState D) (machine : Machine) (last : State) → AreSteps D.Disk calls old new → IsOneMachine D.Disk old machine
        → IsLast D.Disk old.store.pager last → IsTrue (D.keeps_crashes old.store.pager.disk) → LeaveAFront D.Disk calls machine last old new }
{}

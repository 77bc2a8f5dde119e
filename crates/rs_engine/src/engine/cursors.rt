//! The commands of cursors: one is opened, gives its lines, and is closed.
//!
//! It promises the machine's checks in their order, that a cursor gives the lines that SELECT would have printed when it was
//! opened, and that a refusal changes nothing. A cursor keeps no line: it reads them from the store, at the version of its opening.

ghost use Rattle.std.specs.Prelude.{◌≡◌, ◌⊎◌, None, Some, Ok, Err, IfErr, IfOk, OnOk};
ghost use Rattle.std.specs.FinMap as names;
ghost use Rattle.rs_answers.specs.Plans.{CanBePlanned};
ghost use Rattle.rs_answers.specs.Versions.{LiesOnRoutes};
ghost use Rattle.rs_checker.specs.CheckedView.{query_of};
ghost use Rattle.rs_cursor.specs.Held.{held_at, held_of, lines_left};
ghost use Rattle.rs_cursor.specs.declared.cursor.Cursor.{Cursor};
ghost use Rattle.rs_engine.specs.Ahead.{AreAhead};
ghost use Rattle.rs_engine.specs.Clearing.{ByClose, ServesClearing};
ghost use Rattle.rs_engine.specs.Giving.{GivesNext};
ghost use Rattle.rs_engine.specs.Kept.{IsMachine, seen_at};
ghost use Rattle.rs_engine.specs.Reads.{ReadsCursor, WantsRead};
ghost use Rattle.rs_engine.specs.Replied.{count_reply_of, rows_reply_of};
ghost use Rattle.rs_engine.specs.Serving.{Serves};
ghost use Rattle.rs_engine.specs.Staying.{HasCursor, StaysOnAnyDisk};
ghost use Rattle.rs_machine.specs.Served.{Machine};
ghost use Rattle.rs_machine.specs.State.{State};
ghost use Rattle.rs_machine.specs.Step.{counted, cursor_closed, cursor_opened, lines_of, rows_fetched, with_cursor};
ghost use Rattle.rs_serve.specs.ReplyView.{rows_of};
ghost use Rattle.rs_syntax.specs.QueryView.{query_tree};
ghost use Rattle.rs_syntax.specs.Sound.{IsSound};
ghost use Rattle.rs_syntax.specs.Tree as tree;

use crate::engine::Engine;
use crate::engine::laws::{
    engine_stands_for_its_state, session_is_in_range, stores_have_their_laws,
};
use rs_answers::laws::present_version_has_the_lines_of_the_query;
use rs_checker::Checked;
use rs_cursor::next_lines::{NextLines, next_lines};
use rs_cursor::{Cursor, Place};
use rs_disk::Disk;
use rs_machine_laws::lawful::accepted_step_leaves_the_state_lawful;
use rs_methods::{Method, Name};
use rs_refusal::Refusal;
use rs_serve::Session;
use rs_syntax::Query;
use std::alloc::AllocError;

impl<D: Disk> Engine<D> {
    // decision: stays-by-the-engine
    /// Opens a cursor of a session on the lines of a query. Checks, in order: its query; its name is taken (61); the session
    /// has as many as it may (62).
    pub(crate) fn open_cursor(
        &mut self,
        session: Session,
        name: Name,
        query: &Query,
        method: Method,
    ) -> Result<u128, Refusal>
        requires sound { IsSound (tree.open_cursor name.bytes (query_tree query.now) method) }
        ensures serves { Serves D.Disk (λ (state : State). cursor_opened state session name.bytes (query_tree query.now) method) (count_reply_of result) self.old self.new }
        ensures stays { StaysOnAnyDisk D.Disk session (tree.open_cursor name.bytes (query_tree query.now) method) (count_reply_of result) self.old self.new }
    {
        accepted_step_leaves_the_state_lawful();
        session_is_in_range(session);
        let checked = self.check_new_cursor(session, &name, query, method)?;
        let cursor = self.cursor_of(checked, method)?;
        self.cursors.held.open(session, name, cursor)?;
        self.cursors.ahead.clear();
        Ok(0)
    }

    /// The next lines of a cursor of a session, so many or as many as are left (60). After a refusal the cursor stays where it was.
    pub(crate) fn fetch(
        &mut self,
        session: Session,
        name: &Name,
        rows: u32,
    ) -> Result<Vec<String>, Refusal>
        requires sound { IsSound (tree.fetch name.now.bytes rows) }
        ensures serves { Serves D.Disk (λ (state : State). rows_fetched state session name.now.bytes rows) (rows_reply_of result) self.old self.new }
        ensures stays { StaysOnAnyDisk D.Disk session (tree.fetch name.now.bytes rows) (rows_reply_of result) self.old self.new }
    {
        accepted_step_leaves_the_state_lawful();
        session_is_in_range(session);
        let NextLines { lines, place } = self.next_of(session, name, rows)?;
        self.move_cursor(session, name, place);
        Ok(lines)
    }

    /// Closes a cursor of a session (60), and clears records that no version sees any more that is looked at: 64 of them, or all where
    /// they are fewer. After a refusal (90, 91) the cursor is as it was.
    pub(crate) fn close_cursor(&mut self, session: Session, name: &Name) -> Result<u128, Refusal>
        requires sound { IsSound (tree.close_cursor name.now.bytes) }
        ensures serves { ServesClearing D.Disk ByClose (λ (state : State). cursor_closed state session name.now.bytes) (count_reply_of result) self.old self.new }
        ensures stays { StaysOnAnyDisk D.Disk session (tree.close_cursor name.now.bytes) (count_reply_of result) self.old self.new }
    {
        accepted_step_leaves_the_state_lawful();
        session_is_in_range(session);
        stores_have_their_laws::<D>();
        if !self.cursors.held.has(session, name) {
            return Err(Refusal::NoSuchCursor);
        }
        let accepted = self.live.store.accepted();
        let oldest = self.cursors.held.oldest_without(session, name, accepted);
        self.live.store.release(self.alloc, oldest)?;
        self.live.oldest = oldest;
        self.cursors.held.close(session, name);
        self.cursors.ahead.forget(session, name);
        Ok(0)
    }

    /// Puts a cursor of a session that is there at another place.
    fn move_cursor(&mut self, session: Session, name: &Name, place: Place)
        ensures moves { (cursor : Cursor) → names.get (held_of self.old.cursors.held session) name.now.bytes ≡ Some cursor
            → held_of self.new.cursors.held ≡ held_at session (names.insert (held_of self.old.cursors.held session) name.now.bytes (record cursor { place = place })) (held_of self.old.cursors.held) }
        ensures ahead { self.new.cursors.ahead ≡ self.old.cursors.ahead }
        ensures store { self.new.store ≡ self.old.store }
        ensures oldest { self.new.oldest ≡ self.old.oldest }
    {
        self.cursors.held.move_to(session, name, place);
    }

    /// The query on which a cursor of the session may be opened (its query; 61; 62).
    fn check_new_cursor(
        &self,
        session: Session,
        name: &Name,
        query: &Query,
        method: Method,
    ) -> Result<Checked, Refusal>
        ensures accepted { (machine : Machine) → IsMachine D.Disk self.now machine
            → IfOk result (λ checked. cursor_opened machine.state session name.now.bytes (query_tree query.now) method
            ≡ Ok (counted 0 (with_cursor machine.state session name.now.bytes (lines_of machine.state (query_of checked.query) method)))) }
        ensures refused { (machine : Machine) → IsMachine D.Disk self.now machine
            → IfErr result (λ why. (why ≡ Refusal.OutOfMemory) ⊎ (cursor_opened machine.state session name.now.bytes (query_tree query.now) method ≡ Err why)) }
        ensures can { IfOk result (CanBePlanned self.now.store.catalog) }
    {
        stores_have_their_laws::<D>();
        self.checks().check_new_cursor(session, name, query, method)
    }

    /// The cursor of a checked query. It looks at the version that was accepted last, and has given nothing.
    fn cursor_of(&self, checked: Checked, method: Method) -> Result<Cursor, AllocError>
        requires can { CanBePlanned self.now.store.catalog checked }
        ensures method { IfOk result (λ cursor. cursor.method ≡ method) }
        ensures start { IfOk result (λ cursor. (cursor.place.route ≡ 0) × (cursor.place.given ≡ 0)) }
        ensures version { IfOk result (λ cursor. cursor.version ≡ self.now.store.file.accepted) }
        ensures lines { (machine : Machine) (is : IsMachine D.Disk self.now machine)
            → IfOk result (λ cursor. lines_left (seen_at is.stands.contents) cursor ≡ lines_of machine.state (query_of checked.query) method) }
        ensures lies { (machine : Machine) (is : IsMachine D.Disk self.now machine)
            → IfOk result (λ cursor. LiesOnRoutes (seen_at is.stands.contents cursor.version) cursor.plan) }
    {
        stores_have_their_laws::<D>();
        engine_stands_for_its_state::<D>();
        present_version_has_the_lines_of_the_query();
        let plan = self.planned(checked)?;
        Ok(Cursor {
            plan,
            method,
            version: self.live.store.accepted(),
            place: Place::START,
        })
    }

    /// The next lines of a cursor of a session, which stays where it is (60). Lines that were formed ahead of it are used.
    fn next_of(&mut self, session: Session, name: &Name, rows: u32) -> Result<NextLines, Refusal>
        ensures given { (machine : Machine) (is : IsMachine D.Disk self.old machine)
            → IfOk result (GivesNext (seen_at is.stands.contents) self.old.cursors.held session name.now.bytes rows) }
        ensures refused { IfErr result (λ why. ((why ≡ Refusal.NoSuchCursor) × (names.get (held_of self.old.cursors.held session) name.now.bytes ≡ None)) ⊎ WantsRead D.Disk why self.old self.new) }
        ensures reads { ReadsCursor D.Disk self.old self.new }
        ensures ahead { (machine : Machine) (is : IsMachine D.Disk self.old machine) → AreAhead (seen_at is.stands.contents) self.new.cursors }
        ensures there { OnOk result (HasCursor session name.now.bytes self.old) }
    {
        let Some(cursor) = self.cursors.held.get(session, name) else {
            return Err(Refusal::NoSuchCursor);
        };
        let mut kept = self.cursors.ahead.take(session, name);
        let next = next_lines(self.alloc, &mut self.live, cursor, rows, &mut kept);
        self.cursors.ahead.put(self.alloc, session, name, kept);
        next
    }
}

//! The cursors of all sessions, each by its session and its name.
//!
//! `Cursors` promises that a session finds its own cursors alone, and that a refusal changes nothing.

ghost use Rattle.std.specs.Prelude.{◌≡◌, ℕ, List, Some, None, OnOk, OnErr};
ghost use Rattle.std.specs.Bool.{OnFalse};
ghost use Rattle.std.specs.FinMap as maps;
ghost use Rattle.std.specs.Option.{option_copied};
ghost use Rattle.rs_cursor.specs.Held.{IsOldest, cursors_by, held_at, held_of};
ghost use Rattle.rs_cursor.specs.Oldest.{IsLowest, LooksAt};
ghost use Rattle.rs_cursor.specs.declared.cursor.Cursor.{Cursor};
ghost use Rattle.rs_machine.specs.State.{RowText, has, no_cursors, some_cursor};

use crate::cursor::Cursor;
use crate::place::Place;
use rs_catalog::ByName;
use rs_methods::Name;
use rs_serve::Session;
use std::alloc::{AllocError, Global};
use std::collections::BTreeMap;
use std::marker::Model;

/// The cursors of each session that has or had some, by the session's number.
#[derive(Drop)]
pub struct Cursors {
    alloc: Global,
    by_session: BTreeMap<u8, ByName<Cursor>>,
}

impl Model for Cursors {
    ghost use Rattle.std.specs.FinMap as numbers;
    ghost use Rattle.rs_cursor.specs.Held.{HeldCursors, held_cursors_code};
    ghost use Rattle.rs_cursor.specs.Sessions.{AreOfSessions};

    ghost Value = { HeldCursors };

    ghost coded = { held_cursors_code };

    ghost view = { λ c. numbers.from_entries c.by_session.entries };

    ghost invariant = { λ c. AreOfSessions (numbers.from_entries c.by_session.entries) };
}

impl Cursors {
    /// No cursors. It takes no memory.
    pub fn new(alloc: Global) -> Self
        ensures held { (session : ℕ) → held_of result session ≡ maps.empty }
        ensures machine { (lines : Cursor → List RowText) → cursors_by lines result ≡ no_cursors }
    {
        Cursors {
            alloc,
            by_session: BTreeMap::new(alloc),
        }
    }

    /// Whether the session has a cursor of this name.
    pub fn has(&self, session: Session, name: &Name) -> bool
        ensures { (lines : Cursor → List RowText) → result ≡ has (cursors_by lines self.now session) name.now.bytes }
    {
        self.get(session, name).is_some()
    }

    /// How many cursors the session has.
    pub fn count(&self, session: Session) -> usize
        ensures { (lines : Cursor → List RowText) → result ≡ maps.len (cursors_by lines self.now session) }
    {
        match self.by_session.get(&session.number()) {
            Some(cursors) => cursors.len(),
            None => 0,
        }
    }

    /// Whether any session has a cursor.
    pub fn any(&self) -> bool
        ensures machine { (lines : Cursor → List RowText) → result ≡ some_cursor (cursors_by lines self.now) }
        ensures none { OnFalse result ((session : ℕ) → held_of self.now session ≡ maps.empty) }
    {
        self.by_session.values().any(|cursors| cursors.len() > 0)
    }

    /// The session's cursor of this name.
    pub fn get(&self, session: Session, name: &Name) -> Option<&Cursor>
        ensures { option_copied result ≡ maps.get (held_of self.now session) name.now.bytes }
    {
        self.by_session.get(&session.number())?.get(name)
    }

    /// Opens a cursor of the session. For want of memory it changes nothing.
    pub fn open(&mut self, session: Session, name: Name, cursor: Cursor) -> Result<(), AllocError>
        ensures ok { OnOk result (held_of self.new ≡ held_at session (maps.insert (held_of self.old session) name.bytes cursor) (held_of self.old)) }
        ensures err { OnErr result (self.new ≡ self.old) }
    {
        match self.by_session.get_mut(&session.number()) {
            Some(cursors) => cursors.define(name, cursor),
            None => {
                let mut cursors = ByName::new(self.alloc);
                cursors.define(name, cursor)?;
                self.by_session.insert(session.number(), cursors)?;
                Ok(())
            }
        }
    }

    /// Moves the session's cursor of this name to a place, if it has one. It takes no memory.
    pub fn move_to(&mut self, session: Session, name: &Name, place: Place)
        ensures there { (cursor : Cursor) → maps.get (held_of self.old session) name.now.bytes ≡ Some cursor
            → held_of self.new ≡ held_at session (maps.insert (held_of self.old session) name.now.bytes (record cursor { place = place })) (held_of self.old) }
        ensures none { maps.get (held_of self.old session) name.now.bytes ≡ None → self.new ≡ self.old }
    {
        let Some(cursors) = self.by_session.get_mut(&session.number()) else {
            return;
        };
        move_in(cursors, name, place);
    }

    /// Closes a cursor of the session, if it has one of this name. It takes no memory.
    pub fn close(&mut self, session: Session, name: &Name)
        ensures { held_of self.new ≡ held_at session (maps.remove (held_of self.old session) name.now.bytes) (held_of self.old) }
    {
        let Some(cursors) = self.by_session.get_mut(&session.number()) else {
            return;
        };
        cursors.remove(name);
    }

    /// Closes every cursor of every session. It takes no memory.
    pub fn close_all(&mut self)
        ensures held { (session : ℕ) → held_of self.new session ≡ maps.empty }
        ensures machine { (lines : Cursor → List RowText) → cursors_by lines self.new ≡ no_cursors }
    {
        self.by_session = BTreeMap::new(self.alloc);
    }

    /// The oldest version that a cursor looks at, or `most` where it is older; `most` where there is no cursor.
    pub fn oldest(&self, most: u64) -> u64
        ensures { IsOldest (held_of self.now) most result }
    {
        let mut oldest = most;
        for cursors in self.by_session.values() {
            oldest = oldest_of(cursors, oldest);
        }
        oldest
    }

    /// The same as if one cursor were closed.
    pub fn oldest_without(&self, session: Session, name: &Name, most: u64) -> u64
        ensures { IsOldest (held_at session (maps.remove (held_of self.now session) name.now.bytes) (held_of self.now)) most result }
    {
        let mut oldest = most;
        for (number, cursors) in &self.by_session {
            oldest = if *number == session.number() {
                oldest_of_others(cursors, name, oldest)
            } else {
                oldest_of(cursors, oldest)
            };
        }
        oldest
    }
}

/// Moves the cursor of this name to a place, if it is there.
fn move_in(cursors: &mut ByName<Cursor>, name: &Name, place: Place)
    ensures there { (cursor : Cursor) → maps.get cursors.old name.now.bytes ≡ Some cursor → cursors.new ≡ maps.insert cursors.old name.now.bytes (record cursor { place = place }) }
    ensures none { maps.get cursors.old name.now.bytes ≡ None → cursors.new ≡ cursors.old }
{
    if let Some(cursor) = cursors.get_mut(name) {
        cursor.place = place;
    }
}

/// The oldest version that one of the cursors looks at, or `most` where it is older.
fn oldest_of(cursors: &ByName<Cursor>, most: u64) -> u64
    ensures { IsLowest (LooksAt cursors.now) most result }
{
    let mut oldest = most;
    for (_, cursor) in cursors.iter() {
        oldest = oldest.min(cursor.version);
    }
    oldest
}

/// The same, but for the cursor of this name.
fn oldest_of_others(cursors: &ByName<Cursor>, name: &Name, most: u64) -> u64
    ensures { IsLowest (LooksAt (maps.remove cursors.now name.now.bytes)) most result }
{
    let mut oldest = most;
    for (other, cursor) in cursors.iter() {
        if other != name {
            oldest = oldest.min(cursor.version);
        }
    }
    oldest
}

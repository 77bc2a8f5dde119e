//! Of which cursors routes and lines are kept ahead, and of which a mark alone.
//!
//! It promises that what is taken is what was put for the cursor, or its mark.

ghost use Rattle.std.specs.Prelude.{◌≡◌, ◌<◌, ◌≤◌, ◌+◌, ◌⊎◌, Contains, IfSome, length, slice_index_or, vec_len};
ghost use Rattle.std.specs.Bool.{Decides};
ghost use Rattle.rs_engine.specs.Ahead.{IsAheadOf, IsAmong, IsEmpty, IsLessOf, IsNewest, IsOf};
ghost use Rattle.rs_engine.specs.declared.engine.ahead.Ahead.{Ahead};
ghost use Rattle.rs_answers.specs.Versions.{SeenVersion};
ghost use Rattle.rs_cursor.specs.Ahead.{lines_of};
ghost use Rattle.rs_cursor.specs.Kept.{AreKept};
ghost use Rattle.rs_methods.specs.declared.position.Method.{Method};
ghost use Rattle.rs_plan.specs.declared.plan.Plan.{Plan};

use crate::engine::ahead::{Ahead, LinesAhead, SLOTS};
use rs_cursor::kept::KeptAhead;
use rs_methods::Name;
use rs_serve::Session;
use std::alloc::Global;

impl LinesAhead {
    /// Nothing. It takes no memory.
    pub(crate) fn new(alloc: Global) -> LinesAhead
        ensures { IsEmpty result }
    {
        LinesAhead {
            slots: Vec::new(alloc),
            marks: Vec::new(alloc),
        }
    }

    /// Takes what is kept of this cursor, if anything is.
    pub(crate) fn take(&mut self, session: Session, name: &Name) -> Option<KeptAhead>
        ensures kept { IfSome result (IsAheadOf session name.now.bytes self.old) }
        ensures others { (one : Ahead) → IsAmong self.new one → IsAmong self.old one }
    {
        if let Some(place) = place_of(&self.slots, session, name) {
            let one = self.slots.remove(place);
            return Some(one.kept);
        }
        let place = place_of(&self.marks, session, name)?;
        let one = self.marks.remove(place);
        Some(one.kept)
    }

    /// Keeps this of the cursor, if there is anything. Where lines of four cursors are kept, those that were put first go, and their mark
    /// alone stays. Where memory is wanting, nothing of this cursor is kept.
    pub(crate) fn put(
        &mut self,
        alloc: Global,
        session: Session,
        name: &Name,
        kept: Option<KeptAhead>,
    )
        ensures { (one : Ahead) → IsAmong self.new one
            → IsAmong self.old one ⊎ IsLessOf self.old one ⊎ IsNewest session name.now.bytes kept one }
    {
        let Some(kept) = kept else {
            return;
        };
        self.make_room(alloc);
        push_one(
            &mut self.slots,
            Ahead {
                session,
                name: *name,
                kept,
            },
        );
    }

    /// Where lines of four cursors are kept, those that were put first go, and their mark stays.
    fn make_room(&mut self, alloc: Global)
        ensures room { vec_len self.new.slots < SLOTS }
        ensures kept { (one : Ahead) → IsAmong self.new one → IsAmong self.old one ⊎ IsLessOf self.old one }
    {
        if self.slots.len() < SLOTS {
            return;
        }
        let oldest = take_first(&mut self.slots);
        push_one(&mut self.marks, oldest.bare(alloc));
    }

    /// Drops what is kept of this cursor.
    pub(crate) fn forget(&mut self, session: Session, name: &Name)
        ensures { (one : Ahead) → IsAmong self.new one → IsAmong self.old one }
    {
        let _kept = self.take(session, name);
    }

    /// Drops all.
    pub(crate) fn clear(&mut self)
        ensures { IsEmpty self.new }
    {
        self.slots.clear();
        self.marks.clear();
    }
}

impl Ahead {
    /// The same without routes and lines.
    fn bare(self, alloc: Global) -> Ahead
        ensures of { IsOf self.session self.name.bytes result }
        ensures bare { length (lines_of result.kept) ≡ 0 }
        ensures kept { (seen : SeenVersion) (plan : Plan) (method : Method) → AreKept seen plan method self.kept → AreKept seen plan method result.kept }
    {
        Ahead {
            session: self.session,
            name: self.name,
            kept: self.kept.bare(alloc),
        }
    }

    /// Whether this is kept of this cursor.
    fn is_of(&self, session: Session, name: &Name) -> bool
        ensures { Decides result (IsOf session name.now.bytes self.now) }
    {
        self.session == session && self.name.as_str() == name.as_str()
    }
}

/// Takes the first of a list.
fn take_first(list: &mut Vec<Ahead>) -> Ahead
    requires { 0 < vec_len list.old }
    ensures was { Contains list.old.items result }
    ensures others { (other : Ahead) → Contains list.new.items other → Contains list.old.items other }
    ensures len { vec_len list.new + 1 ≡ vec_len list.old }
{
    list.remove(0)
}

/// Puts one at the end of a list. Where memory is wanting, the list stays as it was.
fn push_one(list: &mut Vec<Ahead>, one: Ahead)
    ensures others { (other : Ahead) → Contains list.new.items other → Contains list.old.items other ⊎ (other ≡ one) }
    ensures len { vec_len list.new ≤ vec_len list.old + 1 }
{
    let _is_kept = list.push(one);
}

/// Where something of this cursor is kept, if anything is.
fn place_of(slots: &[Ahead], session: Session, name: &Name) -> Option<usize>
    ensures within { IfSome result (λ place. place < length slots.now) }
    ensures there { IfSome result (λ place. (one : Ahead) → IsOf session name.now.bytes (slice_index_or slots.now place one)) }
{
    for (place, one) in slots.iter().enumerate() {
        if one.is_of(session, name) {
            return Some(place);
        }
    }
    None
}

//! The lines that are kept from a place of their route on.
//!
//! They are found where they are kept, and copied.

ghost use Rattle.std.specs.Prelude.{◌≡◌, ◌<◌, ◌≤◌, ◌⊎◌, ◌+◌, ◌-◌, ◌++◌, [], drop, length, IfSome, OnOk, vec_len};
ghost use Rattle.rs_answers.specs.Versions.{SeenVersion};
ghost use Rattle.rs_cursor.specs.Ahead.{lines_in, lines_of};
ghost use Rattle.rs_cursor.specs.Kept.{AreFormed, AreKept, AreLinesAt};
ghost use Rattle.rs_methods.specs.declared.position.Method.{Method};
ghost use Rattle.rs_plan.specs.declared.plan.Plan.{Plan};
ghost use Rattle.rs_serve.specs.ReplyView.{rows_of};

use crate::kept::{KeptAhead, KeptLines};
use crate::place::Place;
use rs_answers::Mark;
use std::alloc::{AllocError, Global};

/// Lines that are kept of a route, from a place on.
#[derive(Clone, Copy)]
pub(crate) struct KeptFrom<'a> {
    /// The lines.
    pub(crate) lines: &'a [String],
    /// How many lines the route has.
    pub(crate) all: u64,
}

/// The lines that are kept from this place on. There are none where the route has lines after the place and the first of them isn't kept.
pub(crate) fn kept_at(kept: &Option<KeptLines>, place: Place) -> Option<KeptFrom<'_>>
    ensures lines { IfSome result (λ from. (shown : SeenVersion) (plan : Plan) (method : Method) → IfSome kept.now (AreFormed shown plan method)
        → AreLinesAt shown plan method place from.all (rows_of from.lines.now)) }
    ensures some { IfSome result (λ from. place.given < from.all → 0 < length from.lines.now) }
{
    match kept {
        Some(one) => one.at(place),
        None => None,
    }
}

impl KeptLines {
    /// The same of these lines.
    fn at(&self, place: Place) -> Option<KeptFrom<'_>>
        ensures route { IfSome result (λ from. place.route ≡ self.now.route) }
        ensures past { IfSome result (λ from. self.now.first ≤ place.given) }
        ensures all { IfSome result (λ from. from.all ≡ self.now.all) }
        ensures lines { IfSome result (λ from. from.lines.now ≡ drop (place.given - self.now.first) self.now.lines.items) }
        ensures some { IfSome result (λ from. place.given < from.all → 0 < length from.lines.now) }
    {
        if self.route != place.route || place.given < self.first {
            return None;
        }
        let before = (place.given - self.first) as usize;
        let lines = &self.lines[before.min(self.lines.len())..];
        if lines.is_empty() && place.given < self.all {
            return None;
        }
        Some(KeptFrom {
            lines,
            all: self.all,
        })
    }
}

impl KeptLines {
    /// The mark from which the lines from the place on may be evaluated, where it is on their route: the later of both, if it isn't past it.
    pub(crate) fn mark_at(&self, place: Place) -> Option<Mark>
        ensures route { IfSome result (λ mark. place.route ≡ self.now.route) }
        ensures mark { IfSome result (λ mark. (mark ≡ self.now.mark) ⊎ (mark ≡ self.now.next)) }
    {
        if self.route != place.route {
            return None;
        }
        if self.next.before as u64 <= place.given {
            return Some(self.next);
        }
        Some(self.mark)
    }
}

impl KeptAhead {
    /// The same without routes and lines. The marks stay, so that lines are evaluated again from there.
    pub fn bare(self, alloc: Global) -> KeptAhead
        ensures bare { lines_of result ≡ [] }
        ensures kept { (shown : SeenVersion) (plan : Plan) (method : Method) → AreKept shown plan method self → AreKept shown plan method result }
    {
        let KeptAhead { lines, .. } = self;
        KeptAhead {
            routes: None,
            lines: bare_lines(alloc, lines),
        }
    }
}

/// None of the lines, and their marks.
fn bare_lines(alloc: Global, lines: Option<KeptLines>) -> Option<KeptLines>
    ensures bare { lines_in result ≡ [] }
    ensures formed { (shown : SeenVersion) (plan : Plan) (method : Method) → IfSome lines (AreFormed shown plan method)
        → IfSome result (AreFormed shown plan method) }
{
    let KeptLines {
        route,
        first,
        all,
        mark,
        next,
        ..
    } = lines?;
    Some(KeptLines {
        route,
        first,
        all,
        lines: Vec::new(alloc),
        mark,
        next,
    })
}

/// Appends copies of lines. For want of memory some of them may have been appended.
pub(crate) fn push_copies(lines: &[String], rows: &mut Vec<String>) -> Result<(), AllocError>
    ensures copies { OnOk result (rows_of rows.new.items ≡ rows_of rows.old.items ++ rows_of lines.now) }
    ensures count { OnOk result (vec_len rows.new ≡ vec_len rows.old + length lines.now) }
{
    for line in lines {
        rows.push(line.clone()?)?;
    }
    Ok(())
}

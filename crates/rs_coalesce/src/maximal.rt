//! The maximal runs of a list of spans, in printing order.

ghost use Rattle.std.specs.Prelude.{◌≡◌, map, IfOk};
ghost use Rattle.rs_facts.specs.Runs.{AreRunsOf};
ghost use Rattle.rs_facts.specs.Spans.{seen, places_of, ArePlaced};
ghost use Rattle.rs_coalesce.specs.Again.{RunsOfRunsAreTheSame};
ghost use Rattle.rs_coalesce.specs.Joined.{AreJoined};

use crate::join::join_neighbours;
use crate::order::{are_apart, begin_in_turn, sort_by_place, sort_by_row};
use crate::turn::join_in_turn;
use rs_facts::Span;
use rs_value::Kind;

/// The maximal runs of that kind, by place and then by row.
///
/// Spans of a row that overlap or, of lines, touch are one run; points stay apart. Takes no memory. Spans that are in
/// order of place are not sorted, unless more than 16 runs are open at a time.
pub fn runs(kind: Kind, mut spans: Vec<Span>) -> Vec<Span>
    requires placed { ArePlaced kind (map seen spans.items) }
    ensures runs { AreRunsOf kind (places_of (map seen spans.items)) (map seen result.items) }
    ensures placed { ArePlaced kind (map seen result.items) }
    ensures same { places_of (map seen result.items) ≡ places_of (map seen spans.items) }
{
    if are_apart(spans.as_slice()) {
        join_neighbours(kind, &mut spans);
    } else {
        join_any(kind, &mut spans);
        sort_by_place(&mut spans);
    }
    spans
}

/// Joins all spans that are one run: in one pass where they begin in turn and few runs are open at a time, and else by
/// row.
fn join_any(kind: Kind, spans: &mut Vec<Span>)
    requires placed { ArePlaced kind (map seen spans.old.items) }
    ensures joined { AreJoined kind (map seen spans.new.items) }
    ensures placed { ArePlaced kind (map seen spans.new.items) }
    ensures same { places_of (map seen spans.new.items) ≡ places_of (map seen spans.old.items) }
{
    if begin_in_turn(spans.as_slice()) && join_in_turn(kind, spans) {
        return;
    }
    sort_by_row(spans);
    join_neighbours(kind, spans);
}

/// Runs of runs, by the same kind, are the same list.
pub fn runs_of_runs_are_the_same()
    ensures { RunsOfRunsAreTheSame }
{}

//! What is read of a stretch of a route is what holds there.

ghost use Rattle.std.specs.Prelude.{◌≡◌, ◌≤◌, ◌<◌, ℕ, List, filter, map};
ghost use Rattle.rs_table_reads.specs.Read.{spans_within};
ghost use Rattle.rs_facts.specs.Spans.{places_of};
ghost use Rattle.rs_value.specs.declared.column.Kind.{Kind};
ghost use Rattle.rs_versioned.specs.Events.{Event, facts_at, is_visible, span_of};
ghost use Rattle.rs_versioned.specs.Runs.{AreRunsAt};

/// Where a version has just the runs of a table's facts, all its spans are placed, and those within a stretch hold at each thousandth
/// of the stretch just the rows that the table holds there.
pub fn spans_within_hold_what_the_table_holds()
    ensures placed { (kind : Kind) (version route from to : ℕ) (events : List Event) → AreRunsAt kind version route events
        → spans_within kind version route from to events ≡ map span_of (filter (is_visible version route from to) events) }
    ensures rows { (kind : Kind) (version route from to : ℕ) (events : List Event) → AreRunsAt kind version route events
        → (k : ℕ) → from ≤ k → k < to
        → places_of (spans_within kind version route from to events) k ≡ facts_at version route events k }
{}

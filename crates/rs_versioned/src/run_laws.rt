//! These laws say which changes leave each version of a table just the maximal runs of its facts.
//!
//! They carry `AreRunsFrom` through a whole command, which changes one route at the version after the one that was accepted last.

ghost use Rattle.std.specs.Prelude.{◌≡◌, ◌<◌, ◌≤◌, ◌+◌, ℕ, List, [], filter, map};
ghost use Rattle.rs_facts.specs.Runs.{AreRunsOf, LieWithin};
ghost use Rattle.rs_pages.specs.PageMap.{PageMap};
ghost use Rattle.rs_value.specs.declared.column.ColumnType.{ColumnType};
ghost use Rattle.rs_value.specs.declared.column.Kind.{Kind};
ghost use Rattle.rs_versioned.specs.Events.{Event, facts_at, is_visible, kept_events, span_of, spans_at};
ghost use Rattle.rs_versioned.specs.Records.{HasCleared, HasEnded, HasOneMore, HoldsRecords};
ghost use Rattle.rs_versioned.specs.Runs.{AreRunsAt, AreRunsBeside, AreRunsFrom, ChangesAll};
ghost use Rattle.rs_cell_versions.specs.Versioned.{Standing};
ghost use Rattle.rs_cell_versions.specs.declared.cell.TheConstants.{LIVING};

/// A version after the one that was accepted last has the spans of that one until something changes, and so its runs.
pub fn version_without_changes_has_the_same_runs()
    ensures spans { (types : List ColumnType) (pages : PageMap) (standing : Standing) (from to route : ℕ) (events : List Event) (used : ℕ → ℕ)
        → HoldsRecords (kept_events types) pages standing from events used → from ≤ to → to < LIVING
        → spans_at to route events ≡ spans_at from route events }
    ensures runs { (types : List ColumnType) (pages : PageMap) (standing : Standing) (kind : Kind) (oldest accepted version : ℕ) (events : List Event) (used : ℕ → ℕ)
        → HoldsRecords (kept_events types) pages standing accepted events used → AreRunsFrom kind oldest accepted events
        → oldest ≤ accepted → version < LIVING → AreRunsFrom kind oldest version events }
{}

/// Without events all versions have their runs. Versions keep theirs when a later one becomes the oldest, when an event is born
/// after them, when a living event ends after them, and when events are cleared that no version from the oldest on sees; the next
/// version is one of them once it has its runs on each route.
pub fn versions_keep_their_runs()
    ensures none { (kind : Kind) (oldest accepted : ℕ) → AreRunsFrom kind oldest accepted [] }
    ensures fewer { (kind : Kind) (oldest accepted from upto : ℕ) (events : List Event)
        → AreRunsFrom kind oldest accepted events → oldest ≤ from → upto ≤ accepted → AreRunsFrom kind from upto events }
    ensures come { (kind : Kind) (oldest accepted : ℕ) (one : Event) (old now : List Event)
        → AreRunsFrom kind oldest accepted old → HasOneMore one old now → accepted < one.born → AreRunsFrom kind oldest accepted now }
    ensures ended { (kind : Kind) (oldest accepted : ℕ) (types : List ColumnType) (version : ℕ) (one : Event) (old now : List Event)
        → AreRunsFrom kind oldest accepted old → HasEnded (kept_events types) version one old now
        → one.died ≡ LIVING → accepted < version → version < LIVING → AreRunsFrom kind oldest accepted now }
    ensures cleared { (kind : Kind) (oldest accepted : ℕ) (types : List ColumnType) (from : ℕ) (cells : List (List ℕ)) (old now : List Event)
        → AreRunsFrom kind oldest accepted old → HasCleared (kept_events types) from cells old now
        → oldest ≤ from → AreRunsFrom kind from accepted now }
    ensures next { (kind : Kind) (oldest accepted : ℕ) (events : List Event)
        → AreRunsFrom kind oldest accepted events → ((route : ℕ) → AreRunsAt kind (accepted + 1) route events)
        → AreRunsFrom kind oldest (accepted + 1) events }
{}

/// While a command changes one route at a version, the accepted versions keep their runs, and this version has its runs on all
/// other routes: from the last accepted version on, after each event that comes or ends at this version and each clearing. Once
/// it has its runs on the changed route too, it is one of the versions that have them. For an engine that changes events in a
/// loop this is what stays true.
pub fn command_keeps_the_runs_beside_its_route()
    ensures begin { (types : List ColumnType) (pages : PageMap) (standing : Standing) (accepted : ℕ) (events : List Event) (used : ℕ → ℕ)
        → HoldsRecords (kept_events types) pages standing accepted events used
        → (kind : Kind) (oldest version route : ℕ) → AreRunsFrom kind oldest accepted events
        → oldest ≤ accepted → accepted ≤ version → version < LIVING → AreRunsBeside kind oldest accepted version route events }
    ensures come { (kind : Kind) (oldest accepted version route : ℕ) (one : Event) (old now : List Event)
        → AreRunsBeside kind oldest accepted version route old → HasOneMore one old now
        → one.route ≡ route → accepted < one.born → AreRunsBeside kind oldest accepted version route now }
    ensures ended { (kind : Kind) (oldest accepted version route : ℕ) (types : List ColumnType) (at : ℕ) (one : Event) (old now : List Event)
        → AreRunsBeside kind oldest accepted version route old → HasEnded (kept_events types) at one old now
        → one.route ≡ route → one.died ≡ LIVING → accepted < at → at < LIVING
        → AreRunsBeside kind oldest accepted version route now }
    ensures cleared { (kind : Kind) (oldest accepted version route : ℕ) (types : List ColumnType) (from : ℕ) (cells : List (List ℕ)) (old now : List Event)
        → AreRunsBeside kind oldest accepted version route old → HasCleared (kept_events types) from cells old now
        → oldest ≤ from → from ≤ version → AreRunsBeside kind from accepted version route now }
    ensures done { (kind : Kind) (oldest accepted version route : ℕ) (events : List Event)
        → AreRunsBeside kind oldest accepted version route events → version ≡ accepted + 1
        → AreRunsAt kind version route events → AreRunsFrom kind oldest version events }
{}

/// A whole command: where events come and end on one route at the version after the one that was accepted last, and this version
/// has its runs on that route in the end, all versions from the oldest up to this one have their runs on all routes.
pub fn command_leaves_each_version_its_runs()
    ensures { (types : List ColumnType) (pages : PageMap) (standing : Standing) (kind : Kind) (oldest accepted version route : ℕ) (old : List Event) (steps : List (List Event)) (now : List Event) (used : ℕ → ℕ)
        → HoldsRecords (kept_events types) pages standing accepted old used → AreRunsFrom kind oldest accepted old
        → oldest ≤ accepted → version ≡ accepted + 1 → version < LIVING → ChangesAll types version route old steps now
        → AreRunsAt kind version route now → AreRunsFrom kind oldest version now }
{}

/// Where a version has its runs on a route and all its facts there lie between two bounds, the events that are visible between
/// these bounds are the runs of its facts, as they are printed.
pub fn visible_events_are_the_runs_as_printed()
    ensures { (types : List ColumnType) (pages : PageMap) (standing : Standing) (kind : Kind) (accepted version route a b : ℕ) (events : List Event) (used : ℕ → ℕ)
        → HoldsRecords (kept_events types) pages standing accepted events used → AreRunsAt kind version route events
        → LieWithin a b (facts_at version route events)
        → AreRunsOf kind (facts_at version route events) (map span_of (filter (is_visible version route a b) events)) }
{}

//! These laws say which facts each version has, and that a change leaves those of the versions before it.

ghost use Rattle.std.specs.Prelude.{◌≡◌, ◌⊎◌, ◌<◌, ◌≤◌, ◌==◌, ◌∷◌, ◌^◌, ℕ, List, [], Contains, IsPermutation, count_by, filter, length, map, nat_le, not};
ghost use Rattle.std.specs.List.{AllByRecursion};
ghost use Rattle.rs_facts.specs.Runs.{Stretch};
ghost use Rattle.rs_facts.specs.Spans.{AreAllRunsOf, places_of};
ghost use Rattle.rs_page_owners.specs.Owners.{KeepsPages};
ghost use Rattle.rs_pages.specs.PageMap.{PageMap};
ghost use Rattle.rs_value.specs.declared.column.ColumnType.{ColumnType};
ghost use Rattle.rs_value.specs.declared.column.Kind.{Kind};
ghost use Rattle.rs_versioned.specs.Events.{AreInPrintingOrder, Event, SaysEvent, ended_event, event_width, facts_at, is_on, is_visible, kept_events, sees_event, span_of, spans_at};
ghost use Rattle.rs_versioned.specs.Referents.{AreInNameOrder, ReferentRecord, SaysReferent, ended_referent, kept_referents, referent_width, referents_at};
ghost use Rattle.rs_versioned.specs.Records.{WasAdded, HasEnded, WasEnded, HasOneMore, HasCleared, HoldsRecords, is_seen};
ghost use Rattle.rs_versioned.specs.declared.event.TheConstants.{EVENT_BYTES};
ghost use Rattle.rs_versioned.specs.declared.referent.TheConstants.{REFERENT_BYTES};
ghost use Rattle.rs_cell_versions.specs.Version.{born_of, died_of, ended};
ghost use Rattle.rs_cell_versions.specs.Versioned.{Standing, nothing_stands};
ghost use Rattle.rs_cell_versions.specs.declared.cell.TheConstants.{LIVING};

/// The bytes of a cell are so many.
pub fn limits_are_those()
    ensures event { EVENT_BYTES ≡ 28 }
    ensures referent { REFERENT_BYTES ≡ 56 }
{}

/// Bytes say one event and one referent at the most.
pub fn cell_says_one_record()
    ensures event { (types : List ColumnType) (cell : List ℕ) (one other : Event)
        → SaysEvent types cell one → SaysEvent types cell other → one ≡ other }
    ensures referent { (cell : List ℕ) (one other : ReferentRecord) → SaysReferent cell one → SaysReferent cell other → one ≡ other }
{}

/// An event and a referent have one cell at the most, of the same width always.
pub fn record_has_one_cell()
    ensures event { (types : List ColumnType) (cell other : List ℕ) (one : Event)
        → SaysEvent types cell one → SaysEvent types other one → cell ≡ other }
    ensures referent { (cell other : List ℕ) (one : ReferentRecord) → SaysReferent cell one → SaysReferent other one → cell ≡ other }
    ensures event_width { (types : List ColumnType) (cell : List ℕ) (one : Event)
        → SaysEvent types cell one → length cell ≡ event_width types }
    ensures referent_width { (cell : List ℕ) (one : ReferentRecord) → SaysReferent cell one → length cell ≡ referent_width }
{}

/// The versions of a cell are those of its record.
pub fn cell_has_the_versions_of_its_record()
    ensures event_born { (types : List ColumnType) (cell : List ℕ) (one : Event) → SaysEvent types cell one → born_of cell ≡ one.born }
    ensures event_died { (types : List ColumnType) (cell : List ℕ) (one : Event) → SaysEvent types cell one → died_of cell ≡ one.died }
    ensures event_ended { (types : List ColumnType) (version : ℕ) (cell : List ℕ) (one : Event) → version < 2 ^ 64
        → SaysEvent types cell one → SaysEvent types (ended version cell) (ended_event version one) }
    ensures referent_born { (cell : List ℕ) (one : ReferentRecord) → SaysReferent cell one → born_of cell ≡ one.born }
    ensures referent_died { (cell : List ℕ) (one : ReferentRecord) → SaysReferent cell one → died_of cell ≡ one.died }
    ensures referent_ended { (version : ℕ) (cell : List ℕ) (one : ReferentRecord) → version < 2 ^ 64
        → SaysReferent cell one → SaysReferent (ended version cell) (ended_referent version one) }
{}

/// Each record was born by the version that was accepted last, and lives or died after its birth by that version.
pub fn records_are_dated()
    ensures events { (types : List ColumnType) (pages : PageMap) (standing : Standing) (accepted : ℕ) (events : List Event) (used : ℕ → ℕ)
        → HoldsRecords (kept_events types) pages standing accepted events used
        → AllByRecursion (λ one. (one.born ≤ accepted) × ((one.died ≡ LIVING) ⊎ ((one.born < one.died) × (one.died ≤ accepted)))) events }
    ensures referents { (pages : PageMap) (standing : Standing) (accepted : ℕ) (referents : List ReferentRecord) (used : ℕ → ℕ)
        → HoldsRecords kept_referents pages standing accepted referents used
        → AllByRecursion (λ one. (one.born ≤ accepted) × ((one.died ≡ LIVING) ⊎ ((one.born < one.died) × (one.died ≤ accepted)))) referents }
{}

/// Records stay where their pages do and up to a later version, they are one list at the most, and there are none where nothing stands.
pub fn records_stay()
    ensures later_events { (types : List ColumnType) (pages : PageMap) (standing : Standing) (from to : ℕ) (events : List Event) (used : ℕ → ℕ)
        → from ≤ to → HoldsRecords (kept_events types) pages standing from events used → HoldsRecords (kept_events types) pages standing to events used }
    ensures later_referents { (pages : PageMap) (standing : Standing) (from to : ℕ) (referents : List ReferentRecord) (used : ℕ → ℕ)
        → from ≤ to → HoldsRecords kept_referents pages standing from referents used → HoldsRecords kept_referents pages standing to referents used }
    ensures kept_events { (types : List ColumnType) (old new : PageMap) (standing : Standing) (accepted : ℕ) (events : List Event) (used : ℕ → ℕ)
        → KeepsPages used old new → HoldsRecords (kept_events types) old standing accepted events used
        → HoldsRecords (kept_events types) new standing accepted events used }
    ensures kept_referents { (old new : PageMap) (standing : Standing) (accepted : ℕ) (referents : List ReferentRecord) (used : ℕ → ℕ)
        → KeepsPages used old new → HoldsRecords kept_referents old standing accepted referents used
        → HoldsRecords kept_referents new standing accepted referents used }
    ensures one_list_of_events { (types : List ColumnType) (pages : PageMap) (stands lies : Standing) (from to : ℕ) (one other : List Event) (used uses : ℕ → ℕ)
        → stands.root ≡ lies.root → HoldsRecords (kept_events types) pages stands from one used
        → HoldsRecords (kept_events types) pages lies to other uses → one ≡ other }
    ensures one_list_of_referents { (pages : PageMap) (stands lies : Standing) (from to : ℕ) (one other : List ReferentRecord) (used uses : ℕ → ℕ)
        → stands.root ≡ lies.root → HoldsRecords kept_referents pages stands from one used
        → HoldsRecords kept_referents pages lies to other uses → one ≡ other }
    ensures no_events { (types : List ColumnType) (pages : PageMap) (accepted : ℕ) (events : List Event) (used : ℕ → ℕ)
        → HoldsRecords (kept_events types) pages nothing_stands accepted events used → events ≡ [] }
    ensures no_referents { (pages : PageMap) (accepted : ℕ) (referents : List ReferentRecord) (used : ℕ → ℕ)
        → HoldsRecords kept_referents pages nothing_stands accepted referents used → referents ≡ [] }
{}

/// Versions before the birth of an event have the spans that they had; from its birth on they have its span too.
pub fn event_that_has_come_is_seen_from_its_birth()
    ensures before { (version route : ℕ) (one : Event) (old now : List Event)
        → HasOneMore one old now → version < one.born → IsPermutation (spans_at version route now) (spans_at version route old) }
    ensures after { (version : ℕ) (one : Event) (old now : List Event)
        → WasAdded one old now → one.born ≤ version → version < one.died
        → IsPermutation (spans_at version one.route now) (span_of one ∷ spans_at version one.route old) }
    ensures elsewhere { (version route : ℕ) (one : Event) (old now : List Event)
        → HasOneMore one old now → (route ≡ one.route → ⊥) → IsPermutation (spans_at version route now) (spans_at version route old) }
{}

/// Versions before its end have the span of an event that has ended, where it was not there as an ended one; from its end on they
/// have all others. The facts of versions before its end stay as they were, even where it was there as an ended one.
pub fn event_that_has_ended_is_seen_before_its_end()
    ensures before { (types : List ColumnType) (version at route : ℕ) (one : Event) (old now : List Event)
        → HasEnded (kept_events types) version one old now → (Contains old (ended_event version one) → ⊥)
        → one.died ≡ LIVING → version < LIVING → at < version
        → IsPermutation (spans_at at route now) (spans_at at route old) }
    ensures facts_before { (types : List ColumnType) (version at route : ℕ) (one : Event) (old now : List Event)
        → HasEnded (kept_events types) version one old now → one.died ≡ LIVING → version < LIVING → at < version
        → facts_at at route now ≡ facts_at at route old }
    ensures after { (types : List ColumnType) (version at : ℕ) (one : Event) (old now : List Event)
        → WasEnded (kept_events types) version one old now → one.died ≡ LIVING → one.born ≤ at → at < LIVING → version ≤ at
        → IsPermutation (spans_at at one.route old) (span_of one ∷ spans_at at one.route now) }
    ensures elsewhere { (types : List ColumnType) (version at route : ℕ) (one : Event) (old now : List Event)
        → HasEnded (kept_events types) version one old now → (route ≡ one.route → ⊥)
        → IsPermutation (spans_at at route now) (spans_at at route old) }
{}

/// No event has ended at a version after the one that was accepted last. While a command changes events at that version, those
/// that are there with that end are those that it has ended: neither one that comes nor the end of another adds one.
pub fn no_event_ended_after_the_accepted_version()
    ensures none { (types : List ColumnType) (pages : PageMap) (standing : Standing) (accepted version : ℕ) (one : Event) (events : List Event) (used : ℕ → ℕ)
        → HoldsRecords (kept_events types) pages standing accepted events used → accepted < version → version < LIVING
        → Contains events (ended_event version one) → ⊥ }
    ensures come { (version : ℕ) (one other : Event) (old now : List Event)
        → HasOneMore other old now → other.died ≡ LIVING → version < LIVING
        → (Contains old (ended_event version one) → ⊥) → Contains now (ended_event version one) → ⊥ }
    ensures ended { (types : List ColumnType) (version : ℕ) (one other : Event) (old now : List Event)
        → HasEnded (kept_events types) version other old now → one.died ≡ LIVING → other.died ≡ LIVING → (one ≡ other → ⊥)
        → (Contains old (ended_event version one) → ⊥) → Contains now (ended_event version one) → ⊥ }
{}

/// No referent has ended at a version after the one that was accepted last. While a command changes referents at that version,
/// those that are there with that end are those that it has ended: neither one that comes nor the end of another adds one.
pub fn no_referent_ended_after_the_accepted_version()
    ensures none { (pages : PageMap) (standing : Standing) (accepted version : ℕ) (one : ReferentRecord) (referents : List ReferentRecord) (used : ℕ → ℕ)
        → HoldsRecords kept_referents pages standing accepted referents used → accepted < version → version < LIVING
        → Contains referents (ended_referent version one) → ⊥ }
    ensures come { (version : ℕ) (one other : ReferentRecord) (old now : List ReferentRecord)
        → HasOneMore other old now → other.died ≡ LIVING → version < LIVING
        → (Contains old (ended_referent version one) → ⊥) → Contains now (ended_referent version one) → ⊥ }
    ensures ended { (version : ℕ) (one other : ReferentRecord) (old now : List ReferentRecord)
        → HasEnded kept_referents version other old now → one.died ≡ LIVING → other.died ≡ LIVING → (one ≡ other → ⊥)
        → (Contains old (ended_referent version one) → ⊥) → Contains now (ended_referent version one) → ⊥ }
{}

/// Versions from the oldest on have the spans that they had before events were cleared.
pub fn cleared_events_were_not_seen()
    ensures { (types : List ColumnType) (oldest version route : ℕ) (cells : List (List ℕ)) (old now : List Event)
        → HasCleared (kept_events types) oldest cells old now → oldest ≤ version
        → IsPermutation (spans_at version route now) (spans_at version route old) }
{}

/// Versions before the birth of a referent have those that they had, and so have versions before its end; from its birth on they
/// have it too, from its end on all others, and from the oldest on they have those that they had before some were cleared.
pub fn referents_are_seen_as_events_are()
    ensures before_its_birth { (version route : ℕ) (one : ReferentRecord) (old now : List ReferentRecord)
        → HasOneMore one old now → version < one.born → IsPermutation (referents_at version route now) (referents_at version route old) }
    ensures from_its_birth { (version : ℕ) (one : ReferentRecord) (old now : List ReferentRecord)
        → WasAdded one old now → one.born ≤ version → version < one.died
        → IsPermutation (referents_at version one.route now) ((one.name, one.measure) ∷ referents_at version one.route old) }
    ensures before_its_end { (version at route : ℕ) (one : ReferentRecord) (old now : List ReferentRecord)
        → HasEnded kept_referents version one old now → (Contains old (ended_referent version one) → ⊥)
        → one.died ≡ LIVING → version < LIVING → at < version
        → IsPermutation (referents_at at route now) (referents_at at route old) }
    ensures from_its_end { (version at : ℕ) (one : ReferentRecord) (old now : List ReferentRecord)
        → WasEnded kept_referents version one old now → one.died ≡ LIVING → one.born ≤ at → at < LIVING → version ≤ at
        → IsPermutation (referents_at at one.route old) ((one.name, one.measure) ∷ referents_at at one.route now) }
    ensures cleared { (oldest version route : ℕ) (cells : List (List ℕ)) (old now : List ReferentRecord)
        → HasCleared kept_referents oldest cells old now → oldest ≤ version
        → IsPermutation (referents_at version route now) (referents_at version route old) }
{}

/// The same spans in another order are the runs of the same facts.
pub fn spans_in_another_order_are_the_same_runs()
    ensures { (kind : Kind) (one other : List Stretch) → IsPermutation one other
        → AreAllRunsOf kind (places_of one) one → AreAllRunsOf kind (places_of other) other }
{}

/// Events that are visible on all of a route are those of the route, and those that are visible between two bounds have its facts
/// there.
pub fn visible_events_are_those_of_the_route()
    ensures whole { (version route b : ℕ) (events : List Event) → AllByRecursion (λ event. (0 < event.hi) × (event.lo < b)) (filter (is_on version route) events)
        → filter (is_visible version route 0 b) events ≡ filter (is_on version route) events }
    ensures between { (version route a b k : ℕ) (events : List Event) → a ≤ k → k < b
        → places_of (map span_of (filter (is_visible version route a b) events)) k ≡ facts_at version route events k }
{}

/// The version that was accepted last sees the records that live, all others are clearable then, and the stored counts are those of
/// the living and the dead.
pub fn present_version_sees_the_living()
    ensures events { (types : List ColumnType) (pages : PageMap) (standing : Standing) (accepted : ℕ) (events : List Event) (used : ℕ → ℕ)
        → HoldsRecords (kept_events types) pages standing accepted events used → accepted < LIVING
        → filter (sees_event accepted) events ≡ filter (λ event. event.died == LIVING) events }
    ensures referents { (pages : PageMap) (standing : Standing) (accepted : ℕ) (referents : List ReferentRecord) (used : ℕ → ℕ)
        → HoldsRecords kept_referents pages standing accepted referents used → accepted < LIVING
        → filter (is_seen kept_referents accepted) referents ≡ filter (λ referent. referent.died == LIVING) referents }
    ensures living_events { (types : List ColumnType) (pages : PageMap) (standing : Standing) (accepted : ℕ) (events : List Event) (used : ℕ → ℕ)
        → HoldsRecords (kept_events types) pages standing accepted events used → count_by (λ event. event.died == LIVING) events ≡ standing.living }
    ensures living_referents { (pages : PageMap) (standing : Standing) (accepted : ℕ) (referents : List ReferentRecord) (used : ℕ → ℕ)
        → HoldsRecords kept_referents pages standing accepted referents used → count_by (λ referent. referent.died == LIVING) referents ≡ standing.living }
    ensures clearable_events { (types : List ColumnType) (pages : PageMap) (standing : Standing) (accepted : ℕ) (events : List Event) (used : ℕ → ℕ)
        → HoldsRecords (kept_events types) pages standing accepted events used → accepted < LIVING
        → count_by (λ event. nat_le event.died accepted) events ≡ length standing.dead }
    ensures clearable_referents { (pages : PageMap) (standing : Standing) (accepted : ℕ) (referents : List ReferentRecord) (used : ℕ → ℕ)
        → HoldsRecords kept_referents pages standing accepted referents used → accepted < LIVING
        → count_by (λ referent. nat_le referent.died accepted) referents ≡ length standing.dead }
{}

/// Spans that a version sees on a route are in printing order, and so are those that it sees between two bounds.
pub fn spans_are_in_printing_order()
    ensures whole { (types : List ColumnType) (pages : PageMap) (standing : Standing) (accepted version route : ℕ) (events : List Event) (used : ℕ → ℕ)
        → HoldsRecords (kept_events types) pages standing accepted events used → AreInPrintingOrder (spans_at version route events) }
    ensures between { (types : List ColumnType) (pages : PageMap) (standing : Standing) (accepted version route a b : ℕ) (events : List Event) (used : ℕ → ℕ)
        → HoldsRecords (kept_events types) pages standing accepted events used
        → AreInPrintingOrder (map span_of (filter (is_visible version route a b) events)) }
{}

/// The names of the referents that a version sees on a route never fall, byte by byte.
pub fn referents_are_in_name_order()
    ensures { (pages : PageMap) (standing : Standing) (accepted version route : ℕ) (referents : List ReferentRecord) (used : ℕ → ℕ)
        → HoldsRecords kept_referents pages standing accepted referents used → AreInNameOrder (referents_at version route referents) }
{}

//! These laws say which changes leave live versions, from the oldest up to the one that was accepted last, what they see.
//!
//! Each change of records is one that a call of `rs_versioned` states. Changes join, so a command keeps what live versions see
//! where each of its changes does.

ghost use Rattle.std.specs.Prelude.{◌≡◌, ◌≤◌, ◌<◌, ◌++◌, ◌∷◌, ℕ, List, map};
ghost use Rattle.rs_catalog_meaning.specs.Meaning.{AreMeant};
ghost use Rattle.rs_catalog_pages.specs.Directory.{DirectoryItems};
ghost use Rattle.rs_catalog_pages.specs.Items.{CatalogueItems, TableItem};
ghost use Rattle.rs_versioned.specs.TheConstants.{LIVING};
ghost use Rattle.rs_file.specs.Contents.{Contents, ReferentContents, TableContents};
ghost use Rattle.rs_facts.specs.Spans.{places_of};
ghost use Rattle.rs_machine.specs.Lawful.{AreDistinct};
ghost use Rattle.rs_file_meaning.specs.Changed.{HasTableBetween, HaveOwnNumbers, RoutesComeAfter, TableComes, with_table};
ghost use Rattle.rs_file_meaning.specs.Live.{HasTheSameWorld, HaveOwnNames, KeepsEvents, KeepsLive, KeepsRecords, KeepsReferents, SeesTheSame};
ghost use Rattle.rs_file_meaning.specs.Seen.{events_of, referents_seen, routes_at, spans_seen};
ghost use Rattle.rs_file_meaning.specs.States.{world_at};
ghost use Rattle.rs_value.specs.declared.column.ColumnType.{ColumnType};
ghost use Rattle.rs_value.specs.declared.column.Kind.{Kind};
ghost use Rattle.rs_versioned.specs.Events.{Event, kept_events};
ghost use Rattle.rs_versioned.specs.Records.{HasCleared, HasEnded, HasOneMore};
ghost use Rattle.rs_versioned.specs.Meant.{AreEventsMeant, AreReferentsMeant};
ghost use Rattle.rs_versioned.specs.Referents.{ReferentRecord, kept_referents, referents_at};
ghost use Rattle.rs_versioned.specs.Runs.{AreRunsFrom};

/// Live versions see the events that they saw where one comes that is born after them, where a living one ends after them, and where
/// events are cleared that none of them sees; so they do after several such changes. Where they had their runs, they have them still.
pub fn live_versions_see_their_events()
    ensures unchanged { (oldest accepted : ℕ) (events : List Event) → KeepsEvents oldest accepted events events }
    ensures joined { (oldest accepted : ℕ) (old next now : List Event)
        → KeepsEvents oldest accepted old next → KeepsEvents oldest accepted next now → KeepsEvents oldest accepted old now }
    ensures fewer { (oldest accepted from : ℕ) (old now : List Event)
        → oldest ≤ from → KeepsEvents oldest accepted old now → KeepsEvents from accepted old now }
    ensures come { (oldest accepted : ℕ) (one : Event) (old now : List Event)
        → HasOneMore one old now → accepted < one.born → KeepsEvents oldest accepted old now }
    ensures ended { (kind : Kind) (oldest accepted : ℕ) (types : List ColumnType) (version : ℕ) (one : Event) (old now : List Event)
        → AreRunsFrom kind oldest accepted old → HasEnded (kept_events types) version one old now
        → one.died ≡ LIVING → accepted < version → version < LIVING → KeepsEvents oldest accepted old now }
    ensures cleared { (oldest accepted : ℕ) (types : List ColumnType) (cells : List (List ℕ)) (old now : List Event)
        → HasCleared (kept_events types) oldest cells old now → KeepsEvents oldest accepted old now }
    ensures runs { (kind : Kind) (oldest accepted : ℕ) (old now : List Event)
        → KeepsEvents oldest accepted old now → AreRunsFrom kind oldest accepted old → AreRunsFrom kind oldest accepted now }
{}

/// Live versions see the referents that they saw after the same changes. Where the referents of a route had names of their own, they
/// have them still.
pub fn live_versions_see_their_referents()
    ensures unchanged { (oldest accepted : ℕ) (referents : List ReferentRecord) → KeepsReferents oldest accepted referents referents }
    ensures joined { (oldest accepted : ℕ) (old next now : List ReferentRecord)
        → KeepsReferents oldest accepted old next → KeepsReferents oldest accepted next now → KeepsReferents oldest accepted old now }
    ensures fewer { (oldest accepted from : ℕ) (old now : List ReferentRecord)
        → oldest ≤ from → KeepsReferents oldest accepted old now → KeepsReferents from accepted old now }
    ensures come { (oldest accepted : ℕ) (one : ReferentRecord) (old now : List ReferentRecord)
        → HasOneMore one old now → accepted < one.born → KeepsReferents oldest accepted old now }
    ensures ended { (oldest accepted version : ℕ) (one : ReferentRecord) (old now : List ReferentRecord)
        → HaveOwnNames oldest accepted old → HasEnded kept_referents version one old now
        → one.died ≡ LIVING → accepted < version → version < LIVING → KeepsReferents oldest accepted old now }
    ensures cleared { (oldest accepted : ℕ) (cells : List (List ℕ)) (old now : List ReferentRecord)
        → HasCleared kept_referents oldest cells old now → KeepsReferents oldest accepted old now }
    ensures names { (oldest accepted : ℕ) (old now : List ReferentRecord)
        → KeepsReferents oldest accepted old now → HaveOwnNames oldest accepted old → HaveOwnNames oldest accepted now }
{}

/// Live versions see the same where some records change so, and nothing else does. So they do after several changes, and so do fewer
/// versions; where none but the version of the change is live there is nothing to see.
pub fn live_versions_see_the_same()
    ensures joined { (oldest : ℕ) (old next now : Contents) → KeepsLive oldest old next → KeepsLive oldest next now
        → old.directory.accepted ≤ next.directory.accepted → KeepsLive oldest old now }
    ensures fewer { (oldest from : ℕ) (old now : Contents) → oldest ≤ from → KeepsLive oldest old now → KeepsLive from old now }
    ensures none { (oldest : ℕ) (old now : Contents) → old.directory.accepted < oldest → KeepsLive oldest old now }
    ensures directory { (oldest : ℕ) (contents : Contents) (directory : DirectoryItems)
        → KeepsLive oldest contents (record contents { directory = directory }) }
    ensures records { (oldest : ℕ) (old now : Contents) → KeepsRecords oldest old now → KeepsLive oldest old now }
    ensures table { (oldest : ℕ) (contents : Contents) (item : TableItem) (before : List TableContents) (table now : TableContents) (after : List TableContents)
        → HasTableBetween contents item before table after → KeepsEvents oldest contents.directory.accepted table.events now.events
        → KeepsRecords oldest contents (with_table contents before now after) }
    ensures referents { (oldest : ℕ) (contents : Contents) (now : ReferentContents)
        → KeepsReferents oldest contents.directory.accepted contents.referents.referents now.referents
        → KeepsRecords oldest contents (record contents { referents = now }) }
{}

/// Live versions see the same where definitions change beside the tables and the routes that were there, and where a table without
/// events comes. A route or a table goes only while no version but the one of this change is live.
pub fn live_versions_see_the_same_beside_new_definitions()
    ensures routes { (oldest : ℕ) (contents : Contents) (definitions : CatalogueItems)
        → AreMeant contents.definitions → AreMeant definitions → definitions.tables ≡ contents.definitions.tables
        → RoutesComeAfter contents.directory.accepted contents.definitions.routes definitions.routes
        → KeepsLive oldest contents (record contents { definitions = definitions }) }
    ensures table { (oldest : ℕ) (contents : Contents) (definitions : CatalogueItems) (before : List TableContents) (table : TableContents) (after : List TableContents)
        → definitions.routes ≡ contents.definitions.routes → HaveOwnNumbers definitions.tables
        → TableComes contents definitions before table after
        → KeepsLive oldest contents (record contents { definitions = definitions; tables = before ++ table ∷ after }) }
{}

/// A version that sees what it saw has the same facts of each table on each route, the same referents under their names, and the same
/// world: all of it where the tables are those that were there, else each table that was there. Its records mean what they meant.
pub fn version_that_sees_the_same_has_the_same_world()
    ensures unchanged { (version : ℕ) (contents : Contents) → SeesTheSame version contents contents }
    ensures joined { (version : ℕ) (old next now : Contents)
        → SeesTheSame version old next → SeesTheSame version next now → SeesTheSame version old now }
    ensures facts { (version table route : ℕ) (old now : Contents) → SeesTheSame version old now
        → places_of (spans_seen now version table route) ≡ places_of (spans_seen old version table route) }
    ensures events { (kind : Kind) (version table : ℕ) (old now : Contents) → SeesTheSame version old now
        → AreEventsMeant (routes_at version old.definitions.routes) kind version (events_of old table)
        → AreEventsMeant (routes_at version now.definitions.routes) kind version (events_of now table) }
    ensures referents { (version : ℕ) (old now : Contents) → SeesTheSame version old now
        → AreReferentsMeant (routes_at version old.definitions.routes) version old.referents.referents
        → AreReferentsMeant (routes_at version now.definitions.routes) version now.referents.referents }
    ensures names { (version route : ℕ) (old now : Contents) → SeesTheSame version old now
        → AreDistinct (map (λ one. one.0) (referents_at version route old.referents.referents))
        → referents_seen now version route ≡ referents_seen old version route }
    ensures world { (version : ℕ) (old now : Contents) → SeesTheSame version old now → now.definitions.tables ≡ old.definitions.tables
        → world_at now version ≡ world_at old version }
    ensures tables { (version : ℕ) (old now : Contents) → SeesTheSame version old now
        → AreMeant old.definitions → AreMeant now.definitions → HasTheSameWorld version old now }
{}

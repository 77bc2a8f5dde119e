//! A row put along a span of a route, and rows taken away between two thousandths: the state that a file has then.

ghost use Rattle.std.specs.Prelude.{◌≡◌, ◌≤◌, ◌<◌, ◌+◌, ℕ, Option, Some, map, slice_get};
ghost use Rattle.std.specs.FinMap as names;
ghost use Rattle.rs_catalog.specs.Definitions.{Definitions, Numbered, RouteItem, TableItem};
ghost use Rattle.rs_catalog.specs.Events.{behind};
ghost use Rattle.rs_catalog.specs.Referents.{HeldReferents};
ghost use Rattle.rs_cell_versions.specs.declared.cell.TheConstants.{LIVING};
ghost use Rattle.rs_file_parts.specs.Contents.{Contents, table_numbers};
ghost use Rattle.rs_file_parts.specs.OpenedFile.{OpenedFile};
ghost use Rattle.rs_spans.specs.Removal.{goes_by};
ghost use Rattle.rs_facts.specs.Fact.{Name};
ghost use Rattle.rs_facts.specs.Insert.{new_facts};
ghost use Rattle.rs_facts.specs.Query.{Table};
ghost use Rattle.rs_facts.specs.Remove.{removed_facts};
ghost use Rattle.rs_facts.specs.Runs.{Stretch};
ghost use Rattle.rs_facts.specs.declared.condition.Condition.{Condition};
ghost use Rattle.rs_machine.specs.State.{State};
ghost use Rattle.rs_machine.specs.Step.{with_facts_along, with_table, without_facts};
ghost use Rattle.rs_pages.specs.PageMap.{PageMap};
ghost use Rattle.rs_change_laws.specs.Changing.{GivesState};
ghost use Rattle.rs_change_laws.specs.Parts.{InsertsRow, RemovesRows};
ghost use Rattle.rs_change_laws.specs.Standing.{StandsAt};

use crate::completing::file_stands_for_the_state_in_memory;
use rs_catalog_laws::rows::{state_has_a_row_more, state_has_rows_less};
use rs_file_meaning::changes::{changed_table_leaves_the_others_meant, meant_contents_stay_meant};
use rs_file_meaning::live::live_versions_see_the_same;
use rs_file_meaning::standing::definitions_of_a_file_are_a_catalogues;
use rs_file_meaning::versions::{
    next_version_begins_as_the_present_one, next_version_is_meant_as_the_present_one,
};

/// Where a row was put along a span of a route, the table has the row there beside those that it had, and the count is that of its
/// new facts.
pub fn row_put_gives_its_state()
    ensures { (from oldest : ℕ) (map : PageMap) (file : OpenedFile) (definitions : Definitions) (held : Numbered HeldReferents) (state : State)
        → (stands : StandsAt from map file definitions held state) → from ≤ oldest → stands.contents.directory.accepted + 1 < LIVING
        → (name route : Name) (table : TableItem) (on : RouteItem) (place : ℕ) (span : Stretch) (count : ℕ) (between : Contents)
        → names.get definitions.tables name ≡ Some table → names.get definitions.routes route ≡ Some on
        → slice_get (table_numbers stands.contents.definitions) place ≡ Some table.number
        → on.ends.start ≤ span.lo → span.hi ≤ behind table.kind on.ends
        → InsertsRow place table.kind on.number span count stands.contents between
        → (there : Table) → names.get state.tables name ≡ Some there
        → GivesState oldest stands.contents between definitions held (with_table state name (with_facts_along there route span.lo span.hi span.row))
        × (count ≡ new_facts there.facts route span.lo span.hi span.row) }
{
    file_stands_for_the_state_in_memory();
    definitions_of_a_file_are_a_catalogues();
    meant_contents_stay_meant();
    changed_table_leaves_the_others_meant();
    live_versions_see_the_same();
    next_version_begins_as_the_present_one();
    next_version_is_meant_as_the_present_one();
    state_has_a_row_more();
}

/// Where rows were taken away between two thousandths of a route, the table has those that it had without these, and the count is that
/// of the facts that went.
pub fn rows_taken_away_give_their_state()
    ensures { (from oldest : ℕ) (map : PageMap) (file : OpenedFile) (definitions : Definitions) (held : Numbered HeldReferents) (state : State)
        → (stands : StandsAt from map file definitions held state) → from ≤ oldest → stands.contents.directory.accepted + 1 < LIVING
        → (name route : Name) (table : TableItem) (on : RouteItem) (place lo hi : ℕ) (goes : Option Condition) (count : ℕ) (between : Contents)
        → names.get definitions.tables name ≡ Some table → names.get definitions.routes route ≡ Some on
        → slice_get (table_numbers stands.contents.definitions) place ≡ Some table.number
        → RemovesRows place on.number lo hi goes count stands.contents between
        → (there : Table) → names.get state.tables name ≡ Some there
        → GivesState oldest stands.contents between definitions held (with_table state name (without_facts there route lo hi (goes_by goes)))
        × (count ≡ removed_facts there.facts route lo hi (goes_by goes)) }
{
    file_stands_for_the_state_in_memory();
    definitions_of_a_file_are_a_catalogues();
    meant_contents_stay_meant();
    changed_table_leaves_the_others_meant();
    live_versions_see_the_same();
    next_version_begins_as_the_present_one();
    next_version_is_meant_as_the_present_one();
    state_has_rows_less();
}

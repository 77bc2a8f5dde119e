//! Tables and indexes that come or go: the state that a file has then.

ghost use Rattle.std.specs.Prelude.{◌≡◌, ◌≤◌, ◌<◌, ◌+◌, ℕ, List, Some, false, slice_get};
ghost use Rattle.std.specs.FinMap as names;
ghost use Rattle.rs_catalog.specs.Changes as catalog;
ghost use Rattle.rs_catalog.specs.Definitions.{AreDefinitions, Definitions, IndexItem, IsFree, Numbered, TableItem, indexed_column};
ghost use Rattle.rs_catalog.specs.Referents.{HeldReferents};
ghost use Rattle.rs_cell_versions.specs.declared.cell.TheConstants.{LIVING};
ghost use Rattle.rs_file_parts.specs.Contents.{Contents, table_numbers};
ghost use Rattle.rs_file_parts.specs.OpenedFile.{OpenedFile};
ghost use Rattle.rs_stored_catalog.specs.Listing.{listing_of};
ghost use Rattle.rs_facts.specs.Fact.{Name};
ghost use Rattle.rs_machine.specs.Lawful.{IsLawful};
ghost use Rattle.rs_machine.specs.State.{State, has};
ghost use Rattle.rs_machine.specs.Step as machine;
ghost use Rattle.rs_pages.specs.PageMap.{PageMap};
ghost use Rattle.rs_change_laws.specs.Changing.{GivesState};
ghost use Rattle.rs_change_laws.specs.Parts.{ChangesIndexes, PutsTable, TakesTable};
ghost use Rattle.rs_change_laws.specs.Standing.{StandsAt};
ghost use Rattle.rs_value.specs.declared.column.ColumnType.{ColumnType};

use rs_file_meaning::changes::{
    changed_definitions_leave_records_meant, meant_contents_stay_meant,
};
use rs_file_meaning::live::live_versions_see_the_same_beside_new_definitions;
use rs_file_meaning::standing::{contents_have_one_state, definitions_of_a_file_are_a_catalogues};
use rs_file_meaning::versions::{
    next_version_begins_as_the_present_one, next_version_is_meant_as_the_present_one,
};
use rs_stored_catalog::listing_laws::{
    definitions_of_a_file_list_its_items, listed_definitions_of_a_lawful_catalogue_are_meant,
    one_table_is_listed_more_or_less,
};

/// Where a table without events has come at the place where it is listed, the state has it beside the others.
pub fn table_defined_gives_its_state()
    ensures { (from oldest : ℕ) (map : PageMap) (file : OpenedFile) (definitions : Definitions) (held : Numbered HeldReferents) (state : State)
        → (stands : StandsAt from map file definitions held state) → from ≤ oldest → stands.contents.directory.accepted + 1 < LIVING
        → (name : Name) (item : TableItem) (place : ℕ) (types : List ColumnType) (between : Contents) → AreDefinitions (catalog.with_table definitions name item)
        → has definitions.tables name ≡ false → IsFree (λ (table : TableItem). table.number) definitions.tables item.number
        → slice_get (table_numbers (listing_of (catalog.with_table definitions name item))) place ≡ Some item.number
        → PutsTable place types (listing_of (catalog.with_table definitions name item)) stands.contents between
        → IsLawful (machine.with_table state name (machine.empty_table item.kind item.columns))
        → GivesState oldest stands.contents between (catalog.with_table definitions name item) held (machine.with_table state name (machine.empty_table item.kind item.columns)) }
{
    changed_definitions_leave_records_meant();
    contents_have_one_state();
    definitions_of_a_file_are_a_catalogues();
    definitions_of_a_file_list_its_items();
    listed_definitions_of_a_lawful_catalogue_are_meant();
    live_versions_see_the_same_beside_new_definitions();
    next_version_begins_as_the_present_one();
    next_version_is_meant_as_the_present_one();
    one_table_is_listed_more_or_less();
}

/// Where a table has gone with its indexes, the state has the others. No version before the next one is live.
pub fn table_dropped_gives_its_state()
    ensures { (from oldest : ℕ) (map : PageMap) (file : OpenedFile) (definitions : Definitions) (held : Numbered HeldReferents) (state : State)
        → (stands : StandsAt from map file definitions held state) → oldest ≡ stands.contents.directory.accepted + 1 → oldest < LIVING
        → (name : Name) (item : TableItem) (place : ℕ) (between : Contents) → AreDefinitions definitions
        → names.get definitions.tables name ≡ Some item → slice_get (table_numbers stands.contents.definitions) place ≡ Some item.number
        → TakesTable place (listing_of (catalog.without_table definitions name)) stands.contents between
        → IsLawful (machine.without_table state name)
        → GivesState oldest stands.contents between (catalog.without_table definitions name) held (machine.without_table state name) }
{
    changed_definitions_leave_records_meant();
    contents_have_one_state();
    definitions_of_a_file_are_a_catalogues();
    definitions_of_a_file_list_its_items();
    listed_definitions_of_a_lawful_catalogue_are_meant();
    live_versions_see_the_same_beside_new_definitions();
    next_version_begins_as_the_present_one();
    next_version_is_meant_as_the_present_one();
    one_table_is_listed_more_or_less();
}

/// Where an index has come or gone, the state has it beside the others, or has the others.
pub fn index_listed_gives_its_state()
    ensures defined { (from oldest : ℕ) (map : PageMap) (file : OpenedFile) (definitions : Definitions) (held : Numbered HeldReferents) (state : State)
        → (stands : StandsAt from map file definitions held state) → from ≤ oldest → stands.contents.directory.accepted + 1 < LIVING
        → (name : Name) (item : IndexItem) (place : ℕ) (between : Contents) → AreDefinitions (catalog.with_index definitions name item)
        → has definitions.indexes name ≡ false
        → ChangesIndexes place (listing_of (catalog.with_index definitions name item)) stands.contents between
        → IsLawful (machine.with_index state name (indexed_column item))
        → GivesState oldest stands.contents between (catalog.with_index definitions name item) held (machine.with_index state name (indexed_column item)) }
    ensures dropped { (from oldest : ℕ) (map : PageMap) (file : OpenedFile) (definitions : Definitions) (held : Numbered HeldReferents) (state : State)
        → (stands : StandsAt from map file definitions held state) → from ≤ oldest → stands.contents.directory.accepted + 1 < LIVING
        → (name : Name) (item : IndexItem) (place : ℕ) (between : Contents) → names.get definitions.indexes name ≡ Some item
        → ChangesIndexes place (listing_of (catalog.without_index definitions name)) stands.contents between
        → IsLawful (machine.without_index state name)
        → GivesState oldest stands.contents between (catalog.without_index definitions name) held (machine.without_index state name) }
{
    changed_definitions_leave_records_meant();
    contents_have_one_state();
    definitions_of_a_file_are_a_catalogues();
    definitions_of_a_file_list_its_items();
    listed_definitions_of_a_lawful_catalogue_are_meant();
    live_versions_see_the_same_beside_new_definitions();
    meant_contents_stay_meant();
    next_version_begins_as_the_present_one();
    next_version_is_meant_as_the_present_one();
}

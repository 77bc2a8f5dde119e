//! Routes, views and alignments that come or go: the state that a file has then.

ghost use Rattle.std.specs.Prelude.{◌≡◌, ◌≤◌, ◌<◌, ◌+◌, ℕ, List, [], Some, false};
ghost use Rattle.std.specs.FinMap as names;
ghost use Rattle.rs_catalog.specs.Changes as catalog;
ghost use Rattle.rs_catalog.specs.Definitions.{AreDefinitions, Definitions, IsFree, Numbered, RouteItem, ViewItem};
ghost use Rattle.rs_catalog.specs.Referents.{HeldReferents, at_number, referents_on};
ghost use Rattle.rs_catalog.specs.Uses.{some_piece_on};
ghost use Rattle.rs_cell_versions.specs.declared.cell.TheConstants.{LIVING};
ghost use Rattle.rs_file_parts.specs.Contents.{Contents};
ghost use Rattle.rs_file_parts.specs.OpenedFile.{OpenedFile};
ghost use Rattle.rs_stored_catalog.specs.Listing.{listing_of};
ghost use Rattle.rs_facts.specs.Fact.{Name};
ghost use Rattle.rs_facts.specs.Query.{Piece};
ghost use Rattle.rs_file_parts.specs.Calls.{ChangesDefinitions};
ghost use Rattle.rs_machine.specs.Lawful.{IsLawful};
ghost use Rattle.rs_machine.specs.State.{State, has};
ghost use Rattle.rs_machine.specs.Step as machine;
ghost use Rattle.rs_pages.specs.PageMap.{PageMap};
ghost use Rattle.rs_file_meaning.specs.Seen.{spans_seen};
ghost use Rattle.rs_file_meaning.specs.States.{HasLine};
ghost use Rattle.rs_change_laws.specs.Changing.{GivesState};
ghost use Rattle.rs_change_laws.specs.Parts.{DropsRoute};
ghost use Rattle.rs_change_laws.specs.Standing.{StandsAt};
ghost use Rattle.rs_syntax.specs.QueryView.{query_tree};

use rs_catalog_laws::definitions::{
    state_has_one_other_definition_more_or_less, state_has_one_route_more_or_less,
};
use rs_file_meaning::changes::changed_definitions_leave_records_meant;
use rs_file_meaning::live::{
    live_versions_see_the_same_beside_new_definitions,
    version_that_sees_the_same_has_the_same_world,
};
use rs_file_meaning::standing::{contents_have_one_state, definitions_of_a_file_are_a_catalogues};
use rs_file_meaning::versions::{
    next_version_begins_as_the_present_one, next_version_is_meant_as_the_present_one,
};
use rs_stored_catalog::listing_laws::{
    definitions_of_a_file_list_its_items, listed_definitions_of_a_lawful_catalogue_are_meant,
    one_route_is_listed_more_or_less,
};

/// Where a route of a free number is listed that is born by the next version, the state has it beside the others.
pub fn route_defined_gives_its_state()
    ensures { (from oldest : ℕ) (map : PageMap) (file : OpenedFile) (definitions : Definitions) (held : Numbered HeldReferents) (state : State)
        → (stands : StandsAt from map file definitions held state) → from ≤ oldest → stands.contents.directory.accepted + 1 < LIVING
        → (name : Name) (item : RouteItem) (between : Contents) → AreDefinitions (catalog.with_route definitions name item)
        → has definitions.routes name ≡ false → IsFree (λ (route : RouteItem). route.number) definitions.routes item.number
        → item.born ≡ stands.contents.directory.accepted + 1
        → ChangesDefinitions (listing_of (catalog.with_route definitions name item)) stands.contents between
        → IsLawful (machine.with_route state name item.ends.start item.ends.finish)
        → GivesState oldest stands.contents between (catalog.with_route definitions name item) held (machine.with_route state name item.ends.start item.ends.finish) }
{
    changed_definitions_leave_records_meant();
    contents_have_one_state();
    definitions_of_a_file_are_a_catalogues();
    definitions_of_a_file_list_its_items();
    listed_definitions_of_a_lawful_catalogue_are_meant();
    live_versions_see_the_same_beside_new_definitions();
    next_version_begins_as_the_present_one();
    next_version_is_meant_as_the_present_one();
    one_route_is_listed_more_or_less();
    state_has_one_route_more_or_less();
}

/// Where a route is not listed any more on which no fact lies, and its referents have ended, the state has neither. No version before
/// the next one is live.
pub fn route_dropped_gives_its_state()
    ensures { (from oldest : ℕ) (map : PageMap) (file : OpenedFile) (definitions : Definitions) (held kept : Numbered HeldReferents) (state : State)
        → (stands : StandsAt from map file definitions held state) → oldest ≡ stands.contents.directory.accepted + 1 → oldest < LIVING
        → (name : Name) (item : RouteItem) (between : Contents) → AreDefinitions (catalog.without_route definitions name)
        → names.get definitions.routes name ≡ Some item → some_piece_on definitions name ≡ false
        → ((table : ℕ) → spans_seen stands.contents stands.contents.directory.accepted table item.number ≡ [])
        → referents_on kept ≡ at_number item.number names.empty (referents_on held)
        → DropsRoute item.number (listing_of (catalog.without_route definitions name)) stands.contents between
        → IsLawful (machine.without_route state name)
        → GivesState oldest stands.contents between (catalog.without_route definitions name) kept (machine.without_route state name) }
{
    changed_definitions_leave_records_meant();
    contents_have_one_state();
    definitions_of_a_file_are_a_catalogues();
    definitions_of_a_file_list_its_items();
    listed_definitions_of_a_lawful_catalogue_are_meant();
    live_versions_see_the_same_beside_new_definitions();
    next_version_begins_as_the_present_one();
    next_version_is_meant_as_the_present_one();
    one_route_is_listed_more_or_less();
    state_has_one_route_more_or_less();
    version_that_sees_the_same_has_the_same_world();
}

/// Where a view is listed, or is not any more, the state has it beside the others, or has the others.
pub fn view_listed_gives_its_state()
    ensures defined { (from oldest : ℕ) (map : PageMap) (file : OpenedFile) (definitions : Definitions) (held : Numbered HeldReferents) (state : State)
        → (stands : StandsAt from map file definitions held state) → from ≤ oldest → stands.contents.directory.accepted + 1 < LIVING
        → (name : Name) (item : ViewItem) (between : Contents) → has definitions.views name ≡ false → HasLine name (query_tree item.query) item.text
        → ChangesDefinitions (listing_of (catalog.with_view definitions name item)) stands.contents between
        → IsLawful (machine.with_view state name (query_tree item.query))
        → GivesState oldest stands.contents between (catalog.with_view definitions name item) held (machine.with_view state name (query_tree item.query)) }
    ensures dropped { (from oldest : ℕ) (map : PageMap) (file : OpenedFile) (definitions : Definitions) (held : Numbered HeldReferents) (state : State)
        → (stands : StandsAt from map file definitions held state) → from ≤ oldest → stands.contents.directory.accepted + 1 < LIVING
        → (name : Name) (item : ViewItem) (between : Contents) → names.get definitions.views name ≡ Some item
        → ChangesDefinitions (listing_of (catalog.without_view definitions name)) stands.contents between
        → IsLawful (machine.without_view state name)
        → GivesState oldest stands.contents between (catalog.without_view definitions name) held (machine.without_view state name) }
{
    changed_definitions_leave_records_meant();
    contents_have_one_state();
    definitions_of_a_file_are_a_catalogues();
    definitions_of_a_file_list_its_items();
    listed_definitions_of_a_lawful_catalogue_are_meant();
    live_versions_see_the_same_beside_new_definitions();
    next_version_begins_as_the_present_one();
    next_version_is_meant_as_the_present_one();
    state_has_one_other_definition_more_or_less();
}

/// The same of an alignment.
pub fn alignment_listed_gives_its_state()
    ensures defined { (from oldest : ℕ) (map : PageMap) (file : OpenedFile) (definitions : Definitions) (held : Numbered HeldReferents) (state : State)
        → (stands : StandsAt from map file definitions held state) → from ≤ oldest → stands.contents.directory.accepted + 1 < LIVING
        → (name : Name) (pieces : List Piece) (between : Contents) → AreDefinitions (catalog.with_alignment definitions name pieces)
        → has definitions.alignments name ≡ false
        → ChangesDefinitions (listing_of (catalog.with_alignment definitions name pieces)) stands.contents between
        → IsLawful (machine.with_alignment state name pieces)
        → GivesState oldest stands.contents between (catalog.with_alignment definitions name pieces) held (machine.with_alignment state name pieces) }
    ensures dropped { (from oldest : ℕ) (map : PageMap) (file : OpenedFile) (definitions : Definitions) (held : Numbered HeldReferents) (state : State)
        → (stands : StandsAt from map file definitions held state) → from ≤ oldest → stands.contents.directory.accepted + 1 < LIVING
        → (name : Name) (pieces : List Piece) (between : Contents) → names.get definitions.alignments name ≡ Some pieces
        → ChangesDefinitions (listing_of (catalog.without_alignment definitions name)) stands.contents between
        → IsLawful (machine.without_alignment state name)
        → GivesState oldest stands.contents between (catalog.without_alignment definitions name) held (machine.without_alignment state name) }
{
    changed_definitions_leave_records_meant();
    contents_have_one_state();
    definitions_of_a_file_are_a_catalogues();
    definitions_of_a_file_list_its_items();
    listed_definitions_of_a_lawful_catalogue_are_meant();
    live_versions_see_the_same_beside_new_definitions();
    next_version_begins_as_the_present_one();
    next_version_is_meant_as_the_present_one();
    state_has_one_other_definition_more_or_less();
}

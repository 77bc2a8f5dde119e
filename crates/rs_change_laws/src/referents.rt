//! A referent that comes, moves or goes: the state that a file has then.

ghost use Rattle.std.specs.Prelude.{◌≡◌, ◌≤◌, ◌<◌, ◌+◌, ℕ, Some, true, false};
ghost use Rattle.std.specs.FinMap as names;
ghost use Rattle.rs_catalog.specs.Definitions.{Definitions, Numbered, RouteItem};
ghost use Rattle.rs_catalog.specs.Referents.{HeldReferents, at_number, referents_on};
ghost use Rattle.rs_cell_versions.specs.declared.cell.TheConstants.{LIVING};
ghost use Rattle.rs_file_parts.specs.Contents.{Contents};
ghost use Rattle.rs_file_parts.specs.OpenedFile.{OpenedFile};
ghost use Rattle.rs_facts.specs.Fact.{Name};
ghost use Rattle.rs_machine.specs.Lawful.{IsLawful};
ghost use Rattle.rs_machine.specs.State.{State, has};
ghost use Rattle.rs_machine.specs.Step.{with_referents};
ghost use Rattle.rs_pages.specs.PageMap.{PageMap};
ghost use Rattle.rs_change_laws.specs.Changing.{GivesState};
ghost use Rattle.rs_change_laws.specs.Parts.{EndsReferent, MovesReferent, PutsReferent};
ghost use Rattle.rs_change_laws.specs.Standing.{StandsAt};

use rs_catalog_laws::referents::state_has_other_referents_on_a_route;
use rs_file_meaning::changes::{changed_referents_leave_all_else_meant, meant_contents_stay_meant};
use rs_file_meaning::live::{
    live_versions_see_the_same, live_versions_see_their_referents,
    version_that_sees_the_same_has_the_same_world,
};
use rs_file_meaning::standing::definitions_of_a_file_are_a_catalogues;
use rs_file_meaning::versions::{
    next_version_begins_as_the_present_one, next_version_is_meant_as_the_present_one,
};

/// Where a referent that was not there was put on a route, the route has it beside the others.
pub fn referent_put_gives_its_state()
    ensures { (from oldest : ℕ) (map : PageMap) (file : OpenedFile) (definitions : Definitions) (held kept : Numbered HeldReferents) (state : State)
        → (stands : StandsAt from map file definitions held state) → from ≤ oldest → stands.contents.directory.accepted + 1 < LIVING
        → (route name : Name) (measure : ℕ) (on : RouteItem) (between : Contents)
        → names.get definitions.routes route ≡ Some on → has (state.referents route) name ≡ false
        → referents_on kept ≡ at_number on.number (names.insert (referents_on held on.number) name measure) (referents_on held)
        → PutsReferent on.number name measure stands.contents between
        → IsLawful (with_referents state route (names.insert (state.referents route) name measure))
        → GivesState oldest stands.contents between definitions kept (with_referents state route (names.insert (state.referents route) name measure)) }
{
    state_has_other_referents_on_a_route();
    changed_referents_leave_all_else_meant();
    meant_contents_stay_meant();
    live_versions_see_the_same();
    live_versions_see_their_referents();
    version_that_sees_the_same_has_the_same_world();
    definitions_of_a_file_are_a_catalogues();
    next_version_begins_as_the_present_one();
    next_version_is_meant_as_the_present_one();
}

/// Where a referent that was there has ended and lives at another measure, the route has it there.
pub fn referent_moved_gives_its_state()
    ensures { (from oldest : ℕ) (map : PageMap) (file : OpenedFile) (definitions : Definitions) (held kept : Numbered HeldReferents) (state : State)
        → (stands : StandsAt from map file definitions held state) → from ≤ oldest → stands.contents.directory.accepted + 1 < LIVING
        → (route name : Name) (measure : ℕ) (on : RouteItem) (between : Contents)
        → names.get definitions.routes route ≡ Some on → has (state.referents route) name ≡ true
        → referents_on kept ≡ at_number on.number (names.insert (referents_on held on.number) name measure) (referents_on held)
        → MovesReferent on.number name measure stands.contents between
        → IsLawful (with_referents state route (names.insert (state.referents route) name measure))
        → GivesState oldest stands.contents between definitions kept (with_referents state route (names.insert (state.referents route) name measure)) }
{
    state_has_other_referents_on_a_route();
    changed_referents_leave_all_else_meant();
    meant_contents_stay_meant();
    live_versions_see_the_same();
    live_versions_see_their_referents();
    version_that_sees_the_same_has_the_same_world();
    definitions_of_a_file_are_a_catalogues();
    next_version_begins_as_the_present_one();
    next_version_is_meant_as_the_present_one();
}

/// Where a referent that was there has ended, the route has the others.
pub fn referent_ended_gives_its_state()
    ensures { (from oldest : ℕ) (map : PageMap) (file : OpenedFile) (definitions : Definitions) (held kept : Numbered HeldReferents) (state : State)
        → (stands : StandsAt from map file definitions held state) → from ≤ oldest → stands.contents.directory.accepted + 1 < LIVING
        → (route name : Name) (on : RouteItem) (between : Contents)
        → names.get definitions.routes route ≡ Some on → has (state.referents route) name ≡ true
        → referents_on kept ≡ at_number on.number (names.remove (referents_on held on.number) name) (referents_on held)
        → EndsReferent on.number name stands.contents between
        → IsLawful (with_referents state route (names.remove (state.referents route) name))
        → GivesState oldest stands.contents between definitions kept (with_referents state route (names.remove (state.referents route) name)) }
{
    state_has_other_referents_on_a_route();
    changed_referents_leave_all_else_meant();
    meant_contents_stay_meant();
    live_versions_see_the_same();
    live_versions_see_their_referents();
    version_that_sees_the_same_has_the_same_world();
    definitions_of_a_file_are_a_catalogues();
    next_version_begins_as_the_present_one();
    next_version_is_meant_as_the_present_one();
}

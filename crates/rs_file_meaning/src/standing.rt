//! Pages stand for one state at the most, which is lawful; contents have one state and one world at each version.

ghost use Rattle.std.specs.List.{AllByRecursion};
ghost use Rattle.std.specs.Prelude.{◌≡◌, ◌≤◌, ℕ, List};
ghost use Rattle.rs_catalog.specs.Definitions.{AreDefinitions, Definitions};
ghost use Rattle.rs_catalog_meaning.specs.Meaning.{AreMeant};
ghost use Rattle.rs_catalog_pages.specs.Items.{CatalogueItems};
ghost use Rattle.rs_file.specs.Contents.{AreGivenOnce, Contents, HoldsAll};
ghost use Rattle.rs_file.specs.Creating.{no_contents};
ghost use Rattle.rs_machine.specs.Lawful.{IsLawful};
ghost use Rattle.rs_machine.specs.State.{State, fresh, world_of};
ghost use Rattle.rs_pages.specs.PageMap.{PageMap};
ghost use Rattle.rs_file_meaning.specs.Changed.{SaysTheSame};
ghost use Rattle.rs_file_meaning.specs.Standing.{StandsFor};
ghost use Rattle.rs_file_meaning.specs.States.{AreDefinitionsAt, IsStateAt, world_at};

use rs_catalog_meaning::laws::{empty_catalogue_is_meant, meant_definitions_make_a_lawful_state};
use rs_file::laws::file_holds_one_thing;
use rs_syntax_laws::views::{text_of_a_view_says_its_query, text_says_one_query};
use rs_value::said_row_is_of_its_columns;

/// Pages stand for one state at the most.
pub fn pages_stand_for_one_state()
    ensures { (pages : PageMap) (contents others : Contents) (one other : State)
        → StandsFor pages contents one → StandsFor pages others other → one ≡ other }
{
    file_holds_one_thing();
    text_of_a_view_says_its_query();
    text_says_one_query();
}

/// The state that a file stands for is lawful.
pub fn what_stands_is_lawful()
    ensures { (pages : PageMap) (contents : Contents) (state : State) → StandsFor pages contents state → IsLawful state }
{
    meant_definitions_make_a_lawful_state();
    said_row_is_of_its_columns();
}

/// A file in which there are no definitions stands for the state at the beginning.
pub fn created_file_stands_for_the_fresh_state()
    ensures { (map : PageMap) (pages : List ℕ) → HoldsAll map (no_contents pages) → StandsFor map (no_contents pages) fresh }
{
    empty_catalogue_is_meant();
}

/// Contents have one state at each version at the most, and contents that say the same have the same states.
pub fn contents_have_one_state()
    ensures one { (version : ℕ) (contents : Contents) (one other : State)
        → IsStateAt version contents one → IsStateAt version contents other → one ≡ other }
    ensures same { (version : ℕ) (one other : Contents) (state : State)
        → SaysTheSame one other → IsStateAt version one state → IsStateAt version other state }
{
    text_of_a_view_says_its_query();
    text_says_one_query();
}

/// Contents that say the same have the same world at each version.
pub fn same_contents_have_one_world()
    ensures { (version : ℕ) (one other : Contents) → SaysTheSame one other → world_at one version ≡ world_at other version }
{}

/// The world of the state of a version is the world at that version.
pub fn state_has_the_world_of_its_version()
    ensures { (version : ℕ) (contents : Contents) (state : State)
        → IsStateAt version contents state → world_of state ≡ world_at contents version }
{}

/// The definitions that are seen at a version by which each route was born keep to what is so of every catalogue in memory.
pub fn definitions_of_a_file_are_a_catalogues()
    ensures { (version : ℕ) (catalogue : CatalogueItems) (definitions : Definitions)
        → AreMeant catalogue → AreGivenOnce catalogue → AllByRecursion (λ route. route.born ≤ version) catalogue.routes
        → AreDefinitionsAt version catalogue definitions → AreDefinitions definitions }
{
    meant_definitions_make_a_lawful_state();
}

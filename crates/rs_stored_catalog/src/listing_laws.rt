//! The laws say what the listing of a catalogue is: the items of the file that it was made from, and definitions that a file may have.

ghost use Rattle.std.specs.Prelude.{◌≡◌, ◌<◌, ◌≤◌, ◌^◌, ℕ, false, List, Some};
ghost use Rattle.std.specs.FinMap as names;
ghost use Rattle.std.specs.List.{AllByRecursion};
ghost use Rattle.rs_catalog.specs.Changes.{with_alignment, with_index, with_route, with_table, with_view, without_alignment, without_index, without_route, without_table, without_view};
ghost use Rattle.rs_catalog.specs.Definitions as catalog;
ghost use Rattle.rs_catalog.specs.Definitions.{AreDefinitions, Definitions};
ghost use Rattle.rs_catalog.specs.Uses.{some_piece_on};
ghost use Rattle.rs_catalog_meaning.specs.Meaning.{AreMeant};
ghost use Rattle.rs_catalog_pages.specs.Fitting.{FitsCatalogue, IsShort};
ghost use Rattle.rs_catalog_pages.specs.Items.{CatalogueItems};
ghost use Rattle.rs_file_meaning.specs.Contents.{AreGivenOnce};
ghost use Rattle.rs_stored_catalog.specs.Listing.{listed_alignment, listed_index, listed_route, listed_table, listed_view, listing_of};
ghost use Rattle.rs_stored_catalog.specs.Relisting.{AreLawful, HasAlignmentMore, HasIndexMore, HasRouteMore, HasTableMore, HasViewMore, LosesTable};
ghost use Rattle.rs_facts.specs.Fact.{Name};
ghost use Rattle.rs_facts.specs.Query.{Piece};
ghost use Rattle.rs_machine.specs.Lawful.{Each};
ghost use Rattle.rs_machine.specs.State.{has};
ghost use Rattle.rs_file_meaning.specs.States.{AreDefinitionsAt};

use rs_catalog_meaning::laws::{meant_definitions_are_short, meant_definitions_fit};
use rs_machine_laws::view_lines::shortest_line_defines_the_view;

/// Definitions that are seen in a file at a version by which each route was born list the very items of the file.
pub fn definitions_of_a_file_list_its_items()
    ensures { (version : ℕ) (catalogue : CatalogueItems) (definitions : Definitions)
        → AreMeant catalogue → AllByRecursion (λ route. route.born ≤ version) catalogue.routes
        → AreDefinitionsAt version catalogue definitions → listing_of definitions ≡ catalogue }
{}

/// The listing of lawful definitions is meant and gives each number once. A file can store it, if its births fit their fields. Each
/// version by which all routes were born sees the definitions again in it.
pub fn listed_definitions_of_a_lawful_catalogue_are_meant()
    ensures meant { (definitions : Definitions) → AreLawful definitions → AreMeant (listing_of definitions) }
    ensures once { (definitions : Definitions) → AreLawful definitions → AreGivenOnce (listing_of definitions) }
    ensures short { (definitions : Definitions) → AreLawful definitions → IsShort (listing_of definitions) }
    ensures fits { (definitions : Definitions) → AreLawful definitions → Each definitions.routes (λ name item. item.born < 2 ^ 64)
        → FitsCatalogue (listing_of definitions) }
    ensures seen { (version : ℕ) (definitions : Definitions) → AreLawful definitions → Each definitions.routes (λ name item. item.born ≤ version)
        → AreDefinitionsAt version (listing_of definitions) definitions }
{
    meant_definitions_are_short();
    meant_definitions_fit();
    shortest_line_defines_the_view();
}

/// A route that is defined or dropped is one route more or less in the listing, and nothing else changes there.
pub fn one_route_is_listed_more_or_less()
    ensures more { (definitions : Definitions) (name : Name) (item : catalog.RouteItem) → AreDefinitions definitions → has definitions.routes name ≡ false
        → HasRouteMore (listed_route (name, item)) (listing_of definitions) (listing_of (with_route definitions name item)) }
    ensures less { (definitions : Definitions) (name : Name) (item : catalog.RouteItem) → names.get definitions.routes name ≡ Some item
        → some_piece_on definitions name ≡ false
        → HasRouteMore (listed_route (name, item)) (listing_of (without_route definitions name)) (listing_of definitions) }
{}

/// A table that is defined is one table more in the listing. One that is dropped is one less, and the indexes of its number are gone.
pub fn one_table_is_listed_more_or_less()
    ensures more { (definitions : Definitions) (name : Name) (item : catalog.TableItem) → has definitions.tables name ≡ false
        → HasTableMore (listed_table (name, item)) (listing_of definitions) (listing_of (with_table definitions name item)) }
    ensures less { (definitions : Definitions) (name : Name) (item : catalog.TableItem) → AreDefinitions definitions
        → names.get definitions.tables name ≡ Some item
        → LosesTable (listed_table (name, item)) (listing_of definitions) (listing_of (without_table definitions name)) }
{}

/// An index that is defined or dropped is one index more or less in the listing.
pub fn one_index_is_listed_more_or_less()
    ensures more { (definitions : Definitions) (name : Name) (item : catalog.IndexItem) → has definitions.indexes name ≡ false
        → HasIndexMore (listed_index (name, item)) (listing_of definitions) (listing_of (with_index definitions name item)) }
    ensures less { (definitions : Definitions) (name : Name) (item : catalog.IndexItem) → names.get definitions.indexes name ≡ Some item
        → HasIndexMore (listed_index (name, item)) (listing_of (without_index definitions name)) (listing_of definitions) }
{}

/// A view that is defined or dropped is one view more or less in the listing.
pub fn one_view_is_listed_more_or_less()
    ensures more { (definitions : Definitions) (name : Name) (item : catalog.ViewItem) → has definitions.views name ≡ false
        → HasViewMore (listed_view (name, item)) (listing_of definitions) (listing_of (with_view definitions name item)) }
    ensures less { (definitions : Definitions) (name : Name) (item : catalog.ViewItem) → names.get definitions.views name ≡ Some item
        → HasViewMore (listed_view (name, item)) (listing_of (without_view definitions name)) (listing_of definitions) }
{}

/// An alignment that is defined or dropped is one alignment more or less in the listing.
pub fn one_alignment_is_listed_more_or_less()
    ensures more { (definitions : Definitions) (name : Name) (pieces : List Piece) → has definitions.alignments name ≡ false
        → HasAlignmentMore (listed_alignment definitions.routes (name, pieces)) (listing_of definitions) (listing_of (with_alignment definitions name pieces)) }
    ensures less { (definitions : Definitions) (name : Name) (pieces : List Piece) → names.get definitions.alignments name ≡ Some pieces
        → HasAlignmentMore (listed_alignment definitions.routes (name, pieces)) (listing_of (without_alignment definitions name)) (listing_of definitions) }
{}

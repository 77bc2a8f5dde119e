//! The laws say what the catalogue made from a file is.

ghost use Rattle.std.specs.Prelude.{◌≡◌, ◌≤◌, ℕ, List, []};
ghost use Rattle.std.specs.List.{AllByRecursion};
ghost use Rattle.rs_catalog.specs.Definitions.{AreDefinitions};
ghost use Rattle.rs_catalog_meaning.specs.Meaning.{AreMeant};
ghost use Rattle.rs_catalog_pages.specs.Items.{CatalogueItems};
ghost use Rattle.rs_file_meaning.specs.Contents.{AreGivenOnce};
ghost use Rattle.rs_facts.specs.Fact.{Name};
ghost use Rattle.rs_file_meaning.specs.States.{AreDefinitionsAt, HasLine};
ghost use Rattle.rs_syntax.specs.Tree.{QueryTree};
ghost use Rattle.rs_stored_catalog.specs.Made.{without_views};

use rs_file_meaning::standing::definitions_of_a_file_are_a_catalogues;
use rs_syntax_laws::views::{text_of_a_view_says_its_query, text_says_one_query};

/// Definitions that are meant, with numbers given once, keep to what is so of every catalogue. They are those that each version sees
/// by which all routes were born, but for their views.
pub fn listed_definitions_are_a_catalogues()
    ensures are { (catalogue : CatalogueItems) → AreMeant catalogue → AreGivenOnce catalogue → AreDefinitions (without_views catalogue) }
    ensures seen { (version : ℕ) (catalogue : CatalogueItems) → AllByRecursion (λ route. route.born ≤ version) catalogue.routes
        → AreDefinitionsAt version (record catalogue { views = [] }) (without_views catalogue) }
{
    definitions_of_a_file_are_a_catalogues();
}

/// Lines that define views by the same text say the same query, whatever the views' names are.
pub fn text_of_a_view_says_one_query()
    ensures { (name other : Name) (a b : QueryTree) (text : List ℕ) → HasLine name a text → HasLine other b text → a ≡ b }
{
    text_of_a_view_says_its_query();
    text_says_one_query();
}

//! Enters the views of a file into the catalogue made of its other definitions.
//!
//! Each comes under its name with its text and the query that a line of it says, and passes the checks of that line beside the others.

ghost use Rattle.std.specs.Prelude.{◌≡◌, ◌≢◌, ◌⊎◌, ℕ, List, Err, IfErr, IfOk, OnOk, map};
ghost use Rattle.std.specs.FinMap as names;
ghost use Rattle.std.specs.List.{AllByRecursion, AllZip};
ghost use Rattle.rs_catalog.specs.Definitions.{Definitions, Rest, state_from};
ghost use Rattle.rs_catalog.specs.Referents.{referents_on};
ghost use Rattle.rs_catalog_meaning.specs.Meaning.{AreMeant};
ghost use Rattle.rs_catalog_pages.specs.Said.{said_catalogue, said_view};
ghost use Rattle.rs_stored_catalog.specs.EnteringViews.{AllPassIn, AreEntered, AreListedViews, AreWindowsThere, IsQueryOf, IsWidenedOf, IsWrittenOf, PassesIn, RefusesViews};
ghost use Rattle.rs_stored_catalog.specs.Made.{without_views};
ghost use Rattle.rs_stored_catalog.specs.Views.{AreMeantIn, HasViews};
ghost use Rattle.rs_facts.specs.Runs.{Stretch};
ghost use Rattle.rs_machine.specs.Lawful.{AreViewsMeant};
ghost use Rattle.rs_syntax.specs.QueryView.{query_tree};
ghost use Rattle.rs_syntax.specs.Sound.{IsName, IsQuery};
ghost use Rattle.rs_syntax.specs.Tree.{QueryTree};

use crate::entries::name_of;
use crate::laws::text_of_a_view_says_one_query;
use crate::view_texts::view_query;
use crate::view_windows::{widen, windows_there};
use rs_catalog::{Catalog, RouteReferents};
use rs_catalog_pages::{StoredCatalogue, StoredView};
use rs_checker::checking::check;
use rs_machine_laws::wide_views::views_are_meant_where_widened_ones_pass;
use rs_refusal::Refusal;
use rs_syntax::Query;
use std::alloc::Global;

/// Enters the views of a file into the catalogue made of its other definitions, each under its name with its text and its query. It
/// is refused with 90, and with 94 only where a text is none by which a line defines its view, or a view does not pass the checks of
/// its line but that windows lie on their routes. After a refusal the catalogue is unspecified.
pub fn add_views(
    alloc: Global,
    catalog: &mut Catalog,
    referents: &RouteReferents,
    stored: &StoredCatalogue,
) -> Result<(), Refusal>
    requires meant { AreMeant (said_catalogue stored.now) }
    requires is { catalog.old ≡ without_views (said_catalogue stored.now) }
    ensures has { OnOk result (HasViews (said_catalogue stored.now).views catalog.old catalog.new) }
    ensures means { OnOk result (AreMeantIn (referents_on referents.now) catalog.new) }
    ensures none { result ≡ Err Refusal.DamagedFile → (definitions : Definitions) → HasViews (said_catalogue stored.now).views catalog.old definitions
        → (spans_on : ℕ → ℕ → List Stretch) (rest : Rest) → AreViewsMeant (state_from definitions (referents_on referents.now) spans_on rest) → ⊥ }
    ensures refused { IfErr result (λ why. (why ≡ Refusal.OutOfMemory) ⊎ (why ≡ Refusal.DamagedFile)) }
{
    views_are_meant_where_widened_ones_pass();
    text_of_a_view_says_one_query();
    enter_widened(alloc, catalog, &stored.views)?;
    check_each(alloc, catalog, referents)?;
    enter_written(alloc, catalog, referents, &stored.views)?;
    Ok(())
}

// Enters each view with every window as wide as its route. It is refused with 90, and with 94 only where no line defines a view.
fn enter_widened(alloc: Global, catalog: &mut Catalog, views: &[StoredView]) -> Result<(), Refusal>
    requires listed { AreListedViews (map said_view views.now) }
    requires none { catalog.old.views ≡ names.empty }
    ensures entered { OnOk result (AreEntered IsWidenedOf (map said_view views.now) catalog.old catalog.new) }
    ensures none { result ≡ Err Refusal.DamagedFile → (queries : List QueryTree) → AllZip IsQueryOf (map said_view views.now) queries → ⊥ }
    ensures refused { RefusesViews result }
{
    for view in views {
        let mut query = view_query(alloc, view)?;
        widen(&mut query);
        catalog.define_view(name_of(view.name.as_str()), query, String::new(alloc))?;
    }
    Ok(())
}

// Checks each view's query. It is refused with 90, and with 94 only where one does not pass.
fn check_each(alloc: Global, catalog: &Catalog, referents: &RouteReferents) -> Result<(), Refusal>
    ensures ok { OnOk result ((spans_on : ℕ → ℕ → List Stretch) (rest : Rest) → AllPassIn (state_from catalog.now (referents_on referents.now) spans_on rest) catalog.now) }
    ensures none { result ≡ Err Refusal.DamagedFile → (spans_on : ℕ → ℕ → List Stretch) (rest : Rest)
        → AllPassIn (state_from catalog.now (referents_on referents.now) spans_on rest) catalog.now → ⊥ }
    ensures refused { RefusesViews result }
{
    for (_, view) in catalog.views() {
        check_query(alloc, catalog, referents, view.query())?;
    }
    Ok(())
}

// Checks a query. It is refused with 90, and with 94 only where it does not pass.
fn check_query(
    alloc: Global,
    catalog: &Catalog,
    referents: &RouteReferents,
    query: &Query,
) -> Result<(), Refusal>
    ensures ok { OnOk result ((spans_on : ℕ → ℕ → List Stretch) (rest : Rest) → PassesIn (state_from catalog.now (referents_on referents.now) spans_on rest) (query_tree query.now)) }
    ensures none { result ≡ Err Refusal.DamagedFile → (spans_on : ℕ → ℕ → List Stretch) (rest : Rest)
        → PassesIn (state_from catalog.now (referents_on referents.now) spans_on rest) (query_tree query.now) → ⊥ }
    ensures refused { RefusesViews result }
{
    let Err(refusal) = check(alloc, catalog, referents, query) else {
        return Ok(());
    };
    Err(as_damage(refusal))
}

// Want of memory stays what it is, and comes of nothing else; any other refusal says that the file is damaged.
fn as_damage(refusal: Refusal) -> Refusal
    ensures either { (result ≡ Refusal.OutOfMemory) ⊎ (result ≡ Refusal.DamagedFile) }
    ensures damage { result ≡ Refusal.DamagedFile → refusal ≢ Refusal.OutOfMemory }
    ensures want { result ≡ Refusal.OutOfMemory → refusal ≡ Refusal.OutOfMemory }
{
    match refusal {
        Refusal::OutOfMemory => Refusal::OutOfMemory,
        _ => Refusal::DamagedFile,
    }
}

// Enters each view as it is written in the place of those that are there under the same names. It is refused with 90, and with 94
// only where no line defines a view, or a window of it names what is not there.
fn enter_written(
    alloc: Global,
    catalog: &mut Catalog,
    referents: &RouteReferents,
    views: &[StoredView],
) -> Result<(), Refusal>
    requires listed { AreListedViews (map said_view views.now) }
    requires same { AllZip (λ view entry. entry.0 ≡ view.name) (map said_view views.now) (names.entries catalog.old.views) }
    ensures entered { OnOk result (AreEntered (IsWrittenOf catalog.old (referents_on referents.now)) (map said_view views.now) catalog.old catalog.new) }
    ensures none { result ≡ Err Refusal.DamagedFile → (queries : List QueryTree) → AllZip IsQueryOf (map said_view views.now) queries
        → AllByRecursion (AreWindowsThere catalog.old (referents_on referents.now)) queries → ⊥ }
    ensures refused { RefusesViews result }
{
    text_of_a_view_says_one_query();
    for view in views {
        let query = written_query(alloc, catalog, referents, view)?;
        let text = view.text.text.clone()?;
        catalog.define_view(name_of(view.name.as_str()), query, text)?;
    }
    Ok(())
}

// The query of a view, whose windows name what is there. It is refused with 90, and with 94 only where no line defines the view so.
fn written_query(
    alloc: Global,
    catalog: &Catalog,
    referents: &RouteReferents,
    view: &StoredView,
) -> Result<Query, Refusal>
    requires { IsName (said_view view.now).name }
    ensures ok { IfOk result (λ query. IsQueryOf (said_view view.now) (query_tree query)) }
    ensures sound { IfOk result (λ query. IsQuery (query_tree query)) }
    ensures windows { IfOk result (λ query. AreWindowsThere catalog.now (referents_on referents.now) (query_tree query)) }
    ensures none { result ≡ Err Refusal.DamagedFile → (query : QueryTree) → IsQueryOf (said_view view.now) query
        → AreWindowsThere catalog.now (referents_on referents.now) query → ⊥ }
    ensures refused { RefusesViews result }
{
    text_of_a_view_says_one_query();
    let query = view_query(alloc, view)?;
    if windows_there(catalog, referents, &query) {
        Ok(query)
    } else {
        Err(Refusal::DamagedFile)
    }
}

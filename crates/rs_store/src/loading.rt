//! This module reads a whole file, checks what it says, and brings its definitions and its referents into memory.

ghost use Rattle.std.specs.Prelude.{◌≡◌, ◌⊎◌, Err, IfErr, IfOk, OnOk, map};
ghost use Rattle.rs_catalog_meaning.specs.Meaning.{AreMeant};
ghost use Rattle.rs_catalog_pages.specs.Said.{said_catalogue, said_route};
ghost use Rattle.rs_file.specs.Calls.{RefusesToLoad};
ghost use Rattle.rs_file.specs.Contents.{AreGivenOnce};
ghost use Rattle.rs_file.specs.Meant.{span_of_route};
ghost use Rattle.rs_file.specs.Opening.{IsFile};
ghost use Rattle.rs_stored_catalog.specs.Made.{without_views};
ghost use Rattle.rs_pages.specs.Calls.{OnlyReads};
ghost use Rattle.rs_store.specs.Kept.{IsAtRest};
ghost use Rattle.rs_store.specs.Loading.{Brings, BringsNone, Loads, LoadsNone};

use rs_catalog::{Catalog, RouteReferents};
use rs_catalog_meaning::check_meaning;
use rs_catalog_pages::{StoredCatalogue, StoredRoute};
use rs_file::laws::{file_holds_one_thing, loaded_file_has_its_directory};
use rs_file::opened::OpenedFile;
use rs_file_meaning::changes::meant_contents_stay_meant;
use rs_file_meaning::standing::contents_have_one_state;
use rs_file_parts::laws::loaded_file_can_be_changed;
use rs_pages::Pages;
use rs_refusal::Refusal;
use rs_stored_catalog::laws::listed_definitions_are_a_catalogues;
use rs_stored_catalog::listing_laws::definitions_of_a_file_list_its_items;
use rs_stored_catalog::{add_views, catalog_of, referents_of};
use rs_versioned::RouteSpan;
use std::alloc::{AllocError, Global};

/// What is open of a file, with its definitions and its referents in memory.
#[derive(Drop)]
pub(crate) struct Loaded {
    pub(crate) file: OpenedFile,
    pub(crate) catalog: Catalog,
    pub(crate) referents: RouteReferents,
}

/// Opens and checks all that a file holds. Ok only where its pages stand for a state, which is then in memory; 94 only where they
/// stand for none. It may be refused with 90 or 91 instead. No page changes.
pub(crate) fn load_state<P: Pages>(alloc: Global, pages: &mut P) -> Result<Loaded, Refusal>
    ensures rests { OnlyReads P.Pages result pages.old pages.new }
    ensures loads { Loads P.Pages result pages.old }
    ensures damaged { LoadsNone P.Pages result pages.old }
    ensures file { IfOk result (λ loaded. IsAtRest loaded.file loaded.catalog) }
    ensures refused { RefusesToLoad result }
{
    file_holds_one_thing();
    contents_have_one_state();
    meant_contents_stay_meant();
    let file = rs_file::load(alloc, pages)?;
    let (catalog, referents) = bring(alloc, pages, &file)?;
    Ok(Loaded {
        file,
        catalog,
        referents,
    })
}

/// Brings the definitions of an open file and its referents into memory, and checks them. 94 comes only where its contents are not
/// meant or have no state. It may be refused with 90 or 91 instead. No page changes.
fn bring<P: Pages>(
    alloc: Global,
    pages: &mut P,
    file: &OpenedFile,
) -> Result<(Catalog, RouteReferents), Refusal>
    requires file { IsFile file.now }
    ensures rests { OnlyReads P.Pages result pages.old pages.new }
    ensures brings { Brings P.Pages file.now result pages.old }
    ensures file { IfOk result (λ said. IsAtRest file.now said.0) }
    ensures damaged { BringsNone P.Pages file.now result pages.old }
    ensures refused { RefusesToLoad result }
{
    loaded_file_has_its_directory();
    loaded_file_can_be_changed();
    listed_definitions_are_a_catalogues();
    definitions_of_a_file_list_its_items();
    let mut catalog = definitions_of(alloc, &file.definitions)?;
    let routes = spans_of(alloc, file.definitions.routes.as_slice())?;
    let referents = referents_of(alloc, pages, &file.referents, &routes, file.accepted)?;
    add_views(alloc, &mut catalog, &referents, &file.definitions)?;
    Ok((catalog, referents))
}

/// The catalogue of these definitions, without their views. It is refused with 90, and with 94 only where one does not pass the
/// checks and limits of its DEFINE line.
fn definitions_of(alloc: Global, stored: &StoredCatalogue) -> Result<Catalog, Refusal>
    requires once { AreGivenOnce (said_catalogue stored.now) }
    ensures meant { OnOk result (AreMeant (said_catalogue stored.now)) }
    ensures is { IfOk result (λ catalog. catalog ≡ without_views (said_catalogue stored.now)) }
    ensures none { result ≡ Err Refusal.DamagedFile → AreMeant (said_catalogue stored.now) → ⊥ }
    ensures refused { IfErr result (λ why. (why ≡ Refusal.OutOfMemory) ⊎ (why ≡ Refusal.DamagedFile)) }
{
    check_meaning(stored)?;
    Ok(catalog_of(alloc, stored)?)
}

/// The numbers and measures of these routes.
fn spans_of(alloc: Global, routes: &[StoredRoute]) -> Result<Vec<RouteSpan>, AllocError>
    ensures { IfOk result (λ spans. spans.items ≡ map span_of_route (map said_route routes.now)) }
{
    let mut spans = Vec::with_capacity(alloc, routes.len())?;
    for route in routes {
        spans.push(RouteSpan {
            number: route.number,
            start: route.start,
            finish: route.finish,
        })?;
    }
    Ok(spans)
}

//! Makes the catalogue in memory from the definitions of a file.
//!
//! Routes, tables, indexes and alignments come in the order of the file, each under its number.

ghost use Rattle.std.specs.Prelude.{◌≡◌, ◌<◌, ◌≤◌, ℕ, IfOk, OnOk, map};
ghost use Rattle.std.specs.FinMap as names;
ghost use Rattle.std.specs.List.{AllByRecursion};
ghost use Rattle.rs_catalog.specs.Definitions.{IsColumnOf, routes_of};
ghost use Rattle.rs_catalog_meaning.specs.Meaning.{AreAlignments, AreIndexes, AreMeant, AreRoutes, AreTables};
ghost use Rattle.rs_catalog_meaning.specs.Stating.{alignments_of, named_alignment, table_with};
ghost use Rattle.rs_catalog_pages.specs.Said.{said_alignment, said_catalogue, said_index, said_route, said_table};
ghost use Rattle.rs_catalog_pages.specs.declared.directory_items.TheConstants.{INDEXES, TABLES};
ghost use Rattle.rs_file_meaning.specs.Contents.{AreGivenOnce};
ghost use Rattle.rs_facts.specs.WellFormed.{ArePiecesOn};
ghost use Rattle.rs_page_owners.specs.Counts.{times};
ghost use Rattle.rs_file_meaning.specs.States.{indexes_named, routes_named, tables_named};
ghost use Rattle.rs_stored_catalog.specs.Made.{without_views};

use crate::entries::{index_entry, name_of, pieces, route_entry, table_entry};
use crate::laws::listed_definitions_are_a_catalogues;
use rs_catalog::Catalog;
use rs_catalog_meaning::by_number::places_of;
use rs_catalog_pages::{StoredAlignment, StoredCatalogue, StoredIndex, StoredRoute, StoredTable};
use std::alloc::{AllocError, Global};

/// The catalogue of these definitions, without their views: each under its number, routes with their births.
pub fn catalog_of(alloc: Global, stored: &StoredCatalogue) -> Result<Catalog, AllocError>
    requires meant { AreMeant (said_catalogue stored.now) }
    requires once { AreGivenOnce (said_catalogue stored.now) }
    ensures is { IfOk result (λ catalog. catalog ≡ without_views (said_catalogue stored.now)) }
{
    listed_definitions_are_a_catalogues();
    let mut catalog = Catalog::new(alloc);
    enter_routes(&mut catalog, &stored.routes)?;
    enter_tables(alloc, &mut catalog, &stored.tables)?;
    enter_indexes(&mut catalog, &stored.tables, &stored.indexes)?;
    enter_alignments(alloc, &mut catalog, &stored.routes, &stored.alignments)?;
    Ok(catalog)
}

// Enters the routes.
fn enter_routes(catalog: &mut Catalog, routes: &[StoredRoute]) -> Result<(), AllocError>
    requires meant { AreRoutes (map said_route routes.now) }
    requires none { catalog.old.routes ≡ names.empty }
    ensures { OnOk result (catalog.new ≡ record catalog.old { routes = routes_named (map said_route routes.now) }) }
{
    for route in routes {
        catalog.enter_route(name_of(route.name.as_str()), route_entry(route))?;
    }
    Ok(())
}

// Enters the tables.
fn enter_tables(
    alloc: Global,
    catalog: &mut Catalog,
    tables: &[StoredTable],
) -> Result<(), AllocError>
    requires meant { AreTables (map said_table tables.now) }
    requires below { AllByRecursion (λ table. table.number < TABLES) (map said_table tables.now) }
    requires once { (number : ℕ) → times (map (λ table. table.number) (map said_table tables.now)) number ≤ 1 }
    requires none { catalog.old.tables ≡ names.empty }
    ensures { OnOk result (catalog.new ≡ record catalog.old { tables = tables_named (map said_table tables.now) }) }
{
    for table in tables {
        let entry = table_entry(alloc, table)?;
        catalog.enter_table(name_of(table.name.as_str()), entry)?;
    }
    Ok(())
}

// Enters the indexes, each of a column that is there.
fn enter_indexes(
    catalog: &mut Catalog,
    tables: &[StoredTable],
    indexes: &[StoredIndex],
) -> Result<(), AllocError>
    requires tables { AreTables (map said_table tables.now) }
    requires meant { AreIndexes (map said_table tables.now) (map said_index indexes.now) }
    requires below { AllByRecursion (λ index. index.number < INDEXES) (map said_index indexes.now) }
    requires once { (number : ℕ) → times (map (λ index. index.number) (map said_index indexes.now)) number ≤ 1 }
    requires of { AllByRecursion (λ index. IsColumnOf catalog.old.tables (table_with (map said_table tables.now) index.table index.column) index.table index.column) (map said_index indexes.now) }
    requires none { catalog.old.indexes ≡ names.empty }
    ensures { OnOk result (catalog.new ≡ record catalog.old { indexes = indexes_named (map said_table tables.now) (map said_index indexes.now) }) }
{
    for index in indexes {
        let entry = index_entry(tables, index);
        catalog.enter_index(name_of(index.name.as_str()), entry)?;
    }
    Ok(())
}

// Enters the alignments, each of pieces on routes that are there.
fn enter_alignments(
    alloc: Global,
    catalog: &mut Catalog,
    routes: &[StoredRoute],
    alignments: &[StoredAlignment],
) -> Result<(), AllocError>
    requires routes { AreRoutes (map said_route routes.now) }
    requires meant { AreAlignments (map said_route routes.now) (map said_alignment alignments.now) }
    requires lie { AllByRecursion (λ alignment. ArePiecesOn (routes_of catalog.old) (named_alignment (map said_route routes.now) alignment).1) (map said_alignment alignments.now) }
    requires none { catalog.old.alignments ≡ names.empty }
    ensures { OnOk result (catalog.new ≡ record catalog.old { alignments = alignments_of (map said_route routes.now) (map said_alignment alignments.now) }) }
{
    let Some(places) = places_of(routes) else {
        unreachable!();
    };
    for alignment in alignments {
        let pieces = pieces(alloc, routes, &places, &alignment.pieces.list)?;
        catalog.define_alignment(name_of(alignment.name.as_str()), pieces)?;
    }
    Ok(())
}

//! Lists the definitions of the catalogue in memory, as a file keeps them.
//!
//! Each list comes in the order of names. A piece of an alignment has its routes by number, and an index its table. The names of
//! routes are shared with the definitions that the file had before, so that a list of many routes takes memory for new names alone.

ghost use Rattle.std.specs.Prelude.{◌≡◌, IfOk, IfSome, map, string_bytes};
ghost use Rattle.std.specs.FinMap as names;
ghost use Rattle.rs_catalog.specs.Definitions.{pieces_of};
ghost use Rattle.rs_catalog_pages.specs.Said.{said_alignment, said_catalogue, said_column, said_index, said_piece, said_route, said_table, said_view};
ghost use Rattle.rs_stored_catalog.specs.Listing.{kind_code, listed_alignment, listed_column, listed_index, listed_piece, listed_route, listed_table, listed_view, listing_of, number_found, type_code};
ghost use Rattle.rs_machine.specs.Checks.{piece_of};
ghost use Rattle.rs_syntax.specs.View.{column_tree, piece_tree};

use rs_bytes::{LongText, ShortList};
use rs_catalog::{AlignmentEntry, Catalog, IndexEntry, RouteEntry, TableEntry, ViewEntry};
use rs_catalog_pages::{
    StoredAlignment, StoredCatalogue, StoredColumn, StoredIndex, StoredPiece, StoredRoute,
    StoredTable, StoredView,
};
use rs_methods::Name;
use rs_syntax::{ColumnDefinition, Piece};
use rs_value::{ColumnType, Kind};
use std::alloc::{AllocError, Global};
use std::rc::Rc;

/// The stored definitions of this catalogue, each list in the order of names, with the names of routes that the former definitions
/// have. The only refusal is for want of memory.
pub fn stored_of(
    alloc: Global,
    former: &StoredCatalogue,
    catalog: &Catalog,
) -> Result<StoredCatalogue, AllocError>
    ensures { IfOk result (λ stored. said_catalogue stored ≡ listing_of catalog.now) }
{
    let routes = stored_routes(alloc, former.routes.as_slice(), catalog)?;
    let tables = stored_tables(alloc, catalog)?;
    let indexes = stored_indexes(alloc, catalog)?;
    let views = stored_views(alloc, catalog)?;
    let alignments = stored_alignments(alloc, catalog)?;
    Ok(StoredCatalogue {
        routes,
        tables,
        indexes,
        views,
        alignments,
    })
}

// The text of a name.
fn text_of(alloc: Global, name: &Name) -> Result<String, AllocError>
    ensures { IfOk result (λ text. string_bytes text ≡ name.now.bytes) }
{
    String::from_str(alloc, name.as_str())
}

// ---- routes

fn stored_routes(
    alloc: Global,
    former: &[StoredRoute],
    catalog: &Catalog,
) -> Result<Vec<StoredRoute>, AllocError>
    ensures { IfOk result (λ stored. map said_route stored.items ≡ map listed_route (names.entries catalog.now.routes)) }
{
    let mut stored = Vec::with_capacity(alloc, catalog.routes_len())?;
    let mut place = 0;
    for (name, route) in catalog.routes() {
        let text = shared_text(alloc, former, &mut place, name)?;
        stored.push(stored_route(text, *route))?;
    }
    Ok(stored)
}

// The text of a name. Where the former route at `place`, or the one after it, has this name, its text is shared and `place` moves past
// that route; else a new text is made and `place` stays. Both lists are in the order of names, so where one route has come or gone, the
// texts of all others are shared.
fn shared_text(
    alloc: Global,
    former: &[StoredRoute],
    place: &mut usize,
    name: &Name,
) -> Result<Rc<String>, AllocError>
    ensures { IfOk result (λ text. string_bytes text.value ≡ name.now.bytes) }
{
    let next = place.saturating_add(1);
    if let Some(text) = text_at(former, *place, name) {
        *place = next;
        return text.clone();
    }
    if let Some(text) = text_at(former, next, name) {
        *place = next.saturating_add(1);
        return text.clone();
    }
    Ok(Rc::new(alloc, text_of(alloc, name)?)?)
}

// The text of the former route at the place, where it is this name.
fn text_at<'a>(former: &'a [StoredRoute], place: usize, name: &Name) -> Option<&'a Rc<String>>
    ensures { IfSome result (λ text. string_bytes text.now.value ≡ name.now.bytes) }
{
    let route = former.get(place)?;
    if route.name.as_str() == name.as_str() {
        Some(&route.name)
    } else {
        None
    }
}

fn stored_route(name: Rc<String>, route: RouteEntry) -> StoredRoute
    ensures { said_route result ≡ listed_route (string_bytes name.value, route) }
{
    let ends = route.ends();
    StoredRoute {
        name,
        number: route.number(),
        start: ends.start().thousandths(),
        finish: ends.finish().thousandths(),
        born: route.born(),
    }
}

// ---- tables

fn stored_tables(alloc: Global, catalog: &Catalog) -> Result<Vec<StoredTable>, AllocError>
    ensures { IfOk result (λ stored. map said_table stored.items ≡ map listed_table (names.entries catalog.now.tables)) }
{
    let mut stored = Vec::with_capacity(alloc, catalog.tables_len())?;
    for (name, table) in catalog.tables() {
        stored.push(stored_table(alloc, name, table)?)?;
    }
    Ok(stored)
}

fn stored_table(alloc: Global, name: &Name, table: &TableEntry) -> Result<StoredTable, AllocError>
    ensures { IfOk result (λ stored. said_table stored ≡ listed_table (name.now.bytes, table.now)) }
{
    let columns = stored_columns(alloc, table.columns())?;
    Ok(StoredTable {
        name: text_of(alloc, name)?,
        number: table.number(),
        kind: code_of_kind(table.kind()),
        columns: ShortList { list: columns },
    })
}

fn stored_columns(
    alloc: Global,
    columns: &[ColumnDefinition],
) -> Result<Vec<StoredColumn>, AllocError>
    ensures { IfOk result (λ stored. map said_column stored.items ≡ map listed_column (map column_tree columns.now)) }
{
    let mut stored = Vec::with_capacity(alloc, columns.len())?;
    for column in columns {
        stored.push(stored_column(alloc, column)?)?;
    }
    Ok(stored)
}

fn stored_column(alloc: Global, column: &ColumnDefinition) -> Result<StoredColumn, AllocError>
    ensures { IfOk result (λ stored. said_column stored ≡ listed_column (column_tree column.now)) }
{
    Ok(StoredColumn {
        name: text_of(alloc, &column.name)?,
        type_code: code_of_type(column.column_type),
    })
}

// 0 for points, 1 for lines.
fn code_of_kind(kind: Kind) -> u8
    ensures { result ≡ kind_code kind }
{
    match kind {
        Kind::Point => 0,
        Kind::Line => 1,
    }
}

// 0 for numbers, else the greatest length of a text.
fn code_of_type(column_type: ColumnType) -> u8
    ensures { result ≡ type_code column_type }
{
    match column_type {
        ColumnType::Int => 0,
        ColumnType::Text(most) => most,
    }
}

// ---- indexes

fn stored_indexes(alloc: Global, catalog: &Catalog) -> Result<Vec<StoredIndex>, AllocError>
    ensures { IfOk result (λ stored. map said_index stored.items ≡ map listed_index (names.entries catalog.now.indexes)) }
{
    let mut stored = Vec::with_capacity(alloc, catalog.indexes_len())?;
    for (name, index) in catalog.indexes() {
        stored.push(stored_index(alloc, name, index)?)?;
    }
    Ok(stored)
}

fn stored_index(alloc: Global, name: &Name, index: &IndexEntry) -> Result<StoredIndex, AllocError>
    ensures { IfOk result (λ stored. said_index stored ≡ listed_index (name.now.bytes, index.now)) }
{
    Ok(StoredIndex {
        name: text_of(alloc, name)?,
        number: index.number(),
        table: index.table_number(),
        column: index.column(),
    })
}

// ---- views

fn stored_views(alloc: Global, catalog: &Catalog) -> Result<Vec<StoredView>, AllocError>
    ensures { IfOk result (λ stored. map said_view stored.items ≡ map listed_view (names.entries catalog.now.views)) }
{
    let mut stored = Vec::with_capacity(alloc, catalog.views_len())?;
    for (name, view) in catalog.views() {
        stored.push(stored_view(alloc, name, view)?)?;
    }
    Ok(stored)
}

fn stored_view(alloc: Global, name: &Name, view: &ViewEntry) -> Result<StoredView, AllocError>
    ensures { IfOk result (λ stored. said_view stored ≡ listed_view (name.now.bytes, view.now)) }
{
    let text = String::from_str(alloc, view.text())?;
    Ok(StoredView {
        name: text_of(alloc, name)?,
        text: LongText { text },
    })
}

// ---- alignments

fn stored_alignments(alloc: Global, catalog: &Catalog) -> Result<Vec<StoredAlignment>, AllocError>
    ensures { IfOk result (λ stored. map said_alignment stored.items ≡ map (listed_alignment catalog.now.routes) (names.entries catalog.now.alignments)) }
{
    let mut stored = Vec::with_capacity(alloc, catalog.alignments_len())?;
    for (name, alignment) in catalog.alignments() {
        stored.push(stored_alignment(alloc, catalog, name, alignment)?)?;
    }
    Ok(stored)
}

fn stored_alignment(
    alloc: Global,
    catalog: &Catalog,
    name: &Name,
    alignment: &AlignmentEntry,
) -> Result<StoredAlignment, AllocError>
    ensures { IfOk result (λ stored. said_alignment stored ≡ listed_alignment catalog.now.routes (name.now.bytes, alignment.now)) }
{
    let pieces = stored_pieces(alloc, catalog, alignment.pieces())?;
    Ok(StoredAlignment {
        name: text_of(alloc, name)?,
        pieces: ShortList { list: pieces },
    })
}

fn stored_pieces(
    alloc: Global,
    catalog: &Catalog,
    pieces: &[Piece],
) -> Result<Vec<StoredPiece>, AllocError>
    ensures { IfOk result (λ stored. map said_piece stored.items ≡ map (listed_piece catalog.now.routes) (pieces_of pieces.now)) }
{
    let mut stored = Vec::with_capacity(alloc, pieces.len())?;
    for piece in pieces {
        stored.push(stored_piece(catalog, piece))?;
    }
    Ok(stored)
}

fn stored_piece(catalog: &Catalog, piece: &Piece) -> StoredPiece
    ensures { said_piece result ≡ listed_piece catalog.now.routes (piece_of (piece_tree piece.now)) }
{
    StoredPiece {
        from_route: route_number(catalog, &piece.from_route),
        from: piece.from.thousandths(),
        to: piece.to.thousandths(),
        onto_route: route_number(catalog, &piece.onto_route),
        onto: piece.onto.thousandths(),
    }
}

// The number of the route of this name; 0 where there is none.
fn route_number(catalog: &Catalog, name: &Name) -> u32
    ensures { result ≡ number_found (names.get catalog.now.routes name.now.bytes) }
{
    match catalog.route(name) {
        Some(route) => route.number(),
        None => 0,
    }
}

//! Makes what the catalogue keeps under a name from an item of a file.
//!
//! Names are those of the items, since a file says routes and tables by number.

ghost use Rattle.std.specs.Prelude.{◌≡◌, ◌≤◌, ◌==◌, ◌&&◌, IfOk, length, map, nat_lt, string_bytes};
ghost use Rattle.std.specs.List.{AllByRecursion};
ghost use Rattle.rs_catalog.specs.Definitions.{pieces_of};
ghost use Rattle.rs_catalog_meaning.specs.Meaning.{AreRoutes, IsPiece, IsTable, column_of, columns_of, ends_of};
ghost use Rattle.rs_catalog_meaning.specs.Places.{ArePlaces};
ghost use Rattle.rs_catalog_meaning.specs.Stating.{name_with, table_with};
ghost use Rattle.rs_catalog_meaning.specs.Stating as stating;
ghost use Rattle.rs_catalog_pages.specs.Said.{said_column, said_index, said_piece, said_route, said_table};
ghost use Rattle.rs_machine.specs.Checks.{piece_of};
ghost use Rattle.rs_machine.specs.Lawful.{IsRoute};
ghost use Rattle.rs_grammar.specs.declared.kind.TheConstants.{NAME_BYTES};
ghost use Rattle.rs_file_meaning.specs.States.{named_index, named_route, named_table};
ghost use Rattle.rs_syntax.specs.Sound.{AreColumns};
ghost use Rattle.rs_syntax.specs.View.{column_tree, piece_tree};

use rs_catalog::{Ends, IndexEntry, RouteEntry, TableEntry};
use rs_catalog_meaning::by_number::{Places, route_with};
use rs_catalog_pages::{StoredColumn, StoredIndex, StoredPiece, StoredRoute, StoredTable};
use rs_measure::Measure;
use rs_methods::Name;
use rs_syntax::{ColumnDefinition, Piece};
use rs_value::{ColumnType, Kind};
use std::alloc::{AllocError, Global};

/// The name of these bytes, which are few enough.
pub(crate) fn name_of(text: &str) -> Name
    requires { length text.now ≤ NAME_BYTES }
    ensures { result.bytes ≡ text.now }
{
    let mut name = Name::new();
    name.push_str(text);
    name
}

/// A route.
pub(crate) fn route_entry(route: &StoredRoute) -> RouteEntry
    requires { IsRoute (string_bytes route.now.name.value) (ends_of (said_route route.now)) }
    ensures { result ≡ (named_route (said_route route.now)).1 }
{
    let start = Measure::from_thousandths(route.start);
    let finish = Measure::from_thousandths(route.finish);
    RouteEntry::new(route.number, route.born, Ends::new(start, finish))
}

/// A table.
pub(crate) fn table_entry(alloc: Global, table: &StoredTable) -> Result<TableEntry, AllocError>
    requires { IsTable (said_table table.now) }
    ensures { IfOk result (λ entry. entry ≡ (named_table (said_table table.now)).1) }
{
    let kind = if table.kind == 0 {
        Kind::Point
    } else {
        Kind::Line
    };
    let columns = columns(alloc, &table.columns.list)?;
    Ok(TableEntry::new(table.number, kind, columns))
}

// The columns of a table.
fn columns(alloc: Global, columns: &[StoredColumn]) -> Result<Vec<ColumnDefinition>, AllocError>
    requires { AreColumns (columns_of (map said_column columns.now)) }
    ensures { IfOk result (λ made. map column_tree made.items ≡ columns_of (map said_column columns.now)) }
{
    let mut made = Vec::with_capacity(alloc, columns.len())?;
    for column in columns {
        made.push(column_definition(column))?;
    }
    Ok(made)
}

// A column.
fn column_definition(column: &StoredColumn) -> ColumnDefinition
    requires { length (string_bytes column.now.name) ≤ NAME_BYTES }
    ensures { column_tree result ≡ column_of (said_column column.now) }
{
    let column_type = if column.type_code == 0 {
        ColumnType::Int
    } else {
        ColumnType::Text(column.type_code)
    };
    ColumnDefinition {
        name: name_of(column.name.as_str()),
        column_type,
    }
}

/// An index of one of these tables.
pub(crate) fn index_entry(tables: &[StoredTable], index: &StoredIndex) -> IndexEntry
    requires { AllByRecursion IsTable (map said_table tables.now) }
    ensures { result ≡ (named_index (map said_table tables.now) (said_index index.now)).1 }
{
    let table = table_name(tables, index.table, index.column);
    IndexEntry::new(index.number, table, index.table, index.column)
}

// The name of the table that has this number, and a column at this place.
fn table_name(tables: &[StoredTable], number: u32, column: u8) -> Name
    requires { AllByRecursion IsTable (map said_table tables.now) }
    ensures { result.bytes ≡ table_with (map said_table tables.now) number column }
{
    for table in tables {
        if has_column(table, number, column) {
            return name_of(table.name.as_str());
        }
    }
    Name::new()
}

// Whether it has this number, and a column at this place.
fn has_column(table: &StoredTable, number: u32, column: u8) -> bool
    ensures { let said = said_table table.now in result ≡ ((said.number == number) && nat_lt column (length said.columns)) }
{
    table.number == number && usize::from(column) < table.columns.list.len()
}

/// The pieces of an alignment of these routes.
pub(crate) fn pieces(
    alloc: Global,
    routes: &[StoredRoute],
    places: &Places,
    stored: &[StoredPiece],
) -> Result<Vec<Piece>, AllocError>
    requires routes { AreRoutes (map said_route routes.now) }
    requires places { ArePlaces (map (λ route. route.number) routes.now) places.now }
    requires pieces { AllByRecursion (IsPiece (map said_route routes.now)) (map said_piece stored.now) }
    ensures { IfOk result (λ made. pieces_of made.items ≡ map (stating.piece_of (map said_route routes.now)) (map said_piece stored.now)) }
{
    let mut made = Vec::with_capacity(alloc, stored.len())?;
    for piece in stored {
        made.push(piece_between(routes, places, piece))?;
    }
    Ok(made)
}

// A piece, with the names of its routes.
fn piece_between(routes: &[StoredRoute], places: &Places, piece: &StoredPiece) -> Piece
    requires routes { AreRoutes (map said_route routes.now) }
    requires places { ArePlaces (map (λ route. route.number) routes.now) places.now }
    requires piece { IsPiece (map said_route routes.now) (said_piece piece.now) }
    ensures { piece_of (piece_tree result) ≡ stating.piece_of (map said_route routes.now) (said_piece piece.now) }
{
    Piece {
        from_route: route_name(routes, places, piece.from_route),
        from: Measure::from_thousandths(piece.from),
        to: Measure::from_thousandths(piece.to),
        onto_route: route_name(routes, places, piece.onto_route),
        onto: Measure::from_thousandths(piece.onto),
    }
}

// The name of the route that has this number.
fn route_name(routes: &[StoredRoute], places: &Places, number: u32) -> Name
    requires routes { AreRoutes (map said_route routes.now) }
    requires places { ArePlaces (map (λ route. route.number) routes.now) places.now }
    ensures { result.bytes ≡ name_with (map said_route routes.now) number }
{
    match route_with(routes, places, number) {
        Some(route) => name_of(route.name.as_str()),
        None => Name::new(),
    }
}

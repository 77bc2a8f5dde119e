//! This module checks that a file has room for definitions: for each of them in its fields, and for all of them in its pages.
//!
//! Names and texts are measured, and none is read again: they came out of the lexer.

ghost use Rattle.std.specs.Prelude.{◌↔◌, All, IsTrue};
ghost use Rattle.std.specs.Bool.{OnFalse, OnTrue};
ghost use Rattle.rs_catalog_pages.specs.Fitting.{FitsAlignment, FitsColumn, FitsIndex, FitsPiece, FitsRoute, FitsTable, FitsView};
ghost use Rattle.rs_catalog_pages.specs.Said.{said_alignment, said_catalogue, said_column, said_index, said_piece, said_route, said_table, said_view};
ghost use Rattle.rs_store.specs.Fitting.{AreFew, FitFields};

use rs_catalog_pages::{
    StoredAlignment, StoredCatalogue, StoredColumn, StoredIndex, StoredPiece, StoredRoute,
    StoredTable, StoredView,
};
use rs_machine::limits::{ALIGNMENTS, INDEXES, ROUTES, TABLES, VIEWS};

/// The least length that a field of one byte can't say: of a name in bytes, of a list in items.
const SHORT: usize = 256;

/// Whether there are no more of each kind than there may be.
pub(crate) fn are_few(definitions: &StoredCatalogue) -> bool
    ensures few { OnTrue result (AreFew (said_catalogue definitions.now)) }
    ensures many { OnFalse result (AreFew (said_catalogue definitions.now) → ⊥) }
{
    if definitions.routes.len() > ROUTES || definitions.tables.len() > TABLES {
        return false;
    }
    if definitions.indexes.len() > INDEXES || definitions.views.len() > VIEWS {
        return false;
    }
    definitions.alignments.len() <= ALIGNMENTS
}

/// Whether each fits its fields.
pub(crate) fn fit_fields(definitions: &StoredCatalogue) -> bool
    ensures fit { OnTrue result (FitFields (said_catalogue definitions.now)) }
    ensures unfit { OnFalse result (FitFields (said_catalogue definitions.now) → ⊥) }
{
    if !do_routes_fit(definitions.routes.as_slice()) {
        return false;
    }
    if !do_tables_fit(definitions.tables.as_slice()) {
        return false;
    }
    if !do_indexes_fit(definitions.indexes.as_slice()) {
        return false;
    }
    if !do_views_fit(definitions.views.as_slice()) {
        return false;
    }
    do_alignments_fit(definitions.alignments.as_slice())
}

// ---- each of a list

fn do_routes_fit(routes: &[StoredRoute]) -> bool
    ensures { IsTrue result ↔ All (λ route. FitsRoute (said_route route)) routes.now }
{
    routes.iter().all(|route| does_route_fit(route))
}

fn do_tables_fit(tables: &[StoredTable]) -> bool
    ensures { IsTrue result ↔ All (λ table. FitsTable (said_table table)) tables.now }
{
    tables.iter().all(|table| does_table_fit(table))
}

fn do_columns_fit(columns: &[StoredColumn]) -> bool
    ensures { IsTrue result ↔ All (λ column. FitsColumn (said_column column)) columns.now }
{
    columns.iter().all(|column| does_column_fit(column))
}

fn do_indexes_fit(indexes: &[StoredIndex]) -> bool
    ensures { IsTrue result ↔ All (λ index. FitsIndex (said_index index)) indexes.now }
{
    indexes.iter().all(|index| does_index_fit(index))
}

fn do_views_fit(views: &[StoredView]) -> bool
    ensures { IsTrue result ↔ All (λ view. FitsView (said_view view)) views.now }
{
    views.iter().all(|view| does_view_fit(view))
}

fn do_alignments_fit(alignments: &[StoredAlignment]) -> bool
    ensures { IsTrue result ↔ All (λ alignment. FitsAlignment (said_alignment alignment)) alignments.now }
{
    alignments
        .iter()
        .all(|alignment| does_alignment_fit(alignment))
}

fn do_pieces_fit(pieces: &[StoredPiece]) -> bool
    ensures { IsTrue result ↔ All (λ piece. FitsPiece (said_piece piece)) pieces.now }
{
    pieces.iter().all(|piece| does_piece_fit(piece))
}

// ---- one of them: its name, its list and its text are measured. Its numbers fit by their types; each is read for the proof

fn does_route_fit(route: &StoredRoute) -> bool
    ensures { IsTrue result ↔ FitsRoute (said_route route.now) }
{
    let _number = route.number;
    let _start = route.start;
    let _finish = route.finish;
    let _born = route.born;
    route.name.len() < SHORT
}

fn does_table_fit(table: &StoredTable) -> bool
    ensures { IsTrue result ↔ FitsTable (said_table table.now) }
{
    let _number = table.number;
    let _kind = table.kind;
    if table.name.len() >= SHORT || table.columns.list.len() >= SHORT {
        return false;
    }
    do_columns_fit(table.columns.list.as_slice())
}

fn does_column_fit(column: &StoredColumn) -> bool
    ensures { IsTrue result ↔ FitsColumn (said_column column.now) }
{
    let _number = column.type_code;
    column.name.len() < SHORT
}

fn does_index_fit(index: &StoredIndex) -> bool
    ensures { IsTrue result ↔ FitsIndex (said_index index.now) }
{
    let _number = index.number;
    let _table = index.table;
    let _column = index.column;
    index.name.len() < SHORT
}

fn does_view_fit(view: &StoredView) -> bool
    ensures { IsTrue result ↔ FitsView (said_view view.now) }
{
    if view.name.len() >= SHORT {
        return false;
    }
    view.text.text.len() <= usize::from(u16::MAX)
}

fn does_alignment_fit(alignment: &StoredAlignment) -> bool
    ensures { IsTrue result ↔ FitsAlignment (said_alignment alignment.now) }
{
    if alignment.name.len() >= SHORT || alignment.pieces.list.len() >= SHORT {
        return false;
    }
    do_pieces_fit(alignment.pieces.list.as_slice())
}

fn does_piece_fit(piece: &StoredPiece) -> bool
    ensures { IsTrue result ↔ FitsPiece (said_piece piece.now) }
{
    let _from_route = piece.from_route;
    let _from = piece.from;
    let _to = piece.to;
    let _onto_route = piece.onto_route;
    let _onto = piece.onto;
    true
}

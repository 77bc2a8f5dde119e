//! Checks tables, their indexes, and views: each is as a line defines it.

ghost use Rattle.std.specs.Prelude.{◌≡◌, ◌<◌, ◌≤◌, ◌↔◌, Contains, IsTrue, length, map};
ghost use Rattle.std.specs.List.{AllByRecursion};
ghost use Rattle.rs_catalog_pages.specs.Items.{TableItem};
ghost use Rattle.rs_catalog_pages.specs.Said.{said_column, said_index, said_table, said_view};
ghost use Rattle.rs_machine.specs.Checks.{column_names, column_types};
ghost use Rattle.rs_machine.specs.Lawful.{AreColumnsOfTable, AreDistinct};
ghost use Rattle.rs_syntax.specs.Sound.{AreColumns, IsColumnType, IsName};
ghost use Rattle.rs_value.specs.Encoding.{row_width, width};
ghost use Rattle.rs_value.specs.declared.column.TheConstants.{COLUMNS};
ghost use Rattle.rs_catalog_meaning.specs.Meaning.{AreIndexes, AreTables, AreViews, IsIndex, IsTable, IsView, column_of, columns_of};

use crate::names::{are_in_order, is_free};
use rs_catalog_pages::{INDEXES, StoredColumn, StoredIndex, StoredTable, StoredView};
use rs_lexer::is_name;
use rs_machine::limits::{TABLES, VIEWS};
use rs_value::{COLUMNS, ColumnType, ROW_BYTES, TEXT_BYTES, column_width};

/// Whether these tables pass the checks and limits of their DEFINE lines, in the order of their names.
pub fn are_tables(tables: &[StoredTable]) -> bool
    ensures { IsTrue result ↔ AreTables (map said_table tables.now) }
{
    tables.len() <= TABLES && are_in_order(tables) && is_each_table(tables)
}

// Whether each of them passes.
fn is_each_table(tables: &[StoredTable]) -> bool
    ensures { IsTrue result ↔ AllByRecursion IsTable (map said_table tables.now) }
{
    tables.iter().all(|table| is_table(table))
}

// Whether it has a name, a kind, and columns that a table may have.
fn is_table(table: &StoredTable) -> bool
    ensures { IsTrue result ↔ IsTable (said_table table.now) }
{
    is_name(table.name.as_str()) && table.kind <= 1 && are_columns(table.columns.list.as_slice())
}

// Whether these are columns that a table may have.
fn are_columns(columns: &[StoredColumn]) -> bool
    ensures { IsTrue result ↔ AreColumnsOfTable (columns_of (map said_column columns.now)) }
{
    !columns.is_empty()
        && columns.len() <= COLUMNS
        && row_bytes(columns) <= ROW_BYTES
        && is_each_column(columns)
        && are_distinct(columns)
}

// How many bytes a row of these columns takes.
fn row_bytes(columns: &[StoredColumn]) -> usize
    requires few { length columns.now ≤ COLUMNS }
    ensures { result ≡ row_width (column_types (columns_of (map said_column columns.now))) }
{
    let mut total = 0;
    for column in columns {
        total += column_bytes(column);
    }
    total
}

// How many bytes a value of the column takes.
fn column_bytes(column: &StoredColumn) -> usize
    ensures value { result ≡ width (column_of (said_column column.now)).1 }
    ensures few { result ≤ 256 }
{
    if column.type_code == 0 {
        column_width(ColumnType::Int)
    } else {
        column_width(ColumnType::Text(column.type_code))
    }
}

// Whether each has a name and a type.
fn is_each_column(columns: &[StoredColumn]) -> bool
    ensures { IsTrue result ↔ AreColumns (columns_of (map said_column columns.now)) }
{
    columns.iter().all(|column| is_column(column))
}

// Whether a column has a name and a type.
fn is_column(column: &StoredColumn) -> bool
    ensures { let said = said_column column.now in IsTrue result ↔ (IsName said.name × IsColumnType (column_of said).1) }
{
    is_name(column.name.as_str()) && usize::from(column.type_code) <= TEXT_BYTES
}

// Whether each has a name of its own.
fn are_distinct(columns: &[StoredColumn]) -> bool
    ensures { IsTrue result ↔ AreDistinct (column_names (columns_of (map said_column columns.now))) }
{
    for (place, column) in columns.iter().enumerate() {
        if !is_free(&columns[place + 1..], column.name.as_str()) {
            return false;
        }
    }
    true
}

/// Whether these indexes of the tables pass the checks and limits of their DEFINE lines, in the order of their names.
pub fn are_indexes(tables: &[StoredTable], indexes: &[StoredIndex]) -> bool
    ensures { IsTrue result ↔ AreIndexes (map said_table tables.now) (map said_index indexes.now) }
{
    indexes.len() <= INDEXES as usize && are_in_order(indexes) && is_each_index(tables, indexes)
}

// Whether each of them passes.
fn is_each_index(tables: &[StoredTable], indexes: &[StoredIndex]) -> bool
    ensures { IsTrue result ↔ AllByRecursion (IsIndex (map said_table tables.now)) (map said_index indexes.now) }
{
    indexes.iter().all(|index| is_index(tables, index))
}

// Whether it has a name, and its column is there.
fn is_index(tables: &[StoredTable], index: &StoredIndex) -> bool
    ensures { IsTrue result ↔ IsIndex (map said_table tables.now) (said_index index.now) }
{
    is_name(index.name.as_str()) && has_column(tables, index.table, index.column)
}

// Whether a table of this number has a column at this place.
fn has_column(tables: &[StoredTable], number: u32, column: u8) -> bool
    ensures { IsTrue result ↔ ((table : TableItem) × Contains (map said_table tables.now) table × (table.number ≡ number)
        × (column < length table.columns)) }
{
    tables
        .iter()
        .any(|table| is_with_column(table, number, column))
}

// Whether this is the table of this number, with a column at this place.
fn is_with_column(table: &StoredTable, number: u32, column: u8) -> bool
    ensures { let said = said_table table.now in IsTrue result ↔ ((said.number ≡ number) × (column < length said.columns)) }
{
    table.number == number && usize::from(column) < table.columns.list.len()
}

/// Whether these views pass the checks and limits of their DEFINE lines beside the tables, in the order of their names. What
/// their texts say is not looked at.
pub fn are_views(tables: &[StoredTable], views: &[StoredView]) -> bool
    ensures { IsTrue result ↔ AreViews (map said_table tables.now) (map said_view views.now) }
{
    views.len() <= VIEWS && are_in_order(views) && is_each_view(tables, views)
}

// Whether each of them passes.
fn is_each_view(tables: &[StoredTable], views: &[StoredView]) -> bool
    ensures { IsTrue result ↔ AllByRecursion (IsView (map said_table tables.now)) (map said_view views.now) }
{
    views.iter().all(|view| is_view(tables, view))
}

// Whether it has a name, which is no table's.
fn is_view(tables: &[StoredTable], view: &StoredView) -> bool
    ensures { IsTrue result ↔ IsView (map said_table tables.now) (said_view view.now) }
{
    is_name(view.name.as_str()) && is_free(tables, view.name.as_str())
}

//! The columns of queries: their places by name, and whether those of two operands agree or may be side by side.

ghost use Rattle.std.specs.Prelude.{◌≡◌, ◌⊎◌, ◌<◌, ◌≤◌, ◌+◌, ◌++◌, map, length, IfOk, IfErr, Ok, Err};
ghost use Rattle.std.specs.List.{list_any};
ghost use Rattle.rs_facts.specs.Insert.{same_name};
ghost use Rattle.rs_facts.specs.Query.{column_at, renamed_at};
ghost use Rattle.rs_syntax.specs.View.{column_tree};
ghost use Rattle.rs_machine.specs.Checks.{column_names, some_name_twice};
ghost use Rattle.rs_checker.specs.Inner.{is_same_column, AllBelow};
ghost use Rattle.rs_machine.specs.Checking.{column_place, column_places, same_class, same_columns, share_a_name};

use crate::checked::Columns;
use rs_catalog::TableEntry;
use rs_refusal::Refusal;
use rs_syntax::{ColumnDefinition, Name};
use rs_value::{COLUMNS, ColumnType};
use std::alloc::Global;

/// The place of the first column of this name, the leftmost 0. Without one, it is refused with
/// `Refusal::NoSuchColumn` (22).
pub fn place_of(columns: &Columns, name: &Name) -> Result<u8, Refusal>
    ensures place { result ≡ column_place (map column_tree columns.now.items) name.now.bytes }
    ensures there { IfOk result (λ place. place < length columns.now.items) }
{
    for (place, column) in columns.as_slice().iter().enumerate() {
        if same_name(name, &column.name) {
            return Ok(place as u8);
        }
    }
    Err(Refusal::NoSuchColumn)
}

/// The place of the first column of this name in a table. Without one, it is refused with `Refusal::NoSuchColumn` (22).
pub fn column_of(table: &TableEntry, name: &Name) -> Result<u8, Refusal>
    requires { length table.now.columns ≤ COLUMNS }
    ensures place { result ≡ column_place table.now.columns name.now.bytes }
    ensures there { IfOk result (λ place. place < length table.now.columns) }
{
    place_of(&joined(Columns::new(), table.columns()), name)
}

/// Whether a column has this name.
pub fn has_name(columns: &[ColumnDefinition], name: &Name) -> bool
    ensures { result ≡ list_any (same_name name.now.bytes) (column_names (map column_tree columns.now)) }
{
    for column in columns {
        if same_name(name, &column.name) {
            return true;
        }
    }
    false
}

/// Whether a name is in both.
pub fn share_a_name(left: &[ColumnDefinition], right: &[ColumnDefinition]) -> bool
    ensures { result ≡ share_a_name (column_names (map column_tree left.now)) (column_names (map column_tree right.now)) }
{
    for column in left {
        if has_name(right, &column.name) {
            return true;
        }
    }
    false
}

/// Whether a name is there twice.
pub fn some_name_twice(names: &[Name]) -> bool
    ensures { result ≡ some_name_twice (map (λ name. name.bytes) names.now) }
{
    for (i, name) in names.iter().enumerate() {
        if is_among(name, &names[i + 1..]) {
            return true;
        }
    }
    false
}

/// Whether both have the same names, of numbers or of texts, in the same order.
pub fn same_columns(left: &[ColumnDefinition], right: &[ColumnDefinition]) -> bool
    ensures { result ≡ same_columns (map column_tree left.now) (map column_tree right.now) }
{
    if left.len() != right.len() {
        return false;
    }
    for (i, column) in left.iter().enumerate() {
        if !same_column(column, &right[i]) {
            return false;
        }
    }
    true
}

/// Whether both hold numbers or both hold texts, however long.
pub fn same_class(left: ColumnType, right: ColumnType) -> bool
    ensures { result ≡ same_class left right }
{
    match (left, right) {
        (ColumnType::Int, ColumnType::Int) => true,
        (ColumnType::Text(_), ColumnType::Text(_)) => true,
        (ColumnType::Int, ColumnType::Text(_)) => false,
        (ColumnType::Text(_), ColumnType::Int) => false,
    }
}

/// Whether two names are the same.
pub fn same_name(left: &Name, right: &Name) -> bool
    ensures { result ≡ same_name left.now.bytes right.now.bytes }
{
    left == right
}

/// The place of each of these names, from the left. The first that is no column's is refused with
/// `Refusal::NoSuchColumn` (22), want of memory with `Refusal::OutOfMemory` (90).
pub fn places_of(alloc: Global, columns: &Columns, names: &[Name]) -> Result<Vec<u8>, Refusal>
    ensures ok { IfOk result (λ places. column_places (map column_tree columns.now.items) (map (λ name. name.bytes) names.now) ≡ Ok places.items) }
    ensures there { IfOk result (λ places. AllBelow (length columns.now.items) places.items) }
    ensures refused { IfErr result (λ refusal. (refusal ≡ Refusal.OutOfMemory)
        ⊎ (column_places (map column_tree columns.now.items) (map (λ name. name.bytes) names.now) ≡ Err refusal)) }
{
    let mut places = Vec::new(alloc);
    for name in names {
        places.push(place_of(columns, name)?)?;
    }
    Ok(places)
}

/// The columns at these places.
pub fn chosen(columns: &[ColumnDefinition], places: &[u8]) -> Columns
    requires few { length places.now ≤ COLUMNS }
    requires there { AllBelow (length columns.now) places.now }
    ensures { map column_tree result.items ≡ map (column_at (map column_tree columns.now)) places.now }
{
    let mut chosen = Columns::new();
    for place in places {
        chosen.push(columns[usize::from(*place)]);
    }
    chosen
}

/// The column at this place has another name.
pub fn renamed(mut columns: Columns, place: u8, name: Name) -> Columns
    requires { place < length columns.items }
    ensures { map column_tree result.items ≡ renamed_at place name.bytes (map column_tree columns.items) }
{
    columns[usize::from(place)].name = name;
    columns
}

/// The columns of both, those of the first before those of the second.
pub fn joined(mut left: Columns, right: &[ColumnDefinition]) -> Columns
    requires { length left.items + length right.now ≤ COLUMNS }
    ensures { map column_tree result.items ≡ map column_tree left.items ++ map column_tree right.now }
{
    for column in right {
        left.push(*column);
    }
    left
}

// Whether two columns have the same name and hold values of one class.
fn same_column(left: &ColumnDefinition, right: &ColumnDefinition) -> bool
    ensures { result ≡ is_same_column (column_tree left.now) (column_tree right.now) }
{
    same_name(&left.name, &right.name) && same_class(left.column_type, right.column_type)
}

// Whether a name is among those.
fn is_among(name: &Name, names: &[Name]) -> bool
    ensures { result ≡ list_any (same_name name.now.bytes) (map (λ other. other.bytes) names.now) }
{
    for other in names {
        if same_name(name, other) {
            return true;
        }
    }
    false
}

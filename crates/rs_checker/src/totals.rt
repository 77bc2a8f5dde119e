//! The columns of totals: those whose values make a group, and the one that is summed.
//!
//! It promises their places in a checked query's columns, or the machine's refusal.

ghost use Rattle.std.specs.Prelude.{◌≡◌, ◌⊎◌, ◌≤◌, map, length, IfOk, IfErr, Ok, Err};
ghost use Rattle.rs_syntax.specs.View.{column_tree, summed_tree};
ghost use Rattle.rs_machine.specs.Checking.{holds_numbers, group_checked, summed_checked};

use crate::checked::Columns;
use crate::columns::{place_of, places_of, some_name_twice};
use rs_refusal::Refusal;
use rs_syntax::Name;
use rs_value::{COLUMNS, ColumnType};
use std::alloc::Global;

/// The places of the columns whose values make a group, in the order of the names, the leftmost column 0. A name that
/// is no column's is refused with `Refusal::NoSuchColumn` (22), from the left, and then one that is there twice with
/// `Refusal::ColumnTwice` (41), want of memory with `Refusal::OutOfMemory` (90).
pub fn check_group(alloc: Global, columns: &Columns, names: &[Name]) -> Result<Vec<u8>, Refusal>
    ensures ok { IfOk result (λ places. group_checked (map column_tree columns.now.items) (map (λ name. name.bytes) names.now) ≡ Ok places.items) }
    ensures few { IfOk result (λ places. length places.items ≤ COLUMNS) }
    ensures refused { IfErr result (λ refusal. (refusal ≡ Refusal.OutOfMemory)
        ⊎ (group_checked (map column_tree columns.now.items) (map (λ name. name.bytes) names.now) ≡ Err refusal)) }
{
    let places = places_of(alloc, columns, names)?;
    if some_name_twice(names) {
        return Err(Refusal::ColumnTwice);
    }
    // For the proof: there are no more columns than a row has room for.
    let _columns = columns.as_slice();
    Ok(places)
}

/// The place of the column that is summed, if one is. Without such a column it is refused with `Refusal::NoSuchColumn`
/// (22), and where the column holds texts with `Refusal::WrongValues` (33).
pub fn check_summed(columns: &Columns, summed: &Option<Name>) -> Result<Option<u8>, Refusal>
    ensures { result ≡ summed_checked (map column_tree columns.now.items) (summed_tree summed.now) }
{
    match summed {
        None => Ok(None),
        Some(name) => {
            let place = place_of(columns, name)?;
            if !holds_numbers(columns[usize::from(place)].column_type) {
                return Err(Refusal::WrongValues);
            }
            Ok(Some(place))
        }
    }
}

// Whether a column of this type holds numbers.
fn holds_numbers(column_type: ColumnType) -> bool
    ensures { result ≡ holds_numbers column_type }
{
    match column_type {
        ColumnType::Int => true,
        ColumnType::Text(_) => false,
    }
}

//! Laws of tables, each the contract of a function that does nothing: no field is left out of its line, or wider than its column, and
//! how many records are aligned together.

ghost use Rattle.std.specs.Prelude.{◌≡◌, ◌≤◌, ℕ, List, length};
ghost use Rattle.std.specs.List.{AllByRecursion};
ghost use Rattle.rs_csv_table.specs.Columns.{columns_of, field_in, width_in};
ghost use Rattle.rs_csv_table.specs.Fields.{Record, width};
ghost use Rattle.rs_csv_table.specs.declared.table.TheConstants.{ROWS};

/// Each record of a portion has no more fields than there are columns.
pub fn fields_have_columns()
    ensures { (records : List Record) → AllByRecursion (λ row. length row ≤ length (columns_of records)) records }
{}

/// No field of a portion is wider than its column.
pub fn columns_hold_their_fields()
    ensures { (records : List Record) (place : ℕ) → AllByRecursion (λ row. width (field_in place row) ≤ width_in place records) records }
{}

/// The limit is this number.
pub fn limits_are_those()
    ensures rows { ROWS ≡ 1000 }
{}

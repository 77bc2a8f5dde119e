//! Laws of encoded rows: who stores and compares bytes stores and compares rows.

ghost use Rattle.std.specs.Prelude.{◌≡◌, ℕ, List, length, true};
ghost use Rattle.std.specs.Ordering.{nat_cmp};
ghost use Rattle.std.specs.Cmp.Lexicographic.{slice_cmp};
ghost use Rattle.rs_value.specs.declared.column.ColumnType.{ColumnType};
ghost use Rattle.rs_value.specs.Row.{Row, row_cmp};
ghost use Rattle.rs_value.specs.Values.{IsRowOf};
ghost use Rattle.rs_value.specs.Fitting.{has_room, each_passes};
ghost use Rattle.rs_value.specs.Encoding.{row_width, SaysRow};

/// Bytes compare as the rows that they say.
pub fn bytes_compare_as_rows()
    ensures { (types : List ColumnType) (a b : List ℕ) (x y : Row)
        → SaysRow types a x → SaysRow types b y → slice_cmp nat_cmp a b ≡ row_cmp x y }
{}

/// Bytes say one row at the most.
pub fn bytes_say_one_row()
    ensures { (types : List ColumnType) (bytes : List ℕ) (x y : Row)
        → SaysRow types bytes x → SaysRow types bytes y → x ≡ y }
{}

/// One row is said by the same bytes each time.
pub fn row_has_one_encoding()
    ensures { (types : List ColumnType) (a b : List ℕ) (row : Row)
        → SaysRow types a row → SaysRow types b row → a ≡ b }
{}

/// Each row that fits the columns is said by some bytes.
pub fn each_row_is_said()
    ensures { (types : List ColumnType) (row : Row)
        → IsRowOf types row → each_passes has_room types row ≡ true → (bytes : List ℕ) × SaysRow types bytes row }
{}

/// What bytes say is a row of the columns.
pub fn said_row_is_of_its_columns()
    ensures { (types : List ColumnType) (bytes : List ℕ) (row : Row) → SaysRow types bytes row → IsRowOf types row }
{}

/// All rows of the same columns take the same number of bytes.
pub fn rows_have_one_width()
    ensures { (types : List ColumnType) (bytes : List ℕ) (row : Row) → SaysRow types bytes row → length bytes ≡ row_width types }
{}

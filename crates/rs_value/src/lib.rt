//! Kinds, column types, values and rows of a table.
//!
//! A row is a tuple of values. What a line writes fits a table's columns, or is refused.
#![tactic(auto)]

mod byte_order;
pub mod column;
pub mod comparison;
pub mod encoding;
pub mod encoding_laws;
pub mod fitting;
pub mod kept;
mod kept_bytes;
pub mod kept_encoding;
pub mod kept_laws;
mod kept_making;
mod kept_order;
pub mod kept_text;
pub mod lent;
pub mod limits;
mod row_bytes;
pub mod row_order;
pub mod row_text;
pub mod text;
pub mod value;

pub use byte_order::{compare_bytes, same_bytes};
pub use column::{COLUMNS, ColumnType, Kind, ROW_BYTES, Schema, TEXT_BYTES};
pub use comparison::Comparison;
pub use encoding::{column_width, decode, encode, row_width};
pub use encoding_laws::{
    bytes_compare_as_rows, bytes_say_one_row, each_row_is_said, row_has_one_encoding,
    rows_have_one_width, said_row_is_of_its_columns,
};
pub use fitting::{check_fit, fits};
pub use kept::{KeptRow, compare_rows, push_values, same_row};
pub use kept_encoding::{read_value, says_row};
pub use kept_laws::{
    each_row_is_kept, kept_bytes_compare_as_rows, kept_bytes_keep_one_row,
    kept_bytes_keep_rows_together, row_is_kept_one_way,
};
pub use kept_text::push_lent;
pub use lent::LentValue;
pub use row_order::{row_order_is_total, tied_rows_are_equal};
pub use row_text::push_doubled;
pub use text::{as_text, has_control};
pub use value::{Literal, Tuple, Value};

//! The order of rows: column by column, NULL before numbers before texts.
//!
//! It is a total order in which only equal rows tie.

ghost use Rattle.std.specs.Cmp.{IsTotalOrder};
ghost use Rattle.std.specs.FinMap.{IsAntisymmetric};
ghost use Rattle.rs_value.specs.Row.{row_cmp};

/// The order of rows is total.
pub fn row_order_is_total()
    ensures { IsTotalOrder row_cmp }
{}

/// Rows that tie are equal.
pub fn tied_rows_are_equal()
    ensures { IsAntisymmetric row_cmp }
{}

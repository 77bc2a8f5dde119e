//! The limits of columns, texts and rows, as numbers.

ghost use Rattle.std.specs.Prelude.{◌≡◌};
ghost use Rattle.rs_value.specs.declared.column.TheConstants.{COLUMNS, ROW_BYTES, TEXT_BYTES};

/// The limits are these numbers.
pub fn limits_are_those()
    ensures columns { COLUMNS ≡ 16 }
    ensures text_bytes { TEXT_BYTES ≡ 120 }
    ensures row_bytes { ROW_BYTES ≡ 960 }
{}

//! What a record says is what the row says.

ghost use Rattle.std.specs.Prelude.{◌≡◌, List};
ghost use Rattle.std.specs.List.{AllByRecursion};
ghost use Rattle.rs_csv_answers.specs.Cells.{Cell, IsCell, csv_of, row_of};
ghost use Rattle.rs_csv_answers.specs.Records.{record_of};

/// The record of a row has a field for each cell that the row says, in their order.
pub fn record_says_what_the_row_says()
    ensures { (cells : List Cell) → AllByRecursion IsCell cells → record_of (row_of cells) ≡ csv_of cells }
{}

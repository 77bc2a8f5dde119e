//! Laws of the operators on sets of rows, each the contract of a function that does nothing.
//!
//! They say of single rows what the definitions say of sets: which rows an operator has, and that it has no others.

ghost use Rattle.rs_facts.specs.OperatorLaws.{
  SetsHaveTheirRows,
  ChangedRowsAreThose,
  DissolvedRowsAreChosen,
  OverlaidRowsArePairs,
  CoveredIsOverlaid,
  CoveredOfNoneBefore,
  CoveredOfNoneAfter,
  MergedRowsAreOfEither,
  LeftRowsAreNotOfTheOther,
  WindowedRowsAreInside,
  CarriedRowsAreThose,
  TransformedRowsAreThose,
  GapsAreWhereNoRowIs,
};

/// The set of a list has its rows and no others.
pub fn sets_have_their_rows()
    ensures { SetsHaveTheirRows }
{}

/// A set whose rows are changed has what its rows become, and no others.
pub fn changed_rows_are_those()
    ensures { ChangedRowsAreThose }
{}

/// DISSOLVE has the columns named of each row, and no other row.
pub fn dissolved_rows_are_chosen()
    ensures { DissolvedRowsAreChosen }
{}

/// OVERLAY has each row of the one before each row of the other, and no other row.
pub fn overlaid_rows_are_pairs()
    ensures { OverlaidRowsArePairs }
{}

/// COVER is OVERLAY where both have rows, and where one alone has rows it has these beside NULLs.
pub fn covered_rows_are_those()
    ensures both { CoveredIsOverlaid }
    ensures second_alone { CoveredOfNoneBefore }
    ensures first_alone { CoveredOfNoneAfter }
{}

/// MERGE has the rows of either.
pub fn merged_rows_are_of_either()
    ensures { MergedRowsAreOfEither }
{}

/// MINUS has the rows of the first that are not rows of the second.
pub fn rows_left_are_not_of_the_other()
    ensures { LeftRowsAreNotOfTheOther }
{}

/// WINDOW has the same rows inside and none outside.
pub fn windowed_rows_are_inside()
    ensures { WindowedRowsAreInside }
{}

/// A piece of an alignment has at a thousandth the rows that it carries there, and no others.
pub fn carried_rows_are_those()
    ensures { CarriedRowsAreThose }
{}

/// TRANSFORM has at a thousandth of a route the rows that some piece carries there, and no others.
pub fn transformed_rows_are_those()
    ensures { TransformedRowsAreThose }
{}

/// GAPS has between the ends of a route the row without columns wherever there is no row, and no other row.
pub fn gaps_are_where_no_row_is()
    ensures { GapsAreWhereNoRowIs }
{}

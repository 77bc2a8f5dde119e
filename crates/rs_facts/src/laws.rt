//! Laws of the definitions, each the contract of a function that does nothing.
//!
//! They say that the two definitions of maximal runs agree, that the order of spans means nothing, and that kept spans
//! are the maximal runs of what they mean.

ghost use Rattle.rs_facts.specs.Laws.{
  RunsAreOneList,
  RunsMeanThePlaces,
  GoingAlongGivesTheRuns,
  SpansMeanASet,
  SameRowsAreOneSet,
  KeptSpansAreTheRuns,
};

/// Places with the same rows at each thousandth are the same.
pub fn same_rows_are_one_set()
    ensures { SameRowsAreOneSet }
{}

/// Spans mean the same in any order.
pub fn spans_mean_a_set()
    ensures { SpansMeanASet }
{}

/// The maximal runs of places are one list.
pub fn runs_are_one_list()
    ensures { RunsAreOneList }
{}

/// Where all rows lie between two ends, going from thousandth to thousandth between them gives the maximal runs.
pub fn going_along_gives_the_runs()
    ensures { GoingAlongGivesTheRuns }
{}

/// Where all rows lie between two ends, the maximal runs mean these rows, no more and no fewer.
pub fn runs_mean_the_places()
    ensures { RunsMeanThePlaces }
{}

/// Spans in the form in which they are kept are all the maximal runs of what they mean, each once.
pub fn kept_spans_are_the_runs()
    ensures { KeptSpansAreTheRuns }
{}

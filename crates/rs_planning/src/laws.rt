//! Laws of plans, each the contract of a function that does nothing.
//!
//! A plan means its query. What the rule counts, chooses and sorts is said again by what it is: the maximal runs of a
//! table, the least name among the indexes that serve, the order that a stable sort gives.

ghost use Rattle.rs_planning.specs.Laws.{
  PlansMeanTheirQueries,
  PlansAreWellFormed,
  RecordsAreRuns,
  TheLeastIndexIsTaken,
  NoIndexWhereNoneServes,
  OperandsGoByWeight,
  StableSortsAgree,
};

/// The plan of a checked query has the query's rows at each thousandth of each route, in the written order of columns,
/// and its kind and width, whatever the record counts and the indexes.
pub fn plans_mean_their_queries()
    ensures { PlansMeanTheirQueries }
{}

/// The plan of a checked query is well formed: its tables are there, its rows nowhere wider than a row may be, its
/// operands of one kind and width where that is asked, each OVERLAY of two operands at least, none an OVERLAY itself.
pub fn plans_are_well_formed()
    ensures { PlansAreWellFormed }
{}

/// The record count of a table is the number of its maximal runs on all routes.
pub fn records_are_runs()
    ensures { RecordsAreRuns }
{}

/// A leaf's index has the least name of those of its table whose column is in a conjunct `column = literal`; where none
/// is, it has none.
pub fn the_least_index_is_taken()
    ensures least { TheLeastIndexIsTaken }
    ensures none { NoIndexWhereNoneServes }
{}

/// The operands of an OVERLAY are those of the query, none after a heavier one, and those of one weight as they were
/// written; any stable sort by weight gives this one list.
pub fn operands_go_by_weight()
    ensures sorted { OperandsGoByWeight }
    ensures only { StableSortsAgree }
{}

//! What a query prints in a lawful state: the maximal runs of its rows on each route, and there are no others.
//!
//! This is so of well-formed queries, and every query that is checked is one.

ghost use Rattle.std.specs.Prelude.{◌≡◌, ℕ, Ok, Some, true};
ghost use Rattle.std.specs.FinMap as names;
ghost use Rattle.rs_value.specs.Row.{Row};
ghost use Rattle.rs_facts.specs.Fact.{Name, contains};
ghost use Rattle.rs_facts.specs.Query.{RouteEnds, Query, rows_at, kind_of, columns_of};
ghost use Rattle.rs_facts.specs.WellFormed.{IsWellFormed};
ghost use Rattle.rs_facts.specs.Runs.{AreRunsOf};
ghost use Rattle.rs_syntax.specs.Tree.{QueryTree};
ghost use Rattle.rs_machine.specs.State.{State, world_of};
ghost use Rattle.rs_machine.specs.Checks.{column_names};
ghost use Rattle.rs_machine.specs.Checking.{checked};
ghost use Rattle.rs_machine.specs.Step.{printed_runs};
ghost use Rattle.rs_machine.specs.Lawful.{OnRoute, MayHoldAt, AreDistinct, IsLawful};

use rs_facts::laws::going_along_gives_the_runs;

/// A query that is checked is well formed, and no two of its columns have one name.
pub fn checked_queries_are_well_formed()
    ensures well_formed { (state : State) (tree : QueryTree) (query : Query)
        → IsLawful state → checked state tree ≡ Ok query → IsWellFormed (world_of state) query }
    ensures columns_distinct { (state : State) (tree : QueryTree) (query : Query)
        → IsLawful state → checked state tree ≡ Ok query → AreDistinct (column_names (columns_of (world_of state) query)) }
{}

/// The runs that a well-formed query prints on a route are all the maximal runs of its rows there, in printing order.
pub fn printed_runs_are_the_maximal_ones()
    ensures { (state : State) (query : Query) (route : Name) (ends : RouteEnds)
        → IsLawful state → IsWellFormed (world_of state) query → names.get state.routes route ≡ Some ends
        → AreRunsOf (kind_of (world_of state) query) (rows_at (world_of state) query route) (printed_runs state query route ends) }
{
    going_along_gives_the_runs();
}

/// A well-formed query has rows only on routes that are there: lines from a route's start on and below its end, points up
/// to its end.
pub fn rows_lie_on_routes()
    ensures { (state : State) (query : Query) (route : Name) (k : ℕ) (row : Row)
        → IsLawful state → IsWellFormed (world_of state) query → contains (rows_at (world_of state) query route k) row ≡ true
        → OnRoute state.routes route (MayHoldAt (kind_of (world_of state) query) k) }
{}

//! Plans of checked queries: in a lawful state the plan of a query that is checked means it, and can be evaluated.

ghost use Rattle.std.specs.Prelude.{◌≡◌, Ok};
ghost use Rattle.rs_facts.specs.Query.{Query};
ghost use Rattle.rs_planning.specs.Basis.{Basis};
ghost use Rattle.rs_planning.specs.Checked.{NamesItsColumns};
ghost use Rattle.rs_planning.specs.Laws.{Means};
ghost use Rattle.rs_planning.specs.Rule.{plan_of};
ghost use Rattle.rs_planning.specs.WellFormedPlan.{IsWellFormedPlan};
ghost use Rattle.rs_syntax.specs.Tree.{QueryTree};
ghost use Rattle.rs_machine.specs.State.{State, world_of};
ghost use Rattle.rs_machine.specs.Checking.{checked};
ghost use Rattle.rs_machine.specs.Lawful.{IsLawful};

use rs_planning::laws::{plans_are_well_formed, plans_mean_their_queries};

/// A query that is checked names columns of its operands alone.
pub fn checked_queries_name_their_columns()
    ensures { (state : State) (tree : QueryTree) (query : Query)
        → checked state tree ≡ Ok query → NamesItsColumns (world_of state) query }
{}

/// In a lawful state the plan of a checked query has the query's rows at each thousandth of each route, whatever the
/// record counts and the indexes, and is well formed.
pub fn plans_mean_checked_queries()
    ensures means { (state : State) (tree : QueryTree) (query : Query)
        → IsLawful state → checked state tree ≡ Ok query → (basis : Basis) → basis.world ≡ world_of state
        → Means basis.world (plan_of basis query) query }
    ensures well_formed { (state : State) (tree : QueryTree) (query : Query)
        → IsLawful state → checked state tree ≡ Ok query → (basis : Basis) → basis.world ≡ world_of state
        → IsWellFormedPlan basis.world (plan_of basis query) }
{
    plans_mean_their_queries();
    plans_are_well_formed();
}

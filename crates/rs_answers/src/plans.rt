//! The check of a query, its plan, and the lines of the plan.
//!
//! It promises the plan that the rule gives by the numbers of records and the indexes, which has the query's rows in each
//! state of the definitions.

ghost use Rattle.std.specs.Prelude.{◌≡◌, ◌⊎◌, ℕ, List, true, map, Ok, Err, IfOk, IfErr};
ghost use Rattle.rs_facts.specs.Runs.{Stretch};
ghost use Rattle.rs_planning.specs.Basis.{present_basis};
ghost use Rattle.rs_planning.specs.Explain.{explained};
ghost use Rattle.rs_planning.specs.Rule.{plan_of};
ghost use Rattle.rs_syntax.specs.QueryView.{query_tree};
ghost use Rattle.rs_machine.specs.Checking as machine;
ghost use Rattle.rs_machine.specs.State.{State, world_of};
ghost use Rattle.rs_catalog.specs.Definitions.{Rest, state_from};
ghost use Rattle.rs_catalog.specs.Referents.{referents_on};
ghost use Rattle.rs_checker.specs.Checks.{IsChecked, PassesFirst};
ghost use Rattle.rs_checker.specs.CheckedView.{query_of};
ghost use Rattle.rs_serve.specs.ReplyView.{rows_of};
ghost use Rattle.rs_plan.specs.PlanView.{plan_tree};
ghost use Rattle.rs_exec.specs.Meaning.{kind_in, is_well_formed};
ghost use Rattle.rs_answers.specs.Counts.{index_seen, indexes_kept, HasIndexes, AreCounted};
ghost use Rattle.rs_answers.specs.Plans.{CanBePlanned, IsPlanFor};

use rs_catalog::{Catalog, RouteReferents};
use rs_checker::{Checked, check};
use rs_exec::laws::plans_are_the_same_by_number_and_by_name;
use rs_plan::planning::plan;
use rs_plan::{Counts, Index, Plan, explain};
use rs_planning::laws::{plans_are_well_formed, plans_mean_their_queries};
use rs_refusal::Refusal;
use rs_syntax::Query;
use std::alloc::{AllocError, Global};

/// The checked query, which can be planned; or the refusal of the first check that fails.
pub fn checked(
    alloc: Global,
    catalog: &Catalog,
    referents: &RouteReferents,
    query: &Query,
) -> Result<Checked, Refusal>
    ensures ok { IfOk result (λ checked. (spans : ℕ → ℕ → List Stretch) (rest : Rest)
        → IsChecked (state_from catalog.now (referents_on referents.now) spans rest) (query_tree query.now) checked) }
    ensures can { IfOk result (CanBePlanned catalog.now) }
    ensures refused { IfErr result (λ refusal. (refusal ≡ Refusal.OutOfMemory) ⊎ ((spans : ℕ → ℕ → List Stretch) (rest : Rest)
        → machine.checked (state_from catalog.now (referents_on referents.now) spans rest) (query_tree query.now) ≡ Err refusal)) }
    ensures wanting { IfErr result (λ refusal. refusal ≡ Refusal.OutOfMemory → PassesFirst catalog.now (query_tree query.now)) }
{
    check(alloc, catalog, referents, query)
}

/// The plan of a checked query that the rule gives by these numbers of records and indexes. The only refusal is for want of
/// memory.
pub fn planned<C: Counts>(
    alloc: Global,
    catalog: &Catalog,
    checked: Checked,
    counts: &C,
) -> Result<Plan, AllocError>
    requires can { CanBePlanned catalog.now checked }
    requires indexes { HasIndexes catalog.now (C.counted counts.now) }
    ensures formed { IfOk result (λ plan. is_well_formed plan ≡ true) }
    ensures kind { IfOk result (λ plan. kind_in plan ≡ checked.kind) }
    ensures by_rule { IfOk result (λ plan. (state : State) → AreCounted catalog.now state (C.counted counts.now)
        → plan_tree plan ≡ plan_of (present_basis (world_of state) state.indexes) (query_of checked.query)) }
    ensures means { IfOk result (IsPlanFor catalog.now (query_of checked.query)) }
{
    plans_mean_their_queries();
    plans_are_well_formed();
    plans_are_the_same_by_number_and_by_name();
    catalog.stand();
    plan(alloc, checked, counts)
}

/// The lines of a checked query's plan, each node before its operands. The only refusal is for want of memory.
pub fn explain_lines<C: Counts>(
    alloc: Global,
    catalog: &Catalog,
    checked: Checked,
    counts: &C,
) -> Result<Vec<String>, AllocError>
    requires can { CanBePlanned catalog.now checked }
    requires indexes { HasIndexes catalog.now (C.counted counts.now) }
    ensures { IfOk result (λ rows. (state : State) → AreCounted catalog.now state (C.counted counts.now)
        → rows_of rows.items ≡ explained (world_of state) state.indexes (query_of checked.query)) }
{
    let plan = planned(alloc, catalog, checked, counts)?;
    explain(alloc, &plan)
}

/// The indexes as planning sees them, in the order of their names. The only refusal is for want of memory.
pub fn planning_indexes(alloc: Global, catalog: &Catalog) -> Result<Vec<Index>, AllocError>
    ensures { IfOk result (λ indexes. map index_seen indexes.items ≡ indexes_kept catalog.now) }
{
    let mut indexes = Vec::new(alloc);
    for (name, index) in catalog.indexes() {
        indexes.push(Index {
            name: *name,
            number: index.number(),
            table: index.table_number(),
            column: index.column(),
        })?;
    }
    Ok(indexes)
}

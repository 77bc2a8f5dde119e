//! Planning: the plan of a checked query by the rule.

ghost use Rattle.std.specs.Prelude.{IfOk};
ghost use Rattle.rs_plan.specs.Planned.{IsPlanOf};

use crate::asking::nothing;
use crate::counts::Counts;
use crate::placing::place_alone;
use crate::plan::Plan;
use crate::weighing::{Uncounted, has_overlay};
use rs_checker::Checked;
use std::alloc::{AllocError, Global};

/// The plan that the rule of planning gives a checked query, by these numbers of records and indexes. Its tables and
/// routes have the numbers of the query's, its indexes those of the counts'. No records are counted for a query without
/// an OVERLAY. The only refusal is for want of memory.
pub fn plan<C: Counts>(alloc: Global, checked: Checked, counts: &C) -> Result<Plan, AllocError>
    ensures { IfOk result (λ plan. IsPlanOf (C.counted counts.now) checked plan) }
{
    if has_overlay(&checked.query) {
        return plan_by(alloc, checked, counts);
    }
    let uncounted = Uncounted { counts };
    plan_by(alloc, checked, &uncounted)
}

/// The plan that the rule gives by these counts.
fn plan_by<C: Counts>(alloc: Global, checked: Checked, counts: &C) -> Result<Plan, AllocError>
    ensures { IfOk result (λ plan. IsPlanOf (C.counted counts.now) checked plan) }
{
    let one = place_alone(alloc, checked.query, nothing(alloc), counts)?;
    Ok(one.plan)
}

//! The runs of a plan on one route.
//!
//! It promises the maximal runs of the plan's rows in each of the snapshots that the source stands for.

ghost use Rattle.std.specs.Prelude.{◌≡◌, true, map, IfOk};
ghost use Rattle.rs_facts.specs.Runs.{AreRunsOf};
ghost use Rattle.rs_facts.specs.Spans.{seen};
ghost use Rattle.rs_exec.specs.Leaving.{EndsWith};
ghost use Rattle.rs_exec.specs.Meaning.{rows_in, kind_in, is_well_formed};
ghost use Rattle.rs_exec.specs.Snapshot.{Snapshots};

use rs_exec::{Source, eval, is_elsewhere};
use rs_facts::Span;
use rs_plan::Plan;
use rs_refusal::Refusal;
use std::alloc::Global;

/// The runs of a plan on the route of this number, as they were at a version, by its evaluation; none at once where its
/// windows leave nothing of the route. The source tells why it is refused.
pub fn runs_on<S: Source>(
    alloc: Global,
    source: &mut S,
    plan: &Plan,
    route: u32,
    version: u64,
) -> Result<Vec<Span>, Refusal>
    requires formed { is_well_formed plan.now ≡ true }
    ensures runs { IfOk result (λ runs. (snapshots : Snapshots) → S.is source.old snapshots
        → AreRunsOf (kind_in plan.now) (rows_in plan.now (snapshots version) route) (map seen runs.items)) }
    ensures ends { EndsWith S.Source source.old source.new result }
{
    if is_elsewhere(plan, route) {
        return Ok(Vec::new(alloc));
    }
    eval(alloc, source, plan, route, version)
}

//! Runs of a plan on a route from one of them on.
//!
//! Where it is marked how many of the runs begin below a thousandth, a part of the route is evaluated from there, and no more of it than
//! is likely to have the runs that are wanted. Nothing rests on a mark but the time that it spares.

ghost use Rattle.std.specs.Prelude.{◌≡◌, ◌<◌, ◌≤◌, ◌+◌, ◌-◌, drop, length, map, min, take, true, IfOk, IfSome, Some};
ghost use Rattle.std.specs.FinMap as names;
ghost use Rattle.std.specs.List.{AllByRecursion};
ghost use Rattle.rs_answers.specs.Portions.{IsStart};
ghost use Rattle.rs_answers.specs.Resumed.{AreRunsFrom, GoFarEnough, IsMarked};
ghost use Rattle.rs_answers.specs.Versions.{LiesOnRoutes, SeenVersion, runs_seen};
ghost use Rattle.rs_answers.specs.Within.{is_local};
ghost use Rattle.rs_catalog.specs.Definitions.{RouteItem};
ghost use Rattle.rs_exec.specs.Leaving.{EndsWith};
ghost use Rattle.rs_exec.specs.Meaning.{is_well_formed};
ghost use Rattle.rs_facts.specs.Spans.{seen};
ghost use Rattle.rs_plan.specs.declared.plan.Plan.{Plan};

use crate::route_lines::{PlanAt, Portion};
use crate::runs::runs_on;
use crate::versions::Versions;
use crate::within::{is_local, runs_within};
use rs_catalog::NamedRoute;
use rs_facts::Span;
use rs_refusal::Refusal;
use std::alloc::Global;

/// How many of a route's lines begin below a thousandth of it, and how many it has in all.
#[derive(Clone, Copy)]
pub struct Mark {
    /// The thousandth.
    pub from: u32,
    /// How many begin below it.
    pub before: usize,
    /// How many there are in all.
    pub all: usize,
}

/// Runs of a route from a mark on: those that begin there or behind it, in order, as far as they go.
#[derive(Drop)]
pub(crate) struct RunsFrom {
    /// From where.
    pub(crate) mark: Mark,
    /// The runs.
    pub(crate) runs: Vec<Span>,
}

/// Of the runs of a plan on a route those of a portion, with others before and after them. The source tells why it is refused.
pub(crate) fn runs_after<V: Versions>(
    alloc: Global,
    source: &mut V,
    asked: &PlanAt<'_>,
    named: &NamedRoute,
    mark: Option<Mark>,
    portion: Portion,
) -> Result<RunsFrom, Refusal>
    requires formed { is_well_formed asked.now.plan.now ≡ true }
    ensures runs { IfOk result (λ found. (shown : SeenVersion) → V.shows source.old asked.now.version shown → LiesOnRoutes shown asked.now.plan.now
        → names.get shown.routes named.now.name.bytes ≡ Some named.now.route → IfSome mark (IsMarked shown asked.now.plan.now named.now.route)
        → AreRunsFrom shown asked.now.plan.now named.now.route found) }
    ensures past { IfOk result (λ found. found.mark.before ≤ portion.skip) }
    ensures enough { IfOk result (GoFarEnough (portion.skip + portion.most)) }
    ensures ends { EndsWith V.Source source.old source.new result }
{
    match runs_resumed(alloc, source, asked, named, mark, portion)? {
        Some(found) => Ok(found),
        None => whole_runs(alloc, source, asked, named),
    }
}

/// All the runs of a plan on a route. The source tells why it is refused.
fn whole_runs<V: Versions>(
    alloc: Global,
    source: &mut V,
    asked: &PlanAt<'_>,
    named: &NamedRoute,
) -> Result<RunsFrom, Refusal>
    requires formed { is_well_formed asked.now.plan.now ≡ true }
    ensures runs { IfOk result (λ found. (shown : SeenVersion) → V.shows source.old asked.now.version shown → LiesOnRoutes shown asked.now.plan.now
        → names.get shown.routes named.now.name.bytes ≡ Some named.now.route → AreRunsFrom shown asked.now.plan.now named.now.route found) }
    ensures first { IfOk result (λ found. found.mark.before ≡ 0) }
    ensures all { IfOk result (λ found. found.mark.all ≡ length found.runs.items) }
    ensures ends { EndsWith V.Source source.old source.new result }
{
    let runs = runs_on(
        alloc,
        source,
        asked.plan,
        named.route.number(),
        asked.version,
    )?;
    let mark = Mark {
        from: 0,
        before: 0,
        all: runs.len(),
    };
    Ok(RunsFrom { mark, runs })
}

/// Runs of a portion, evaluated from a mark on, where there is one that does not lie past it. The source tells why it is refused.
fn runs_resumed<V: Versions>(
    alloc: Global,
    source: &mut V,
    asked: &PlanAt<'_>,
    named: &NamedRoute,
    mark: Option<Mark>,
    portion: Portion,
) -> Result<Option<RunsFrom>, Refusal>
    requires formed { is_well_formed asked.now.plan.now ≡ true }
    ensures runs { IfOk result (λ some. IfSome some (λ found. (shown : SeenVersion) → V.shows source.old asked.now.version shown → LiesOnRoutes shown asked.now.plan.now
        → names.get shown.routes named.now.name.bytes ≡ Some named.now.route → IfSome mark (IsMarked shown asked.now.plan.now named.now.route)
        → AreRunsFrom shown asked.now.plan.now named.now.route found)) }
    ensures past { IfOk result (λ some. IfSome some (λ found. found.mark.before ≤ portion.skip)) }
    ensures enough { IfOk result (λ some. IfSome some (GoFarEnough (portion.skip + portion.most))) }
    ensures ends { EndsWith V.Source source.old source.new result }
{
    let Some(mark) = mark else {
        return Ok(None);
    };
    if portion.skip < mark.before || !is_local(asked.plan) {
        return Ok(None);
    }
    let wanted = portion.skip.saturating_add(portion.most);
    runs_near(alloc, source, asked, named, mark, wanted)
}

/// Runs from a mark on, up to as many of the route as are wanted, where a part of the route has them that is not much longer than so many
/// runs take on the average. The source tells why it is refused.
fn runs_near<V: Versions>(
    alloc: Global,
    source: &mut V,
    asked: &PlanAt<'_>,
    named: &NamedRoute,
    mark: Mark,
    wanted: usize,
) -> Result<Option<RunsFrom>, Refusal>
    requires formed { is_well_formed asked.now.plan.now ≡ true }
    requires local { is_local asked.now.plan.now ≡ true }
    ensures runs { IfOk result (λ some. IfSome some (λ found. (shown : SeenVersion) → V.shows source.old asked.now.version shown → LiesOnRoutes shown asked.now.plan.now
        → names.get shown.routes named.now.name.bytes ≡ Some named.now.route → IsMarked shown asked.now.plan.now named.now.route mark
        → AreRunsFrom shown asked.now.plan.now named.now.route found)) }
    ensures mark { IfOk result (λ some. IfSome some (λ found. found.mark ≡ mark)) }
    ensures enough { IfOk result (λ some. IfSome some (GoFarEnough wanted)) }
    ensures ends { EndsWith V.Source source.old source.new result }
{
    let few = wanted.min(mark.all).saturating_sub(mark.before);
    let near = usual_length(named, mark.all, few);
    let found = runs_until(alloc, source, asked, named, mark, near)?;
    if goes_far_enough(&found, wanted) {
        return Ok(Some(found));
    }
    let far = near.saturating_mul(8);
    let found = runs_until(alloc, source, asked, named, mark, far)?;
    if goes_far_enough(&found, wanted) {
        return Ok(Some(found));
    }
    Ok(None)
}

/// Whether runs go up to as many of the route as are wanted, or to its end.
fn goes_far_enough(found: &RunsFrom, wanted: usize) -> bool
    ensures { result ≡ true → GoFarEnough wanted found.now }
{
    let Some(left) = found.mark.all.checked_sub(found.mark.before) else {
        return false;
    };
    let count = found.runs.len();
    count <= left && (count == left || wanted.saturating_sub(found.mark.before) <= count)
}

/// How many thousandths so many of a route's runs are likely to take, where it has so many in all: what as many take on the average, one
/// more, and twice the square root of their number, which few routes with runs at random places pass.
fn usual_length(named: &NamedRoute, all: usize, few: usize) -> u32 {
    let ends = named.route.ends();
    let start = ends.start().thousandths();
    let length = ends.finish().thousandths().saturating_sub(start);
    let count = few as u64;
    let more = count.isqrt().saturating_mul(2).saturating_add(1);
    let together = u128::from(length).saturating_mul(u128::from(count.saturating_add(more)));
    let usual = together / (all.max(1) as u128);
    usual.saturating_add(1).min(u32::MAX as u128) as u32
}

/// Runs from a mark on that end within so many thousandths from there, as far as no run before them ends beyond. The source tells why it is
/// refused.
fn runs_until<V: Versions>(
    alloc: Global,
    source: &mut V,
    asked: &PlanAt<'_>,
    named: &NamedRoute,
    mark: Mark,
    length: u32,
) -> Result<RunsFrom, Refusal>
    requires formed { is_well_formed asked.now.plan.now ≡ true }
    requires local { is_local asked.now.plan.now ≡ true }
    ensures runs { IfOk result (λ found. (shown : SeenVersion) → V.shows source.old asked.now.version shown → LiesOnRoutes shown asked.now.plan.now
        → names.get shown.routes named.now.name.bytes ≡ Some named.now.route → IsMarked shown asked.now.plan.now named.now.route mark
        → AreRunsFrom shown asked.now.plan.now named.now.route found) }
    ensures mark { IfOk result (λ found. found.mark ≡ mark) }
    ensures ends { EndsWith V.Source source.old source.new result }
{
    let to = mark.from.saturating_add(length);
    let mut runs = runs_within(
        alloc,
        source,
        asked.plan,
        named.route.number(),
        asked.version,
        mark.from.saturating_sub(1),
        to,
    )?;
    let first = runs.partition_point(|run| run.lo < mark.from);
    let sure = ended_below(&runs[first..], to);
    runs.truncate(first + sure);
    let runs = runs.split_off(first)?;
    Ok(RunsFrom { mark, runs })
}

/// How many runs come before the first that does not end below a thousandth.
fn ended_below(runs: &[Span], to: u32) -> usize
    ensures within { result ≤ length runs.now }
    ensures ended { AllByRecursion (λ run. run.hi < to) (take result (map seen runs.now)) }
{
    let mut count = 0;
    for run in runs {
        if run.hi >= to {
            break;
        }
        count += 1;
    }
    count
}

/// The mark where the last of the first so many of the runs begins; their own where there are none.
pub(crate) fn mark_before(found: &RunsFrom, upto: usize) -> Mark
    ensures { (shown : SeenVersion) (plan : Plan) (on : RouteItem) → AreRunsFrom shown plan on found.now → IsMarked shown plan on result }
{
    let given = &found.runs[..upto.min(found.runs.len())];
    let Some(last) = given.last() else {
        return found.mark;
    };
    let from = last.lo;
    let beside = found.runs.partition_point(|run| run.lo < from);
    let Some(before) = found.mark.before.checked_add(beside) else {
        return found.mark;
    };
    Mark {
        from,
        before,
        all: found.mark.all,
    }
}

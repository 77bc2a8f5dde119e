//! The runs of a plan inside a window of a route, by its evaluation over a source that shows no more than lies there.
//!
//! It promises the maximal runs of the plan's rows inside the window: a run that reaches further ends where the window does.

ghost use Rattle.std.proofs.Common.{◌∙◌, refl};
ghost use Rattle.std.specs.Prelude.{◌≡◌, ℕ, true, map, nat_le, IfOk, Some};
ghost use Rattle.std.specs.List.{list_all};
ghost use Rattle.rs_value.specs.declared.column.Kind.{Kind};
ghost use Rattle.rs_coalesce.specs.Joined.{AreJoined};
ghost use Rattle.rs_facts.specs.Fact.{RowSet};
ghost use Rattle.rs_facts.specs.Operators.{windowed};
ghost use Rattle.rs_facts.specs.Runs.{AreRunsOf};
ghost use Rattle.rs_facts.specs.Spans.{ArePlaced, places_of, seen};
ghost use Rattle.rs_sweep.specs.Lists.{AreWide};
ghost use Rattle.rs_exec.specs.Given.{inside};
ghost use Rattle.rs_exec.specs.Leaving.{EndsWith, LeavesBehind};
ghost use Rattle.rs_exec.specs.Meaning.{is_well_formed, kind_in, rows_in};
ghost use Rattle.rs_exec.specs.Snapshot.{Snapshots};
ghost use Rattle.rs_answers.specs.Within.{AreNarrowed, ends_within, is_local};

use crate::runs::runs_on;
use rs_catalog::Ends;
use rs_exec::{Asked, Part, SoughtValue, Source};
use rs_facts::Span;
use rs_measure::Measure;
use rs_plan::Plan;
use rs_refusal::Refusal;
use rs_sweep::{sort_by_place, window};
use std::alloc::Global;

/// Whether a plan's rows at a thousandth follow from what its tables have there: so of each plan without a TRANSFORM.
#[cycle(local)]
pub fn is_local(plan: &Plan) -> bool
    ensures { result ≡ is_local plan.now }
{
    match plan {
        Plan::Leaf(_) => true,
        Plan::Transform(_, _, _) => false,
        Plan::Overlay(_, operands) => are_local(operands.as_slice()),
        Plan::Where(_, operand)
        | Plan::Dissolve(_, operand)
        | Plan::Window(_, operand)
        | Plan::Gaps(operand) => is_local(operand),
        Plan::Cover(_, _, left, right) | Plan::Merge(left, right) | Plan::Minus(left, right) => {
            is_local(left) && is_local(right)
        }
    }
}

/// Whether each of some plans is so.
#[cycle(local)]
fn are_local(plans: &[Plan]) -> bool
    ensures { result ≡ list_all (λ local. local) (map is_local plans.now) }
{
    for plan in plans {
        if !is_local(plan) {
            return false;
        }
    }
    true
}

/// The maximal runs of what a plan has between two thousandths of the route of this number, the first inside and the second
/// not, as it was at a version. The source is asked for no more. It tells why it is refused.
pub fn runs_within<S: Source>(
    alloc: Global,
    source: &mut S,
    plan: &Plan,
    route: u32,
    version: u64,
    from: u32,
    to: u32,
) -> Result<Vec<Span>, Refusal>
    requires formed { is_well_formed plan.now ≡ true }
    requires local { is_local plan.now ≡ true }
    ensures runs { IfOk result (λ runs. (snapshots : Snapshots) → S.is source.old snapshots
        → AreRunsOf (kind_in plan.now) (λ k. windowed from to k (rows_in plan.now (snapshots version) route k)) (map seen runs.items)) }
    ensures ends { EndsWith S.Source source.old source.new result }
{
    let mut within = Within { source, from, to };
    runs_on(alloc, &mut within, plan, route, version)
}

/// A source that shows of each route what lies between two thousandths of it.
#[derive(Drop)]
struct Within<'a, S> {
    /// What shows all.
    source: &'a mut S,
    /// The first thousandth inside.
    from: u32,
    /// The first thousandth after it.
    to: u32,
}

impl<'a, S: Source> Source for Within<'a, S> {
    ghost is = { λ w. AreNarrowed S.is w.source.now w.from w.to };

    ghost passes = { λ old new. (old.source.ghost_name ≡ new.source.ghost_name) × (old.from ≡ new.from) × (old.to ≡ new.to)
        × LeavesBehind S.Source old.source.now new.source.now };

    ghost wants = { λ why old new. S.wants why old.source.now new.source.now };

    fn spans(&mut self, alloc: Global, asked: &Asked, part: Part) -> Result<Vec<Span>, Refusal> {
        let kept = kept_of(part, self.from, self.to);
        if kept.is_empty() {
            return Ok(Vec::new(alloc));
        }
        let mut spans = self.source.spans(alloc, asked, kept.as_part())?;
        cut(&mut spans, kept);
        Ok(spans)
    }

    fn spans_of_value(
        &mut self,
        alloc: Global,
        asked: &Asked,
        part: Part,
        sought: SoughtValue<'_>,
    ) -> Result<Vec<Span>, Refusal> {
        let kept = kept_of(part, self.from, self.to);
        if kept.is_empty() {
            return Ok(Vec::new(alloc));
        }
        let mut spans = self
            .source
            .spans_of_value(alloc, asked, kept.as_part(), sought)?;
        cut(&mut spans, kept);
        Ok(spans)
    }

    fn indexed_column(&self, index: u32) -> Option<u8> {
        self.source.indexed_column(index)
    }

    fn ends_at(&self, route: u32, version: u64) -> Option<Ends> {
        let ends = self.source.ends_at(route, version)?;
        ends_inside(ends, self.from, self.to)
    }

    ghost passes_refl = { λ w. (refl, refl, refl, record { stands = λ snapshots there. there; passes = S.passes_refl w.source.now }) };

    ghost passes_trans = { λ a b c one more. (
      one.0 ∙ more.0,
      one.1 ∙ more.1,
      one.2 ∙ more.2,
      record {
        stands = λ snapshots there. more.3.stands snapshots (one.3.stands snapshots there);
        passes = S.passes_trans a.source.now b.source.now c.source.now one.3.passes more.3.passes;
      },
    ) };

    ghost wants_later = { λ why a b c passed wanted. S.wants_later why a.source.now b.source.now c.source.now passed.3.passes wanted };

    ghost wants_memory = { λ a b passed. S.wants_memory a.source.now b.source.now passed.3.passes };
}

/// What a window leaves of a part of a route.
#[derive(Clone, Copy)]
struct Kept {
    /// The first thousandth inside.
    from: u32,
    /// The first thousandth after it.
    to: u32,
}

impl Kept {
    /// Whether nothing is inside.
    fn is_empty(self) -> bool
        ensures { result ≡ nat_le self.to self.from }
    {
        self.to <= self.from
    }

    /// The same as a part.
    fn as_part(self) -> Part
        ensures { result ≡ Part.Between self.from self.to }
    {
        Part::Between {
            from: self.from,
            to: self.to,
        }
    }
}

/// What of a part of a route lies between two thousandths of it.
fn kept_of(part: Part, from: u32, to: u32) -> Kept
    ensures { (k : ℕ) (rows : RowSet) → windowed result.from result.to k rows ≡ inside part k (windowed from to k rows) }
{
    match part {
        Part::Whole => Kept { from, to },
        Part::Between {
            from: first,
            to: last,
        } => Kept {
            from: from.max(first),
            to: to.min(last),
        },
    }
}

/// Keeps what is inside. It takes no memory.
fn cut(spans: &mut Vec<Span>, kept: Kept)
    ensures means { (k : ℕ) → places_of (map seen spans.new.items) k
        ≡ windowed kept.from kept.to k (places_of (map seen spans.old.items) k) }
    ensures placed { (kind : Kind) → ArePlaced kind (map seen spans.old.items) → ArePlaced kind (map seen spans.new.items) }
    ensures width { (width : ℕ) → AreWide width (map seen spans.old.items) → AreWide width (map seen spans.new.items) }
    ensures joined { (kind : Kind) → AreJoined kind (map seen spans.old.items) → AreJoined kind (map seen spans.new.items) }
{
    sort_by_place(spans);
    window(spans, kept.from, kept.to);
}

/// The ends of what lies between two thousandths of a route with these ends; none where nothing does.
fn ends_inside(ends: Ends, from: u32, to: u32) -> Option<Ends>
    ensures { result ≡ ends_within from to (Some ends) }
{
    ends.stand();
    let start = ends.start().thousandths().max(from);
    let finish = ends.finish().thousandths().min(to);
    if start < finish {
        let (start, finish) = (
            Measure::from_thousandths(start),
            Measure::from_thousandths(finish),
        );
        return Some(Ends::new(start, finish));
    }
    None
}

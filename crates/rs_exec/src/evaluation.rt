//! Evaluation of a plan, operands before the operator: each node once, on a list of routes.
//!
//! A plan is evaluated on one route. Only the operand of a TRANSFORM is evaluated on others: on each route from which a
//! piece leads onto a route that is asked for, and there are no more of these than pieces. So the cost of a plan grows
//! with its nodes and with pieces, however deep TRANSFORMs are nested. The rows that OVERLAY and COVER read, and those
//! that MINUS takes away, are lent to the sweeps and not copied.

ghost use Rattle.std.specs.Prelude.{◌≡◌, true, [], ◌∷◌, map, IfOk, IfErr};
ghost use Rattle.rs_facts.specs.Runs.{AreRunsOf};
ghost use Rattle.rs_facts.specs.Spans.{seen, ArePlaced};
ghost use Rattle.rs_sweep.specs.Lists.{AreWide};
ghost use Rattle.rs_exec.specs.Snapshot.{Snapshots};
ghost use Rattle.rs_exec.specs.Meaning.{rows_in, kind_in, width_in, is_well_formed, overlay_meaning, transform_meaning, window_meaning, gaps_meaning};
ghost use Rattle.rs_exec.specs.Leaving.{EndsWith};
ghost use Rattle.rs_exec.specs.Operand.{operand_meaning, operands_meaning, together_meaning, changed_meaning, paired_meaning};
ghost use Rattle.rs_exec.specs.Held.{AreEvaluated, AreJoinedOn, AreLaidOver, AreBeside, CanOverlay};
ghost use Rattle.rs_exec.specs.Routes.{numbers_of, list_of};

use crate::carrying::{Sources, carried_on, sources_of};
use crate::changes::{Change, are_in_order, changed_on};
use crate::complements::gaps_on;
use crate::joined::runs_on;
use crate::kinds::overlaid_kind;
use crate::leaves::leaf_on;
use crate::operand::{Node, Operand, Operands};
use crate::pairs::{Kinds, Pairing, paired_on};
use crate::routes::{Routes, RowsOn, are_none, none_on};
use crate::source::Source;
use crate::windows::{cut, part_seen, spread_on};
use rs_facts::Span;
use rs_plan::{Plan, PlannedPiece, PlannedWindow};
use rs_refusal::Refusal;
use rs_value::Kind;
use std::alloc::Global;

/// The maximal runs of a plan on the route of this number, as they were at a version, in printing order. Operands that
/// windows leave nothing of are not evaluated. The source tells why a plan is refused.
pub fn eval<S: Source>(
    alloc: Global,
    source: &mut S,
    plan: &Plan,
    route: u32,
    version: u64,
) -> Result<Vec<Span>, Refusal>
    requires well_formed { is_well_formed plan.now ≡ true }
    ensures runs { IfOk result (λ spans. (snapshots : Snapshots) → S.is source.old snapshots
        → AreRunsOf (kind_in plan.now) (rows_in plan.now (snapshots version) route) (map seen spans.items)) }
    ensures placed { IfOk result (λ spans. ArePlaced (kind_in plan.now) (map seen spans.items)) }
    ensures wide { IfOk result (λ spans. AreWide (width_in plan.now) (map seen spans.items)) }
    ensures stays { (snapshots : Snapshots) → S.is source.old snapshots → S.is source.new snapshots }
    ensures passes { S.passes source.old source.new }
    ensures wants { IfErr result (λ why. S.wants why source.old source.new) }
{
    let alone = Routes {
        version,
        first: route,
        others: &[],
    };
    let rows = rows_on(alloc, source, alone, Operand::of(plan))?;
    let mut spans = rows.first;
    rs_coalesce::sort_by_place(&mut spans);
    Ok(spans)
}

/// The rows of a plan on each of the routes. The plan is given away, and so is each of its operands: a second evaluation
/// of one is a use of what was moved, which no check lets pass.
#[cycle(rows)]
fn rows_on<S: Source>(
    alloc: Global,
    source: &mut S,
    routes: Routes<'_>,
    operand: Operand<'_>,
) -> Result<RowsOn, Refusal>
    requires well_formed { (operand_meaning operand).is_well_formed ≡ true }
    ensures held { IfOk result (AreEvaluated S.Source source.old routes.entry (operand_meaning operand.entry)) }
    ensures joined { IfOk result (AreJoinedOn S.Source source.old (operand_meaning operand.entry).kind) }
    ensures ends { EndsWith S.Source source.old source.new result }
{
    match operand.node() {
        Node::Leaf(leaf) => leaf_on(alloc, source, routes, leaf),
        Node::Changed(change, operand) => changed_rows(alloc, source, routes, change, operand),
        Node::Overlaid(back, operands) => overlaid_rows(alloc, source, routes, back, operands),
        Node::Paired(pairing, left, right) => {
            paired_rows(alloc, source, routes, pairing, left, right)
        }
        Node::Seen(windows, operand) => seen_rows(alloc, source, routes, windows, operand),
        Node::Carried(pieces, operand) => carried_rows(alloc, source, routes, pieces, operand),
        Node::Gaps(operand) => gaps_rows(alloc, source, routes, operand),
    }
}

/// The rows of an operand, changed or left out, on each of the routes. Rows that a DISSOLVE makes the same are one run.
#[cycle(rows)]
fn changed_rows<S: Source>(
    alloc: Global,
    source: &mut S,
    routes: Routes<'_>,
    change: Change<'_>,
    operand: Operand<'_>,
) -> Result<RowsOn, Refusal>
    requires well_formed { (changed_meaning change (operand_meaning operand)).is_well_formed ≡ true }
    ensures held { IfOk result (AreEvaluated S.Source source.old routes.entry
        (changed_meaning change.entry (operand_meaning operand.entry))) }
    ensures joined { IfOk result (AreJoinedOn S.Source source.old (changed_meaning change.entry (operand_meaning operand.entry)).kind) }
    ensures ends { EndsWith S.Source source.old source.new result }
{
    let kind = operand.kind();
    let rows = rows_on(alloc, source, routes, operand)?;
    let changed = changed_on(alloc, change, rows)?;
    match change {
        Change::Where(_) => Ok(changed),
        Change::Dissolve(_) => {
            let joined = runs_on(alloc, kind, changed)?;
            Ok(joined)
        }
    }
}

/// What the rows of two operands make on each of the routes.
#[cycle(rows)]
fn paired_rows<S: Source>(
    alloc: Global,
    source: &mut S,
    routes: Routes<'_>,
    pairing: Pairing,
    left: Operand<'_>,
    right: Operand<'_>,
) -> Result<RowsOn, Refusal>
    requires well_formed { (paired_meaning pairing (operand_meaning left) (operand_meaning right)).is_well_formed ≡ true }
    ensures held { IfOk result (AreEvaluated S.Source source.old routes.entry
        (paired_meaning pairing (operand_meaning left.entry) (operand_meaning right.entry))) }
    ensures joined { IfOk result (AreJoinedOn S.Source source.old (paired_meaning pairing (operand_meaning left.entry) (operand_meaning right.entry)).kind) }
    ensures ends { EndsWith S.Source source.old source.new result }
{
    let kinds = Kinds {
        left: left.kind(),
        right: right.kind(),
    };
    let left_rows = rows_on(alloc, source, routes, left)?;
    let right_rows = rows_on(alloc, source, routes, right)?;
    let paired = paired_on(alloc, pairing, kinds, left_rows, right_rows)?;
    let joined = runs_on(alloc, kinds.made_by(pairing), paired)?;
    Ok(joined)
}

/// The rows of several operands side by side, on each of the routes, each column where it belongs.
#[cycle(rows)]
fn overlaid_rows<S: Source>(
    alloc: Global,
    source: &mut S,
    routes: Routes<'_>,
    back: &[u8],
    operands: Operands<'_>,
) -> Result<RowsOn, Refusal>
    requires well_formed { (overlay_meaning back.now (operands_meaning operands)).is_well_formed ≡ true }
    ensures held { IfOk result (AreEvaluated S.Source source.old routes.entry
        (overlay_meaning back.now (operands_meaning operands.entry))) }
    ensures joined { IfOk result (AreJoinedOn S.Source source.old (overlay_meaning back.now (operands_meaning operands.entry)).kind) }
    ensures ends { EndsWith S.Source source.old source.new result }
{
    let kind = operands.kind();
    let Some((first, others)) = operands.next() else {
        let none = none_on(alloc, routes)?;
        return Ok(none);
    };
    let overlaid = rows_together(alloc, source, routes, first, others)?;
    if are_in_order(back) {
        return Ok(overlaid);
    }
    let put_back = changed_on(alloc, Change::Dissolve(back), overlaid)?;
    let joined = runs_on(alloc, kind, put_back)?;
    Ok(joined)
}

/// The rows of an operand and of those after it side by side, on each of the routes.
#[cycle(rows)]
fn rows_together<S: Source>(
    alloc: Global,
    source: &mut S,
    routes: Routes<'_>,
    first: Operand<'_>,
    others: Operands<'_>,
) -> Result<RowsOn, Refusal>
    requires well_formed { (together_meaning (operand_meaning first ∷ operands_meaning others)).is_well_formed ≡ true }
    ensures held { IfOk result (AreEvaluated S.Source source.old routes.entry
        (together_meaning (operand_meaning first.entry ∷ operands_meaning others.entry))) }
    ensures joined { IfOk result (AreJoinedOn S.Source source.old (together_meaning (operand_meaning first.entry ∷ operands_meaning others.entry)).kind) }
    ensures ends { EndsWith S.Source source.old source.new result }
{
    let kind = first.kind();
    let rows = rows_on(alloc, source, routes, first)?;
    overlaid_with(alloc, source, routes, kind, rows, others)
}

/// The rows, which are of this kind, on each of the routes, with those of further operands beside them. Where no rows are
/// left, no further operand is evaluated.
#[cycle(rows)]
fn overlaid_with<S: Source>(
    alloc: Global,
    source: &mut S,
    routes: Routes<'_>,
    kind: Kind,
    rows: RowsOn,
    operands: Operands<'_>,
) -> Result<RowsOn, Refusal>
    requires can { CanOverlay kind (operands_meaning operands) (numbers_of routes) (list_of rows) }
    ensures laid { IfOk result (λ overlaid. AreLaidOver (S.is source.old) routes.entry.version kind (operands_meaning operands.entry)
        (numbers_of routes.entry) (list_of rows) (list_of overlaid)) }
    ensures ends { EndsWith S.Source source.old source.new result }
{
    if are_none(&rows) {
        return Ok(rows);
    }
    let Some((next, others)) = operands.next() else {
        return Ok(rows);
    };
    let laid_kind = overlaid_kind(kind, next.kind());
    let laid = laid_with(alloc, source, routes, kind, rows, next)?;
    overlaid_with(alloc, source, routes, laid_kind, laid, others)
}

/// The rows, which are of this kind, on each of the routes, with those of one operand more beside them.
#[cycle(rows)]
fn laid_with<S: Source>(
    alloc: Global,
    source: &mut S,
    routes: Routes<'_>,
    kind: Kind,
    rows: RowsOn,
    next: Operand<'_>,
) -> Result<RowsOn, Refusal>
    requires can { CanOverlay kind (operand_meaning next ∷ []) (numbers_of routes) (list_of rows) }
    ensures beside { IfOk result (λ laid. AreBeside (S.is source.old) routes.entry.version kind (operand_meaning next.entry)
        (numbers_of routes.entry) (list_of rows) (list_of laid)) }
    ensures ends { EndsWith S.Source source.old source.new result }
{
    let kinds = Kinds {
        left: kind,
        right: next.kind(),
    };
    let right = rows_on(alloc, source, routes, next)?;
    let paired = paired_on(alloc, Pairing::Overlay, kinds, rows, right)?;
    Ok(paired)
}

/// What is seen of a plan through all windows, on each of the routes. The plan is evaluated on the windows' route alone,
/// and not at all if that is none of the routes, or if the windows leave nothing of it.
#[cycle(rows)]
fn seen_rows<S: Source>(
    alloc: Global,
    source: &mut S,
    routes: Routes<'_>,
    windows: &[PlannedWindow],
    operand: Operand<'_>,
) -> Result<RowsOn, Refusal>
    requires well_formed { (window_meaning windows.now (operand_meaning operand)).is_well_formed ≡ true }
    ensures held { IfOk result (AreEvaluated S.Source source.old routes.entry
        (window_meaning windows.now (operand_meaning operand.entry))) }
    ensures joined { IfOk result (AreJoinedOn S.Source source.old (window_meaning windows.now (operand_meaning operand.entry)).kind) }
    ensures ends { EndsWith S.Source source.old source.new result }
{
    let Some((route, part)) = part_seen(windows, routes) else {
        let none = none_on(alloc, routes)?;
        return Ok(none);
    };
    let alone = Routes {
        version: routes.version,
        first: route,
        others: &[],
    };
    let rows = rows_on(alloc, source, alone, operand)?;
    let mut spans = rows.first;
    cut(&mut spans, part);
    let spread = spread_on(alloc, routes, route, spans)?;
    Ok(spread)
}

/// What pieces carry of a plan, on each of the routes. The plan is evaluated once on each route from which a piece leads
/// onto one of the routes, and not at all if none does.
#[cycle(rows)]
fn carried_rows<S: Source>(
    alloc: Global,
    source: &mut S,
    routes: Routes<'_>,
    pieces: &[PlannedPiece],
    operand: Operand<'_>,
) -> Result<RowsOn, Refusal>
    requires well_formed { (transform_meaning pieces.now (operand_meaning operand)).is_well_formed ≡ true }
    ensures held { IfOk result (AreEvaluated S.Source source.old routes.entry
        (transform_meaning pieces.now (operand_meaning operand.entry))) }
    ensures joined { IfOk result (AreJoinedOn S.Source source.old (transform_meaning pieces.now (operand_meaning operand.entry)).kind) }
    ensures ends { EndsWith S.Source source.old source.new result }
{
    let numbers = sources_of(alloc, pieces, routes)?;
    let Some((first, others)) = numbers.split_first() else {
        let none = none_on(alloc, routes)?;
        return Ok(none);
    };
    let from = Routes {
        version: routes.version,
        first: *first,
        others,
    };
    let kind = operand.kind();
    let rows = rows_on(alloc, source, from, operand)?;
    let sources = Sources {
        kind,
        pieces,
        routes: from,
        rows: &rows,
    };
    let carried = carried_on(alloc, &sources, routes)?;
    Ok(carried)
}

/// Where an operand has no row between the ends of the routes, on each of them.
#[cycle(rows)]
fn gaps_rows<S: Source>(
    alloc: Global,
    source: &mut S,
    routes: Routes<'_>,
    operand: Operand<'_>,
) -> Result<RowsOn, Refusal>
    requires well_formed { (gaps_meaning (operand_meaning operand)).is_well_formed ≡ true }
    ensures held { IfOk result (AreEvaluated S.Source source.old routes.entry (gaps_meaning (operand_meaning operand.entry))) }
    ensures joined { IfOk result (AreJoinedOn S.Source source.old (gaps_meaning (operand_meaning operand.entry)).kind) }
    ensures ends { EndsWith S.Source source.old source.new result }
{
    let rows = rows_on(alloc, source, routes, operand)?;
    let gaps = gaps_on(alloc, source, routes, rows)?;
    let joined = runs_on(alloc, Kind::Line, gaps)?;
    Ok(joined)
}

//! Windows: what several of them leave of a route, and what is seen there.

ghost use Rattle.std.specs.Prelude.{◌≡◌, ◌≤◌, ℕ, true, false, length, map, IfSome, IfNone, IfOk};
ghost use Rattle.std.specs.List.{AllZip, AllByRecursion};
ghost use Rattle.rs_value.specs.declared.column.Kind.{Kind};
ghost use Rattle.rs_coalesce.specs.Joined.{AreJoined};
ghost use Rattle.rs_facts.specs.Fact.{RowSet, none};
ghost use Rattle.rs_facts.specs.Spans.{seen, places_of, ArePlaced};
ghost use Rattle.rs_sweep.specs.Lists.{AreSorted, AreWide};
ghost use Rattle.rs_exec.specs.Given.{inside};
ghost use Rattle.rs_exec.specs.Meaning.{route_number, seen_on_its_route};
ghost use Rattle.rs_exec.specs.Routes.{numbers_of, list_of};
ghost use Rattle.rs_exec.specs.Windows.{AreOff, AreOn, HasRoom, IsInsideEach, IsSeenOn, IsSpread, route_in};

use crate::routes::{Routes, RowsOn, is_among};
use crate::source::Part;
use rs_facts::Span;
use rs_plan::{PlannedRoute, PlannedWindow};
use rs_spans::copy_spans;
use rs_sweep::window;
use std::alloc::{AllocError, Global};

/// The number of a window's route.
pub(crate) fn route_of(window: PlannedWindow) -> u32
    ensures { result ≡ route_number window }
{
    match window {
        PlannedWindow::Whole { route } => route.number,
        PlannedWindow::Part { route, .. } => route.number,
    }
}

/// A window's route.
pub(crate) fn planned_route_of(window: PlannedWindow) -> PlannedRoute
    ensures { result ≡ route_in window }
{
    match window {
        PlannedWindow::Whole { route } => route,
        PlannedWindow::Part { route, .. } => route,
    }
}

/// The part of a route that is inside all windows; none where nothing of it is.
pub(crate) fn part_inside(windows: &[PlannedWindow], route: u32) -> Option<Part>
    ensures part { IfSome result (λ part. IsInsideEach windows.now route part) }
    ensures some { IfSome result (λ part. AreOn windows.now route) }
    ensures none { IfNone result (AreOff windows.now route) }
{
    let mut part = Part::Whole;
    for window in windows {
        if route_of(*window) != route {
            return None;
        }
        part = narrowed(part, *window);
    }
    if is_empty(part) {
        return None;
    }
    Some(part)
}

/// The route of the windows, and the part of it that is inside all of them; none where it is none of the routes, and where
/// nothing is inside.
pub(crate) fn part_seen(windows: &[PlannedWindow], routes: Routes<'_>) -> Option<(u32, Part)>
    requires { 1 ≤ length windows.now }
    ensures seen { IfSome result (λ seen. IsSeenOn windows.now seen.0 seen.1) }
    ensures none { IfNone result (AllByRecursion (AreOff windows.now) (numbers_of routes.entry)) }
{
    let route = route_of(windows[0]);
    if !is_among(route, routes) {
        return None;
    }
    let part = part_inside(windows, route)?;
    Some((route, part))
}

/// What is inside both the part and a window on its route.
fn narrowed(part: Part, window: PlannedWindow) -> Part
    ensures { (k : ℕ) (rows : RowSet) → inside result k rows ≡ inside part k (seen_on_its_route window k rows) }
{
    match window {
        PlannedWindow::Whole { .. } => part,
        PlannedWindow::Part { from, to, .. } => between(part, from, to),
    }
}

/// What is inside the part from one thousandth on and below another.
fn between(part: Part, from: u32, to: u32) -> Part
    ensures { (k : ℕ) (rows : RowSet) → inside result k rows ≡ inside part k (inside (Part.Between from to) k rows) }
{
    match part {
        Part::Whole => Part::Between { from, to },
        Part::Between {
            from: first,
            to: last,
        } => Part::Between {
            from: from.max(first),
            to: to.min(last),
        },
    }
}

/// Whether nothing is inside the part.
fn is_empty(part: Part) -> bool
    ensures empty { result ≡ true → (k : ℕ) (rows : RowSet) → inside part k rows ≡ none }
    ensures room { result ≡ false → HasRoom part }
{
    match part {
        Part::Whole => false,
        Part::Between { from, to } => from >= to,
    }
}

/// Keeps what is inside a part.
pub(crate) fn cut(spans: &mut Vec<Span>, part: Part)
    requires sorted { AreSorted (map seen spans.old.items) }
    ensures means { (k : ℕ) → places_of (map seen spans.new.items) k
        ≡ inside part k (places_of (map seen spans.old.items) k) }
    ensures sorted { AreSorted (map seen spans.new.items) }
    ensures placed { (kind : Kind) → ArePlaced kind (map seen spans.old.items)
        → ArePlaced kind (map seen spans.new.items) }
    ensures width { (width : ℕ) → AreWide width (map seen spans.old.items)
        → AreWide width (map seen spans.new.items) }
    ensures joined { (kind : Kind) → AreJoined kind (map seen spans.old.items)
        → AreJoined kind (map seen spans.new.items) }
{
    if let Part::Between { from, to } = part {
        window(spans, from, to);
    }
}

/// The spans on the route of this number, none on each other one. They are moved to the first route, and copied to one
/// after it; the only refusal is for want of memory.
pub(crate) fn spread_on(
    alloc: Global,
    routes: Routes<'_>,
    route: u32,
    spans: Vec<Span>,
) -> Result<RowsOn, AllocError>
    ensures { IfOk result (λ rows. AllZip (IsSpread route (map seen spans.items)) (numbers_of routes.entry) (list_of rows)) }
{
    let others = spread_each(alloc, routes.others, route, &spans)?;
    let first = moved_to(alloc, routes.first, route, spans);
    Ok(RowsOn { first, others })
}

/// The spans, if they are on the route of this number.
fn moved_to(alloc: Global, number: u32, route: u32, spans: Vec<Span>) -> Vec<Span>
    ensures { IsSpread route (map seen spans.items) number result }
{
    if number != route {
        return Vec::new(alloc);
    }
    spans
}

/// For each number copies of the spans, if they are on its route.
fn spread_each(
    alloc: Global,
    numbers: &[u32],
    route: u32,
    spans: &[Span],
) -> Result<Vec<Vec<Span>>, AllocError>
    ensures { IfOk result (λ rows. AllZip (IsSpread route (map seen spans.now)) numbers.now rows.items) }
{
    let mut rows = Vec::new(alloc);
    for number in numbers {
        rows.push(copied_to(alloc, *number, route, spans)?)?;
    }
    Ok(rows)
}

/// Copies of the spans, if they are on the route of this number.
fn copied_to(
    alloc: Global,
    number: u32,
    route: u32,
    spans: &[Span],
) -> Result<Vec<Span>, AllocError>
    ensures { IfOk result (IsSpread route (map seen spans.now) number) }
{
    if number != route {
        return Ok(Vec::new(alloc));
    }
    copy_spans(alloc, spans)
}

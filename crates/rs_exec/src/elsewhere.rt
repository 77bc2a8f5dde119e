//! Plans whose windows leave nothing of a route, and the one route that windows leave something of.

ghost use Rattle.std.specs.Prelude.{◌≡◌, ◌≢◌, ℕ, true, false, map, IfSome};
ghost use Rattle.rs_exec.specs.Windows.{AreOff, AreOn, first_route};
ghost use Rattle.rs_exec.specs.Elsewhere.{HasNothingOn, BeginsWithNothingOn, windows_over, windows_of_first};

use crate::windows::{part_inside, planned_route_of};
use rs_plan::{Plan, PlannedRoute, PlannedWindow};

/// Whether a plan's windows leave nothing of the route of this number. No row is looked at.
pub fn is_elsewhere(plan: &Plan, route: u32) -> bool
    ensures nothing { result ≡ true → HasNothingOn route plan.now }
    ensures something { result ≡ false → AreOn (windows_over plan.now) route }
{
    part_inside(windows_over(plan), route).is_none()
}

/// The route of the first of the windows over a plan, which has no row on any other route; none where there are no windows
/// over it. No row is looked at.
pub fn route_over(plan: &Plan) -> Option<PlannedRoute>
    ensures first { result ≡ first_route (windows_over plan.now) }
    ensures nothing { IfSome result (λ route. (number : ℕ) → number ≢ route.number → HasNothingOn number plan.now) }
{
    match windows_over(plan).split_first() {
        Some((window, _)) => Some(planned_route_of(*window)),
        None => None,
    }
}

/// The windows that all rows of a plan are inside of.
#[cycle(over)]
fn windows_over(plan: &Plan) -> &[PlannedWindow]
    ensures over { result.now ≡ windows_over plan.now }
    ensures nothing { (route : ℕ) → AreOff result.now route → HasNothingOn route plan.now }
{
    match plan {
        Plan::Leaf(leaf) => leaf.windows.as_slice(),
        Plan::Window(windows, _) => windows.as_slice(),
        Plan::Where(_, operand) | Plan::Dissolve(_, operand) | Plan::Minus(operand, _) => {
            windows_over(operand)
        }
        Plan::Overlay(_, operands) => windows_over_first(operands.as_slice()),
        Plan::Cover(_, _, _, _) | Plan::Merge(_, _) | Plan::Transform(_, _, _) | Plan::Gaps(_) => {
            &[]
        }
    }
}

/// The windows that all rows of the first of an OVERLAY's operands are inside of.
#[cycle(over)]
fn windows_over_first(operands: &[Plan]) -> &[PlannedWindow]
    ensures over { result.now ≡ windows_of_first (map windows_over operands.now) }
    ensures nothing { (route : ℕ) → AreOff result.now route → BeginsWithNothingOn route operands.now }
{
    match operands.split_first() {
        Some((first, _)) => windows_over(first),
        None => &[],
    }
}

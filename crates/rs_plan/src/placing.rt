//! Placing: windows and conditions go down a checked query to its leaves, and plans come up.
//!
//! A query is taken by value, so no part of it is planned twice.

ghost use Rattle.std.specs.Prelude.{◌≡◌, IfOk, true};
ghost use Rattle.rs_checker.specs.CheckedView.{query_of, named_in};
ghost use Rattle.rs_plan.specs.Operands.{IsPlaced, IsPlacedAlone, is_pair};
ghost use Rattle.rs_plan.specs.PlanView.{conditions_of};

use crate::asking::{Asked, for_dissolve, nothing, same, shares_of, with_condition, with_window};
use crate::counts::Counts;
use crate::leaves::{leaf, planned_window};
use crate::nodes::{
    OfRows, cover, dissolve, gaps, of_rows, overlay_under_where, side_by_side, transform,
};
use crate::operand::Operand;
use crate::overlays::together;
use crate::widths::width_of;
use rs_checker::CheckedQuery;
use std::alloc::{AllocError, Global};

/// The plans of a query seen through windows, of its rows those that meet conditions: the operands of one OVERLAY in the
/// written order, or a plan alone.
#[cycle(place)]
pub(crate) fn place<C: Counts>(
    alloc: Global,
    query: CheckedQuery,
    asked: Asked,
    counts: &C,
) -> Result<Vec<Operand>, AllocError>
    ensures { IfOk result (λ operands. IsPlaced (C.counted counts.now) (query_of query) (named_in query) asked.windows.items (conditions_of asked.conditions) operands.items) }
{
    match query {
        CheckedQuery::Table(table) => leaf(alloc, table, asked, counts),
        CheckedQuery::Where(operand, condition) => {
            let asked = with_condition(alloc, asked, &condition)?;
            place(alloc, Box::into_inner(operand), asked, counts)
        }
        CheckedQuery::Window(operand, window) => {
            let asked = with_window(asked, planned_window(window))?;
            place(alloc, Box::into_inner(operand), asked, counts)
        }
        CheckedQuery::Rename(operand, _, _) => place(
            alloc,
            Box::into_inner(operand),
            asked,
            counts,
        ),
        CheckedQuery::Dissolve(operand, columns) => {
            let asked = for_dissolve(alloc, asked, columns.as_slice())?;
            let one = place_alone(alloc, Box::into_inner(operand), asked, counts)?;
            dissolve(alloc, columns, one)
        }
        CheckedQuery::Transform(operand, name, pieces) => {
            let Asked {
                windows,
                conditions,
            } = asked;
            let inside = Asked {
                windows: Vec::new(alloc),
                conditions,
            };
            let one = place_alone(alloc, Box::into_inner(operand), inside, counts)?;
            transform(alloc, name, pieces.as_slice(), one, windows)
        }
        CheckedQuery::Gaps(operand) => {
            let one = place_alone(alloc, Box::into_inner(operand), nothing(alloc), counts)?;
            gaps(alloc, one, asked.windows, asked.conditions)
        }
        pair => place_pair(alloc, pair, asked, counts),
    }
}

/// The plans of OVERLAY, COVER, MERGE or MINUS, seen so.
#[cycle(place)]
fn place_pair<C: Counts>(
    alloc: Global,
    query: CheckedQuery,
    asked: Asked,
    counts: &C,
) -> Result<Vec<Operand>, AllocError>
    requires pair { is_pair (query_of query) ≡ true }
    ensures { IfOk result (λ operands. IsPlaced (C.counted counts.now) (query_of query) (named_in query) asked.windows.items (conditions_of asked.conditions) operands.items) }
{
    match query {
        CheckedQuery::Merge(first, second) => {
            let other = same(alloc, &asked)?;
            let left = place_alone(alloc, Box::into_inner(first), other, counts)?;
            let right = place_alone(alloc, Box::into_inner(second), asked, counts)?;
            of_rows(alloc, OfRows::Merge, left, right)
        }
        CheckedQuery::Minus(first, second) => {
            let other = same(alloc, &asked)?;
            let left = place_alone(alloc, Box::into_inner(first), other, counts)?;
            let right = place_alone(alloc, Box::into_inner(second), asked, counts)?;
            of_rows(alloc, OfRows::Minus, left, right)
        }
        CheckedQuery::Overlay(first, second) => {
            let shares = shares_of(alloc, asked, width_of(&first))?;
            let left = place(alloc, Box::into_inner(first), shares.left, counts)?;
            let right = place(alloc, Box::into_inner(second), shares.right, counts)?;
            overlay_under_where(alloc, shares.both, side_by_side(left, right)?)
        }
        CheckedQuery::Cover(left_width, right_width, first, second) => {
            let Asked {
                windows,
                conditions,
            } = asked;
            let inside = Asked {
                windows,
                conditions: Vec::new(alloc),
            };
            let other = same(alloc, &inside)?;
            let left = place_alone(alloc, Box::into_inner(first), other, counts)?;
            let right = place_alone(alloc, Box::into_inner(second), inside, counts)?;
            cover(alloc, left_width, right_width, left, right, conditions)
        }
        _ => unreachable!(),
    }
}

/// The one plan of a query seen through windows, of its rows those that meet conditions.
#[cycle(place)]
pub(crate) fn place_alone<C: Counts>(
    alloc: Global,
    query: CheckedQuery,
    asked: Asked,
    counts: &C,
) -> Result<Operand, AllocError>
    ensures { IfOk result (λ one. IsPlacedAlone (C.counted counts.now) (query_of query) (named_in query) asked.windows.items (conditions_of asked.conditions) one) }
{
    together(alloc, place(alloc, query, asked, counts)?)
}

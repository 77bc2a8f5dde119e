//! How many columns the rows of a checked query have.

ghost use Rattle.rs_plan.specs.Widths.{IsWidth};
ghost use Rattle.std.specs.Prelude.{◌≡◌, ◌-◌, ◌^◌, min, length};

use rs_checker::CheckedQuery;

/// How many columns the rows of a checked query have.
pub(crate) fn width_of(query: &CheckedQuery) -> u8
    ensures { IsWidth query.now result }
{
    match query {
        CheckedQuery::Table(table) => table.width,
        CheckedQuery::Where(operand, _) => width_of(operand),
        CheckedQuery::Dissolve(_, columns) => count(columns.as_slice()),
        CheckedQuery::Rename(operand, _, _) => width_of(operand),
        CheckedQuery::Overlay(left, right) => width_of(left).saturating_add(width_of(right)),
        CheckedQuery::Cover(left, right, _, _) => left.saturating_add(*right),
        CheckedQuery::Merge(left, _) => width_of(left),
        CheckedQuery::Minus(left, _) => width_of(left),
        CheckedQuery::Window(operand, _) => width_of(operand),
        CheckedQuery::Transform(operand, _, _) => width_of(operand),
        CheckedQuery::Gaps(_) => 0,
    }
}

/// How many columns these are, at most the greatest number of its type.
pub(crate) fn count(columns: &[u8]) -> u8
    ensures { result ≡ min (length columns.now) (2 ^ 8 - 1) }
{
    if columns.len() <= 255 {
        columns.len() as u8
    } else {
        255
    }
}

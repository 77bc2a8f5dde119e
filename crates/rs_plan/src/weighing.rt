//! Whether the numbers of records have a part in a plan: only operands of an OVERLAY are weighed.

ghost use Rattle.std.specs.Prelude.{◌≡◌};
ghost use Rattle.rs_checker.specs.CheckedView.{query_of};
ghost use Rattle.rs_plan.specs.Weighing.{has_overlay};

use crate::counts::{Counts, Index};
use rs_checker::CheckedQuery;

/// Whether there is an OVERLAY in a checked query.
pub(crate) fn has_overlay(query: &CheckedQuery) -> bool
    ensures { result ≡ has_overlay (query_of query.now) }
{
    match query {
        CheckedQuery::Table(_) => false,
        CheckedQuery::Overlay(_, _) => true,
        CheckedQuery::Where(operand, _) => has_overlay(operand),
        CheckedQuery::Dissolve(operand, _) => has_overlay(operand),
        CheckedQuery::Rename(operand, _, _) => has_overlay(operand),
        CheckedQuery::Window(operand, _) => has_overlay(operand),
        CheckedQuery::Transform(operand, _, _) => has_overlay(operand),
        CheckedQuery::Gaps(operand) => has_overlay(operand),
        CheckedQuery::Cover(_, _, left, right) => has_overlay(left) || has_overlay(right),
        CheckedQuery::Merge(left, right) => has_overlay(left) || has_overlay(right),
        CheckedQuery::Minus(left, right) => has_overlay(left) || has_overlay(right),
    }
}

/// The same indexes, and no table counted.
#[derive(Drop)]
pub(crate) struct Uncounted<'a, C: Counts> {
    pub(crate) counts: &'a C,
}

impl<C: Counts> Counts for Uncounted<'_, C> {
    ghost use Rattle.rs_plan.specs.Weighing.{uncounted};

    ghost counted = { λ c. uncounted (C.counted c.counts.now) };

    fn records(&self, _table: u32) -> u128 {
        0
    }

    fn indexes(&self) -> &[Index] {
        self.counts.indexes()
    }
}

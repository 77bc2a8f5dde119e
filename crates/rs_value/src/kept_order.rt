//! Rows that are kept are keys of a map: they compare in the order of rows.

ghost use Rattle.std.specs.Prelude.{refl};
ghost use Rattle.std.specs.Cmp.{eq_by_cmp_equiv, partial_equiv_from_equiv, partial_order_from_total};
ghost use Rattle.std.specs.Ordering.{as_partial_cmp, eq_by_cmp};
ghost use Rattle.rs_value.specs.Row.{row_cmp};
ghost use Rattle.rs_value.specs.RowOrder.{row_total};

use crate::kept::{KeptRow, compare_rows};
use std::cmp::Ordering;

impl PartialEq for KeptRow {
    ghost eq = { eq_by_cmp row_cmp };

    ghost laws = { partial_equiv_from_equiv (eq_by_cmp_equiv row_total) };

    fn eq(&self, other: &KeptRow) -> bool {
        compare_rows(self, other).is_eq()
    }
}

impl Eq for KeptRow {
    ghost laws = { eq_by_cmp_equiv row_total };
}

impl PartialOrd for KeptRow {
    ghost partial_cmp = { as_partial_cmp row_cmp };

    ghost laws = { partial_order_from_total row_total };

    fn partial_cmp(&self, other: &KeptRow) -> Option<Ordering> {
        Some(compare_rows(self, other))
    }
}

impl Ord for KeptRow {
    ghost cmp = { row_cmp };

    ghost total = { row_total };

    ghost matches_partial_cmp = { λ a b. refl };

    ghost matches_eq = { λ a b. refl };

    fn cmp(&self, other: &KeptRow) -> Ordering {
        compare_rows(self, other)
    }
}

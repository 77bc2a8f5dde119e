//! The two orders of spans, by row and place to join them, and by place and row to print them, and the tests whether
//! they are in order.

ghost use Rattle.std.specs.Prelude.{◌≡◌, ◌↔◌, true, map, IsTrue, IsPermutation};
ghost use Rattle.std.specs.Ordering.{is_lt};
ghost use Rattle.std.specs.List.Sorted.{IsSortedBy};
ghost use Rattle.rs_facts.specs.Runs.{stretch_cmp};
ghost use Rattle.rs_facts.specs.Spans.{seen};
ghost use Rattle.rs_coalesce.specs.Joined.{row_place_cmp, AreApart, BeginInTurn};

use rs_facts::Span;
use rs_value::compare_rows;
use std::cmp::Ordering;

/// Compares two spans by row, and by place where their rows are equal.
fn by_row(left: &Span, right: &Span) -> Ordering
    ensures { result ≡ row_place_cmp (seen left.now) (seen right.now) }
{
    compare_rows(&left.tuple, &right.tuple).then(left.lo.cmp(&right.lo))
}

/// Compares two spans by place, and by row where they begin at one place.
fn by_place(left: &Span, right: &Span) -> Ordering
    ensures { result ≡ stretch_cmp (seen left.now) (seen right.now) }
{
    match left.lo.cmp(&right.lo) {
        Ordering::Equal => compare_rows(&left.tuple, &right.tuple),
        order => order,
    }
}

/// Whether each span begins at or after the end of the one before it.
pub fn are_apart(spans: &[Span]) -> bool
    ensures { IsTrue result ↔ AreApart (map seen spans.now) }
{
    spans.is_sorted_by(|one, next| one.hi <= next.lo)
}

/// Whether no span begins before the one before it.
pub fn begin_in_turn(spans: &[Span]) -> bool
    ensures { result ≡ true → BeginInTurn spans.now }
{
    spans.is_sorted_by(|one, next| one.lo <= next.lo)
}

/// Sorts spans by row, and those of one row by place.
pub fn sort_by_row(spans: &mut Vec<Span>)
    ensures moved { IsPermutation spans.old.items spans.new.items }
    ensures sorted { IsSortedBy (λ a b. is_lt (row_place_cmp (seen a) (seen b))) spans.new.items }
{
    spans.sort_unstable_by(|left, right| by_row(left, right));
}

/// Sorts spans by place, and those that begin at one place by row.
pub fn sort_by_place(spans: &mut Vec<Span>)
    ensures moved { IsPermutation spans.old.items spans.new.items }
    ensures sorted { IsSortedBy (λ a b. is_lt (stretch_cmp (seen a) (seen b))) spans.new.items }
{
    spans.sort_unstable_by(|left, right| by_place(left, right));
}

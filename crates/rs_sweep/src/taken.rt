//! What spans of a list take together, row by row or all rows alike.

ghost use Rattle.std.specs.Prelude.{◌≡◌, ◌+◌, map, nat_lt, IfOk, IsPermutation, [], ◌∷◌, ◌++◌};
ghost use Rattle.std.specs.Ordering.{is_lt};
ghost use Rattle.std.specs.List.Sorted.{IsSortedBy};
ghost use Rattle.rs_value.specs.declared.column.Kind.TheVariants as kinds;
ghost use Rattle.rs_coalesce.specs.Joined.{row_place_cmp, joined, joins};
ghost use Rattle.rs_facts.specs.Spans.{seen, places_of, AreKept, ArePlaced};
ghost use Rattle.rs_coalesce.specs.Lent.{seen_lent};
ghost use Rattle.rs_sweep.specs.Lists.{AreSorted};
ghost use Rattle.rs_sweep.specs.Taken.{keyed, taken_of};

use rs_facts::Span;
use rs_value::{compare_rows, same_row};
use std::alloc::{AllocError, Global};
use std::cmp::Ordering;

/// Whether rows are told apart.
#[derive(Clone, Copy)]
pub(crate) enum Rows {
    All,
    Each,
}

/// A stretch that spans take together: it begins with the first of them, and all that are told apart have its row.
#[derive(Clone, Copy)]
pub(crate) struct Taken<'a> {
    pub first: &'a Span,
    pub hi: u32,
}

/// What the spans take, row by row or all rows alike: by row and place, and apart. The only refusal is for want of
/// memory.
pub(crate) fn taken_by<'a>(
    alloc: Global,
    rows: Rows,
    spans: &[&'a Span],
) -> Result<Vec<Taken<'a>>, AllocError>
    requires sorted { AreSorted (map seen_lent spans.now) }
    requires placed { ArePlaced kinds.Line (map seen_lent spans.now) }
    ensures kept { IfOk result (λ taken. AreKept kinds.Line (map (taken_of rows) taken.items)) }
    ensures same { IfOk result (λ taken. places_of (map (taken_of rows) taken.items)
        ≡ places_of (map (keyed rows) (map seen_lent spans.now))) }
{
    match rows {
        Rows::All => join(alloc, rows, spans),
        Rows::Each => {
            let mut order = Vec::from_slice(alloc, spans)?;
            sort_by_row(&mut order);
            join(alloc, rows, order.as_slice())
        }
    }
}

/// Compares two spans by row, and by place where their rows are equal.
fn by_row(left: &Span, right: &Span) -> Ordering
    ensures { result ≡ row_place_cmp (seen left.now) (seen right.now) }
{
    compare_rows(&left.tuple, &right.tuple).then(left.lo.cmp(&right.lo))
}

fn sort_by_row(order: &mut Vec<&Span>)
    ensures moved { IsPermutation order.old.items order.new.items }
    ensures sorted { IsSortedBy (λ a b. is_lt (row_place_cmp (seen_lent a) (seen_lent b))) order.new.items }
{
    order.sort_unstable_by(|left, right| by_row(left, right));
}

/// Whether a span goes on where an earlier stretch has not ended, or touches it.
fn is_joined(rows: Rows, taken: &Taken<'_>, span: &Span) -> bool
    ensures { result ≡ joins kinds.Line (taken_of rows taken.now) (keyed rows (seen span.now)) }
{
    span.lo <= taken.hi
        && match rows {
            Rows::All => true,
            Rows::Each => same_row(&taken.first.tuple, &span.tuple),
        }
}

/// Joins spans that are in order by row and place.
fn join<'a>(alloc: Global, rows: Rows, order: &[&'a Span]) -> Result<Vec<Taken<'a>>, AllocError>
    ensures { IfOk result (λ taken. map (taken_of rows) taken.items
        ≡ joined kinds.Line (map (keyed rows) (map seen_lent order.now))) }
{
    let mut taken = Vec::new(alloc);
    let Some((first, rest)) = order.split_first() else {
        return Ok(taken);
    };
    let mut last = Taken {
        first: *first,
        hi: first.hi,
    };
    for span in rest {
        if is_joined(rows, &last, span) {
            last.hi = last.hi.max(span.hi);
        } else {
            taken.push(last)?;
            last = Taken {
                first: *span,
                hi: span.hi,
            };
        }
    }
    taken.push(last)?;
    Ok(taken)
}

//! A span put beside the events of its row that it overlaps or touches.

ghost use Rattle.std.specs.Prelude.{◌≡◌, ◌-◌, ◌⊎◌, IfErr, IfOk, map};
ghost use Rattle.std.specs.List.{AllByRecursion, list_any};
ghost use Rattle.rs_table_changes.specs.Picked.{Joins, SayNone, covers, highest, lowest, shared_by, wide};
ghost use Rattle.rs_facts.specs.Spans.{seen};
ghost use Rattle.rs_records.specs.Listed.{listed, record_width};
ghost use Rattle.rs_value.specs.Values.{IsRowOf};
ghost use Rattle.rs_versioned.specs.Events.{event_width};

use crate::edit::Edit;
use crate::leaving::shared;
use crate::picking::of_row;
use rs_facts::Span;
use rs_records::Cells;
use rs_refusal::Refusal;
use rs_value::Schema;
use std::alloc::{AllocError, Global};

/// What a span changes, and how many of its facts are new.
#[derive(Drop)]
pub(crate) struct Joined {
    pub edit: Edit,
    pub count: u64,
}

/// What a span changes where the events of these cells overlap or touch it: those of its row end, and one comes that is as wide as they
/// and the span together. Where one of them holds all along the span, nothing changes. It is refused with 90, and with 94 where a cell
/// says no event.
pub(crate) fn join(
    alloc: Global,
    schema: &Schema,
    found: &Cells,
    span: &Span,
) -> Result<Joined, Refusal>
    requires width { record_width found.now ≡ event_width schema.now.items }
    requires row { IsRowOf schema.now.items span.now.tuple }
    ensures joins { IfOk result (λ joined. Joins schema.now.items (seen span.now) (listed found.now) (listed joined.edit.gone)
        (map seen joined.edit.come.items) joined.count) }
    ensures rows { IfOk result (λ joined. AllByRecursion (λ come. IsRowOf schema.now.items come.row) (map seen joined.edit.come.items)) }
    ensures width { IfOk result (λ joined. record_width joined.edit.gone ≡ record_width found.now) }
    ensures refused { IfErr result (λ why. (why ≡ Refusal.OutOfMemory) ⊎ ((why ≡ Refusal.DamagedFile) × SayNone schema.now.items (listed found.now))) }
{
    let picked = of_row(alloc, schema, found, &span.tuple)?;
    let mut come = Vec::new(alloc);
    if is_covered(&picked.spans, span) {
        let edit = Edit {
            gone: Cells::new(alloc, found.width()),
            come,
        };
        return Ok(Joined { edit, count: 0 });
    }
    come.push(widened(alloc, span, &picked.spans)?)?;
    let edit = Edit {
        gone: picked.cells,
        come,
    };
    let count = new_facts(span, &picked.spans);
    Ok(Joined { edit, count })
}

/// Whether one of the spans holds all along this one.
fn is_covered(spans: &[Span], span: &Span) -> bool
    ensures { result ≡ list_any (λ other. covers (seen span.now) (seen other)) spans.now }
{
    spans
        .iter()
        .any(|other| other.lo <= span.lo && span.hi <= other.hi)
}

/// The span, as wide as it and the others together. The only refusal is for want of memory.
fn widened(alloc: Global, span: &Span, others: &[Span]) -> Result<Span, AllocError>
    ensures { IfOk result (λ joined. seen joined ≡ wide (seen span.now) (map seen others.now)) }
{
    let (lo, hi) = ends(span, others);
    let tuple = span.tuple.copied(alloc)?;
    Ok(Span { lo, hi, tuple })
}

/// Where the span and the others together begin and end.
fn ends(span: &Span, others: &[Span]) -> (u32, u32)
    ensures lo { result.0 ≡ lowest span.now.lo (map seen others.now) }
    ensures hi { result.1 ≡ highest span.now.hi (map seen others.now) }
{
    let mut lo = span.lo;
    let mut hi = span.hi;
    for other in others {
        lo = lo.min(other.lo);
        hi = hi.max(other.hi);
    }
    (lo, hi)
}

/// At how many thousandths of the span none of the others holds, where these lie apart.
fn new_facts(span: &Span, others: &[Span]) -> u64
    ensures { result ≡ (span.now.hi - span.now.lo) - shared_by span.now.lo span.now.hi (map seen others.now) }
{
    let length = u128::from(span.hi.saturating_sub(span.lo));
    length.saturating_sub(shared(others, span.lo, span.hi)) as u64
}

//! Spans that a stretch is taken out of.

ghost use Rattle.std.specs.Prelude.{◌≡◌, ◌⊎◌, ◌++◌, IfErr, IfOk, OnOk, map};
ghost use Rattle.std.specs.List.{AllByRecursion};
ghost use Rattle.std.specs.Option.{option_copied};
ghost use Rattle.rs_table_changes.specs.Picked.{SayNone, Takes, back_of, front_of, outside_all, shared_by};
ghost use Rattle.rs_spans.specs.Removal.{goes_by};
ghost use Rattle.rs_facts.proofs.Counting.{overlap};
ghost use Rattle.rs_facts.specs.Spans.{seen};
ghost use Rattle.rs_records.specs.Listed.{listed, record_width};
ghost use Rattle.rs_value.specs.Values.{IsRowOf};
ghost use Rattle.rs_versioned.specs.Events.{event_width};

use crate::edit::Edit;
use crate::picking::going;
use rs_facts::{Condition, Span};
use rs_records::Cells;
use rs_refusal::Refusal;
use rs_value::Schema;
use std::alloc::{AllocError, Global};

/// What a removal changes, and how many facts go.
#[derive(Drop)]
pub(crate) struct Left {
    pub edit: Edit,
    pub count: u128,
}

/// What a removal from `lo` on and below `hi` changes where the events of these cells overlap it: those whose rows go end, and what of
/// them lies outside comes. It is refused with 90, and with 94 where a cell says no event.
pub(crate) fn take_out(
    alloc: Global,
    schema: &Schema,
    found: &Cells,
    lo: u32,
    hi: u32,
    goes: Option<&Condition>,
) -> Result<Left, Refusal>
    requires width { record_width found.now ≡ event_width schema.now.items }
    ensures takes { IfOk result (λ left. Takes schema.now.items lo hi (goes_by (option_copied goes.entry)) (listed found.now)
        (listed left.edit.gone) (map seen left.edit.come.items) left.count) }
    ensures rows { IfOk result (λ left. AllByRecursion (λ come. IsRowOf schema.now.items come.row) (map seen left.edit.come.items)) }
    ensures width { IfOk result (λ left. record_width left.edit.gone ≡ record_width found.now) }
    ensures refused { IfErr result (λ why. (why ≡ Refusal.OutOfMemory) ⊎ ((why ≡ Refusal.DamagedFile) × SayNone schema.now.items (listed found.now))) }
{
    let picked = going(alloc, schema, found, goes)?;
    let come = outside(alloc, &picked.spans, lo, hi)?;
    let count = shared(&picked.spans, lo, hi);
    let edit = Edit {
        gone: picked.cells,
        come,
    };
    Ok(Left { edit, count })
}

/// What of the spans lies before `lo` or from `hi` on. The only refusal is for want of memory.
fn outside(alloc: Global, spans: &[Span], lo: u32, hi: u32) -> Result<Vec<Span>, AllocError>
    ensures { IfOk result (λ left. map seen left.items ≡ outside_all lo hi (map seen spans.now)) }
{
    let mut left = Vec::new(alloc);
    for span in spans {
        push_front(alloc, &mut left, span, lo)?;
        push_back(alloc, &mut left, span, hi)?;
    }
    Ok(left)
}

/// Pushes what of a span lies before a thousandth, where something does.
fn push_front(alloc: Global, left: &mut Vec<Span>, span: &Span, lo: u32) -> Result<(), AllocError>
    ensures { OnOk result (map seen left.new.items ≡ map seen left.old.items ++ front_of lo (seen span.now)) }
{
    if span.lo < lo {
        let tuple = span.tuple.copied(alloc)?;
        left.push(Span {
            lo: span.lo,
            hi: span.hi.min(lo),
            tuple,
        })?;
    }
    Ok(())
}

/// Pushes what of a span lies from a thousandth on, where something does.
fn push_back(alloc: Global, left: &mut Vec<Span>, span: &Span, hi: u32) -> Result<(), AllocError>
    ensures { OnOk result (map seen left.new.items ≡ map seen left.old.items ++ back_of hi (seen span.now)) }
{
    if hi < span.hi {
        let tuple = span.tuple.copied(alloc)?;
        left.push(Span {
            lo: span.lo.max(hi),
            hi: span.hi,
            tuple,
        })?;
    }
    Ok(())
}

/// How many thousandths from `lo` on and below `hi` the spans have, added up.
pub(crate) fn shared(spans: &[Span], lo: u32, hi: u32) -> u128
    ensures { result ≡ shared_by lo hi (map seen spans.now) }
{
    let mut count = 0;
    for span in spans {
        count += u128::from(overlap(span, lo, hi));
    }
    count
}

/// How many thousandths from `lo` on and below `hi` a span has.
fn overlap(span: &Span, lo: u32, hi: u32) -> u32
    ensures { result ≡ overlap lo hi span.now.lo span.now.hi }
{
    hi.min(span.hi).saturating_sub(lo.max(span.lo))
}

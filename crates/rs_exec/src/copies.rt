//! Copies of spans: those that meet a part of a route.

ghost use Rattle.std.specs.Prelude.{◌≡◌, filter, map, IfOk};
ghost use Rattle.rs_facts.specs.Spans.{seen};
ghost use Rattle.rs_exec.specs.Carried.{meets};

use rs_facts::Span;
use std::alloc::{AllocError, Global};

/// Copies of the spans that meet the part from thousandth `from` on and below `to`. The only refusal is for want of
/// memory.
pub(crate) fn copies_meeting(
    alloc: Global,
    spans: &[Span],
    from: u32,
    to: u32,
) -> Result<Vec<Span>, AllocError>
    ensures { IfOk result (λ copies. map seen copies.items ≡ filter (meets from to) (map seen spans.now)) }
{
    let mut copies = Vec::new(alloc);
    for span in spans {
        if is_met(span, from, to) {
            copies.push(Span {
                lo: span.lo,
                hi: span.hi,
                tuple: span.tuple.copied(alloc)?,
            })?;
        }
    }
    Ok(copies)
}

/// Whether some of a span lies from thousandth `from` on and below `to`.
fn is_met(span: &Span, from: u32, to: u32) -> bool
    ensures { result ≡ meets from to (seen span.now) }
{
    span.lo < to && from < span.hi
}

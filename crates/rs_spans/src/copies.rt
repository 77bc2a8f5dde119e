//! Copies of spans.

ghost use Rattle.std.specs.Prelude.{◌≡◌, map, IfOk};
ghost use Rattle.rs_facts.specs.Spans.{seen};

use rs_facts::Span;
use std::alloc::{AllocError, Global};

/// The same spans in a list of their own. The only refusal is for want of memory.
pub fn copy_spans(alloc: Global, spans: &[Span]) -> Result<Vec<Span>, AllocError>
    ensures { IfOk result (λ copies. map seen copies.items ≡ map seen spans.now) }
{
    let mut copies = Vec::with_capacity(alloc, spans.len())?;
    for span in spans {
        copies.push(Span {
            lo: span.lo,
            hi: span.hi,
            tuple: span.tuple.copied(alloc)?,
        })?;
    }
    Ok(copies)
}

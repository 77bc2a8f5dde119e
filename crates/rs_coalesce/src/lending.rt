//! Spans that are lent, so that their rows are looked at where they stand.

ghost use Rattle.std.specs.Prelude.{◌≡◌, map, IfOk};
ghost use Rattle.rs_facts.specs.Spans.{seen};
ghost use Rattle.rs_coalesce.specs.Lent.{seen_lent};

use rs_facts::Span;
use std::alloc::{AllocError, Global};

/// Each span, lent. No row is copied; the only refusal is for want of memory for the list of them.
pub fn lent(alloc: Global, spans: &[Span]) -> Result<Vec<&Span>, AllocError>
    ensures { IfOk result (λ lent. map seen_lent lent.items ≡ map seen spans.now) }
{
    let mut lent = Vec::with_capacity(alloc, spans.len())?;
    for span in spans {
        lent.push(span)?;
    }
    Ok(lent)
}

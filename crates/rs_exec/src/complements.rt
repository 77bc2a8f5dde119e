//! GAPS: where routes have no row of its operand, between their ends.
//!
//! It promises the row without columns there, each gap once.

ghost use Rattle.std.specs.Prelude.{map, IfOk};
ghost use Rattle.rs_facts.specs.Spans.{seen};
ghost use Rattle.rs_exec.specs.Gaps.{HasShape, HaveShapes, AreGapsOf, HaveGaps};
ghost use Rattle.rs_exec.specs.Routes.{numbers_of, list_of};

use crate::routes::{Routes, RowsOn};
use crate::source::Source;
use rs_coalesce::lent;
use rs_facts::Span;
use rs_sweep::gaps;
use std::alloc::{AllocError, Global};

/// The gaps between rows on each of the routes, and before and after them, up to the ends that the source tells. The only
/// refusal is for want of memory.
pub(crate) fn gaps_on<S: Source>(
    alloc: Global,
    source: &S,
    routes: Routes<'_>,
    rows: RowsOn,
) -> Result<RowsOn, AllocError>
    requires shaped { HaveShapes (numbers_of routes) (list_of rows) }
    ensures { IfOk result (λ made. HaveGaps (S.is source.now) routes.entry.version (numbers_of routes.entry) (list_of rows) (list_of made)) }
{
    let first = gaps_of(alloc, source, routes.version, routes.first, &rows.first)?;
    let others = gaps_each(alloc, source, routes.version, routes.others, rows.others)?;
    Ok(RowsOn { first, others })
}

/// The same on the route of each number, of the rows there.
fn gaps_each<S: Source>(
    alloc: Global,
    source: &S,
    version: u64,
    numbers: &[u32],
    rows: Vec<Vec<Span>>,
) -> Result<Vec<Vec<Span>>, AllocError>
    requires shaped { HaveShapes numbers.now rows.items }
    ensures { IfOk result (λ made. HaveGaps (S.is source.now) version numbers.now rows.items made.items) }
{
    let mut made = Vec::new(alloc);
    let mut rows = rows.into_iter();
    for number in numbers {
        let spans = rows.next().unwrap();
        made.push(gaps_of(alloc, source, version, *number, &spans)?)?;
    }
    Ok(made)
}

/// The same on one route. A route that is not there has no gaps.
fn gaps_of<S: Source>(
    alloc: Global,
    source: &S,
    version: u64,
    route: u32,
    rows: &[Span],
) -> Result<Vec<Span>, AllocError>
    requires shaped { HasShape (map seen rows.now) }
    ensures { IfOk result (λ made. AreGapsOf (S.is source.now) version route (map seen rows.now) (map seen made.items)) }
{
    let Some(ends) = source.ends_at(route, version) else {
        return Ok(Vec::new(alloc));
    };
    ends.stand();
    let spans = lent(alloc, rows)?;
    let (start, finish) = (ends.start().thousandths(), ends.finish().thousandths());
    let found = gaps(alloc, spans.as_slice(), start, finish)?;
    Ok(found)
}

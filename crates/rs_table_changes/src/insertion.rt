//! Insertion of a row along a span of a route.
//!
//! It reads the events that overlap or touch the span and no others. Those of the row end and one event takes their place, as wide as
//! they and the span together.

ghost use Rattle.std.specs.Prelude.{◌≡◌, ◌+◌, ◌-◌, ◌^◌, min};
ghost use Rattle.rs_table_changes.specs.Calls.{InsertsSpan, KeepsAt, Leaves, MayEdit};
ghost use Rattle.rs_facts.specs.Spans.{IsPlaced, gap_of, seen};
ghost use Rattle.rs_value.specs.Values.{IsRowOf};

use crate::changing::make;
use crate::joining::join;
use crate::laws::what_gave_way_is_still_seen;
use crate::moment::Moment;
use rs_facts::Span;
use rs_file::OpenedTable;
use rs_pages::Pages;
use rs_refusal::Refusal;
use rs_value::Kind;
use std::alloc::Global;

/// Puts the row along the span, in thousandths, on the route, as versions from that of the change on see it, and answers how many facts are
/// new: at how many thousandths of the span the row did not hold. Where it held at all of them, nothing changes. Events that end in it may
/// be gone where no version from `moment.oldest` on sees them.
///
/// It is refused with 90, with 91, with 92 where the file is full, and with 94 only where no such table with its indexes, dated up to
/// that version, lies there with pages of its own; the table, its indexes and the working pages are to be abandoned then.
pub fn insert<P: Pages>(
    alloc: Global,
    pages: &mut P,
    table: &mut OpenedTable,
    kind: Kind,
    moment: Moment,
    route: u32,
    span: &Span,
) -> Result<u64, Refusal>
    requires may { MayEdit P.Pages table.old moment.version pages.old }
    requires row { IsRowOf table.old.records.types span.now.tuple }
    requires placed { IsPlaced kind (seen span.now) }
    ensures leaves { Leaves P.Pages table.old moment.version result pages.old pages.new }
    ensures inserts { InsertsSpan P.Pages table.old table.new moment kind route (seen span.now) result pages.old pages.new }
    ensures keeps { KeepsAt moment.version table.old table.new }
{
    what_gave_way_is_still_seen();
    let (from, upto) = reach(kind, span.lo, span.hi);
    let found = table
        .records
        .visible(alloc, pages, moment.version, route, from, upto)?;
    let joined = join(alloc, table.records.schema(), &found, span)?;
    make(alloc, pages, table, moment, route, &joined.edit)?;
    Ok(joined.count)
}

/// Where events end and begin, in thousandths, that overlap a span or touch it: after the first, and before the second.
fn reach(kind: Kind, lo: u32, hi: u32) -> (u32, u32)
    ensures from { result.0 ≡ lo - gap_of kind }
    ensures upto { result.1 ≡ min (hi + gap_of kind) (2 ^ 32 - 1) }
{
    match kind {
        Kind::Point => (lo, hi),
        Kind::Line => (lo.saturating_sub(1), hi.saturating_add(1)),
    }
}

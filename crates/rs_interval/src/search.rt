//! The search for what overlaps a span of a route.

ghost use Rattle.std.specs.Prelude.{◌≡◌, ◌<◌, ◌^◌, IfOk};
ghost use Rattle.rs_pages.specs.Calls.{OnlyReads};
ghost use Rattle.rs_records.specs.Listed.{record_width};
ghost use Rattle.rs_tree.specs.Calls.{RefusesReading};
ghost use Rattle.rs_interval.specs.Calls.{Overlaps};
ghost use Rattle.rs_interval.specs.Finding.{event_form, route_from};

use crate::greatest_end::GreatestEnd;
use rs_page::PageNumber;
use rs_pages::Pages;
use rs_records::Cells;
use rs_refusal::Refusal;
use rs_tree::{Layout, descend};
use std::alloc::Global;

/// The records of a route that begin before `b` and end after `a`, in thousandths, of whatever version, in the order of
/// their cells; and how many pages were read: the root and each page that leads to one of the records at least, for each
/// level of the tree two and as many more for each record at the most. It is refused with 90, with 91, and with 94 only where no tree stands there. No page changes.
pub fn overlapping<P: Pages>(
    alloc: Global,
    pages: &mut P,
    layout: Layout,
    root: PageNumber,
    route: u32,
    a: u32,
    b: u32,
) -> Result<(Cells, u32), Refusal>
    requires summary { layout.summary ≡ 4 }
    ensures rests { OnlyReads P.Pages result pages.old pages.new }
    ensures width { IfOk result (λ found. record_width found.0 ≡ layout.width) }
    ensures found { Overlaps P.Pages layout.width root route a b result pages.old }
    ensures refused { RefusesReading P.Pages (event_form layout.width) root result pages.old pages.new }
{
    let low = beginning(route, 0);
    let high = beginning(route, b);
    let keep = |greatest: &GreatestEnd| a < greatest.end;
    descend::<P, GreatestEnd, _>(alloc, pages, layout, root, &low, &high, &keep)
}

/// What the cells of a route's records that begin at `from` begin with.
pub fn beginning(route: u32, from: u32) -> [u8; 8]
    ensures bytes { result ≡ route_from route from }
    ensures fits { (route < 2 ^ 32) × (from < 2 ^ 32) }
{
    let [r0, r1, r2, r3] = route.to_be_bytes();
    let [f0, f1, f2, f3] = from.to_be_bytes();
    [r0, r1, r2, r3, f0, f1, f2, f3]
}

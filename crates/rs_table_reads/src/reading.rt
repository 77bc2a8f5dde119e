//! The spans of a table that overlap a stretch of a route.

ghost use Rattle.std.specs.Prelude.{◌≡◌, ◌⊎◌, IfErr, IfOk, map};
ghost use Rattle.std.specs.List.{AllByRecursion};
ghost use Rattle.rs_table_reads.specs.Read.{FindsNoEvents, GivesSpans};
ghost use Rattle.rs_facts.specs.Spans.{ArePlaced, seen};
ghost use Rattle.rs_pages.specs.Calls.{OnlyReads};
ghost use Rattle.rs_value.specs.Values.{IsRowOf};

use crate::picking::picked_spans;
use crate::window::RouteWindow;
use rs_facts::Span;
use rs_file::OpenedTable;
use rs_interval::{GreatestEnd, overlapping};
use rs_pages::Pages;
use rs_refusal::Refusal;
use rs_tree::{Layout, Summary};
use std::alloc::Global;

/// The spans of the table in the window, in the order in which they are printed, and how many pages were read: those that lead to events
/// that overlap the window, of whatever version, and at the most two for each level of the table's tree and as many more for each such
/// event. Spans that are not placed as the kind asks are left out. It is refused with 90, with 91, and with 94 only where no events of the table lie there.
pub fn spans<P: Pages>(
    alloc: Global,
    pages: &mut P,
    table: &OpenedTable,
    window: RouteWindow,
) -> Result<(Vec<Span>, u32), Refusal>
    ensures rests { OnlyReads P.Pages result pages.old pages.new }
    ensures gives { GivesSpans P.Pages table.now window result pages.old }
    ensures placed { IfOk result (λ found. ArePlaced window.kind (map seen found.0.items)) }
    ensures rows { IfOk result (λ found. AllByRecursion (λ span. IsRowOf table.now.records.types span.row) (map seen found.0.items)) }
    ensures refused { IfErr result (λ why. (why ≡ Refusal.OutOfMemory) ⊎ (why ≡ Refusal.Disk) ⊎ (why ≡ Refusal.DamagedFile)) }
    ensures damaged { FindsNoEvents P.Pages table.now result pages.old }
{
    let layout = Layout::new(table.records.width(), GreatestEnd::WIDTH);
    let (found, reads) = overlapping(
        alloc,
        pages,
        layout,
        table.records.root(),
        window.route,
        window.from,
        window.to,
    )?;
    let spans = picked_spans(alloc, table.records.schema(), &found, 0, window)?;
    Ok((spans, reads))
}

//! The search of an index for the spans that have a value.
//!
//! An entry is the bytes of a value and then a cell, which begins with the route and the first thousandth. So the entries of a value on a
//! route lie one after another, in the order of their first thousandths.

ghost use Rattle.std.specs.Prelude.{◌≡◌, ◌⊎◌, IfErr, IfOk, map};
ghost use Rattle.std.specs.List.{AllByRecursion};
ghost use Rattle.rs_table_reads.specs.Found.{FindsNoEntries, GivesSpansWith, IsIndexed};
ghost use Rattle.rs_facts.specs.Spans.{ArePlaced, seen};
ghost use Rattle.rs_pages.specs.Calls.{OnlyReads};
ghost use Rattle.rs_value.specs.Values.{IsRowOf};
ghost use Rattle.rs_value.specs.View.{literal_datum};

use crate::keys::value_of;
use crate::picking::picked_spans;
use crate::window::{ColumnIndex, RouteWindow};
use rs_facts::Span;
use rs_file::OpenedTable;
use rs_interval::beginning;
use rs_pages::Pages;
use rs_refusal::Refusal;
use rs_value::{Literal, column_width};
use std::alloc::Global;

/// The spans of the table in the window that have the value in the column of the index, in the order in which they are printed, and how
/// many pages were read: those that lead to entries of the value on the route before the window ends, and at the most two for each level
/// of the index and as many more for each event with the value on the route, of whatever version, that begins before the window ends. A
/// value that the column can't have finds nothing, and no page is read.
/// It is refused with 90, with 91, and with 94 only where no events of the table lie there with their entries in the index.
pub fn spans_with<P: Pages>(
    alloc: Global,
    pages: &mut P,
    table: &OpenedTable,
    at: ColumnIndex,
    value: &Literal,
    window: RouteWindow,
) -> Result<(Vec<Span>, u32), Refusal>
    requires indexed { IsIndexed table.now at }
    ensures rests { OnlyReads P.Pages result pages.old pages.new }
    ensures gives { GivesSpansWith P.Pages table.now at (literal_datum value.now) window result pages.old }
    ensures placed { IfOk result (λ found. ArePlaced window.kind (map seen found.0.items)) }
    ensures rows { IfOk result (λ found. AllByRecursion (λ span. IsRowOf table.now.records.types span.row) (map seen found.0.items)) }
    ensures refused { IfErr result (λ why. (why ≡ Refusal.OutOfMemory) ⊎ (why ≡ Refusal.Disk) ⊎ (why ≡ Refusal.DamagedFile)) }
    ensures damaged { FindsNoEntries P.Pages table.now at result pages.old }
{
    let column = table.records.schema().as_slice()[at.column];
    let Some(value) = value_of(column, value) else {
        return Ok((Vec::new(alloc), 0));
    };
    let from = beginning(window.route, 0);
    let to = beginning(window.route, window.to);
    let index = &table.indexes[at.position];
    let (entries, reads) = index.entries_with(alloc, pages, &value, &from, &to)?;
    let spans = picked_spans(
        alloc,
        table.records.schema(),
        &entries,
        column_width(column),
        window,
    )?;
    Ok((spans, reads))
}

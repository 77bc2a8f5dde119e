//! The events that a search found on a stretch of a route, their rows left as the pages have them.

ghost use Rattle.std.specs.Prelude.{◌≡◌, ◌⊎◌, ◌≤◌, ◌<◌, ℕ, [], IfErr, IfOk, IfSome, List, length, true, false};
ghost use Rattle.std.specs.List.{AllZip};
ghost use Rattle.rs_file.specs.declared.opened.OpenedTable.{OpenedTable};
ghost use Rattle.rs_pages.specs.Calls.{OnlyReads};
ghost use Rattle.rs_records.specs.Listed.{listed, record_width};
ghost use Rattle.rs_table_reads.specs.Events.{AreEvents, FindsEvents, LendsNext, LendsOne, SayEvents, SaysSpans, spans_left};
ghost use Rattle.rs_table_reads.specs.Picked.{SayNone};
ghost use Rattle.rs_table_reads.specs.Read.{FindsNoEvents};
ghost use Rattle.rs_value.specs.Encoding.{SaysRow};
ghost use Rattle.rs_value.specs.Row.{Row};
ghost use Rattle.rs_value.specs.declared.column.ColumnType.{ColumnType};
ghost use Rattle.rs_versioned.specs.Events.{Event, SaysEvent, event_width};
ghost use Rattle.rs_versioned.specs.declared.event.TheConstants.{EVENT_BYTES};

use crate::event_cells::FoundEvents;
use crate::picking::is_placed;
use crate::window::RouteWindow;
use rs_cell_versions::sees;
use rs_file::OpenedTable;
use rs_interval::{GreatestEnd, overlapping};
use rs_pages::Pages;
use rs_records::Cells;
use rs_refusal::Refusal;
use rs_tree::{Layout, Summary};
use rs_value::{ColumnType, Schema};
use rs_versioned::event::{EVENT_BYTES, LentSpan, lent_span, says_event};
use std::alloc::Global;

impl FoundEvents {
    /// No events, with rows of no columns. Takes no memory.
    pub fn none(alloc: Global, window: RouteWindow) -> FoundEvents
        ensures are { AreEvents result }
        ensures spans { SaysSpans result [] }
    {
        FoundEvents {
            schema: Schema::new(),
            window,
            cells: Cells::new(alloc, EVENT_BYTES),
        }
    }

    /// How many events there are.
    pub fn len(&self) -> usize
        ensures count { result ≡ length (listed self.now.cells) }
        ensures none_left { (events : List Event) → AllZip (SaysEvent self.now.schema.items) (listed self.now.cells) events
            → (place : ℕ) → result ≤ place → spans_left self.now.window events place ≡ [] }
    {
        self.cells.len()
    }

    /// The types of the columns, from the left.
    pub fn columns(&self) -> &[ColumnType]
        ensures { result.now ≡ self.now.schema.items }
    {
        self.schema.as_slice()
    }

    /// The span of the event in this place, if the window's version sees it, and it reaches into the window and is placed as its kind asks.
    pub fn span_at(&self, place: usize) -> Option<LentSpan<'_>>
        requires { place < length (listed self.now.cells) }
        ensures lends { (events : List Event) → AllZip (SaysEvent self.now.schema.items) (listed self.now.cells) events
            → LendsNext self.now.schema.items self.now.window events place result }
        ensures row { AreEvents self.now → IfSome result (λ lent. (row : Row) × SaysRow self.now.schema.items lent.row.now row) }
    {
        lent_within(self.cells.get(place), self.window)
    }
}

/// The events of the table that overlap the window, in the order in which their spans are printed. It is refused with 90, with 91, and
/// with 94 only where no events of the table lie there.
pub fn found_events<P: Pages>(
    alloc: Global,
    pages: &mut P,
    table: &OpenedTable,
    window: RouteWindow,
) -> Result<FoundEvents, Refusal>
    ensures rests { OnlyReads P.Pages result pages.old pages.new }
    ensures are { IfOk result AreEvents }
    ensures finds { FindsEvents P.Pages table.now window result pages.old }
    ensures refused { IfErr result (λ why. (why ≡ Refusal.OutOfMemory) ⊎ (why ≡ Refusal.Disk) ⊎ (why ≡ Refusal.DamagedFile)) }
    ensures damaged { FindsNoEvents P.Pages table.now result pages.old }
{
    let layout = Layout::new(table.records.width(), GreatestEnd::WIDTH);
    let (cells, _reads) = overlapping(
        alloc,
        pages,
        layout,
        table.records.root(),
        window.route,
        window.from,
        window.to,
    )?;
    let schema = copy_of(table.records.schema());
    if !say_events(&schema, &cells) {
        return Err(Refusal::DamagedFile);
    }
    Ok(FoundEvents {
        schema,
        window,
        cells,
    })
}

/// The same types of columns.
fn copy_of(schema: &Schema) -> Schema
    ensures { result.items ≡ schema.now.items }
{
    match Schema::try_from(schema.as_slice()) {
        Ok(copy) => copy,
        Err(_) => unreachable!(),
    }
}

/// Whether each of the cells says an event.
fn say_events(schema: &Schema, cells: &Cells) -> bool
    requires width { record_width cells.now ≡ event_width schema.now.items }
    ensures say { result ≡ true → SayEvents schema.now.items (listed cells.now) }
    ensures none { result ≡ false → SayNone schema.now.items (listed cells.now) }
{
    for place in 0..cells.len() {
        if !says_event(schema, cells.get(place)) {
            return false;
        }
    }
    true
}

/// The span of the event that a cell says, if it is one of the window's.
fn lent_within(cell: &[u8], window: RouteWindow) -> Option<LentSpan<'_>>
    requires width { EVENT_BYTES ≤ length cell.now }
    ensures lends { (types : List ColumnType) → LendsOne types window cell.now result }
    ensures says { (types : List ColumnType) (event : Event) → SaysEvent types cell.now event → IfSome result (λ lent. SaysRow types lent.row.now event.row) }
{
    if !sees(window.version, cell) {
        return None;
    }
    let span = lent_span(cell);
    if window.from < span.hi && is_placed(window.kind, span.lo, span.hi) {
        return Some(span);
    }
    None
}

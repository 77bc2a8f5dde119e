//! This module keeps the event records of a table by version.

ghost use Rattle.std.specs.Prelude.{◌≡◌, ◌≤◌, ◌*◌, ◌+◌, ℕ, [], IfOk, true};
ghost use Rattle.rs_page.specs.declared.header.TheConstants.{PAGE_ROOM};
ghost use Rattle.rs_page_owners.specs.Counts.{no_pages};
ghost use Rattle.rs_pages.specs.Calls.{OnlyReads};
ghost use Rattle.rs_pages.specs.PageMap.{PageMap};
ghost use Rattle.rs_records.specs.Listed.{record_width};
ghost use Rattle.rs_value.specs.Values.{IsRowOf};
ghost use Rattle.rs_cell_versions.specs.Versioned.{nothing_stands};
ghost use Rattle.rs_versioned.specs.Calls.{Adds, KeepsTable, Leaves, RefusesReading, Sees};
ghost use Rattle.rs_versioned.specs.Events.{event_of, event_width, is_visible, kept_events};
ghost use Rattle.rs_versioned.specs.Records.{HoldsRecords};

use crate::event::{EVENT_BYTES, cell_of};
use crate::kind::RecordKind;
use crate::record_table::RecordTable;
use crate::seeing::seen_by;
use rs_cell_versions::Versions;
use rs_facts::fact::Span;
use rs_interval::{GreatestEnd, overlapping};
use rs_pages::Pages;
use rs_records::Cells;
use rs_refusal::Refusal;
use rs_tree::Layout;
use rs_value::{Schema, row_width};
use std::alloc::Global;
use std::marker::Model;

/// Event records with rows of some columns.
#[derive(Drop)]
pub struct Events {
    schema: Schema,
}

impl Model for Events {
    ghost use Rattle.std.specs.Prelude.{List};
    ghost use Rattle.rs_value.specs.declared.column.ColumnType.{ColumnType};

    ghost Value = { List ColumnType };

    ghost view = { λ events. events.schema.items };
}

impl RecordKind for Events {
    ghost use Rattle.rs_versioned.specs.Events.{Event, SaysEvent, ended_event, event_width};

    type Summary = GreatestEnd;

    ghost Record = { Event };

    ghost width = { event_width };

    ghost says = { SaysEvent };

    ghost born = { λ event. event.born };

    ghost died = { λ event. event.died };

    ghost ended = { ended_event };
}

/// The event records of a table.
pub type EventTable = RecordTable<Events>;

impl RecordTable<Events> {
    /// No events, with rows of these columns. Three entries of an inner page fit it at least.
    pub fn new(alloc: Global, schema: Schema) -> EventTable
        requires fits { 3 * (8 + event_width schema.items) ≤ PAGE_ROOM }
        ensures types { result.types ≡ schema.items }
        ensures working { result.working ≡ nothing_stands }
        ensures committed { result.committed ≡ nothing_stands }
        ensures empty { (pages : PageMap) (accepted : ℕ)
            → HoldsRecords (kept_events schema.items) pages result.working accepted [] no_pages }
    {
        let width = row_width(&schema) + EVENT_BYTES;
        RecordTable {
            kind: Events { schema },
            versions: Versions::new(alloc, width),
        }
    }

    /// The events of these cells, with rows of these columns.
    pub fn with(schema: Schema, versions: Versions<GreatestEnd>) -> EventTable
        requires width { versions.width ≡ event_width schema.items }
        ensures types { result.types ≡ schema.items }
        ensures working { result.working ≡ versions.working }
        ensures committed { result.committed ≡ versions.committed }
    {
        RecordTable {
            kind: Events { schema },
            versions,
        }
    }

    /// The columns of the rows.
    pub fn schema(&self) -> &Schema
        ensures { result.now.items ≡ self.now.types }
    {
        &self.kind.schema
    }

    /// Puts the row on the route along the span, as versions from this one on see it, and answers whether the record was not
    /// there before; where it was, nothing changes. It is refused with 90, with 91, with 92 where the file is full, and with
    /// 94 only where no such records lie there with pages of their own; after a refusal the table is as it was, and the working
    /// pages are to be abandoned.
    pub fn add<P: Pages>(
        &mut self,
        alloc: Global,
        pages: &mut P,
        version: u64,
        route: u32,
        span: &Span,
    ) -> Result<bool, Refusal>
        requires begun { (P.store pages.old).is_begun ≡ true }
        requires row { IsRowOf self.old.types span.now.tuple }
        ensures leaves { Leaves P.Pages kept_events self.old result pages.old pages.new }
        ensures adds { Adds P.Pages kept_events self.old self.new (event_of route span.now version) result pages.old pages.new }
        ensures table { KeepsTable result self.old self.new }
        ensures dead { self.new.working.dead ≡ self.old.working.dead }
    {
        let cell = cell_of(alloc, self.schema(), route, span, version).map_err(
            |_| Refusal::OutOfMemory,
        )?;
        self.add_cell(pages, &cell)
    }

    /// The cells of the events on the route that begin before `b` and end after `a`, in thousandths, and that the version sees,
    /// in the order in which their spans are printed (`laws::spans_are_in_printing_order`). It is refused with 90, with 91, and
    /// with 94 only where there is no tree. No page changes.
    pub fn visible<P: Pages>(
        &self,
        alloc: Global,
        pages: &mut P,
        version: u64,
        route: u32,
        a: u32,
        b: u32,
    ) -> Result<Cells, Refusal>
        ensures rests { OnlyReads P.Pages result pages.old pages.new }
        ensures width { IfOk result (λ found. record_width found ≡ event_width self.now.types) }
        ensures found { Sees P.Pages kept_events self.now (is_visible version route a b) result pages.old }
        ensures refused { RefusesReading P.Pages kept_events self.now result pages.old pages.new }
    {
        let layout = Layout::new(self.width(), 4);
        let (found, _reads) = overlapping(alloc, pages, layout, self.root(), route, a, b)?;
        match seen_by(alloc, version, &found) {
            Ok(seen) => Ok(seen),
            Err(_) => Err(Refusal::OutOfMemory),
        }
    }
}

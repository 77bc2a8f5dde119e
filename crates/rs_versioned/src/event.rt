//! This module writes and reads the cell of an event record.
//!
//! The cell is the route in four bytes, the first thousandth in four, the row as it is encoded, the version of its birth in eight,
//! the first thousandth after it in four, and the version of its end in eight.

ghost use Rattle.std.specs.Prelude.{◌≡◌, ◌⊎◌, ◌+◌, ◌≤◌, ◌++◌, ◌↔◌, ℕ, List, IfOk, IfErr, OnOk, IsTrue, length};
ghost use Rattle.rs_facts.specs.Spans.{seen};
ghost use Rattle.rs_refusal.specs.declared.refusal.Refusal.TheVariants as refusals;
ghost use Rattle.rs_value.specs.declared.column.ColumnType.{ColumnType};
ghost use Rattle.rs_value.specs.Encoding.{SaysRow, row_width};
ghost use Rattle.rs_value.specs.Values.{IsRowOf};
ghost use Rattle.rs_versioned.specs.Events.{Event, SaysEvent, SaysSpan, event_of, event_width, span_of};

use rs_cell_versions::LIVING;
use rs_facts::fact::Span;
use rs_interval::{AFTER_BIRTH_BYTES, number_of_four};
use rs_refusal::Refusal;
use rs_value::{KeptRow, Schema, row_width, says_row};
use std::alloc::{AllocError, Global};

/// The bytes of an event's cell beside those of its row.
pub const EVENT_BYTES: usize = 28;

/// The bytes before the first thousandth.
const ROUTE_BYTES: usize = 4;

/// The bytes before the row.
const FRONT_BYTES: usize = 8;

/// The bytes after the row.
const BACK_BYTES: usize = EVENT_BYTES - FRONT_BYTES;

/// The span of an event, whose row is lent as bytes.
#[derive(Clone, Copy)]
pub struct LentSpan<'a> {
    /// The first thousandth.
    pub lo: u32,
    /// The first thousandth after it.
    pub hi: u32,
    /// The bytes of the row.
    pub row: &'a [u8],
}

/// The cell of a living event.
pub fn cell_of(
    alloc: Global,
    schema: &Schema,
    route: u32,
    span: &Span,
    born: u64,
) -> Result<Vec<u8>, AllocError>
    requires row { IsRowOf schema.now.items span.now.tuple }
    ensures says { IfOk result (λ cell. SaysEvent schema.now.items cell.items (event_of route span.now born)) }
{
    let mut cell = Vec::new(alloc);
    cell.extend_from_slice(&route.to_be_bytes())?;
    cell.extend_from_slice(&span.lo.to_be_bytes())?;
    span.tuple.push_encoded(schema, &mut cell)?;
    cell.extend_from_slice(&born.to_be_bytes())?;
    cell.extend_from_slice(&span.hi.to_be_bytes())?;
    cell.extend_from_slice(&LIVING.to_be_bytes())?;
    Ok(cell)
}

/// The number of the route that an event is on.
pub fn route_of(cell: &[u8]) -> u32
    requires width { EVENT_BYTES ≤ length cell.now }
    ensures { (types : List ColumnType) (event : Event) → SaysEvent types cell.now event → result ≡ event.route }
{
    number_of_four(&cell[..ROUTE_BYTES])
}

/// The first thousandth of an event, and the first one after it.
pub fn place_of(cell: &[u8]) -> (u32, u32)
    requires width { EVENT_BYTES ≤ length cell.now }
    ensures { (types : List ColumnType) (event : Event) → SaysEvent types cell.now event → (result.0 ≡ event.lo) × (result.1 ≡ event.hi) }
{
    let lo = number_of_four(&cell[ROUTE_BYTES..FRONT_BYTES]);
    let at = cell.len() - AFTER_BIRTH_BYTES;
    let hi = number_of_four(&cell[at..at + 4]);
    (lo, hi)
}

/// The span of an event, its row lent as the bytes that the cell has of it. Takes no memory.
pub fn lent_span(cell: &[u8]) -> LentSpan<'_>
    requires width { EVENT_BYTES ≤ length cell.now }
    ensures width { length result.row.now + EVENT_BYTES ≡ length cell.now }
    ensures says { (types : List ColumnType) (event : Event) → SaysEvent types cell.now event → SaysSpan types result (span_of event) }
{
    let (lo, hi) = place_of(cell);
    let end = cell.len() - BACK_BYTES;
    LentSpan {
        lo,
        hi,
        row: &cell[FRONT_BYTES..end],
    }
}

/// Whether the cell says an event with a row of these columns. Takes no memory.
pub fn says_event(schema: &Schema, cell: &[u8]) -> bool
    requires width { length cell.now ≡ event_width schema.now.items }
    ensures { IsTrue result ↔ ((event : Event) × SaysEvent schema.now.items cell.now event) }
{
    let end = FRONT_BYTES + row_width(schema);
    says_row(schema, &cell[FRONT_BYTES..end])
}

/// The span of an event. It is refused with 90, and with 94 where the cell says no event with a row of these columns.
pub fn span_of(alloc: Global, schema: &Schema, cell: &[u8]) -> Result<Span, Refusal>
    requires width { length cell.now ≡ event_width schema.now.items }
    ensures said { OnOk result ((event : Event) × SaysEvent schema.now.items cell.now event) }
    ensures span { IfOk result (λ span. (event : Event) → SaysEvent schema.now.items cell.now event → seen span ≡ span_of event) }
    ensures refused { IfErr result (λ why. (why ≡ refusals.OutOfMemory)
        ⊎ ((why ≡ refusals.DamagedFile) × ((event : Event) → SaysEvent schema.now.items cell.now event → ⊥))) }
{
    let end = FRONT_BYTES + row_width(schema);
    let Some(tuple) = KeptRow::of_encoded(alloc, schema, &cell[FRONT_BYTES..end])? else {
        return Err(Refusal::DamagedFile);
    };
    let (lo, hi) = place_of(cell);
    Ok(Span { lo, hi, tuple })
}

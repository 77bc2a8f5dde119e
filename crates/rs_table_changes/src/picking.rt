//! Events that are picked by their rows.

ghost use Rattle.std.specs.Prelude.{◌≡◌, ◌⊎◌, IfErr, IfOk, map};
ghost use Rattle.std.specs.List.{AllByRecursion};
ghost use Rattle.std.specs.Option.{option_copied};
ghost use Rattle.rs_table_changes.specs.Picked.{Picks, SayNone};
ghost use Rattle.rs_spans.specs.Removal.{goes_by};
ghost use Rattle.rs_facts.proofs.Rows.{same_row};
ghost use Rattle.rs_facts.specs.Spans.{seen};
ghost use Rattle.rs_records.specs.Listed.{listed, record_width};
ghost use Rattle.rs_value.specs.Values.{IsRowOf};
ghost use Rattle.rs_versioned.specs.Events.{event_width};

use rs_facts::{Condition, Span};
use rs_records::Cells;
use rs_refusal::Refusal;
use rs_sweep::meets;
use rs_value::{KeptRow, Schema, same_row};
use rs_versioned::event::span_of;
use std::alloc::Global;

/// Cells of events, and their spans.
#[derive(Drop)]
pub(crate) struct Picked {
    pub cells: Cells,
    pub spans: Vec<Span>,
}

/// Those of the events whose row is this one. It is refused with 90, and with 94 where a cell says no event.
pub(crate) fn of_row(
    alloc: Global,
    schema: &Schema,
    found: &Cells,
    row: &KeptRow,
) -> Result<Picked, Refusal>
    requires width { record_width found.now ≡ event_width schema.now.items }
    ensures picks { IfOk result (λ picked. Picks schema.now.items (λ other. same_row other row.now) (listed found.now)
        (listed picked.cells) (map seen picked.spans.items)) }
    ensures rows { IfOk result (λ picked. AllByRecursion (λ span. IsRowOf schema.now.items span.row) (map seen picked.spans.items)) }
    ensures width { IfOk result (λ picked. record_width picked.cells ≡ record_width found.now) }
    ensures refused { IfErr result (λ why. (why ≡ Refusal.OutOfMemory) ⊎ ((why ≡ Refusal.DamagedFile) × SayNone schema.now.items (listed found.now))) }
{
    let mut cells = Cells::new(alloc, found.width());
    let mut spans = Vec::new(alloc);
    for place in 0..found.len() {
        let cell = found.get(place);
        let span = span_of(alloc, schema, cell)?;
        if same_row(&span.tuple, row) {
            cells.push(cell)?;
            spans.push(span)?;
        }
    }
    Ok(Picked { cells, spans })
}

/// Those of the events whose row goes: it meets the condition, or there is none. It is refused as `of_row` is.
pub(crate) fn going(
    alloc: Global,
    schema: &Schema,
    found: &Cells,
    goes: Option<&Condition>,
) -> Result<Picked, Refusal>
    requires width { record_width found.now ≡ event_width schema.now.items }
    ensures picks { IfOk result (λ picked. Picks schema.now.items (goes_by (option_copied goes.entry)) (listed found.now)
        (listed picked.cells) (map seen picked.spans.items)) }
    ensures rows { IfOk result (λ picked. AllByRecursion (λ span. IsRowOf schema.now.items span.row) (map seen picked.spans.items)) }
    ensures width { IfOk result (λ picked. record_width picked.cells ≡ record_width found.now) }
    ensures refused { IfErr result (λ why. (why ≡ Refusal.OutOfMemory) ⊎ ((why ≡ Refusal.DamagedFile) × SayNone schema.now.items (listed found.now))) }
{
    let mut cells = Cells::new(alloc, found.width());
    let mut spans = Vec::new(alloc);
    for place in 0..found.len() {
        let cell = found.get(place);
        let span = span_of(alloc, schema, cell)?;
        if is_going(goes, &span.tuple) {
            cells.push(cell)?;
            spans.push(span)?;
        }
    }
    Ok(Picked { cells, spans })
}

/// Whether a row goes.
fn is_going(goes: Option<&Condition>, row: &KeptRow) -> bool
    ensures { result ≡ goes_by (option_copied goes.entry) row.now }
{
    match goes {
        Some(condition) => meets(condition, row),
        None => true,
    }
}

//! The text of the rows that a query answers, one line for each run.
//!
//! It promises to append the machine's line of each run, in the order of the runs.

ghost use Rattle.std.specs.Prelude.{◌≡◌, ◌≤◌, ◌++◌, map, IfOk, OnOk};
ghost use Rattle.rs_facts.specs.LineText.{line_of};
ghost use Rattle.rs_facts.specs.Spans.{seen};
ghost use Rattle.rs_serve.specs.ReplyView.{rows_of};
ghost use Rattle.rs_answers.specs.Portions.{room_of, IsStart};
ghost use Rattle.rs_answers.specs.Printed.{printed_by};

use crate::printer::PositionPrinter;
use crate::run_text::line_text;
use rs_facts::Span;
use rs_value::Kind;
use std::alloc::{AllocError, Global};

/// How many bytes a line of a list takes beside its text: a pointer, a length and a capacity, twice, since a list that grows has up to
/// twice the room that it needs.
pub const LINE_OVERHEAD: usize = 48;

/// How many bytes the buffer has in which a line is made. Most lines fit there.
const LINE_BUFFER_BYTES: usize = 512;

/// Appends the line of each run of one route.
pub(crate) fn push_lines(
    alloc: Global,
    kind: Kind,
    printer: &PositionPrinter<'_>,
    runs: &[Span],
    rows: &mut Vec<String>,
) -> Result<(), AllocError>
    ensures { OnOk result (rows_of rows.new.items ≡ rows_of rows.old.items ++ map (line_of (printed_by printer.now) kind printer.now.name.now.bytes) (map seen runs.now)) }
{
    let mut buffer = [0; LINE_BUFFER_BYTES];
    for run in runs {
        rows.push(line_text(alloc, kind, printer, run, &mut buffer)?)?;
    }
    Ok(())
}

/// The lines of the first runs of one route, as many as take no more than so many bytes.
pub(crate) fn lines_within(
    alloc: Global,
    kind: Kind,
    printer: &PositionPrinter<'_>,
    runs: &[Span],
    room: usize,
) -> Result<Vec<String>, AllocError>
    ensures lines { IfOk result (λ lines. IsStart (rows_of lines.items) (map (line_of (printed_by printer.now) kind printer.now.name.now.bytes) (map seen runs.now))) }
    ensures room { IfOk result (λ lines. room_of lines.items ≤ room) }
{
    let mut buffer = [0; LINE_BUFFER_BYTES];
    let mut lines = Vec::new(alloc);
    let mut left = room;
    for run in runs {
        let text = line_text(alloc, kind, printer, run, &mut buffer)?;
        let takes = text.capacity() + LINE_OVERHEAD;
        if left < takes {
            break;
        }
        left -= takes;
        lines.push(text)?;
    }
    Ok(lines)
}

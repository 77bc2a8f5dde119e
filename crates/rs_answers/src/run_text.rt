//! The line of a run, made from its end in a buffer. A line that is not made there is put together part by part.
//!
//! It promises the machine's line of the run.

ghost use Rattle.std.specs.Prelude.{◌≡◌, ◌≤◌, ◌<◌, ◌+◌, ◌++◌, codes, IfOk, IfSome, string_bytes, drop, length};
ghost use Rattle.rs_facts.specs.LineText.{line_of, positions_text};
ghost use Rattle.rs_facts.specs.Spans.{seen};
ghost use Rattle.rs_measure.specs.Measure.{measure_text};
ghost use Rattle.rs_value.specs.Text.{values_text};
ghost use Rattle.rs_answers.specs.Printed.{place_on, printed_by};

use crate::printer::{PositionPrinter, place_on};
use rs_backward_text::measures::{MEASURE_BYTES, put_measure_before};
use rs_backward_text::parts::{put_before, put_word_before};
use rs_backward_text::values::put_value_before;
use rs_catalog::RouteEntry;
use rs_facts::Span;
use rs_methods::Method;
use rs_value::{KeptRow, Kind, push_values};
use std::alloc::{AllocError, Global};
use std::str;

/// The room that a line is given at first that is put together part by part, in bytes; it takes more where it needs more.
const LINE_ROOM: usize = 48;

/// The most bytes of two positions and a space before each.
const PLACE_BYTES: usize = 2 * MEASURE_BYTES + 2;

/// The most values of a row whose line is made from its end: the value of a column is looked for from the left.
const FEW_VALUES: usize = 8;

/// The line of one run: the route, its position or its two positions, and its values. What is in the buffer is unspecified before and
/// after.
pub(crate) fn line_text(
    alloc: Global,
    kind: Kind,
    printer: &PositionPrinter<'_>,
    run: &Span,
    buffer: &mut [u8],
) -> Result<String, AllocError>
    ensures { IfOk result (λ text. string_bytes text ≡ line_of (printed_by printer.now) kind printer.now.name.now.bytes (seen run.now)) }
{
    let end = buffer.len();
    if let Some(start) = put_line_before(kind, printer, run, buffer, end) {
        if let Ok(line) = str::from_utf8(&buffer[start..]) {
            return copied(alloc, line);
        }
    }
    joined_line(alloc, kind, printer, run)
}

/// A copy of a text, with just the room that it takes.
fn copied(alloc: Global, line: &str) -> Result<String, AllocError>
    ensures { IfOk result (λ text. string_bytes text ≡ line.now) }
{
    let mut text = String::with_capacity(alloc, line.len())?;
    text.push_str(line)?;
    Ok(text)
}

/// The line of one run, put together part by part.
fn joined_line(
    alloc: Global,
    kind: Kind,
    printer: &PositionPrinter<'_>,
    run: &Span,
) -> Result<String, AllocError>
    ensures { IfOk result (λ text. string_bytes text ≡ line_of (printed_by printer.now) kind printer.now.name.now.bytes (seen run.now)) }
{
    let mut text = String::with_capacity(alloc, LINE_ROOM)?;
    text.push_str(printer.name.as_str())?;
    printer.push(&mut text, run.lo)?;
    match kind {
        Kind::Point => (),
        Kind::Line => printer.push(&mut text, run.hi)?,
    }
    push_values(&mut text, &run.tuple)?;
    Ok(text)
}

/// Puts the line of a run before the byte at `end`, and says where it begins, if positions are measures and it has room.
fn put_line_before(
    kind: Kind,
    printer: &PositionPrinter<'_>,
    run: &Span,
    bytes: &mut [u8],
    end: usize,
) -> Option<usize>
    requires inside { end ≤ length bytes.old }
    ensures begins { IfSome result (λ start. start ≤ length bytes.new) }
    ensures put { IfSome result (λ start. drop start bytes.new
        ≡ line_of (printed_by printer.now) kind printer.now.name.now.bytes (seen run.now) ++ drop end bytes.old) }
{
    match printer.method {
        Method::Absolute => (),
        Method::Relative | Method::Interpolative => return None,
    }
    let values = put_values_before(&run.tuple, bytes, end)?;
    let name = printer.name.as_bytes();
    if values < PLACE_BYTES + name.len() {
        return None;
    }
    let place = put_place_before(kind, printer.route, run, bytes, values);
    Some(put_word_before(name, bytes, place))
}

/// Puts a space and the value of each column before the byte at `end`, and says where they begin, if they are few and have room.
#[tactic(auto, using(crate::proofs::LineTexts::one_more))]
fn put_values_before(row: &KeptRow, bytes: &mut [u8], end: usize) -> Option<usize>
    requires inside { end ≤ length bytes.old }
    ensures begins { IfSome result (λ start. start ≤ end) }
    ensures length { IfSome result (λ _. length bytes.new ≡ length bytes.old) }
    ensures put { IfSome result (λ start. drop start bytes.new ≡ values_text row.now ++ drop end bytes.old) }
{
    let mut left = row.width();
    if left > FEW_VALUES {
        return None;
    }
    let mut at = end;
    while left > 0 {
        left -= 1;
        at = put_value_before(b' ', row.value_at(left), bytes, at)?;
    }
    Some(at)
}

/// Puts a space and a position of a run before the byte at `end`, a line's two, a point's one, and says where they begin.
fn put_place_before(
    kind: Kind,
    route: RouteEntry,
    run: &Span,
    bytes: &mut [u8],
    end: usize,
) -> usize
    requires room { PLACE_BYTES ≤ end }
    requires inside { end ≤ length bytes.old }
    ensures begins { result ≤ end }
    ensures few { end ≤ result + PLACE_BYTES }
    ensures length { length bytes.new ≡ length bytes.old }
    ensures put { drop result bytes.new ≡ codes " " ++ positions_text (λ place. measure_text (place_on route.ends place)) kind (seen run.now) ++ drop end bytes.old }
{
    match kind {
        Kind::Point => put_position_before(route, run.lo, bytes, end),
        Kind::Line => {
            let second = put_position_before(route, run.hi, bytes, end);
            put_position_before(route, run.lo, bytes, second)
        }
    }
}

/// Puts a space and the measure of a place of a route, in thousandths, before the byte at `end`, and says where they begin. A place
/// beside the route is printed as the nearest one.
fn put_position_before(route: RouteEntry, place: u32, bytes: &mut [u8], end: usize) -> usize
    requires room { MEASURE_BYTES < end }
    requires inside { end ≤ length bytes.old }
    ensures begins { result ≤ end }
    ensures few { end ≤ result + 1 + MEASURE_BYTES }
    ensures length { length bytes.new ≡ length bytes.old }
    ensures put { drop result bytes.new ≡ codes " " ++ measure_text (place_on route.ends place) ++ drop end bytes.old }
{
    let measure = put_measure_before(place_on(route, place), bytes, end);
    put_before(b' ', bytes, measure)
}

//! The lines of rows, table by table and route by route.
//!
//! The events of one table on one route are in memory at a time. The lines of a table are gathered, and written many at a time.

ghost use Rattle.std.specs.Prelude.{◌≡◌, ℕ, List, [], IfErr, OnOk, map};
ghost use Rattle.rs_dump.specs.Reads.{Reads};
ghost use Rattle.rs_dump.specs.Sections.{route_seen, row_commands, rows_of_table, rows_on, table_seen};
ghost use Rattle.rs_dump.specs.Shown.{Shown};
ghost use Rattle.rs_dump.specs.Stopping.{StopsReading};
ghost use Rattle.rs_dump.specs.Written.{AddsBytes, PutsBytes, StopsWriting, WritesRead, line_bytes, lines_bytes};
ghost use Rattle.rs_dump_laws.specs.Dump.{location_of};
ghost use Rattle.rs_dump_lines.specs.Texts.{FileSays, row_front};
ghost use Rattle.rs_facts.specs.Runs.{Stretch, stretch};
ghost use Rattle.rs_syntax.specs.Tree.{insert};
ghost use Rattle.rs_table_reads.specs.Events.{AreEvents, SaysSpans};
ghost use Rattle.rs_value.specs.Row.{Row};

use crate::held::{Held, NamedTable};
use crate::stop::Stop;
use rs_catalog::NamedRoute;
use rs_dump_lines::rows::{FileRow, ROW_BUFFER_BYTES, push_row_backwards};
use rs_dump_lines::writing::push_row_front;
use rs_machine::limits::LINE_BYTES;
use rs_protocol::put_parts;
use rs_table_reads::FoundEvents;
use rs_value::Kind;
use std::alloc::Global;
use std::io::Write;

/// From how many bytes of lines on these are written.
const PIECE_BYTES: usize = 16_384;

/// How many bytes the buffer of the lines has: for those that are not written yet, and for one more.
const PIECE_BUFFER_BYTES: usize = PIECE_BYTES + LINE_BYTES;

/// Writes the lines of the rows of these tables on these routes.
pub fn write_rows<H: Held, W: Write>(
    alloc: Global,
    held: &mut H,
    tables: &[NamedTable],
    routes: &[NamedRoute],
    output: &mut W,
) -> Result<(), Stop>
    ensures reads { Reads H.Held held.old held.new }
    ensures lines { (shown : Shown) → H.shows held.old shown → WritesRead result (row_commands (map table_seen tables.now) (map route_seen routes.now) shown) (W.contents output.old) (W.contents output.new) }
    ensures wants { IfErr result (λ stop. StopsReading H.Held stop held.old held.new) }
{
    for table in tables {
        write_rows_of(alloc, held, table, routes, output)?;
    }
    Ok(())
}

/// Writes the lines of the rows of a table on these routes.
pub fn write_rows_of<H: Held, W: Write>(
    alloc: Global,
    held: &mut H,
    table: &NamedTable,
    routes: &[NamedRoute],
    output: &mut W,
) -> Result<(), Stop>
    ensures reads { Reads H.Held held.old held.new }
    ensures lines { (shown : Shown) → H.shows held.old shown → WritesRead result (rows_of_table (table_seen table.now) (map route_seen routes.now) shown) (W.contents output.old) (W.contents output.new) }
    ensures wants { IfErr result (λ stop. StopsReading H.Held stop held.old held.new) }
{
    let mut piece = Vec::with_capacity(alloc, PIECE_BUFFER_BYTES)?;
    for route in routes {
        add_rows_on(alloc, held, table, route, &mut piece, output)?;
    }
    put_piece(&mut piece, output)
}

/// Adds the lines of the rows of a table on a route. Where they can't be read, the lines so far are written.
fn add_rows_on<H: Held, W: Write>(
    alloc: Global,
    held: &mut H,
    table: &NamedTable,
    route: &NamedRoute,
    piece: &mut Vec<u8>,
    output: &mut W,
) -> Result<(), Stop>
    ensures reads { Reads H.Held held.old held.new }
    ensures lines { (shown : Shown) → H.shows held.old shown
        → AddsBytes result (lines_bytes (rows_on table.now.name.bytes route.now.name.bytes table.now.kind (shown table.now.number table.now.kind route.now.route.number)))
        piece.old.items piece.new.items (W.contents output.old) (W.contents output.new) }
    ensures wants { IfErr result (λ stop. StopsReading H.Held stop held.old held.new) }
{
    match held.found_events(alloc, table, route) {
        Ok(found) => {
            let mut front = Vec::new(alloc);
            push_row_front(&mut front, table.kind, &table.name, &route.name)?;
            let mut buffer = [0; ROW_BUFFER_BYTES];
            add_rows(table.kind, &front, &found, &mut buffer, piece, output)
        }
        Err(refusal) => {
            put_piece(piece, output)?;
            Err(Stop::Refused(refusal))
        }
    }
}

/// Adds the lines of the spans of these events, which are made in a buffer.
fn add_rows<W: Write>(
    kind: Kind,
    front: &[u8],
    found: &FoundEvents,
    buffer: &mut [u8],
    piece: &mut Vec<u8>,
    output: &mut W,
) -> Result<(), Stop>
    requires are { AreEvents found.now }
    ensures lines { (table route : List ℕ) (spans : List Stretch) → front.now ≡ row_front kind table route → SaysSpans found.now spans
        → AddsBytes result (lines_bytes (rows_on table route kind spans)) piece.old.items piece.new.items (W.contents output.old) (W.contents output.new) }
    ensures stops { IfErr result StopsWriting }
{
    for place in 0..found.len() {
        if let Some(span) = found.span_at(place) {
            let row = FileRow {
                lo: span.lo,
                hi: span.hi,
                columns: found.columns(),
                bytes: span.row,
            };
            add_row(kind, front, &row, buffer, piece, output)?;
        }
    }
    Ok(())
}

/// Adds the line of a row, which is made in a buffer, and writes the lines so far once there are enough of them.
fn add_row<W: Write>(
    kind: Kind,
    front: &[u8],
    row: &FileRow<'_>,
    buffer: &mut [u8],
    piece: &mut Vec<u8>,
    output: &mut W,
) -> Result<(), Stop>
    requires says { (said : Row) × FileSays row.now said }
    ensures line { (table route : List ℕ) (said : Row) → front.now ≡ row_front kind table route → FileSays row.now said
        → AddsBytes result (line_bytes (insert table route (location_of kind (stretch row.now.lo row.now.hi said)) said)) piece.old.items piece.new.items (W.contents output.old) (W.contents output.new) }
    ensures stops { IfErr result StopsWriting }
{
    push_row_backwards(piece, buffer, front, kind, row)?;
    if piece.len() < PIECE_BYTES {
        return Ok(());
    }
    put_piece(piece, output)
}

/// Writes the lines so far.
fn put_piece<W: Write>(piece: &mut Vec<u8>, output: &mut W) -> Result<(), Stop>
    ensures puts { PutsBytes result piece.old.items (W.contents output.old) (W.contents output.new) }
    ensures none { OnOk result (piece.new.items ≡ []) }
{
    put_parts(output, &[piece.as_slice()])?;
    piece.clear();
    Ok(())
}

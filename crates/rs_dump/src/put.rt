//! One line is written: that of a route, a referent, a table, an alignment, a view or an index.
//!
//! Each makes its line in a buffer that it is given, in place of what is there.

ghost use Rattle.std.specs.Prelude.{◌≡◌, ◌∷◌, [], ◌++◌, IfErr, IfOk, Ok, false, true};
ghost use Rattle.std.specs.Io.KnownBytes.{Appends};
ghost use Rattle.rs_dump.specs.Written.{PutsBytes, StopsWriting, Writes, WroteFront, fits_line, line_bytes};
ghost use Rattle.rs_dump.specs.declared.stop.Stop.TheVariants.{Refused};
ghost use Rattle.rs_dump_laws.specs.Dump.{alignment_command, route_command};
ghost use Rattle.rs_methods.specs.Position.{absolute};
ghost use Rattle.rs_refusal.specs.declared.refusal.Refusal.TheVariants.{OutOfMemory};
ghost use Rattle.rs_syntax.specs.Tree.{QueryTree, define_index, define_referent, define_table, define_view};

use crate::stop::Stop;
use rs_catalog::{AlignmentEntry, Ends, TableEntry};
use rs_dump_lines::writing::{
    push_alignment_line, push_index_line, push_referent_line, push_route_line, push_table_line,
    push_view_line,
};
use rs_machine::limits::LINE_BYTES;
use rs_measure::Measure;
use rs_methods::Name;
use rs_protocol::put_parts;
use std::io::Write;

/// Writes the line and its LF.
fn put_line<W: Write>(line: &[u8], output: &mut W) -> Result<(), Stop>
    ensures { PutsBytes result (line.now ++ 10 ∷ []) (W.contents output.old) (W.contents output.new) }
{
    put_parts(output, &[line, b"\n"])?;
    Ok(())
}

/// Writes the line of a route.
pub fn put_route<W: Write>(
    line: &mut Vec<u8>,
    name: &Name,
    ends: Ends,
    output: &mut W,
) -> Result<(), Stop>
    ensures { Writes result (route_command (name.now.bytes, ends)) (W.contents output.old) (W.contents output.new) }
{
    line.clear();
    push_route_line(line, name, ends.start(), ends.finish())?;
    put_line(line.as_slice(), output)
}

/// Writes the line of a referent of a route.
pub fn put_referent<W: Write>(
    line: &mut Vec<u8>,
    route: &Name,
    name: &Name,
    measure: Measure,
    output: &mut W,
) -> Result<(), Stop>
    ensures { Writes result (define_referent route.now.bytes name.now.bytes (absolute measure)) (W.contents output.old) (W.contents output.new) }
{
    line.clear();
    push_referent_line(line, route, name, measure)?;
    put_line(line.as_slice(), output)
}

/// Writes the line of a table.
pub fn put_table<W: Write>(
    line: &mut Vec<u8>,
    name: &Name,
    table: &TableEntry,
    output: &mut W,
) -> Result<(), Stop>
    ensures { Writes result (define_table table.now.kind name.now.bytes table.now.columns) (W.contents output.old) (W.contents output.new) }
{
    line.clear();
    push_table_line(line, table.kind(), name, table.columns())?;
    put_line(line.as_slice(), output)
}

/// Writes the line of an alignment, and says whether it did: one that is too long for a line is not written.
pub fn put_alignment<W: Write>(
    line: &mut Vec<u8>,
    name: &Name,
    alignment: &AlignmentEntry,
    output: &mut W,
) -> Result<bool, Stop>
    ensures stops { IfErr result (λ stop. StopsWriting stop × WroteFront stop (line_bytes (alignment_command (name.now.bytes, alignment.now))) (W.contents output.old) (W.contents output.new)) }
    ensures long { fits_line (alignment_command (name.now.bytes, alignment.now)) ≡ false
        → IfErr result (λ stop. (stop ≡ Refused OutOfMemory) × (W.contents output.new ≡ W.contents output.old)) }
    ensures fits { IfOk result (λ fits. fits ≡ fits_line (alignment_command (name.now.bytes, alignment.now))) }
    ensures put { result ≡ Ok true → Appends (W.contents output.old) (W.contents output.new) (line_bytes (alignment_command (name.now.bytes, alignment.now))) }
    ensures kept { result ≡ Ok false → W.contents output.new ≡ W.contents output.old }
{
    line.clear();
    push_alignment_line(line, name, alignment.pieces())?;
    let whole = line.as_slice();
    if whole.len() > LINE_BYTES {
        return Ok(false);
    }
    put_line(whole, output)?;
    Ok(true)
}

/// Writes the line of a view with the text of its query.
pub fn put_view<W: Write>(
    line: &mut Vec<u8>,
    name: &Name,
    text: &str,
    output: &mut W,
) -> Result<(), Stop>
    ensures { (query : QueryTree) → Writes result (define_view name.now.bytes query text.now) (W.contents output.old) (W.contents output.new) }
{
    line.clear();
    push_view_line(line, name, text)?;
    put_line(line.as_slice(), output)
}

/// Writes the line of an index of a column of a table.
pub fn put_index<W: Write>(
    line: &mut Vec<u8>,
    name: &Name,
    table: &Name,
    column: &Name,
    output: &mut W,
) -> Result<(), Stop>
    ensures { Writes result (define_index name.now.bytes table.now.bytes column.now.bytes) (W.contents output.old) (W.contents output.new) }
{
    line.clear();
    push_index_line(line, name, table, column)?;
    put_line(line.as_slice(), output)
}

//! What was read and made so far, and its steps: the header is taken, and lines are written, held or left out.

ghost use Rattle.std.specs.Prelude.{◌≡◌, ◌+◌, ◌++◌, [], ℕ, List, OnErr, OnOk, IfErr, IfOk, IsSome, None, false, true};
ghost use Rattle.std.specs.Io.KnownBytes.{Appends};
ghost use Rattle.csv.specs.Records.{fields_of};
ghost use Rattle.rs_protocol.specs.Puts.{PutsBut};
ghost use Rattle.rs_csv.specs.Output.{Defines, IsPlanOf, IsQuiet, held_lines, table_of};
ghost use Rattle.rs_csv.specs.Routes.{HaveMet};
ghost use Rattle.rs_csv.specs.Stops.{IsFailure, IsMidway};

use crate::filter::{Job, Stop};
use crate::header::make_plan;
use crate::made::{Made, next_number, push_line};
use crate::packing::PackedLines;
use crate::spot::{Lines, LinesRead, Spot};
use crate::tell::tell_record;
use crate::told::Kind;
use csv::ByteRecord;
use rs_csv_lines::Plan;
use rs_protocol::put_parts;
use std::alloc::{AllocError, Global};
use std::io::Write;

/// How the records are made into lines, by their header.
#[derive(Drop)]
pub struct Planned {
    /// What is to be written for each record.
    pub plan: Plan,
    /// The names of the fields.
    pub header: ByteRecord,
    /// The byte between two fields.
    pub separator: u8,
}

/// What was read and made so far.
#[derive(Drop)]
pub struct Progress {
    /// The plan, once the header was read.
    pub planned: Option<Planned>,
    /// What is made of the records.
    pub made: Made,
    /// The lines that are held until the routes are known.
    pub held: PackedLines,
}

impl Progress {
    /// Nothing.
    pub fn new(alloc: Global, defines_routes: bool) -> Self
        ensures planned { result.planned ≡ None }
        ensures bytes { result.made.bytes.items ≡ [] }
        ensures told { result.made.has_told ≡ false }
        ensures number { result.made.number ≡ 0 }
        ensures held { result.held ≡ [] }
        ensures routes { defines_routes ≡ true → HaveMet result.made.extents [] }
    {
        Progress {
            planned: None,
            made: Made::new(alloc, defines_routes),
            held: PackedLines::new(alloc),
        }
    }
}

/// The header, where it was read.
pub fn header_of(planned: Option<Planned>) -> Option<ByteRecord> {
    match planned {
        Some(planned) => Some(planned.header),
        None => None,
    }
}

// Makes the line that defines the table, where it is wanted.
fn put_definition(job: &Job<'_>, bytes: &mut Vec<u8>) -> Result<(), AllocError>
    ensures { OnOk result (Defines job.now.wanted.session (table_of job.now.definition) bytes.old.items bytes.new.items) }
{
    if !job.wanted.defines_table {
        return Ok(());
    }
    push_line(bytes, job.definition.line.as_str())
}

/// Takes the first record, which is the header.
pub fn take_header<E: Write>(
    job: &Job<'_>,
    header: ByteRecord,
    made: &mut Made,
    errors: &mut E,
) -> Result<Planned, Stop>
    ensures stops { IfErr result IsMidway }
    ensures header { IfOk result (λ planned. planned.header ≡ header) }
    ensures plan { IfOk result (λ planned. IsPlanOf job.now.wanted (table_of job.now.definition) (fields_of header) planned.plan) }
    ensures made { OnOk result (Defines job.now.wanted.session (table_of job.now.definition) made.old.bytes.items made.new.bytes.items) }
    ensures number { made.new.number ≡ made.old.number }
    ensures texts { made.new.texts ≡ made.old.texts }
    ensures extents { made.new.extents ≡ made.old.extents }
    ensures quiet { OnOk result (IsQuiet made.old.has_told made.new.has_told (E.contents errors.old) (E.contents errors.new)) }
{
    let scales = job.scales.as_slice();
    let plan = make_plan(
        job.alloc,
        &job.definition,
        &header,
        &job.wanted,
        scales,
        errors,
    )?;
    put_definition(job, &mut made.bytes)?;
    let separator = job.wanted.separator;
    Ok(Planned {
        plan,
        header,
        separator,
    })
}

/// Writes the lines that were made.
pub fn write_made<W: Write>(made: &mut Made, output: &mut W) -> Result<(), Stop>
    ensures stops { IfErr result IsFailure }
    ensures sent { OnOk result ((made.new.bytes.items ≡ []) × Appends (W.contents output.old) (W.contents output.new) made.old.bytes.items) }
    ensures fault { OnErr result ((lost : List ℕ) × PutsBut made.old.bytes.items lost (W.contents output.old) (W.contents output.new)) }
    ensures told { made.new.has_told ≡ made.old.has_told }
    ensures number { made.new.number ≡ made.old.number }
    ensures texts { made.new.texts ≡ made.old.texts }
    ensures extents { made.new.extents ≡ made.old.extents }
{
    match put_parts(output, &[made.bytes.as_slice()]) {
        Ok(()) => {
            made.bytes.clear();
            Ok(())
        }
        Err(fault) => Err(Stop::Stream(fault)),
    }
}

/// Holds the lines that were made until the routes are known.
pub fn hold_made(alloc: Global, progress: &mut Progress) -> Result<(), Stop>
    ensures stops { IfErr result IsFailure }
    ensures held { OnOk result ((progress.new.made.bytes.items ≡ []) × (held_lines progress.new ≡ held_lines progress.old ++ progress.old.made.bytes.items)) }
    ensures plan { progress.new.planned ≡ progress.old.planned }
    ensures told { progress.new.made.has_told ≡ progress.old.made.has_told }
    ensures number { progress.new.made.number ≡ progress.old.made.number }
    ensures texts { progress.new.made.texts ≡ progress.old.made.texts }
    ensures extents { progress.new.made.extents ≡ progress.old.made.extents }
{
    progress.held.add(alloc, progress.made.bytes.as_slice())?;
    progress.made.bytes.clear();
    Ok(())
}

/// Tells of a record that is too long, after which so many lines have ended. There is no header after one that is.
pub fn leave_out_long<E: Write>(
    progress: &mut Progress,
    after: Lines,
    errors: &mut E,
) -> Result<(), Stop>
    ensures stops { IfErr result IsMidway }
    ensures plan { progress.new.planned ≡ progress.old.planned }
    ensures bytes { progress.new.made.bytes.items ≡ progress.old.made.bytes.items }
    ensures told { progress.new.made.has_told ≡ true }
    ensures number { OnOk result (progress.new.made.number ≡ progress.old.made.number + 1) }
    ensures plans { OnOk result (IsSome progress.new.planned) }
    ensures texts { progress.new.made.texts ≡ progress.old.made.texts }
    ensures extents { progress.new.made.extents ≡ progress.old.made.extents }
    ensures held { progress.new.held ≡ progress.old.held }
{
    progress.made.has_told = true;
    let line = progress.made.lines.ended().next_line();
    progress.made.lines = LinesRead::before_text(after);
    if progress.planned.is_none() {
        let spot = Spot { number: 0, line };
        tell_record(errors, spot, Kind::LongRecord.words());
        return Err(Stop::NoColumn);
    }
    progress.made.number = next_number(progress.made.number)?;
    let number = progress.made.number;
    progress.made.told.leave_out();
    if progress.made.told.meet(Kind::LongRecord) {
        let spot = Spot { number, line };
        tell_record(errors, spot, Kind::LongRecord.words());
    }
    Ok(())
}

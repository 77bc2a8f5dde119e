//! A table for the eye, in one pass over CSV.
//!
//! It promises that the text of the whole table is written, unless something fails.

ghost use Rattle.std.specs.Prelude.{◌≡◌, ◌++◌, ◌∷◌, ◌<◌, [], get_or, length, IfOk, IfSome, List, OnOk, Option, ℕ};
ghost use Rattle.std.specs.Io.KnownBytes.{Appends};
ghost use Rattle.csv.specs.Records.{fields_of as fields_read};
ghost use Rattle.rs_csv_table.specs.Fields.{Record};
ghost use Rattle.rs_csv_table.specs.Records.{fields_of, records_of};
ghost use Rattle.rs_csv_table.specs.Steps.{HasRoom, SoFar};
ghost use Rattle.rs_csv_table.specs.Tables.{IsTableOf, ReadsAll, portion_text};

use crate::lines::push_portion;
use csv::{ByteRecord, Error, ReaderBuilder};
use rs_protocol::{Fault, put_parts};
use std::alloc::{AllocError, AllocFailed, Global};
use std::io::{Read, Write};

/// How many records after the header are aligned together, at the most (decision: table-by-portions).
pub const ROWS: usize = 1_000;

/// Why not all of the table was written.
#[derive(Clone, Copy, PartialEq, Eq, Debug)]
pub enum Stop {
    /// A growth was refused.
    OutOfMemory,
    /// The input or the output failed.
    Stream(Fault),
}

/// Want of memory.
impl From<AllocError> for Stop {
    ghost use Rattle.std.specs.Prelude.{◌≡◌};
    ghost use Rattle.rs_csv_table.specs.declared.table.Stop.TheVariants.{OutOfMemory};

    ghost from_gives = { λ _ stop. stop ≡ OutOfMemory };

    fn from(_refused: AllocError) -> Stop {
        Stop::OutOfMemory
    }
}

/// Want of memory. The value that found no room is dropped.
impl<T: Drop> From<AllocFailed<T>> for Stop {
    ghost use Rattle.std.specs.Prelude.{◌≡◌};
    ghost use Rattle.rs_csv_table.specs.declared.table.Stop.TheVariants.{OutOfMemory};

    ghost from_gives = { λ _ stop. stop ≡ OutOfMemory };

    fn from(_refused: AllocFailed<T>) -> Stop {
        Stop::OutOfMemory
    }
}

/// A fault of the output.
impl From<Fault> for Stop {
    ghost use Rattle.std.specs.Prelude.{◌≡◌};
    ghost use Rattle.rs_csv_table.specs.declared.table.Stop.TheVariants.{Stream};

    ghost from_gives = { λ fault stop. stop ≡ Stream fault };

    fn from(fault: Fault) -> Stop {
        Stop::Stream(fault)
    }
}

/// Writes the CSV of the input as a table: its first record, the header, and below it at most 1,000 others, in columns; then, after an empty
/// line, the header again and the next ones. Whatever fails, portions that were whole may be out.
pub fn align_columns<R: Read, W: Write>(
    alloc: Global,
    separator: u8,
    input: &mut R,
    output: &mut W,
) -> Result<(), Stop>
    ensures { OnOk result ((records : List Record) × (text : List ℕ) × IsTableOf records text × Appends (W.contents output.old) (W.contents output.new) text
        × IfSome (R.remaining input.old) (λ bytes. ReadsAll separator bytes records)) }
{
    let mut reader = ReaderBuilder::new()
        .delimiter(separator)
        .has_headers(false)
        .flexible(true)
        .from_reader(alloc, input);
    let mut record = ByteRecord::new(alloc);
    let mut held = Vec::new(alloc);
    for _ in 0..u64::MAX {
        match reader.read_byte_record(&mut record) {
            Ok(true) => take_record(alloc, &mut held, &record, output)?,
            Ok(false) => return put_portion(alloc, held.as_slice(), output),
            Err(error) => return Err(stop_of(&error)),
        }
    }
    Err(Stop::Stream(Fault::Read))
}

/// Why reading failed.
fn stop_of(error: &Error) -> Stop {
    if error.is_io_error() {
        Stop::Stream(Fault::Read)
    } else {
        Stop::OutOfMemory
    }
}

/// Takes a record: before it a full portion is written.
fn take_record<W: Write>(
    alloc: Global,
    held: &mut Vec<Vec<Vec<u8>>>,
    record: &ByteRecord,
    output: &mut W,
) -> Result<(), Stop>
    ensures { OnOk result ((read : List Record) (before : Option (List ℕ)) → SoFar read (records_of held.old.items) before (W.contents output.old)
        → SoFar (read ++ fields_read record.now ∷ []) (records_of held.new.items) before (W.contents output.new)) }
{
    make_room(alloc, held, output)?;
    let fields = fields_in(alloc, record)?;
    held.push(fields)?;
    Ok(())
}

/// Makes room for one record more: a full portion is written, with an empty line after it, and its header stays.
fn make_room<W: Write>(
    alloc: Global,
    held: &mut Vec<Vec<Vec<u8>>>,
    output: &mut W,
) -> Result<(), Stop>
    ensures { OnOk result ((read : List Record) (before : Option (List ℕ)) → SoFar read (records_of held.old.items) before (W.contents output.old)
        → HasRoom read (records_of held.new.items) before (W.contents output.new)) }
{
    if held.len() <= ROWS {
        return Ok(());
    }
    put_portion(alloc, held.as_slice(), output)?;
    put_parts(output, &[b"\n"])?;
    held.truncate(1);
    Ok(())
}

/// The fields of a record.
fn fields_in(alloc: Global, record: &ByteRecord) -> Result<Vec<Vec<u8>>, AllocError>
    ensures { IfOk result (λ fields. fields_of fields.items ≡ fields_read record.now) }
{
    let mut fields = Vec::new(alloc);
    for place in 0..record.len() {
        let field = Vec::from_slice(alloc, field_at(record, place))?;
        fields.push(field)?;
    }
    Ok(fields)
}

/// A field of a record.
fn field_at(record: &ByteRecord, place: usize) -> &[u8]
    requires { place < length (fields_read record.now) }
    ensures { result.now ≡ get_or (fields_read record.now) place [] }
{
    match record.get(place) {
        Some(field) => field,
        None => unreachable!(),
    }
}

/// Writes a portion.
fn put_portion<W: Write>(
    alloc: Global,
    records: &[Vec<Vec<u8>>],
    output: &mut W,
) -> Result<(), Stop>
    ensures { OnOk result (Appends (W.contents output.old) (W.contents output.new) (portion_text (records_of records.now))) }
{
    let mut text = Vec::new(alloc);
    push_portion(alloc, &mut text, records)?;
    put_parts(output, &[text.as_slice()])?;
    Ok(())
}

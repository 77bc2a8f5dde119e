//! The word `table`: the columns of CSV are aligned for the eye.

ghost use Rattle.std.specs.Prelude.{◌≡◌};
ghost use Rattle.std.specs.Option.{option_map};
ghost use Rattle.std.specs.Io.KnownBytes.{Keeps};
ghost use Rattle.rs_server.specs.Aligning.{AlignsInput};

use crate::report::{Failure, MISUSE, SUCCESS, report_failure};
use rs_command_line::separator_of;
use rs_csv_table::{Stop, align_columns};
use rs_protocol::put_parts;
use rs_refusal::Refusal;
use std::alloc::Global;
use std::io::{Read, Write};

/// Writes the CSV of the input as a table, and gives the exit status: 1 for a failure, 2 where a text is no separator.
pub fn align<R: Read, W: Write, E: Write>(
    alloc: Global,
    separator: Option<&str>,
    input: &mut R,
    output: &mut W,
    errors: &mut E,
) -> u8
    ensures table { AlignsInput (option_map (λ t. t.now) separator.entry) result (R.remaining input.old) (R.remaining input.new) (W.contents output.old) (W.contents output.new) }
    ensures quiet { result ≡ SUCCESS → Keeps (E.contents errors.old) (E.contents errors.new) }
{
    let Some(byte) = separator_of(separator.unwrap_or(",")) else {
        return refuse_separator(errors);
    };
    match align_columns(alloc, byte, input, output) {
        Ok(()) => SUCCESS,
        Err(Stop::OutOfMemory) => {
            report_failure(errors, &Failure::Refused(Refusal::OutOfMemory))
        }
        Err(Stop::Stream(fault)) => report_failure(errors, &Failure::Stream(fault)),
    }
}

/// Says that a text is no separator.
fn refuse_separator<E: Write>(errors: &mut E) -> u8
    ensures { result ≡ MISUSE }
{
    let _ = put_parts(
        errors,
        &[b"error: the separator is no byte that parts fields, nor tab\n"],
    );
    MISUSE
}

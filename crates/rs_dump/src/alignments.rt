//! The lines of alignments. One that is too long for a line is left out and told.

ghost use Rattle.std.specs.Prelude.{◌≡◌, ◌≢◌, ◌∷◌, [], false, true, IfOk, MatchResult, map};
ghost use Rattle.std.specs.FinMap as names;
ghost use Rattle.rs_dump.specs.Alignments.{Steps, fitting, too_long};
ghost use Rattle.rs_dump.specs.Views.{names_of};
ghost use Rattle.rs_dump.specs.Written.{StopsWriting, WritesAll, WroteFront, lines_bytes};
ghost use Rattle.rs_dump_laws.specs.Dump.{alignment_command};

use crate::put::put_alignment;
use crate::stop::Stop;
use crate::tell::tell_alignment;
use rs_catalog::{AlignmentEntry, Catalog};
use rs_methods::Name;
use rs_refusal::Refusal;
use std::alloc::Global;
use std::io::Write;

/// Writes the lines of the alignments that fit, in the order of their names, and gives the names of those that do not.
pub fn write_alignments<W: Write>(
    alloc: Global,
    catalog: &Catalog,
    output: &mut W,
) -> Result<Vec<Name>, Stop>
    ensures lines { WritesAll result (map alignment_command (fitting (names.entries catalog.now.alignments))) (W.contents output.old) (W.contents output.new) }
    ensures left { IfOk result (λ left_out. names_of left_out.items ≡ map (λ entry. entry.0) (too_long (names.entries catalog.now.alignments))) }
{
    let mut left_out = Vec::new(alloc);
    let mut line = Vec::new(alloc);
    for (name, alignment) in catalog.alignments() {
        write_alignment(name, alignment, &mut line, &mut left_out, output)?;
    }
    Ok(left_out)
}

/// Writes the line of an alignment, or notes that it is too long for one.
fn write_alignment<W: Write>(
    name: &Name,
    alignment: &AlignmentEntry,
    line: &mut Vec<u8>,
    left_out: &mut Vec<Name>,
    output: &mut W,
) -> Result<(), Stop>
    ensures { MatchResult result (λ _. Steps (name.now.bytes, alignment.now) left_out.old.items left_out.new.items (W.contents output.old) (W.contents output.new))
        (λ stop. StopsWriting stop × WroteFront stop (lines_bytes (map alignment_command (fitting ((name.now.bytes, alignment.now) ∷ [])))) (W.contents output.old) (W.contents output.new)) }
{
    if put_alignment(line, name, alignment, output)? {
        return Ok(());
    }
    left_out.push(*name)?;
    Ok(())
}

/// Tells of the alignments that were left out, and says whether there are any.
pub fn tell_left_out<E: Write>(left_out: &[Name], errors: &mut E) -> bool
    ensures none { result ≡ false → left_out.now ≡ [] }
    ensures some { result ≡ true → left_out.now ≢ [] }
    ensures quiet { result ≡ false → E.contents errors.new ≡ E.contents errors.old }
{
    match left_out {
        [] => false,
        _ => {
            tell_each(left_out, errors);
            true
        }
    }
}

/// Tells of these alignments that they are too long for a line.
fn tell_each<E: Write>(left_out: &[Name], errors: &mut E) {
    for name in left_out {
        tell_alignment(errors, name, &Refusal::LineTooLong);
    }
}

//! The word `dump`: what it does, and how it ends.

ghost use Rattle.std.specs.Prelude.{◌≡◌, ◌⊎◌, IsTrue, false};
ghost use Rattle.std.specs.Option.{option_map};
ghost use Rattle.std.specs.Io.KnownBytes.{Keeps};
ghost use Rattle.rs_file_dump.specs.Files.{DumpsDisk};
ghost use Rattle.rs_pages.specs.declared.pages.TheConstants.{GREATEST_LIMIT};
ghost use Rattle.rs_server.specs.Dumping.{FailsToDump};

use crate::report::{FAILED, Failure, SUCCESS, report_failure};
use rs_disk::Disk;
use rs_dump::{Stop, Wanted};
use rs_file_dump::dump_file;
use std::alloc::Global;
use std::io::Write;

/// Writes the lines that rebuild what the file on a disk holds, and gives the exit status.
///
/// 0 where all that was wanted is written and nothing was told; 1 where a view or an alignment was told and left out, or for a failure.
/// The disk is looked at, and nothing is written to it.
pub fn dump_on<D: Disk + Drop, W: Write, E: Write>(
    alloc: Global,
    disk: D,
    wanted: Wanted<'_>,
    output: &mut W,
    errors: &mut E,
) -> u8
    ensures dumps { IsTrue (D.is_honest disk) → result ≡ SUCCESS
        → DumpsDisk GREATEST_LIMIT (D.seen disk) (option_map (λ t. t.now) wanted.entry.table) wanted.entry.omits_rows false (W.contents output.old) (W.contents output.new) }
    ensures fails { IsTrue (D.is_honest disk) → result ≡ FAILED
        → FailsToDump GREATEST_LIMIT (D.seen disk) (option_map (λ t. t.now) wanted.entry.table) wanted.entry.omits_rows (W.contents output.old) (W.contents output.new) }
    ensures status { (result ≡ SUCCESS) ⊎ (result ≡ FAILED) }
    ensures quiet { result ≡ SUCCESS → Keeps (E.contents errors.old) (E.contents errors.new) }
{
    match dump_file(alloc, disk, wanted, output, errors) {
        Ok(false) => SUCCESS,
        Ok(true) => FAILED,
        Err(Stop::Refused(refusal)) => report_failure(errors, &Failure::Refused(refusal)),
        Err(Stop::Stream(fault)) => report_failure(errors, &Failure::Stream(fault)),
    }
}

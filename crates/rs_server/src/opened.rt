//! A file as it was opened, over any disk in its place: the disk is closed, served or dumped, or the failure is told.

ghost use Rattle.std.specs.Prelude.{◌≡◌, map};
ghost use Rattle.std.specs.Option.{option_map};
ghost use Rattle.std.specs.Io.KnownBytes.{Keeps};
ghost use Rattle.rs_server.specs.Disks.{told_of};
ghost use Rattle.rs_server.specs.Opened.{AsksOpened, CreatesOpened, DumpsOpened, ServesOpened, ServesOpenedAt};

use crate::asking::ask_on;
use crate::disks::{create_on, serve_disk, serve_disk_at};
use crate::dumping::dump_on;
use crate::report::{Failure, SUCCESS, report_failure};
use rs_disk::Disk;
use rs_dump::Wanted;
use std::alloc::{AllocGlobal, Global};
use std::io::{Read, Write};
use std::net::{Net, TcpListener, TcpStream};
use std::time::Clock;

/// Writes the file in which nothing is defined on a disk that was made for it, and closes it, as `create_on` does.
pub(crate) fn create_opened<'a, D: Disk + Drop>(
    alloc: Global,
    opened: Result<D, Failure<'a>>,
) -> Option<Failure<'a>>
    ensures { CreatesOpened D.Disk opened.entry result }
{
    match opened {
        Ok(disk) => failure_in(create_on(alloc, disk)),
        Err(failure) => Some(failure),
    }
}

/// Serves the input on the output over a disk that was opened, and closes it, as `serve_disk` does.
pub(crate) fn serve_opened<'a, D: Disk + Drop, R: Read, W: Write>(
    alloc: Global,
    opened: Result<D, Failure<'a>>,
    input: &mut R,
    output: &mut W,
) -> Option<Failure<'a>>
    ensures { ServesOpened D.Disk opened.entry result (R.remaining input.old) (R.remaining input.new) (W.contents output.old) (W.contents output.new) }
{
    match opened {
        Ok(disk) => failure_in(serve_disk(alloc, disk, input, output)),
        Err(failure) => Some(failure),
    }
}

/// Serves so many connections at an address over a disk that was opened, and closes it, as `serve_disk_at` does.
pub(crate) fn serve_opened_at<
    'a,
    P: AllocGlobal + Clock + Net<Listener = TcpListener, Stream = TcpStream>,
    D: Disk + Drop,
    W: Write,
>(
    rt: &P,
    opened: Result<D, Failure<'a>>,
    address: &'a str,
    connections: u32,
    output: &mut W,
) -> Option<Failure<'a>>
    ensures { ServesOpenedAt D.Disk address.entry connections opened.entry result (W.contents output.old) (W.contents output.new) }
{
    match opened {
        Ok(disk) => failure_in(serve_disk_at(rt, disk, address, connections, output)),
        Err(failure) => Some(failure),
    }
}

/// Dumps a disk that was opened for reading, as `dump_on` does, and gives the exit status.
pub(crate) fn dump_opened<D: Disk + Drop, W: Write, E: Write>(
    alloc: Global,
    opened: Result<D, Failure<'_>>,
    wanted: Wanted<'_>,
    output: &mut W,
    errors: &mut E,
) -> u8
    ensures dumps { DumpsOpened D.Disk (option_map (λ t. t.now) wanted.entry.table) wanted.entry.omits_rows opened.entry result
        (W.contents output.old) (W.contents output.new) (E.contents errors.old) (E.contents errors.new) }
    ensures quiet { result ≡ SUCCESS → Keeps (E.contents errors.old) (E.contents errors.new) }
{
    match opened {
        Ok(disk) => dump_on(alloc, disk, wanted, output, errors),
        Err(failure) => report_failure(errors, &failure),
    }
}

/// Answers questions from a disk that was opened for reading, as `ask_on` does, and gives the exit status.
pub(crate) fn ask_opened<D: Disk + Drop, W: Write, E: Write>(
    alloc: Global,
    opened: Result<D, Failure<'_>>,
    questions: &[&str],
    output: &mut W,
    errors: &mut E,
) -> u8
    ensures asks { AsksOpened D.Disk (map (λ question. question.now) questions.now) opened.entry result
        (W.contents output.old) (W.contents output.new) (E.contents errors.old) (E.contents errors.new) }
    ensures quiet { result ≡ SUCCESS → Keeps (E.contents errors.old) (E.contents errors.new) }
{
    match opened {
        Ok(disk) => ask_on(alloc, disk, questions, output, errors),
        Err(failure) => report_failure(errors, &failure),
    }
}

/// What failed, if anything did.
pub(crate) fn failure_in<'a, D: Drop>(
    ended: Result<D, (Option<D>, Failure<'a>)>,
) -> Option<Failure<'a>>
    ensures { result ≡ told_of ended.entry }
{
    match ended {
        Ok(_) => None,
        Err((_, failure)) => Some(failure),
    }
}

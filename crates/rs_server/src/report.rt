//! What the program says of a failure on the errors stream.
//!
//! The status does not depend on that stream: a write to it that fails is ignored.

ghost use Rattle.std.specs.Prelude.{◌≡◌, ◌≢◌, ◌++◌};
ghost use Rattle.std.specs.IoError.{error_kind};
ghost use Rattle.rs_protocol.specs.Puts.{Puts};
ghost use Rattle.rs_server.specs.Files.{IsNotMade, IsNotOpened};
ghost use Rattle.rs_server.specs.Saying.{failure_line, place_line, refusal_line, SaysFront};

use crate::reasons::{Reason, why_not_made, why_not_opened};
use itoa::Buffer;
use rs_disk::OpenError;
use rs_protocol::{Fault, put_parts};
use rs_refusal::Refusal;
use std::fs::File;
use std::io;
use std::io::{ErrorKind, Write};
use std::rt::Files;

/// The status of a program that did what was asked.
pub const SUCCESS: u8 = 0;

/// The status of a program that a failure ended.
pub const FAILED: u8 = 1;

/// The status of a program whose command line is refused.
pub const MISUSE: u8 = 2;

// decision: first-failure
/// Why the program did not do all that its words ask.
#[derive(Drop)]
pub enum Failure<'a> {
    /// A file was not made, opened, or closed: want of memory, of the disk or of room, a damaged file, or one that was not closed.
    Refused(Refusal),
    /// There is something at the path where a file was to be made.
    FileExists,
    /// The file was not opened, or not made.
    CannotOpen { file: &'a str, why: Reason },
    /// The address was not bound.
    CannotListen { address: &'a str, why: Reason },
    /// The system lacked descriptors or memory for each connection that was to be accepted.
    CannotAccept,
    /// The input or the output failed.
    Stream(Fault),
}

/// Why a file was not opened, as the program says it.
pub(crate) fn failure_to_open<'a, R: Files<File = File>>(
    rt: &R,
    file: &'a str,
    error: OpenError,
) -> Failure<'a>
    ensures { IsNotOpened file.now result }
{
    let why = why_not_opened(rt, file, error);
    Failure::CannotOpen { file, why }
}

/// Why a file was not made, as the program says it.
pub(crate) fn failure_to_make<'a, R: Files<File = File>>(
    rt: &R,
    file: &'a str,
    error: OpenError,
) -> Failure<'a>
    ensures { IsNotMade file.now result }
{
    match error {
        OpenError::Exists => Failure::FileExists,
        OpenError::FolderNotSynced => Failure::Refused(Refusal::Disk),
        _ => {
            let why = why_not_made(rt, file);
            Failure::CannotOpen { file, why }
        }
    }
}

/// Says on the errors stream why the program failed, in a line that begins with `roadseg: `, and gives the status of a failure. A second
/// such line says of a file that was not opened, or of an address that was not bound, which one it is and why.
pub fn report_failure<E: Write>(errors: &mut E, failure: &Failure<'_>) -> u8
    ensures status { result ≡ FAILED }
    ensures said { SaysFront (failure_line failure.now) (E.contents errors.old) (E.contents errors.new) }
{
    let _ = say_failure(errors, failure);
    FAILED
}

/// Writes the lines of a failure.
fn say_failure<E: Write>(errors: &mut E, failure: &Failure<'_>) -> Result<(), Fault>
    ensures { Puts result (failure_line failure.now) (E.contents errors.old) (E.contents errors.new) }
{
    match failure {
        Failure::Refused(refusal) => say_refusal(errors, refusal),
        Failure::FileExists => put_parts(errors, &[b"roadseg: file exists\n"]),
        Failure::CannotOpen { file, why } => {
            say_place(errors, b"roadseg: cannot open file\n", file, why.words())
        }
        Failure::CannotListen { address, why } => {
            say_place(errors, b"roadseg: cannot listen\n", address, why.words())
        }
        Failure::CannotAccept => put_parts(errors, &[b"roadseg: cannot accept\n"]),
        Failure::Stream(Fault::Read) => put_parts(errors, &[b"roadseg: read fault\n"]),
        Failure::Stream(Fault::Write) => put_parts(errors, &[b"roadseg: write fault\n"]),
    }
}

/// Writes a line, and one that names a file or an address with what is wrong with it.
fn say_place<'a, E: Write>(
    errors: &mut E,
    line: &'a [u8],
    place: &'a str,
    words: &'a str,
) -> Result<(), Fault>
    ensures { Puts result (line.now ++ place_line place.now words.now) (E.contents errors.old) (E.contents errors.new) }
{
    put_parts(
        errors,
        &[
            line,
            b"roadseg: ",
            place.as_bytes(),
            b": ",
            words.as_bytes(),
            b"\n",
        ],
    )
}

/// Writes the line of a refusal.
fn say_refusal<E: Write>(errors: &mut E, refusal: &Refusal) -> Result<(), Fault>
    ensures { Puts result (refusal_line refusal.now) (E.contents errors.old) (E.contents errors.new) }
{
    let mut digits = Buffer::new();
    let number = digits.format(refusal.number()).as_bytes();
    let words = refusal.words();
    let words_text = words.as_str().as_bytes();
    put_parts(errors, &[b"roadseg: ERR ", number, b" ", words_text, b"\n"])
}

/// Says why the process gave no words, and gives the status: want of memory is the refusal 90 and a
/// failure, and words that are not text are no command line.
pub fn report_unread_words<E: Write>(errors: &mut E, error: &io::Error) -> u8
    ensures wanting { error_kind error.now ≡ ErrorKind.OutOfMemory → result ≡ FAILED }
    ensures said { error_kind error.now ≡ ErrorKind.OutOfMemory
        → SaysFront (refusal_line Refusal.OutOfMemory) (E.contents errors.old) (E.contents errors.new) }
    ensures mistaken { error_kind error.now ≢ ErrorKind.OutOfMemory → result ≡ MISUSE }
{
    if error.kind() == ErrorKind::OutOfMemory {
        return report_failure(errors, &Failure::Refused(Refusal::OutOfMemory));
    }
    let _ = errors.write_all(b"error: the command line is not text\n");
    MISUSE
}

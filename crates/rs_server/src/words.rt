//! The words `csv` and `explain`: what they do, and how they end.

ghost use Rattle.std.specs.Prelude.{◌≡◌, ◌≢◌, ◌<◌, IfOk, IfSome, Ok, false};
ghost use Rattle.std.specs.Io.KnownBytes.{Keeps};
ghost use Rattle.rs_server.specs.Ending.{WritesLines, encoding_of};

use crate::file_system::FileSystem;
use crate::report::{FAILED, Failure, MISUSE, SUCCESS, report_failure};
use itoa::Buffer;
use rs_command_line::{CsvWords, separator_of};
use rs_csv::{MadeNames, Stop, Wanted, write_lines, write_names};
use rs_encodings::{Decoded, Encoding};
use rs_explain::{ALL, cure_by_csv, explain};
use rs_protocol::{Fault, put_parts};
use rs_refusal::Refusal;
use std::alloc::{AllocGlobal, Global};
use std::io::{Read, Write};

/// Makes the CSV of the input into lines on the output, and gives the exit status.
///
/// 0 where nothing was told and left out; 1 where something was told and left out, where the header lacks a column, or for a failure; 2 where the
/// words define no table, or name no session or no separator. Records that are left out, and names that are made, go into files where the
/// words name such.
pub(crate) fn convert<P: AllocGlobal + FileSystem, R: Read, W: Write, E: Write>(
    rt: &P,
    words: &CsvWords<'_>,
    input: &mut R,
    output: &mut W,
    errors: &mut E,
) -> u8
    ensures lines { WritesLines (encoding_of words.now.is_latin1) result (R.remaining input.old) (R.remaining input.new) (W.contents output.old) (W.contents output.new) }
    ensures quiet { result ≡ SUCCESS → words.now.rounds ≡ false → Keeps (E.contents errors.old) (E.contents errors.new) }
{
    let wanted = match wanted_by(words) {
        Ok(wanted) => wanted,
        Err(line) => return refuse(errors, line),
    };
    let mut rejects = match text_file(rt, words.rejects) {
        Ok(rejects) => rejects,
        Err(failure) => return report_failure(errors, &failure),
    };
    let names_file = match text_file(rt, words.names_file) {
        Ok(names_file) => names_file,
        Err(failure) => return report_failure(errors, &failure),
    };
    let mut text = Decoded::new(input, encoding_of(words.is_latin1));
    let mut names = MadeNames::new(rt.alloc());
    let result = write_lines(
        rt.alloc(),
        wanted,
        &mut text,
        output,
        errors,
        &mut rejects,
        &mut names,
    );
    let named = put_names(rt.alloc(), &names, names_file);
    status_after(errors, words, result, named)
}

// The exit status after the lines, of which it is known whether something was left out, and after the names. What stopped the lines is told,
// or else what stopped the names.
fn status_after<E: Write>(
    errors: &mut E,
    words: &CsvWords<'_>,
    lines: Result<bool, Stop>,
    named: Result<(), Stop>,
) -> u8
    ensures lines { result ≡ SUCCESS → lines ≡ Ok false }
    ensures quiet { result ≡ SUCCESS → Keeps (E.contents errors.old) (E.contents errors.new) }
{
    match lines {
        Ok(lacks) => match named {
            Ok(()) if lacks => FAILED,
            Ok(()) => SUCCESS,
            Err(stop) => tell_stop(errors, words, stop),
        },
        Err(stop) => tell_stop(errors, words, stop),
    }
}

// The file of a name, where one is given, made for text.
fn text_file<'a, P: FileSystem>(
    rt: &P,
    file: Option<&'a str>,
) -> Result<Option<P::Text>, Failure<'a>> {
    match file {
        Some(file) => Ok(Some(rt.make_text(file)?)),
        None => Ok(None),
    }
}

// Writes the names that were made, where a file for them is given.
fn put_names<X: Write + Drop>(
    alloc: Global,
    names: &MadeNames,
    names_file: Option<X>,
) -> Result<(), Stop> {
    match names_file {
        Some(mut file) => write_names(alloc, names, &mut file),
        None => Ok(()),
    }
}

// Says why not all was done, and gives the exit status. What the header lacks was told.
fn tell_stop<E: Write>(errors: &mut E, words: &CsvWords<'_>, stop: Stop) -> u8
    ensures { result ≢ SUCCESS }
{
    match stop {
        Stop::NoColumn => FAILED,
        Stop::NoTable => refuse(errors, b"error: the words define no table\n"),
        Stop::Refused(refusal) => refuse_definition(errors, words, &refusal),
        Stop::NoScale => refuse(
            errors,
            b"error: a scale is no column of numbers with 1, 10, 100 and so on up to 1000000\n",
        ),
        Stop::NoNumber => refuse(
            errors,
            b"error: --number names no column of numbers of the table\n",
        ),
        Stop::OutOfMemory => { report_failure(errors, &Failure::Refused(Refusal::OutOfMemory)) }
        Stop::Stream(fault) => report_failure(errors, &Failure::Stream(fault)),
    }
}

// How the input is encoded.
fn encoding_of(is_latin1: bool) -> Encoding
    ensures { result ≡ encoding_of is_latin1 }
{
    if is_latin1 {
        Encoding::Latin1
    } else {
        Encoding::ByMark
    }
}

// What is to be made of a CSV, or what is wrong with the words.
fn wanted_by<'a>(words: &'a CsvWords<'a>) -> Result<Wanted<'a>, &'static [u8]>
    ensures session { IfOk result (λ wanted. wanted.session < 64) }
    ensures rounds { IfOk result (λ wanted. wanted.rounds ≡ words.now.rounds) }
{
    let Some(session) = session_of(words.session.unwrap_or("0")) else {
        return Err(b"error: the session is no number from 0 to 63\n");
    };
    let Some(separator) = separator_of(words.separator.unwrap_or(",")) else {
        return Err(b"error: the separator is no byte that parts fields, nor tab\n");
    };
    let stations = stations_of(words.stations)?;
    if is_one_file(words.rejects, words.names_file) {
        return Err(b"error: --rejects and --names-file name one file\n");
    }
    Ok(Wanted {
        define: words.define.unwrap_or(""),
        session,
        route: words.route.unwrap_or("route"),
        from: words.from.unwrap_or("from"),
        to: words.to.unwrap_or("to"),
        at: words.at.unwrap_or("at"),
        separator,
        columns: words.columns.as_slice(),
        scales: words.scales.as_slice(),
        number: words.number,
        defines_table: !words.omits_definition,
        defines_routes: words.defines_routes,
        rounds: words.rounds,
        stations,
        makes_names: words.makes_names || words.names_file.is_some(),
    })
}

// Whether both files are given by one name.
fn is_one_file(rejects: Option<&str>, names_file: Option<&str>) -> bool {
    match (rejects, names_file) {
        (Some(rejects), Some(names_file)) => rejects == names_file,
        _ => false,
    }
}

// Says how `run` refuses the line that defines the table.
fn refuse_definition<E: Write>(errors: &mut E, words: &CsvWords<'_>, refusal: &Refusal) -> u8
    ensures { result ≡ MISUSE }
{
    let mut digits = Buffer::new();
    let number = digits.format(refusal.number()).as_bytes();
    let said = refusal.words();
    let session = words.session.unwrap_or("0").as_bytes();
    let define = words.define.unwrap_or("").as_bytes();
    let _ = put_parts(
        errors,
        &[b"error: ERR ", number, b" ", said.as_str().as_bytes()],
    );
    let _ = put_parts(errors, &[b": ", session, b" ", define, b"\n"]);
    MISUSE
}

// How many units a station has, where a text says so.
fn stations_of(text: Option<&str>) -> Result<Option<u32>, &'static [u8]> {
    let Some(text) = text else {
        return Ok(None);
    };
    match text.parse::<u32>() {
        Ok(units) if units >= 1 && units <= 1_000_000 => Ok(Some(units)),
        _ => Err(b"error: a station has a whole number of units from 1 to 1000000\n"),
    }
}

// The session that a text names.
fn session_of(text: &str) -> Option<u8>
    ensures { IfSome result (λ session. session < 64) }
{
    match text.parse::<u8>() {
        Ok(session) if session < 64 => Some(session),
        _ => None,
    }
}

// Says what is wrong with the words.
fn refuse<E: Write>(errors: &mut E, line: &[u8]) -> u8
    ensures { result ≡ MISUSE }
{
    let _ = put_parts(errors, &[line]);
    MISUSE
}

/// Says what a refusal means, or what each does, and gives the exit status: 2 where there is none of that number.
pub(crate) fn explain_refusal<W: Write, E: Write>(
    number: Option<&str>,
    output: &mut W,
    errors: &mut E,
) -> u8
    ensures { result ≡ SUCCESS → Keeps (E.contents errors.old) (E.contents errors.new) }
{
    let mut is_known = number.is_none();
    for refusal in ALL.as_slice() {
        if is_asked(refusal, number) {
            is_known = true;
            if let Err(fault) = say(refusal, output) {
                return report_failure(errors, &Failure::Stream(fault));
            }
        }
    }
    if is_known {
        SUCCESS
    } else {
        refuse(errors, b"error: no refusal has this number\n")
    }
}

// Whether it is asked what this refusal means.
fn is_asked(refusal: &Refusal, number: Option<&str>) -> bool {
    let mut digits = Buffer::new();
    match number {
        Some(number) => digits.format(refusal.number()) == number,
        None => true,
    }
}

// Writes what a refusal means.
fn say<W: Write>(refusal: &Refusal, output: &mut W) -> Result<(), Fault> {
    let mut digits = Buffer::new();
    let number = digits.format(refusal.number()).as_bytes();
    let words = refusal.words();
    let form = form_of(refusal, words.as_str());
    let said = explain(refusal);
    put_parts(output, &[number, b" ", form.as_bytes(), b"\n"])?;
    put_parts(output, &[b"    ", said.meaning.as_bytes(), b"\n"])?;
    put_parts(output, &[b"    Look at: ", said.look.as_bytes(), b"\n"])?;
    put_parts(output, &[b"    Refused: ", said.refused.as_bytes(), b"\n"])?;
    put_parts(output, &[b"    Mended:  ", said.mended.as_bytes(), b"\n"])?;
    match cure_by_csv(refusal) {
        Some(cure) => put_parts(output, &[b"    By csv:  ", cure.as_bytes(), b"\n"]),
        None => Ok(()),
    }
}

/// The words of a refusal, with C in the place of the column of a syntax fault.
pub(crate) fn form_of<'a>(refusal: &Refusal, words: &'a str) -> &'a str {
    match refusal {
        Refusal::Syntax(_) => "syntax at C",
        _ => words,
    }
}

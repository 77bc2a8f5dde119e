//! The program: its words are read, then what they ask is done.
//!
//! The status says how it ended: 0, 1 for a failure, 2 for a command line that is refused. The first failure alone is told.

ghost use Rattle.std.specs.Prelude.{◌≡◌, ◌⊎◌, Option, None, Some, false, true, map, IfSome, OnOk};
ghost use Rattle.std.specs.Option.{option_map};
ghost use Rattle.std.specs.Io.KnownBytes.{Appends, Keeps};
ghost use Rattle.clap.specs.Words.{fault_of};
ghost use Rattle.rs_command_line.specs.Asked.{asked_of, said_by};
ghost use Rattle.rs_command_line.specs.CommandLine.{command_line};
ghost use Rattle.rs_command_line.specs.declared.command_line.Asked.{Asked};
ghost use Rattle.rs_server.specs.Ending.{EndsAs, EndsBy, EndsDoing, EndsWatched, EndsWith, IsQuiet, IsQuietAs, Runs, RunsOver, RunsWatched, SaysMore};
ghost use Rattle.rs_server.specs.Opened.{AsksNamed, CreatesNamed, DumpsNamed, ServesNamed, ServesNamedAt};

use crate::aligning::align;
use crate::as_csv::run_as_csv;
use crate::asking::refuse_question;
use crate::disks::failure_after;
use crate::file_system::{FileSystem, Opening};
use crate::opened::{ask_opened, create_opened, dump_opened, serve_opened, serve_opened_at};
use crate::report::{FAILED, Failure, MISUSE, SUCCESS, report_failure};
use crate::tally::Tally;
use crate::watch::{Line, LineByLine, Watched};
use crate::words::{convert, explain_refusal};
use clap::Error;
use clap::error::ErrorKind;
use rs_command_line::{Asked, read_words};
use rs_csv_answers::first_other;
use rs_disk::{Disk, MemoryDisk};
use rs_dump::Wanted;
use rs_engine::Engine;
use rs_engine::engine::laws::machine_is_the_only_one;
use rs_protocol::{Fault, put_parts, run};
use rs_refusal::Refusal;
use std::alloc::{AllocGlobal, Global};
use std::cell::RefCell;
use std::convert::AsStr;
use std::fmt::Display;
use std::io;
use std::io::{Read, Write};
use std::net::{Net, TcpListener, TcpStream};
use std::time::Clock;

// decision: one-engine
/// Runs the program on its words, the program's own name first, and gives its exit status.
///
/// 0 also after help or the version, which are shown on the output, and after an input that ends inside a line; 1 for a failure, which
/// is said in one line on the errors stream, for want of memory in reading the words, and where `--bail` or `--report` watches a run
/// that refused a line; 2 where the words are no command line, of which `clap` says on the errors stream what is wrong. A write to the
/// errors stream that fails changes nothing.
pub fn program<
    P: AllocGlobal + Clock + FileSystem<Held = D> + Net<Listener = TcpListener, Stream = TcpStream>,
    D: Disk + Drop,
    S: AsStr,
    R: Read,
    W: Write,
    E: Write,
>(rt: &P, words: &[S], input: &mut R, output: &mut W, errors: &mut E) -> u8
    ensures ends { EndsBy D.Disk (P.gives rt.now) (fault_of command_line (map S.text words.now)) (λ asked. asked_of (map S.text words.now) ≡ Some (said_by asked)) result
        (R.remaining input.old) (R.remaining input.new) (W.contents output.old) (W.contents output.new)
        (E.contents errors.old) (E.contents errors.new) }
    ensures quiet { result ≡ SUCCESS → Keeps (E.contents errors.old) (E.contents errors.new) ⊎ SaysMore (asked_of (map S.text words.now)) }
{
    let asked = read_words(rt.alloc(), words);
    do_as_asked(rt, asked, words, input, output, errors)
}

/// Does what the words ask, as they were read, and gives the exit status.
///
/// It does it wherever they ask it; want of memory is said where reading them answered it, and nowhere else. Of words that are refused
/// the errors stream says more where they name a file without `--file`.
pub fn do_as_asked<
    P: AllocGlobal + Clock + FileSystem<Held = D> + Net<Listener = TcpListener, Stream = TcpStream>,
    D: Disk + Drop,
    S: AsStr,
    R: Read,
    W: Write,
    E: Write,
>(
    rt: &P,
    asked: Result<Asked<'_>, Error>,
    words: &[S],
    input: &mut R,
    output: &mut W,
    errors: &mut E,
) -> u8
    ensures ends { EndsAs D.Disk (P.gives rt.now) asked.entry result (R.remaining input.old) (R.remaining input.new)
        (W.contents output.old) (W.contents output.new) (E.contents errors.old) (E.contents errors.new) }
    ensures quiet { result ≡ SUCCESS → IsQuietAs asked.entry (E.contents errors.old) (E.contents errors.new) }
{
    match asked {
        Ok(asked) => { do_it(rt, asked, input, output, errors) }
        Err(error) => match error.kind() {
            ErrorKind::OutOfMemory => end_with(
                errors,
                Some(Failure::Refused(Refusal::OutOfMemory)),
            ),
            ErrorKind::DisplayHelp | ErrorKind::DisplayVersion => {
                let failure = show_help(&error, output);
                end_with(errors, failure)
            }
            _ => refuse_words(&error, words, errors),
        },
    }
}

/// Does what is asked, and gives the exit status.
fn do_it<
    P: AllocGlobal + Clock + FileSystem<Held = D> + Net<Listener = TcpListener, Stream = TcpStream>,
    D: Disk + Drop,
    R: Read,
    W: Write,
    E: Write,
>(rt: &P, asked: Asked<'_>, input: &mut R, output: &mut W, errors: &mut E) -> u8
    ensures ends { EndsDoing D.Disk (P.gives rt.now) asked.entry result (R.remaining input.old) (R.remaining input.new) (W.contents output.old) (W.contents output.new)
        (E.contents errors.old) (E.contents errors.new) }
    ensures quiet { result ≡ SUCCESS → IsQuiet asked.entry (E.contents errors.old) (E.contents errors.new) }
{
    match asked {
        Asked::Create { file } => end_with(errors, create_file(rt, file)),
        Asked::Run => {
            let failure = run_in_memory(rt.alloc(), input, output);
            end_with(errors, failure)
        }
        Asked::RunFile { file } => {
            let failure = run_file(rt, file, input, output);
            end_with(errors, failure)
        }
        Asked::RunWatched {
            file,
            bails,
            reports,
        } => run_watched(rt, file, (bails, reports), input, output, errors),
        Asked::RunAsCsv {
            file,
            bails,
            reports,
        } => run_as_csv(rt, file, (bails, reports), input, output, errors),
        Asked::Ask { file, questions } => {
            ask_file(rt, file, questions.as_slice(), output, errors)
        }
        Asked::Csv(words) => convert(rt, &words, input, output, errors),
        Asked::Table { separator } => align(rt.alloc(), separator, input, output, errors),
        Asked::Dump {
            file,
            table,
            omits_rows,
        } => dump_file(rt, file, Wanted { table, omits_rows }, output, errors),
        Asked::Explain { refusal } => explain_refusal(refusal, output, errors),
        Asked::Serve {
            file,
            address,
            connections,
        } => {
            let failure = serve_file(rt, file, address, connections, output);
            end_with(errors, failure)
        }
    }
}

/// Makes a file in which nothing is defined, and syncs its folder first, so that the file is there after a power cut (91).
fn create_file<'a, P: AllocGlobal + FileSystem<Held = D>, D: Disk + Drop>(
    rt: &P,
    file: &'a str,
) -> Option<Failure<'a>>
    ensures { CreatesNamed D.Disk (P.gives rt.now) file.now result }
{
    create_opened(rt.alloc(), rt.open_file(file, Opening::New))
}

/// Serves the input on the output over a disk in memory, in which nothing is defined at first.
fn run_in_memory<R: Read, W: Write>(
    alloc: Global,
    input: &mut R,
    output: &mut W,
) -> Option<Failure<'static>>
    ensures { Runs result (R.remaining input.old) (R.remaining input.new) (W.contents output.old) (W.contents output.new) }
{
    machine_is_the_only_one::<MemoryDisk>();
    match Engine::create(alloc, MemoryDisk::new(alloc)) {
        Ok(mut engine) => {
            let outcome = run(alloc, &mut engine, input, output);
            // (by a call, so that the proof does not take the engine apart)
            drop(engine);
            failure_after(outcome)
        }
        Err((_, refusal)) => Some(Failure::Refused(refusal)),
    }
}

/// Serves the input on the output over a file, and closes it.
fn run_file<'a, P: AllocGlobal + FileSystem<Held = D>, D: Disk + Drop, R: Read, W: Write>(
    rt: &P,
    file: &'a str,
    input: &mut R,
    output: &mut W,
) -> Option<Failure<'a>>
    ensures { ServesNamed D.Disk (P.gives rt.now) file.now result (R.remaining input.old) (R.remaining input.new) (W.contents output.old) (W.contents output.new) }
{
    serve_opened(
        rt.alloc(),
        rt.open_file(file, Opening::Writing),
        input,
        output,
    )
}

/// Serves the input on the output over memory or over a file, and watches it, as `--bail` and `--report` ask. The status is 1 where a line
/// was refused.
fn run_watched<P: AllocGlobal + FileSystem<Held = D>, D: Disk + Drop, R: Read, W: Write, E: Write>(
    rt: &P,
    file: Option<&str>,
    flags: (bool, bool),
    input: &mut R,
    output: &mut W,
    errors: &mut E,
) -> u8
    ensures ends { EndsWatched D.Disk (P.gives rt.now) (option_map (λ t. t.now) file.entry) result }
    ensures quiet { flags.1 ≡ false → result ≡ SUCCESS → Keeps (E.contents errors.old) (E.contents errors.new) }
{
    let (has_refused, failure) = watch(rt, file, flags, input, output, errors);
    let status = end_with(errors, failure);
    if has_refused { FAILED } else { status }
}

// decision: watched-streams
/// Serves the input on the output, stops at the first refused line where that is asked, and reports on the errors stream where that is.
/// It gives whether a line was refused, and what failed.
fn watch<'a, P: AllocGlobal + FileSystem<Held = D>, D: Disk + Drop, R: Read, W: Write, E: Write>(
    rt: &P,
    file: Option<&'a str>,
    flags: (bool, bool),
    input: &mut R,
    output: &mut W,
    errors: &mut E,
) -> (bool, Option<Failure<'a>>)
    ensures runs { RunsWatched D.Disk (P.gives rt.now) (option_map (λ t. t.now) file.entry) result.1 }
    ensures quiet { flags.1 ≡ false → Keeps (E.contents errors.old) (E.contents errors.new) }
{
    let (bails, reports) = flags;
    if reports {
        let (tally, failure) = serve_watched(rt, file, bails, input, output, errors);
        let _ = tally.report(errors);
        (tally.has_refused(), failure)
    } else {
        let mut nowhere = io::sink();
        let (tally, failure) = serve_watched(rt, file, bails, input, output, &mut nowhere);
        (tally.has_refused(), failure)
    }
}

/// Serves the input on the output over memory or over a file, counts the replies, and tells the refused lines. It gives the counts, and
/// what failed.
fn serve_watched<
    'a,
    P: AllocGlobal + FileSystem<Held = D>,
    D: Disk + Drop,
    R: Read,
    W: Write,
    T: Write,
>(
    rt: &P,
    file: Option<&'a str>,
    bails: bool,
    input: &mut R,
    output: &mut W,
    told: &mut T,
) -> (Tally, Option<Failure<'a>>)
    ensures { RunsWatched D.Disk (P.gives rt.now) (option_map (λ t. t.now) file.entry) result.1 }
{
    let line = RefCell::new(Line::new());
    let mut lines = LineByLine::new(input, &line, bails);
    let mut watched = Watched::new(output, told, &line);
    let failure = run_on(rt, file, &mut lines, &mut watched);
    let mut tally = watched.into_tally();
    if let Ok(line) = line.try_borrow()
        && line.is_unended()
    {
        tally.leave_unended();
    }
    (tally, failure)
}

/// Serves the input on the output over a file, where there is one, and else over memory.
fn run_on<'a, P: AllocGlobal + FileSystem<Held = D>, D: Disk + Drop, R: Read, W: Write>(
    rt: &P,
    file: Option<&'a str>,
    input: &mut R,
    output: &mut W,
) -> Option<Failure<'a>>
    ensures { RunsOver D.Disk (P.gives rt.now) (option_map (λ t. t.now) file.entry) result
        (R.remaining input.old) (R.remaining input.new) (W.contents output.old) (W.contents output.new) }
{
    match file {
        Some(file) => run_file(rt, file, input, output),
        None => run_in_memory(rt.alloc(), input, output),
    }
}

/// Writes the lines that rebuild what a file holds, and gives the exit status. The file is opened for reading alone, beside other dumps.
fn dump_file<P: AllocGlobal + FileSystem<Held = D>, D: Disk + Drop, W: Write, E: Write>(
    rt: &P,
    file: &str,
    wanted: Wanted<'_>,
    output: &mut W,
    errors: &mut E,
) -> u8
    ensures dumps { DumpsNamed D.Disk (P.gives rt.now) file.now (option_map (λ t. t.now) wanted.entry.table) wanted.entry.omits_rows result
        (W.contents output.old) (W.contents output.new) (E.contents errors.old) (E.contents errors.new) }
    ensures quiet { result ≡ SUCCESS → Keeps (E.contents errors.old) (E.contents errors.new) }
{
    dump_opened(
        rt.alloc(),
        rt.open_file(file, Opening::Reading),
        wanted,
        output,
        errors,
    )
}

/// Answers questions from a file as CSV, and gives the exit status. Where one is no question the words are refused, and the file is not
/// opened; else it is opened for reading alone, beside other readers.
fn ask_file<P: AllocGlobal + FileSystem<Held = D>, D: Disk + Drop, W: Write, E: Write>(
    rt: &P,
    file: &str,
    questions: &[&str],
    output: &mut W,
    errors: &mut E,
) -> u8
    ensures asks { AsksNamed D.Disk (P.gives rt.now) file.now (map (λ question. question.now) questions.now) result
        (W.contents output.old) (W.contents output.new) (E.contents errors.old) (E.contents errors.new) }
    ensures quiet { result ≡ SUCCESS → Keeps (E.contents errors.old) (E.contents errors.new) }
{
    match first_other(questions) {
        Some(text) => refuse_question(errors, text),
        None => ask_opened(
            rt.alloc(),
            rt.open_file(file, Opening::Reading),
            questions,
            output,
            errors,
        ),
    }
}

/// Serves so many connections over a file, one after another, and closes it.
fn serve_file<
    'a,
    P: AllocGlobal + Clock + FileSystem<Held = D> + Net<Listener = TcpListener, Stream = TcpStream>,
    D: Disk + Drop,
    W: Write,
>(rt: &P, file: &'a str, address: &'a str, connections: u32, output: &mut W) -> Option<Failure<'a>>
    ensures { ServesNamedAt D.Disk (P.gives rt.now) file.now address.entry connections result (W.contents output.old) (W.contents output.new) }
{
    let opened = rt.open_file(file, Opening::Writing);
    serve_opened_at(rt, opened, address, connections, output)
}

/// Says what failed, if anything did, and gives the exit status.
pub(crate) fn end_with<E: Write>(errors: &mut E, failure: Option<Failure<'_>>) -> u8
    ensures ends { EndsWith failure.entry result (E.contents errors.old) (E.contents errors.new) }
    ensures quiet { result ≡ SUCCESS → Keeps (E.contents errors.old) (E.contents errors.new) }
{
    match failure {
        None => SUCCESS,
        Some(failure) => report_failure(errors, &failure),
    }
}

/// Says on the errors stream what is wrong with the words, and how a file is named where one of them may be a file's name, and gives the
/// exit status.
fn refuse_words<S: AsStr, E: Write>(error: &Error, words: &[S], errors: &mut E) -> u8
    ensures { result ≡ MISUSE }
{
    let _ = write!(errors, "{error}");
    if lacks_file_option(words) {
        let _ = put_parts(
            errors,
            &[b"roadseg: a file is named by --file, as: roadseg run --file roads.seg\n"],
        );
    }
    MISUSE
}

/// Whether a word may be a file's name, and none begins with `--file`. `csv`, `table` and `explain` take no file, and a question of `ask`
/// may have a point.
fn lacks_file_option<S: AsStr>(words: &[S]) -> bool {
    let mut has_command = false;
    let mut has_path = false;
    for place in 1..words.len() {
        let text = words[place].as_str();
        if text.starts_with("--file") || (!has_command && takes_no_file(text)) {
            return false;
        }
        has_path = has_path || may_be_path(text, has_command);
        has_command = has_command || takes_file(text);
    }
    has_path
}

/// Whether a word may be a file's name: it has a point or a slash, or comes after a command that takes a file and is no option.
fn may_be_path(text: &str, has_command: bool) -> bool {
    text.contains('.') || text.contains('/') || (has_command && !text.starts_with('-'))
}

/// Whether a command takes a file.
fn takes_file(command: &str) -> bool {
    command == "create" || command == "run" || command == "dump" || command == "serve"
}

/// Whether a command takes no file, or a word after it may look like a file's name.
fn takes_no_file(command: &str) -> bool {
    command == "ask" || command == "csv" || command == "table" || command == "explain"
}

/// Shows the help or the version that was asked for. It is a write fault where it is not out whole.
fn show_help<W: Write, D: Display + Drop>(help: D, output: &mut W) -> Option<Failure<'static>>
    ensures failure { (result ≡ None) ⊎ (result ≡ Some (Failure.Stream Fault.Write)) }
    ensures whole { result ≡ None → IfSome (D.output help) (Appends (W.contents output.old) (W.contents output.new)) }
{
    match write_whole(help, output) {
        Ok(()) => None,
        Err(_) => Some(Failure::Stream(Fault::Write)),
    }
}

/// Writes the text, and flushes it.
fn write_whole<W: Write, D: Display + Drop>(text: D, output: &mut W) -> io::Result<()>
    ensures { OnOk result (IfSome (D.output text) (Appends (W.contents output.old) (W.contents output.new))) }
{
    write!(output, "{text}")?;
    output.flush()
}

//! The word `run` with `--csv`: the lines of the input are answered as CSV, over memory or over a file.
//!
//! The file is opened, served and closed as by `run`; what is put on the output is the CSV of the replies that `run` gives.

ghost use Rattle.std.specs.Prelude.{◌≡◌, IsTrue, Some, false};
ghost use Rattle.std.specs.Option.{option_map};
ghost use Rattle.std.specs.Io.KnownBytes.{Keeps};
ghost use Rattle.rs_engine.specs.Lasting.{IsLast};
ghost use Rattle.rs_engine.specs.Single.{IsOneMachine};
ghost use Rattle.rs_machine.specs.Served.{Machine};
ghost use Rattle.rs_machine.specs.State.{State};
ghost use Rattle.rs_pages.specs.declared.pages.TheConstants.{GREATEST_LIMIT};
ghost use Rattle.rs_server.specs.AsCsv.{AnswersAndCloses, AnswersFile, AnswersInMemory, IsQuietAfter, failure_of_lines, has_answered_all};
ghost use Rattle.rs_server.specs.Ending.{AnswersOver, EndsAnswering};
ghost use Rattle.rs_server.specs.Opened.{AnswersOpened};

use crate::disks::close_after;
use crate::file_system::{FileSystem, Opening};
use crate::opened::failure_in;
use crate::reopened::Reopened;
use crate::report::{FAILED, Failure, SUCCESS};
use crate::service::end_with;
use crate::shown::Shown;
use crate::tally::tell_summary;
use rs_csv_answers::{Answered, Ended, answer_input};
use rs_disk::{Disk, MemoryDisk};
use rs_engine::Engine;
use rs_engine::engine::laws::{machine_is_the_only_one, steps_leave_a_front};
use rs_protocol::Fault;
use std::alloc::{AllocGlobal, Global};
use std::io::{Read, Write};

/// How the lines were answered; none where there was no file or no memory to serve them over.
pub type Outcome = Option<Result<Answered, Fault>>;

/// Answers the lines of the input as CSV over memory or over a file, stops at the first refused one where that is asked, and counts them on
/// the errors stream where that is. Each refused line is told there. It gives the exit status, which is 1 where a line was refused.
pub(crate) fn run_as_csv<
    P: AllocGlobal + FileSystem<Held = D>,
    D: Disk + Drop,
    R: Read,
    W: Write,
    E: Write,
>(
    rt: &P,
    file: Option<&str>,
    flags: (bool, bool),
    input: &mut R,
    output: &mut W,
    errors: &mut E,
) -> u8
    ensures ends { EndsAnswering D.Disk (P.gives rt.now) (option_map (λ t. t.now) file.entry) result (R.remaining input.old) (W.contents output.old) (W.contents output.new) }
    ensures quiet { flags.1 ≡ false → result ≡ SUCCESS → Keeps (E.contents errors.old) (E.contents errors.new) }
{
    let (bails, reports) = flags;
    let (outcome, failure) = answer_over(rt, file, bails, input, output, errors);
    report_where(reports, errors, &outcome);
    let status = end_with(errors, failure);
    if has_answered_all(&outcome) {
        status
    } else {
        FAILED
    }
}

/// Whether the lines were answered, and none was refused.
fn has_answered_all(outcome: &Outcome) -> bool
    ensures { result ≡ has_answered_all outcome.now }
{
    match outcome {
        Some(Ok(answered)) => answered.refused == 0,
        _ => false,
    }
}

/// Answers the lines over a file, where there is one, and else over memory.
fn answer_over<
    'a,
    P: AllocGlobal + FileSystem<Held = D>,
    D: Disk + Drop,
    R: Read,
    W: Write,
    E: Write,
>(
    rt: &P,
    file: Option<&'a str>,
    stops: bool,
    input: &mut R,
    output: &mut W,
    errors: &mut E,
) -> (Outcome, Option<Failure<'a>>)
    ensures answers { AnswersOver D.Disk (P.gives rt.now) (option_map (λ t. t.now) file.entry) result.0 result.1
        (R.remaining input.old) (W.contents output.old) (W.contents output.new) }
    ensures quiet { IsQuietAfter result.0 (E.contents errors.old) (E.contents errors.new) }
{
    match file {
        Some(file) => answer_opened(
            rt.alloc(),
            rt.open_file(file, Opening::Writing),
            stops,
            input,
            output,
            errors,
        ),
        None => answer_in_memory(rt.alloc(), stops, input, output, errors),
    }
}

/// Answers the lines over a disk in memory, in which nothing is defined at first.
fn answer_in_memory<R: Read, W: Write, E: Write>(
    alloc: Global,
    stops: bool,
    input: &mut R,
    output: &mut W,
    errors: &mut E,
) -> (Outcome, Option<Failure<'static>>)
    ensures answers { AnswersInMemory result.0 result.1 (R.remaining input.old) (W.contents output.old) (W.contents output.new) }
    ensures quiet { IsQuietAfter result.0 (E.contents errors.old) (E.contents errors.new) }
{
    machine_is_the_only_one::<MemoryDisk>();
    match Engine::create(alloc, MemoryDisk::new(alloc)) {
        Ok(engine) => {
            let mut shown = Shown { engine };
            let outcome = answer_input(alloc, &mut shown, input, stops, output, errors);
            // (by a call, so that the proof does not take the engine apart)
            drop(shown);
            let failure = failure_of_lines(&outcome);
            (Some(outcome), failure)
        }
        Err((_, refusal)) => (None, Some(Failure::Refused(refusal))),
    }
}

/// Answers the lines over a disk that was opened, and closes it.
fn answer_opened<'a, D: Disk + Drop, R: Read, W: Write, E: Write>(
    alloc: Global,
    opened: Result<D, Failure<'a>>,
    stops: bool,
    input: &mut R,
    output: &mut W,
    errors: &mut E,
) -> (Outcome, Option<Failure<'a>>)
    ensures answers { AnswersOpened D.Disk opened.entry result.0 result.1 (R.remaining input.old) (W.contents output.old) (W.contents output.new) }
    ensures quiet { IsQuietAfter result.0 (E.contents errors.old) (E.contents errors.new) }
{
    match opened {
        Ok(disk) => {
            let (outcome, ended) = answer_disk(alloc, disk, stops, input, output, errors);
            (outcome, failure_in(ended))
        }
        Err(failure) => (None, Some(failure)),
    }
}

/// Opens the file that the disk holds, answers the lines of the input as CSV, and closes it, after a fault too, as `serve_disk` does.
pub fn answer_disk<D: Disk + Drop, R: Read, W: Write, E: Write>(
    alloc: Global,
    disk: D,
    stops: bool,
    input: &mut R,
    output: &mut W,
    errors: &mut E,
) -> (Outcome, Result<D, (Option<D>, Failure<'static>)>)
    ensures answers { IsTrue (D.is_honest disk) → AnswersFile D.Disk GREATEST_LIMIT disk result.0 result.1
        (R.remaining input.old) (W.contents output.old) (W.contents output.new) }
    ensures quiet { IsQuietAfter result.0 (E.contents errors.old) (E.contents errors.new) }
{
    machine_is_the_only_one::<D>();
    match Engine::open(alloc, disk) {
        Ok(engine) => {
            let (outcome, ended) = answer_and_close(alloc, engine, stops, input, output, errors);
            (Some(outcome), ended)
        }
        Err((disk, refusal)) => (None, Err((Some(disk), Failure::Refused(refusal)))),
    }
}

/// Answers the lines of the input as CSV, and closes the file, after a fault too.
fn answer_and_close<D: Disk + Drop, R: Read, W: Write, E: Write>(
    alloc: Global,
    engine: Engine<D>,
    stops: bool,
    input: &mut R,
    output: &mut W,
    errors: &mut E,
) -> (
    Result<Answered, Fault>,
    Result<D, (Option<D>, Failure<'static>)>,
)
    ensures answers { (machine : Machine) (kept : State) → IsOneMachine D.Disk engine machine → IsLast D.Disk engine.store.pager kept
        → AnswersAndCloses D.Disk GREATEST_LIMIT machine kept engine.store.pager.disk result.0 result.1
        (R.remaining input.old) (W.contents output.old) (W.contents output.new) }
    ensures quiet { IsQuietAfter (Some result.0) (E.contents errors.old) (E.contents errors.new) }
{
    steps_leave_a_front::<D>();
    let mut reopened = Reopened::new(Shown { engine });
    let outcome = answer_input(alloc, &mut reopened, input, stops, output, errors);
    let failure = failure_of_lines(&outcome);
    let (shown, failure) = reopened.end(failure);
    (outcome, close_after(shown.engine, failure))
}

/// The failure of the lines, where there was one.
fn failure_of_lines(outcome: &Result<Answered, Fault>) -> Option<Failure<'static>>
    ensures { result ≡ failure_of_lines outcome.now }
{
    match outcome {
        Ok(_) => None,
        Err(fault) => Some(Failure::Stream(*fault)),
    }
}

/// Says how the lines were answered, where that is asked.
fn report_where<E: Write>(is_asked: bool, errors: &mut E, outcome: &Outcome)
    ensures { is_asked ≡ false → Keeps (E.contents errors.old) (E.contents errors.new) }
{
    if is_asked {
        let _ = report_answered(errors, outcome);
    }
}

/// Says how many lines were answered, how many refused, how many with each number, and whether the last one was not answered.
fn report_answered<E: Write>(errors: &mut E, outcome: &Outcome) -> Result<(), Fault> {
    match outcome {
        Some(Ok(answered)) => tell_summary(
            errors,
            answered.lines,
            answered.refused,
            &answered.counts,
            matches!(answered.ended, Ended::CutLine),
        ),
        _ => Ok(()),
    }
}

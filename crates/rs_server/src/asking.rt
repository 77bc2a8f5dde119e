//! The word `ask`: questions are answered from a file as CSV.
//!
//! The file is looked at, and nothing is written to it: the engine that answers works on what stands after recovery.

ghost use Rattle.std.specs.Prelude.{◌≡◌, IfOk, map};
ghost use Rattle.std.specs.Io.KnownBytes.{Keeps};
ghost use Rattle.rs_server.specs.Asking.{status_of_answers};
ghost use Rattle.rs_server.specs.Opened.{Asks};

use crate::report::{FAILED, Failure, MISUSE, SUCCESS, report_failure};
use crate::shown::Shown;
use rs_csv_answers::answer_questions;
use rs_disk::Disk;
use rs_engine::Engine;
use rs_engine::engine::laws::machine_is_the_only_one;
use rs_engine::rs_store::laws::look_stands_for_the_state;
use rs_pager::look_at_file;
use rs_protocol::{Fault, put_parts};
use std::alloc::Global;
use std::io::Write;

/// Answers the questions from the file on a disk, each as CSV, and gives the exit status.
///
/// 0 where each was answered; 1 where some were refused, which is told of each, or for a failure. The disk is looked at, and nothing is
/// written to it.
pub fn ask_on<D: Disk + Drop, W: Write, E: Write>(
    alloc: Global,
    disk: D,
    questions: &[&str],
    output: &mut W,
    errors: &mut E,
) -> u8
    ensures asks { Asks D.Disk (map (λ question. question.now) questions.now) disk result (W.contents output.old) (W.contents output.new) (E.contents errors.old) (E.contents errors.new) }
    ensures quiet { result ≡ SUCCESS → Keeps (E.contents errors.old) (E.contents errors.new) }
{
    look_stands_for_the_state();
    match look_at_file(alloc, disk) {
        Ok(looked) => ask_disk(alloc, looked, questions, output, errors),
        Err((_disk, refusal)) => report_failure(errors, &Failure::Refused(refusal)),
    }
}

/// The same of a disk that is opened, to which that may write.
fn ask_disk<D: Disk + Drop, W: Write, E: Write>(
    alloc: Global,
    disk: D,
    questions: &[&str],
    output: &mut W,
    errors: &mut E,
) -> u8
    ensures asks { Asks D.Disk (map (λ question. question.now) questions.now) disk result (W.contents output.old) (W.contents output.new) (E.contents errors.old) (E.contents errors.new) }
    ensures quiet { result ≡ SUCCESS → Keeps (E.contents errors.old) (E.contents errors.new) }
{
    machine_is_the_only_one::<D>();
    match Engine::open(alloc, disk) {
        Ok(engine) => {
            let mut shown = Shown { engine };
            let answered = answer_questions(alloc, &mut shown, questions, output, errors);
            status_after(answered, errors)
        }
        Err((_disk, refusal)) => report_failure(errors, &Failure::Refused(refusal)),
    }
}

/// The exit status after the questions, where a failure is told.
fn status_after<E: Write>(answered: Result<bool, Fault>, errors: &mut E) -> u8
    ensures status { result ≡ status_of_answers answered }
    ensures quiet { IfOk answered (λ _. Keeps (E.contents errors.old) (E.contents errors.new)) }
{
    match answered {
        Ok(true) => SUCCESS,
        Ok(false) => FAILED,
        Err(fault) => report_failure(errors, &Failure::Stream(fault)),
    }
}

/// Says that a text is no question, and gives the exit status.
pub(crate) fn refuse_question<E: Write>(errors: &mut E, text: &str) -> u8
    ensures { result ≡ MISUSE }
{
    let _ = put_parts(
        errors,
        &[
            b"error: a question begins with SELECT or TOTAL, unlike: ",
            text.as_bytes(),
            b"\n",
        ],
    );
    MISUSE
}

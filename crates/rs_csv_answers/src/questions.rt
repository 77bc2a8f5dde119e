//! Questions asked of an engine one after another, and their answers put into a writer.
//!
//! It promises that each question is answered by the machine that the one before left. Of one that is refused nothing is put; that is told.

ghost use Rattle.std.specs.Prelude.{◌≡◌, ◌&&◌, IfOk, Ok, map, string_bytes, true};
ghost use Rattle.std.specs.Io.KnownBytes.{Keeps};
ghost use Rattle.rs_csv_answers.specs.Questions.{AnswersQuestion, AnswersQuestions, IsAnswered, line_of};
ghost use Rattle.rs_csv_answers.specs.Turns.{text_result};
ghost use Rattle.rs_machine.specs.Served.{Machine};

use crate::asking::{Shapes, answer_as_csv};
use crate::putting::{Asked, put_answer};
use rs_protocol::Fault;
use rs_refusal::Refusal;
use std::alloc::{AllocError, Global};
use std::io::Write;

/// Answers each question as the line of session 0 that asks it, and says whether none was refused. One that is refused is told on the
/// errors stream, and those after it are answered all the same. After a fault a front of the answers is out.
pub fn answer_questions<S: Shapes, W: Write, E: Write>(
    alloc: Global,
    engine: &mut S,
    questions: &[&str],
    output: &mut W,
    errors: &mut E,
) -> Result<bool, Fault>
    ensures answers { (old : Machine) → S.is engine.old old → (new : Machine) × S.is engine.new new
        × AnswersQuestions (map (λ question. question.now) questions.now) old result new (W.contents output.old) (W.contents output.new) }
    ensures quiet { result ≡ Ok true → Keeps (E.contents errors.old) (E.contents errors.new) }
{
    let mut are_answered = true;
    for place in 0..questions.len() {
        let number = (place as u64).saturating_add(1);
        let is_answered = answer_question(alloc, engine, number, questions[place], output, errors)?;
        are_answered = are_both(is_answered, are_answered);
    }
    Ok(are_answered)
}

/// Whether both are so.
fn are_both(one: bool, other: bool) -> bool
    ensures { result ≡ (one && other) }
{
    one && other
}

/// Answers one question, and says whether it was not refused.
fn answer_question<S: Shapes, W: Write, E: Write>(
    alloc: Global,
    engine: &mut S,
    place: u64,
    question: &str,
    output: &mut W,
    errors: &mut E,
) -> Result<bool, Fault>
    ensures answers { (old : Machine) → S.is engine.old old → (new : Machine) × S.is engine.new new
        × AnswersQuestion question.now old result new (W.contents output.old) (W.contents output.new) }
    ensures quiet { result ≡ Ok true → Keeps (E.contents errors.old) (E.contents errors.new) }
{
    let answer = answer_to(alloc, engine, question);
    let asked = Asked {
        kind: b"question ",
        place,
        begins: b"0 ",
        text: question.as_bytes(),
        ends: b"\n",
    };
    put_answer(&answer, asked, output, errors)
}

/// What a question is answered, as CSV; or its refusal, which may be for want of memory (90).
fn answer_to<S: Shapes>(alloc: Global, engine: &mut S, question: &str) -> Result<Vec<u8>, Refusal>
    ensures { (old : Machine) → S.is engine.old old → (new : Machine) × S.is engine.new new
        × IsAnswered question.now old (text_result (λ text. text.items) result) new }
{
    match line_asking(alloc, question) {
        Ok(line) => answer_as_csv(alloc, engine, line.as_bytes()),
        Err(AllocError) => Err(Refusal::OutOfMemory),
    }
}

/// The line of session 0 that asks a question.
fn line_asking(alloc: Global, question: &str) -> Result<String, AllocError>
    ensures { IfOk result (λ line. string_bytes line ≡ line_of question.now) }
{
    let mut line = String::new(alloc);
    line.push_str("0 ")?;
    line.push_str(question)?;
    Ok(line)
}

//! The lines of an input, each answered as CSV.
//!
//! It promises that each line is answered by the machine that the one before left, and that the texts of the answers are put one after
//! another. Of a line that is refused nothing is put; that is told (decision: csv-alone-on-output).

ghost use Rattle.std.specs.Prelude.{◌≡◌, ◌⊎◌, ◌==◌, ◌&&◌, IfOk, Option, List, ℕ, false, is_ok, replicate, true};
ghost use Rattle.std.specs.Io.KnownBytes.{Keeps};
ghost use Rattle.rs_csv_answers.specs.Counting.{CountsOne};
ghost use Rattle.rs_csv_answers.specs.Lines.{AnswersLine, EndsAsCsv, Reads};
ghost use Rattle.rs_csv_answers.specs.Turns.{text_result};
ghost use Rattle.rs_machine.specs.Served.{Machine};
ghost use Rattle.rs_machine.specs.Stream.{with_feed};

use crate::asking::{Shapes, answer_as_csv};
use crate::counts::Counts;
use crate::putting::{Asked, put_answer};
use crate::shown::shown_of;
use rs_protocol::Fault;
use rs_refusal::Refusal;
use std::alloc::Global;
use std::io::{BufRead, BufReader, Read, Write};

/// What ends a line.
const LINE_FEED: u8 = b'\n';

/// What was read.
#[derive(Clone, Copy, PartialEq, Eq, Debug)]
pub enum Next {
    /// A line.
    Line,
    /// Bytes that no LF follows.
    Cut,
    /// Nothing.
    End,
}

/// How the answering ended.
#[derive(Clone, Copy, PartialEq, Eq, Debug)]
pub enum Ended {
    /// With the input, right after an LF, or with no byte at all.
    Whole,
    /// With the input, after bytes that no LF follows; they are not answered.
    CutLine,
    /// At a refused line, where it was to stop there.
    Refused,
}

/// How many lines were answered, how many of them were refused, how many with each number, and how it ended.
#[derive(Clone, Copy, PartialEq, Eq, Debug)]
pub struct Answered {
    /// How many lines were answered, refused ones among them.
    pub lines: u64,
    /// How many were refused.
    pub refused: u64,
    /// How many with each number.
    pub counts: Counts,
    /// How it ended.
    pub ended: Ended,
}

impl Answered {
    /// No line.
    fn none() -> Self
        ensures lines { result.lines ≡ 0 }
        ensures refused { result.refused ≡ 0 }
        ensures numbers { result.counts.by_number ≡ replicate 256 0 }
    {
        Answered {
            lines: 0,
            refused: 0,
            counts: Counts::none(),
            ended: Ended::Whole,
        }
    }

    /// One line more, by its answer.
    #[tactic(auto, unfolding(rs_refusal::specs::Counts::counted_on))]
    fn meet(&mut self, answer: &Result<Vec<u8>, Refusal>)
        ensures counted { CountsOne (text_result (λ text. text.items) answer.now) self.old self.new }
        ensures refused { (self.new.refused == 0) ≡ (is_ok answer.now && self.old.refused == 0) }
    {
        self.lines = self.lines.saturating_add(1);
        if let Err(refusal) = answer {
            self.refused = self.refused.saturating_add(1);
            self.counts.add(refusal.number());
        }
    }

    /// The same, ended so.
    fn end(self, ended: Ended) -> Self
        ensures { result ≡ record self { ended = ended } }
    {
        Answered {
            lines: self.lines,
            refused: self.refused,
            counts: self.counts,
            ended,
        }
    }
}

/// Answers each line that the input tells, as CSV, and says how many were refused. Those are told on the errors stream; the others are
/// answered all the same, but where it is to stop at the first. After a fault a front of the answers is out. A line is read whole; one for
/// which there is no memory is a read fault.
pub fn answer_input<S: Shapes, R: Read, W: Write, E: Write>(
    alloc: Global,
    engine: &mut S,
    input: &mut R,
    stops: bool,
    output: &mut W,
    errors: &mut E,
) -> Result<Answered, Fault>
    ensures answers { (old : Machine) → S.is engine.old old → (new : Machine) × S.is engine.new new
        × ((unread_now : Option (List ℕ)) × EndsAsCsv result (R.remaining input.old) unread_now old new (W.contents output.old) (W.contents output.new)) }
    ensures becomes { S.becomes engine.old engine.new }
    ensures quiet { IfOk result (λ answered. answered.refused ≡ 0 → Keeps (E.contents errors.old) (E.contents errors.new)) }
{
    match BufReader::new(alloc, input) {
        Ok(mut reader) => answer_lines(alloc, engine, &mut reader, stops, output, errors),
        Err(_) => Err(Fault::Read),
    }
}

/// The same of a reader that has its bytes at hand.
pub fn answer_lines<S: Shapes, R: BufRead, W: Write, E: Write>(
    alloc: Global,
    engine: &mut S,
    reader: &mut R,
    stops: bool,
    output: &mut W,
    errors: &mut E,
) -> Result<Answered, Fault>
    ensures answers { (old : Machine) → S.is engine.old old → (new : Machine) × S.is engine.new new
        × EndsAsCsv result (R.remaining reader.old) (R.remaining reader.new) old new (W.contents output.old) (W.contents output.new) }
    ensures becomes { S.becomes engine.old engine.new }
    ensures quiet { IfOk result (λ answered. answered.refused ≡ 0 → Keeps (E.contents errors.old) (E.contents errors.new)) }
{
    let mut line = Vec::new(alloc);
    let mut answered = Answered::none();
    for _ in 0..u64::MAX {
        match next_line(reader, &mut line)? {
            Next::End => return Ok(answered.end(Ended::Whole)),
            Next::Cut => return Ok(answered.end(Ended::CutLine)),
            Next::Line => {
                let is_answered = answer_line(
                    alloc,
                    engine,
                    line.as_slice(),
                    &mut answered,
                    output,
                    errors,
                )?;
                if stops && !is_answered {
                    return Ok(answered.end(Ended::Refused));
                }
            }
        }
    }
    Err(Fault::Read)
}

/// Reads the next line, without its LF.
fn next_line<R: BufRead>(reader: &mut R, line: &mut Vec<u8>) -> Result<Next, Fault>
    ensures { Reads result line.new.items (R.remaining reader.old) (R.remaining reader.new) }
{
    line.clear();
    match reader.read_until(LINE_FEED, line) {
        Ok(0) => Ok(Next::End),
        Ok(_) => Ok(without_feed(line)),
        Err(_) => Err(Fault::Read),
    }
}

/// Takes the LF from the end of some bytes, where they have one.
fn without_feed(line: &mut Vec<u8>) -> Next
    ensures line { result ≡ Next.Line → line.old.items ≡ with_feed line.new.items }
    ensures cut { result ≡ Next.Cut → (line.new.items ≡ line.old.items) × ((front : List ℕ) → line.old.items ≡ with_feed front → ⊥) }
    ensures one { (result ≡ Next.Line) ⊎ (result ≡ Next.Cut) }
{
    if line.ends_with(&[LINE_FEED]) {
        line.pop();
        Next::Line
    } else {
        Next::Cut
    }
}

/// Answers one line, counts it, and says whether it was not refused.
fn answer_line<S: Shapes, W: Write, E: Write>(
    alloc: Global,
    engine: &mut S,
    line: &[u8],
    answered: &mut Answered,
    output: &mut W,
    errors: &mut E,
) -> Result<bool, Fault>
    ensures answers { (old : Machine) → S.is engine.old old → (new : Machine) × S.is engine.new new
        × AnswersLine line.now old answered.old result answered.new new (W.contents output.old) (W.contents output.new) }
    ensures becomes { S.becomes engine.old engine.new }
    ensures refused { IfOk result (λ done. (answered.new.refused == 0) ≡ (done && answered.old.refused == 0)) }
    ensures quiet { result ≡ Ok true → Keeps (E.contents errors.old) (E.contents errors.new) }
{
    let answer = answer_as_csv(alloc, engine, line);
    answered.meet(&answer);
    let (text, is_cut) = shown_of(line);
    let ends: &[u8] = if is_cut { b"..\n" } else { b"\n" };
    let asked = Asked {
        kind: b"line ",
        place: answered.lines,
        begins: b"",
        text,
        ends,
    };
    put_answer(&answer, asked, output, errors)
}

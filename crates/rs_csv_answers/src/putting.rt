//! An answer as CSV is put into a writer; or it is told that it was refused.

ghost use Rattle.std.specs.Prelude.{◌≡◌, IfOk, Ok, is_ok, true};
ghost use Rattle.std.specs.Io.KnownBytes.{Keeps};
ghost use Rattle.rs_csv_answers.specs.Turns.{text_of, text_result};
ghost use Rattle.rs_protocol.specs.Puts.{Puts};

use itoa::Buffer;
use rs_protocol::{Fault, put_parts};
use rs_refusal::Refusal;
use std::io::Write;

/// What was asked, as it is told where it is refused.
#[derive(Clone, Copy)]
pub(crate) struct Asked<'a> {
    /// What it is one of, as `line `.
    pub(crate) kind: &'a [u8],
    /// Which of them, from 1.
    pub(crate) place: u64,
    /// How its line begins.
    pub(crate) begins: &'a [u8],
    /// The rest of its line.
    pub(crate) text: &'a [u8],
    /// What is told after it: an LF, and two points where the text is cut.
    pub(crate) ends: &'a [u8],
}

/// Puts the text of an answer, and says whether there is one; else it tells what was refused and why.
pub(crate) fn put_answer<W: Write, E: Write>(
    answer: &Result<Vec<u8>, Refusal>,
    asked: Asked<'_>,
    output: &mut W,
    errors: &mut E,
) -> Result<bool, Fault>
    ensures put { Puts result (text_of (text_result (λ text. text.items) answer.now)) (W.contents output.old) (W.contents output.new) }
    ensures said { IfOk result (λ done. done ≡ is_ok answer.now) }
    ensures quiet { result ≡ Ok true → Keeps (E.contents errors.old) (E.contents errors.new) }
{
    match answer {
        Ok(text) => {
            put_parts(output, &[text.as_slice()])?;
            Ok(true)
        }
        Err(refusal) => {
            let _ = tell_refused(errors, refusal, asked);
            Ok(false)
        }
    }
}

/// Tells what was refused, why, and the line that asked it.
fn tell_refused<E: Write>(
    errors: &mut E,
    refusal: &Refusal,
    asked: Asked<'_>,
) -> Result<(), Fault> {
    let mut digits = Buffer::new();
    let mut number = Buffer::new();
    let place = digits.format(asked.place).as_bytes();
    let words = refusal.words();
    put_parts(
        errors,
        &[
            b"roadseg: ",
            asked.kind,
            place,
            b": ERR ",
            number.format(refusal.number()).as_bytes(),
            b" ",
            words.as_str().as_bytes(),
            b": ",
            asked.begins,
            asked.text,
            asked.ends,
        ],
    )
}

//! What `run --report` tells: each refused line, the first ten of each number, and at the end how many there were.
//!
//! Lines are told on the errors stream as they are refused, so that none is kept. A write to it that fails is ignored.

use crate::watch::Line;
use crate::words::form_of;
use arrayvec::ArrayVec;
use itoa::Buffer;
use rs_csv_answers::Counts;
use rs_explain::ALL;
use rs_protocol::{Fault, put_parts};
use rs_refusal::Refusal;
use std::io::Write;
use std::str;

/// Room for the reply of a refused line.
const REPLY_BYTES: usize = 96;

/// How many refused lines of a number are told.
const TOLD: u64 = 10;

/// How many lines were answered, how many of them were refused, and how many with each number.
#[derive(Drop)]
pub struct Tally {
    reply: ArrayVec<u8, REPLY_BYTES>,
    accepted: u64,
    refused: u64,
    counts: Counts,
    is_unended: bool,
}

impl Tally {
    /// No line.
    pub fn new() -> Tally {
        Tally {
            reply: ArrayVec::new(),
            accepted: 0,
            refused: 0,
            counts: Counts::none(),
            is_unended: false,
        }
    }

    /// Whether a line was refused.
    pub fn has_refused(&self) -> bool {
        self.refused > 0
    }

    /// Keeps in mind that the last line was not answered, since its line feed is missing.
    pub fn leave_unended(&mut self) {
        self.is_unended = true;
    }

    /// Meets bytes of replies, each of which answers this line.
    pub(crate) fn meet_all<E: Write>(&mut self, bytes: &[u8], line: &Line, errors: &mut E) {
        for byte in bytes {
            self.meet(*byte, line, errors);
        }
    }

    fn meet<E: Write>(&mut self, byte: u8, line: &Line, errors: &mut E) {
        if byte == b'\n' {
            self.end_reply_line(line, errors);
            self.reply.clear();
        } else if !self.reply.is_full() {
            self.reply.push(byte);
        }
    }

    // A line of a reply ends: after the session and a blank, OK or ERR ends the reply, and ROW does not.
    fn end_reply_line<E: Write>(&mut self, line: &Line, errors: &mut E) {
        match sign_of(self.reply.as_slice()) {
            b'O' => self.accepted = self.accepted.saturating_add(1),
            b'E' => self.refuse(line, errors),
            _ => {}
        }
    }

    // Counts a refused line, and tells it where few of its number were told.
    fn refuse<E: Write>(&mut self, line: &Line, errors: &mut E) {
        self.refused = self.refused.saturating_add(1);
        let answered = self.accepted.saturating_add(self.refused);
        let refusal = refusal_in(self.reply.as_slice());
        if self.counts.add(number_in(refusal)) <= TOLD {
            let _ = tell_line(errors, answered, refusal, line);
        }
    }

    /// Says how many lines were answered and refused, how many with each number, and whether the last line was not answered.
    pub fn report<E: Write>(&self, errors: &mut E) -> Result<(), Fault> {
        let answered = self.accepted.saturating_add(self.refused);
        tell_summary(
            errors,
            answered,
            self.refused,
            &self.counts,
            self.is_unended,
        )
    }
}

/// Says how many lines were answered and refused, how many with each number, and whether the last line was not answered.
pub(crate) fn tell_summary<E: Write>(
    errors: &mut E,
    answered: u64,
    refused: u64,
    counts: &Counts,
    is_unended: bool,
) -> Result<(), Fault> {
    let mut answered_digits = Buffer::new();
    let mut refused_digits = Buffer::new();
    put_parts(
        errors,
        &[
            b"roadseg: lines answered: ",
            answered_digits.format(answered).as_bytes(),
            b", refused: ",
            refused_digits.format(refused).as_bytes(),
            b"\n",
        ],
    )?;
    tell_counts(errors, counts)?;
    if is_unended {
        return put_parts(
            errors,
            &[b"roadseg: the last line lacks its line feed and was not answered\n"],
        );
    }
    Ok(())
}

// The first byte after the first blank, or 0.
fn sign_of(reply: &[u8]) -> u8 {
    let mut is_after_blank = false;
    for byte in reply {
        if is_after_blank {
            return *byte;
        }
        is_after_blank = *byte == b' ';
    }
    0
}

// The reply of a refused line without its session, as `ERR 21 no such name`.
fn refusal_in(reply: &[u8]) -> &str {
    let Ok(text) = str::from_utf8(reply) else {
        return "";
    };
    match text.split_once(' ') {
        Some((_, refusal)) => refusal,
        None => "",
    }
}

// The number of such a refusal, or 0.
fn number_in(refusal: &str) -> u8 {
    let words = refusal.strip_prefix("ERR ").unwrap_or("");
    match words.split_once(' ') {
        Some((number, _)) => number.parse::<u8>().unwrap_or(0),
        None => 0,
    }
}

// Tells a refused line: its number, the refusal, and its text, with two points where that is cut.
fn tell_line<E: Write>(
    errors: &mut E,
    number: u64,
    refusal: &str,
    line: &Line,
) -> Result<(), Fault> {
    let mut digits = Buffer::new();
    let (shown, is_cut) = line.shown();
    let end: &[u8] = if is_cut { b"..\n" } else { b"\n" };
    put_parts(
        errors,
        &[
            b"roadseg: line ",
            digits.format(number).as_bytes(),
            b": ",
            refusal.as_bytes(),
            b": ",
            shown,
            end,
        ],
    )
}

// Tells how many lines were refused with each number.
fn tell_counts<E: Write>(errors: &mut E, counts: &Counts) -> Result<(), Fault> {
    for refusal in ALL.as_slice() {
        let count = counts.of(refusal.number());
        if count > 0 {
            tell_count(errors, refusal, count)?;
        }
    }
    Ok(())
}

// Tells how many lines were refused so.
fn tell_count<E: Write>(errors: &mut E, refusal: &Refusal, count: u64) -> Result<(), Fault> {
    let mut number_digits = Buffer::new();
    let mut count_digits = Buffer::new();
    let words = refusal.words();
    put_parts(
        errors,
        &[
            b"roadseg: refused ",
            number_digits.format(refusal.number()).as_bytes(),
            b" ",
            form_of(refusal, words.as_str()).as_bytes(),
            b": ",
            count_digits.format(count).as_bytes(),
            b"\n",
        ],
    )
}

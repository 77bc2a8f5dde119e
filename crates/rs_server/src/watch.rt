//! `run --bail` and `run --report` wrap the streams: the input is handed out line by line, and the replies are counted.
//!
//! What serves the lines knows nothing of it, and of such a stream no clause says what it holds. A line is answered before more is read,
//! so a reply answers the line that was handed out last.

ghost use Rattle.std.specs.Prelude.{◌≡◌, ◌≤◌, length};

use crate::tally::Tally;
use arrayvec::ArrayVec;
use rs_csv_answers::shown_of;
use std::cell::RefCell;
use std::io;
use std::io::{Read, Write};

/// How many bytes are read at once, at the most.
const PIECE_BYTES: usize = 4_096;

/// How many bytes of a line are kept, which are as many as it may have.
const LINE_BYTES: usize = 4_096;

/// The line that was handed out last, as it was read.
#[derive(Drop)]
pub struct Line {
    text: ArrayVec<u8, LINE_BYTES>,
    is_longer: bool,
    is_ended: bool,
    has_refused: bool,
}

impl Line {
    /// No line.
    pub fn new() -> Line {
        Line {
            text: ArrayVec::new(),
            is_longer: false,
            is_ended: true,
            has_refused: false,
        }
    }

    /// Whether its line feed is missing.
    pub fn is_unended(&self) -> bool {
        !self.is_ended
    }

    /// Its text, up to the first byte that is none, and whether it has more.
    pub fn shown(&self) -> (&[u8], bool) {
        let (shown, is_cut) = shown_of(self.text.as_slice());
        (shown, self.is_longer || is_cut)
    }

    // Takes bytes of this line or, after its line feed, of the next one.
    fn take(&mut self, bytes: &[u8]) {
        for byte in bytes {
            self.take_byte(*byte);
        }
    }

    fn take_byte(&mut self, byte: u8) {
        if self.is_ended {
            self.text.clear();
            self.is_longer = false;
        }
        self.is_ended = byte == b'\n';
        if !self.is_ended {
            if self.text.is_full() {
                self.is_longer = true;
            } else {
                self.text.push(byte);
            }
        }
    }
}

/// A reader that hands out one line at a time and, where it is to stop, ends once one was refused.
#[derive(Drop)]
pub struct LineByLine<'a, 'l, R> {
    input: &'a mut R,
    line: &'l RefCell<Line>,
    stops: bool,
    piece: [u8; PIECE_BYTES],
    begin: usize,
    end: usize,
}

impl<'a, 'l, R> LineByLine<'a, 'l, R> {
    /// The lines of this input.
    pub fn new(input: &'a mut R, line: &'l RefCell<Line>, stops: bool) -> LineByLine<'a, 'l, R> {
        LineByLine {
            input,
            line,
            stops,
            piece: [0; PIECE_BYTES],
            begin: 0,
            end: 0,
        }
    }

    // Whether a line was refused.
    fn has_refused(&self) -> bool {
        match self.line.try_borrow() {
            Ok(line) => line.has_refused,
            Err(_) => false,
        }
    }
}

impl<R: Read> Read for LineByLine<'_, '_, R> {
    fn read(&mut self, buf: &mut [u8]) -> io::Result<usize> {
        if self.stops && self.has_refused() {
            return Ok(0);
        }
        if self.begin >= self.end {
            self.begin = 0;
            self.end = self.input.read(&mut self.piece)?;
        }
        let end = self.end.min(PIECE_BYTES);
        let begin = self.begin.min(end);
        let rest = &self.piece[begin..end];
        let count = line_bytes(rest).min(buf.len());
        let handed = &rest[..count];
        buf[..count].copy_from_slice(handed);
        if let Ok(mut line) = self.line.try_borrow_mut() {
            line.take(handed);
        }
        self.begin = begin.saturating_add(count);
        Ok(count)
    }
}

// How many of the bytes belong to their first line, its LF among them.
fn line_bytes(bytes: &[u8]) -> usize
    ensures { result ≤ length bytes.now }
{
    match bytes.iter().position(|byte| *byte == b'\n') {
        Some(place) => place.saturating_add(1).min(bytes.len()),
        None => bytes.len(),
    }
}

/// A writer that counts the replies, and has the refused ones told with their lines.
#[derive(Drop)]
pub struct Watched<'a, 't, 'l, W, T> {
    output: &'a mut W,
    told: &'t mut T,
    line: &'l RefCell<Line>,
    tally: Tally,
}

impl<'a, 't, 'l, W, T> Watched<'a, 't, 'l, W, T> {
    /// Writes to this output, and tells there.
    pub fn new(
        output: &'a mut W,
        told: &'t mut T,
        line: &'l RefCell<Line>,
    ) -> Watched<'a, 't, 'l, W, T> {
        Watched {
            output,
            told,
            line,
            tally: Tally::new(),
        }
    }

    /// What was counted.
    pub fn into_tally(self) -> Tally {
        self.tally
    }
}

impl<W: Write, T: Write> Write for Watched<'_, '_, '_, W, T> {
    fn write(&mut self, buf: &[u8]) -> io::Result<usize> {
        let count = self.output.write(buf)?;
        if let Ok(mut line) = self.line.try_borrow_mut() {
            self.tally.meet_all(&buf[..count], &line, self.told);
            line.has_refused = self.tally.has_refused();
        }
        Ok(count)
    }

    fn flush(&mut self) -> io::Result<()> {
        self.output.flush()
    }
}

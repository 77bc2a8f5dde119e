//! Where a record stands: its number, and the line of the input on which it begins. A line ends with LF, with CR LF, or with CR alone.

use csv::ByteRecord;

/// Where a record stands.
#[derive(Clone, Copy)]
pub struct Spot {
    /// Its number, from 1.
    pub number: u64,
    /// The line on which it begins, from 1.
    pub line: u64,
}

/// How many lines have ended after some bytes of the input.
#[derive(Clone, Copy)]
pub struct Lines {
    // How many.
    ended: u64,
    // Whether the last byte is a CR, with which an LF is one end.
    after_return: bool,
}

impl Lines {
    /// Before the first byte.
    pub fn new() -> Lines {
        Lines {
            ended: 0,
            after_return: false,
        }
    }

    /// After a byte more.
    pub fn after(self, byte: u8) -> Lines {
        let after_return = byte == b'\r';
        let ends = after_return || byte == b'\n' && !self.after_return;
        Lines {
            ended: self.ended.saturating_add(u64::from(ends)),
            after_return,
        }
    }

    /// After bytes more of which none ends a line.
    pub fn within(self) -> Lines {
        Lines {
            ended: self.ended,
            after_return: false,
        }
    }

    /// The line of the next byte, from 1, where that ends none.
    pub fn next_line(self) -> u64 {
        self.ended.saturating_add(1)
    }
}

/// The lines of a text that is read, up to a place in it. No byte is counted twice.
#[derive(Clone, Copy)]
pub struct LinesRead {
    // How many ended.
    lines: Lines,
    // The place.
    place: usize,
}

impl LinesRead {
    /// At the beginning of a text, whose first line is empty and is not in the input.
    pub fn before_text(lines: Lines) -> LinesRead {
        LinesRead { lines, place: 1 }
    }

    /// Those that ended.
    pub fn ended(&self) -> Lines {
        self.lines
    }

    // Goes on to a place of the text, where that is further.
    fn go_to(&mut self, text: &[u8], place: usize) {
        if let Some(bytes) = text.get(self.place..place) {
            for byte in bytes {
                self.lines = self.lines.after(*byte);
            }
            self.place = place;
        }
    }

    // Goes past the ends of lines that are next.
    fn pass_ends(&mut self, text: &[u8]) {
        let Some(bytes) = text.get(self.place..) else {
            return;
        };
        for byte in bytes {
            if *byte != b'\n' && *byte != b'\r' {
                return;
            }
            self.lines = self.lines.after(*byte);
            self.place = self.place.saturating_add(1);
        }
    }

    /// The line on which a record of the text begins, which comes after those that were asked for before.
    pub fn line_of(&mut self, text: &[u8], csv_record: &ByteRecord) -> u64 {
        if let Some(start) = csv_record.position() {
            self.go_to(text, start.byte() as usize);
        }
        self.pass_ends(text);
        self.lines.next_line()
    }
}

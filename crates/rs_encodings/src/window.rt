//! Bytes that wait, with room after them.

ghost use Rattle.std.specs.Prelude.{◌≡◌, ◌+◌, ◌<◌, ◌≤◌, [], ◌++◌, ℕ, List, IfOk, OnErr, drop, false, length, min, take, true};
ghost use Rattle.std.specs.Io.KnownBytes.{Consumes, IsAtEnd, Keeps, prepend_known};
ghost use Rattle.rs_encodings.specs.Texts.{utf8_of};

use std::io;
use std::io::Read;

/// How many bytes may wait.
pub const WINDOW_BYTES: usize = 4_096;

/// How many bytes a character has at the most, in any of the encodings.
pub const CHARACTER_BYTES: usize = 4;

/// What is written where there is no character: a byte that is in no UTF-8.
pub const NO_CHARACTER: u8 = 0xff;

/// Bytes that wait, with room after them.
#[derive(Drop)]
pub struct Window {
    bytes: [u8; WINDOW_BYTES],
    start: usize,
    end: usize,
    ghost ordered: { start ≤ end },
    ghost within: { end ≤ 4096 },
}

impl Window {
    ghost use Rattle.rs_encodings.specs.Waiting.{items, room};

    /// No byte.
    pub fn new() -> Window
        ensures { items result ≡ [] }
    {
        Window {
            bytes: [0; WINDOW_BYTES],
            start: 0,
            end: 0,
        }
    }

    /// The bytes.
    pub fn as_slice(&self) -> &[u8]
        ensures value { result.now ≡ items self.now }
        ensures fits { length result.now + room self.now ≤ 4096 }
    {
        &self.bytes[self.start..self.end]
    }

    /// Whether there is none.
    pub fn is_empty(&self) -> bool
        ensures none { result ≡ true → items self.now ≡ [] }
        ensures some { result ≡ false → 0 < length (items self.now) }
    {
        self.as_slice().is_empty()
    }

    /// Whether a character has room.
    pub fn has_room(&self) -> bool
        ensures room { result ≡ true → 4 ≤ room self.now }
        ensures full { result ≡ false → room self.now < 4 }
    {
        WINDOW_BYTES - self.end >= CHARACTER_BYTES
    }

    /// Takes the bytes away.
    pub fn clear(&mut self)
        ensures items { items self.new ≡ [] }
        ensures room { room self.new ≡ 4096 }
    {
        self.start = 0;
        self.end = 0;
    }

    /// Takes so many bytes away.
    pub fn consume(&mut self, count: usize)
        requires { count ≤ length (items self.old) }
        ensures { items self.new ≡ drop count (items self.old) }
    {
        self.start += count;
    }

    // Makes room.
    fn move_to_front(&mut self)
        ensures items { items self.new ≡ items self.old }
        ensures room { room self.new + length (items self.new) ≡ 4096 }
    {
        let (start, end) = (self.start, self.end);
        self.bytes.copy_within(start..end, 0);
        self.start = 0;
        self.end = end - start;
    }

    // Reads more bytes, as many as there is room for at the most.
    fn read_from<R: Read>(&mut self, reader: &mut R) -> io::Result<usize>
        ensures ok { IfOk result (λ count. (more : List ℕ) × (length more ≡ count) × (items self.new ≡ items self.old ++ more)
            × Consumes (R.remaining reader.old) (R.remaining reader.new) more) }
        ensures end { IfOk result (λ count. count ≡ 0 → 0 < room self.old → IsAtEnd (R.remaining reader.new)) }
        ensures err { OnErr result ((items self.new ≡ items self.old) × Keeps (R.remaining reader.old) (R.remaining reader.new)) }
    {
        let end = self.end;
        let count = reader.read(&mut self.bytes[end..])?;
        self.end = end + count;
        Ok(count)
    }

    /// Reads until there are four bytes, or all. Says whether it was all.
    pub fn gather<R: Read>(&mut self, reader: &mut R) -> io::Result<bool>
        ensures same { Keeps (prepend_known (items self.old) (R.remaining reader.old)) (prepend_known (items self.new) (R.remaining reader.new)) }
        ensures end { IfOk result (λ is_last. is_last ≡ true → IsAtEnd (R.remaining reader.new)) }
        ensures enough { IfOk result (λ is_last. is_last ≡ false → 4 ≤ length (items self.new)) }
    {
        while self.as_slice().len() < CHARACTER_BYTES {
            self.move_to_front();
            if self.read_from(reader)? == 0 {
                return Ok(true);
            }
        }
        Ok(false)
    }

    // Adds bytes.
    fn push(&mut self, bytes: &[u8])
        requires { length bytes.now ≤ room self.old }
        ensures items { items self.new ≡ items self.old ++ bytes.now }
        ensures room { room self.new + length bytes.now ≡ room self.old }
    {
        let end = self.end;
        let after = end + bytes.len();
        self.bytes[end..after].copy_from_slice(bytes);
        self.end = after;
    }

    /// Adds a character, or what is written where there is none.
    pub fn push_character(&mut self, character: Option<char>)
        requires { 4 ≤ room self.old }
        ensures items { items self.new ≡ items self.old ++ utf8_of character }
        ensures room { room self.new + length (utf8_of character) ≡ room self.old }
    {
        match character {
            Some(character) => {
                let mut bytes = [0; CHARACTER_BYTES];
                self.push(character.encode_utf8(&mut bytes).as_bytes());
            }
            None => self.push(&[NO_CHARACTER]),
        }
    }

    /// Gives as many bytes as there is room for, and says how many.
    pub fn give(&mut self, buf: &mut [u8]) -> usize
        ensures count { result ≡ min (length buf.new) (length (items self.old)) }
        ensures bytes { items self.old ≡ take result buf.new ++ items self.new }
    {
        let waiting = self.as_slice();
        let count = buf.len().min(waiting.len());
        buf[..count].copy_from_slice(&waiting[..count]);
        self.consume(count);
        count
    }
}

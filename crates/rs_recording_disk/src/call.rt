//! A call of a disk, as it was done.

ghost use Rattle.std.specs.Prelude.{◌≡◌, ◌+◌, ◌^◌, ◌<◌, length, vec_len};

use std::marker::Model;

/// A range that was written, in whole or in part.
#[derive(Drop)]
pub struct WrittenRange {
    at: u64,
    bytes: Vec<u8>,
    unwritten: usize,
}

impl Model for WrittenRange {
    ghost use Rattle.std.specs.Prelude.{◌+◌, ◌^◌, ◌<◌, vec_len};
    ghost use Rattle.rs_recording_disk.specs.Range.{Range};

    ghost Value = { Range };

    ghost view = { λ range. record {
      at = range.at;
      bytes = range.bytes.items;
      unwritten = range.unwritten;
    } };

    ghost invariant = { λ range. vec_len range.bytes + range.unwritten < 2 ^ 64 };
}

impl WrittenRange {
    /// These bytes at an offset, the first of a write that was of so many more.
    pub(crate) fn new(at: u64, bytes: Vec<u8>, unwritten: usize) -> WrittenRange
        requires { vec_len bytes + unwritten < 2 ^ 64 }
        ensures { result ≡ record { at = at; bytes = bytes.items; unwritten = unwritten } }
    {
        WrittenRange {
            at,
            bytes,
            unwritten,
        }
    }

    /// The offset of the range.
    pub fn at(&self) -> u64
        ensures { result ≡ self.now.at }
    {
        self.at
    }

    /// The bytes that were written.
    pub fn bytes(&self) -> &[u8]
        ensures { result.now ≡ self.now.bytes }
    {
        &self.bytes
    }

    /// How many bytes the write was of.
    pub fn len(&self) -> usize
        ensures { result ≡ length self.now.bytes + self.now.unwritten }
    {
        self.bytes.len() + self.unwritten
    }
}

/// A call of a disk.
#[derive(Drop)]
pub enum Call {
    Read,
    Write(WrittenRange),
    /// A sync, which succeeded where it is done.
    Sync { is_done: bool },
    /// A cut to so many pages.
    Cut { pages: u32, is_done: bool },
}

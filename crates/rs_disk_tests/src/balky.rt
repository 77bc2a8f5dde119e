//! A file whose reads and writes move a few bytes at a time, and of which one call fails.

use std::cell::Cell;
use std::fs::{File, Metadata, OpenFile};
use std::io;
use std::os::unix::fs::FileExt;

/// A file, and what is wrong with it.
#[derive(Drop)]
pub struct BalkyFile<'a> {
    file: File,
    most: usize,
    /// How many calls are left up to the one that fails; 0: none fails.
    calls_left: Cell<u64>,
    error: io::ErrorKind,
    calls: &'a Cell<u64>,
}

impl<'a> BalkyFile<'a> {
    /// Moves `most` bytes at most by a call, fails the call with the number `failing_call` (0: none) with `error`, and
    /// counts each in `calls`.
    pub fn new(
        file: File,
        most: usize,
        failing_call: u64,
        error: io::ErrorKind,
        calls: &'a Cell<u64>,
    ) -> BalkyFile<'a> {
        BalkyFile {
            file,
            most,
            calls_left: Cell::new(failing_call),
            error,
            calls,
        }
    }

    fn call(&self) -> io::Result<()> {
        self.calls.set(self.calls.get().saturating_add(1));
        let left = self.calls_left.get();
        self.calls_left.set(left.saturating_sub(1));
        if left == 1 {
            return Err(self.error.into());
        }
        Ok(())
    }
}

impl FileExt for BalkyFile<'_> {
    fn read_at(&self, buf: &mut [u8], offset: u64) -> io::Result<usize> {
        self.call()?;
        let count = buf.len().min(self.most);
        self.file.read_at(&mut buf[..count], offset)
    }

    fn write_at(&self, buf: &[u8], offset: u64) -> io::Result<usize> {
        self.call()?;
        let count = buf.len().min(self.most);
        self.file.write_at(&buf[..count], offset)
    }
}

impl OpenFile for BalkyFile<'_> {
    fn metadata(&self) -> io::Result<Metadata> {
        self.call()?;
        self.file.metadata()
    }

    fn set_len(&self, size: u64) -> io::Result<()> {
        self.call()?;
        self.file.set_len(size)
    }

    fn sync_all(&self) -> io::Result<()> {
        self.call()?;
        self.file.sync_all()
    }

    fn sync_data(&self) -> io::Result<()> {
        self.call()?;
        self.file.sync_data()
    }
}

//! A disk over a file of the operating system.
//!
//! No clause says what a file's bytes are. That a real file keeps the disk's model is a premise of whoever
//! builds on one; what is promised here is that calls are safe, return, and count their failures.

ghost use Rattle.std.specs.Prelude.{◌≡◌, false, IsErrOf, IfOk};
ghost use Rattle.std.proofs.lemmas.Bool.{false≢true};
ghost use Rattle.rs_disk.specs.Calls.{no_calls};
ghost use Rattle.rs_disk.specs.Folder.{folder_bytes};

use crate::calls::CallLog;
use crate::disk::{Disk, DiskFault};
use rs_page::PAGE_SIZE;
use std::fs::{File, OpenFile, OpenOptions, TryLockError};
use std::io;
use std::marker::Model;
use std::os::unix::fs::FileExt;
use std::path::Path;
use std::rt::Files;
use thiserror::Error;

/// Why a file was not opened.
#[derive(Clone, Copy, Debug, PartialEq, Eq, Error)]
pub enum OpenError {
    /// There is something at the path where a file was to be made.
    #[error("file exists")]
    Exists,
    /// There is nothing at the path.
    #[error("no such file")]
    Missing,
    /// Another disk has the file open, in this process or another.
    #[error("file in use")]
    InUse,
    /// The system refused it, or it is no regular file.
    #[error("cannot open file")]
    CannotOpen,
    /// The file was made, and the folder that holds it was not synced: after a power cut it may not be there.
    #[error("cannot sync folder")]
    FolderNotSynced,
}

/// An open file, which `create` and `open` lock: no other disk opens it until this one is dropped, which closes
/// the file. `open_for_reading` locks it so that others may read it too. The lock is advisory, so a program that takes none can still write the file.
#[derive(Drop)]
pub struct FileDisk<F = File> {
    file: F,
    calls: CallLog,
}

/// Of a file nothing is known but its calls.
impl<F> Model for FileDisk<F> {
    ghost use Rattle.rs_disk.specs.Calls.{Calls};

    ghost Value = { Calls };

    ghost view = { λ disk. disk.calls };
}

impl FileDisk {
    /// Makes an empty file at a path where there is nothing, and opens it. Where something is, that is
    /// left as it was.
    pub fn create<R: Files<File = File>>(rt: &R, path: &str) -> Result<FileDisk, OpenError>
        ensures fresh { IfOk result (λ disk. disk ≡ no_calls) }
        ensures not_missing { IsErrOf result OpenError.Missing → ⊥ }
    {
        match File::create_new(rt, path) {
            Ok(file) => locked(file),
            Err(error) if error.kind() == io::ErrorKind::AlreadyExists => Err(OpenError::Exists),
            Err(_) => Err(OpenError::CannotOpen),
        }
    }

    /// Makes an empty file as `create` does, and syncs the folder that holds it, so that the file is there after a power
    /// cut. Where the folder can't be opened or synced, the file stays as it was made, empty and not open.
    pub fn create_synced<R: Files<File = File>>(rt: &R, path: &str) -> Result<FileDisk, OpenError>
        ensures fresh { IfOk result (λ disk. disk ≡ no_calls) }
        ensures not_missing { IsErrOf result OpenError.Missing → ⊥ }
    {
        let disk = FileDisk::create(rt, path)?;
        match sync_folder(rt, folder_of(path)) {
            Ok(()) => Ok(disk),
            Err(_) => Err(OpenError::FolderNotSynced),
        }
    }

    /// Opens a regular file that is there, and leaves its bytes as they are.
    pub fn open<R: Files<File = File>>(rt: &R, path: &str) -> Result<FileDisk, OpenError>
        ensures fresh { IfOk result (λ disk. disk ≡ no_calls) }
        ensures not_existing { IsErrOf result OpenError.Exists → ⊥ }
    {
        match OpenOptions::new().read(true).write(true).open(rt, path) {
            Ok(file) if is_regular(&file) => locked(file),
            Err(error) if error.kind() == io::ErrorKind::NotFound => Err(OpenError::Missing),
            _ => Err(OpenError::CannotOpen),
        }
    }

    /// Opens a regular file that is there for reading alone, beside others that do so: while it is open, `open` answers `InUse`. Writes
    /// and cuts fail.
    pub fn open_for_reading<R: Files<File = File>>(
        rt: &R,
        path: &str,
    ) -> Result<FileDisk, OpenError>
        ensures fresh { IfOk result (λ disk. disk ≡ no_calls) }
        ensures not_existing { IsErrOf result OpenError.Exists → ⊥ }
    {
        match OpenOptions::new().read(true).open(rt, path) {
            Ok(file) if is_regular(&file) => shared(file),
            Err(error) if error.kind() == io::ErrorKind::NotFound => Err(OpenError::Missing),
            _ => Err(OpenError::CannotOpen),
        }
    }
}

impl<F> FileDisk<F> {
    /// A disk over a file that is open already. It takes no lock.
    pub fn over(file: F) -> FileDisk<F>
        ensures { result ≡ no_calls }
    {
        FileDisk {
            file,
            calls: CallLog::new(),
        }
    }
}

impl<F: FileExt + OpenFile> Disk for FileDisk<F> {
    ghost seen = { λ _. record { size = 0; byte = λ _. 0 } };

    ghost is_honest = { λ _. false };

    ghost failures = { λ calls. calls.failures };

    ghost is_synced = { λ calls. calls.is_synced };

    ghost keeps_crashes = { λ _. false };

    ghost may_leave = { λ _ _. ⊥ };

    ghost left_since = { λ _ _ _. ⊥ };

    ghost zeros_past_the_end = { λ _ honest. absurd (false≢true honest) };

    ghost zeros_past_an_image = { λ _ keeps. absurd (false≢true keeps) };

    ghost reads_too = { λ _ keeps. absurd (false≢true keeps) };

    ghost starts_now = { λ _ keeps. absurd (false≢true keeps) };

    ghost counts_now = { λ _ _ keeps. absurd (false≢true keeps) };

    ghost only_now = { λ _ keeps. absurd (false≢true keeps) };

    fn read(&mut self, at: u64, buffer: &mut [u8]) -> Result<(), DiskFault> {
        let outcome = read_at(&self.file, at, buffer).map_err(|_| DiskFault);
        self.calls.note_read(outcome)
    }

    fn write(&mut self, at: u64, bytes: &[u8]) -> Result<(), DiskFault> {
        let outcome = self.file.write_all_at(bytes, at).map_err(|_| DiskFault);
        self.calls.note_change(outcome)
    }

    fn sync(&mut self) -> Result<(), DiskFault> {
        let outcome = self.file.sync_all().map_err(|_| DiskFault);
        self.calls.note_sync(outcome)
    }

    fn cut(&mut self, pages: u32) -> Result<(), DiskFault> {
        let bound = PAGE_SIZE as u64 * u64::from(pages);
        let outcome = shorten(&self.file, bound).map_err(|_| DiskFault);
        self.calls.note_change(outcome)
    }

    /// It is 0 where the system doesn't tell the length.
    fn pages(&self) -> u32 {
        let length = self.file.metadata().map_or(0, |found| found.len());
        (length / PAGE_SIZE as u64).min(u64::from(u32::MAX)) as u32
    }

    fn failures(&self) -> u64 {
        self.calls.failures()
    }
}

/// The folder that holds the file at a path: the path's parent, and `.` where it has none.
fn folder_of(path: &str) -> &str
    ensures { result.now ≡ folder_bytes path.now }
{
    match Path::new(path).parent() {
        Some(parent) if !parent.as_str().is_empty() => parent.as_str(),
        _ => ".",
    }
}

/// Waits until the names in a folder are on the medium.
fn sync_folder<R: Files<File = File>>(rt: &R, folder: &str) -> io::Result<()> {
    File::open(rt, folder)?.sync_all()
}

/// Locks a file, and makes a disk of it.
fn locked(file: File) -> Result<FileDisk, OpenError>
    ensures fresh { IfOk result (λ disk. disk ≡ no_calls) }
    ensures not_missing { IsErrOf result OpenError.Missing → ⊥ }
    ensures not_existing { IsErrOf result OpenError.Exists → ⊥ }
{
    let lock = file.try_lock();
    over_locked(file, lock)
}

/// Locks a file for reading, beside others that read it, and makes a disk of it.
fn shared(file: File) -> Result<FileDisk, OpenError>
    ensures fresh { IfOk result (λ disk. disk ≡ no_calls) }
    ensures not_existing { IsErrOf result OpenError.Exists → ⊥ }
{
    let lock = file.try_lock_shared();
    over_locked(file, lock)
}

/// Makes a disk of a file where it was locked.
fn over_locked(file: File, lock: Result<(), TryLockError>) -> Result<FileDisk, OpenError>
    ensures fresh { IfOk result (λ disk. disk ≡ no_calls) }
    ensures not_missing { IsErrOf result OpenError.Missing → ⊥ }
    ensures not_existing { IsErrOf result OpenError.Exists → ⊥ }
{
    match lock {
        Ok(()) => Ok(FileDisk::over(file)),
        Err(TryLockError::WouldBlock) => Err(OpenError::InUse),
        Err(TryLockError::Error(_)) => Err(OpenError::CannotOpen),
    }
}

fn is_regular(file: &File) -> bool {
    file.metadata().is_ok_and(|found| found.is_file())
}

/// Reads the bytes from `at` on, zeros past the end of the file. Where the file has all of them, as a rule one
/// call of the system gives them.
fn read_at<F: FileExt + OpenFile>(file: &F, at: u64, buffer: &mut [u8]) -> io::Result<()> {
    match file.read_at(buffer, at) {
        Ok(count) if count == buffer.len() => Ok(()),
        Err(error) if error.kind() != io::ErrorKind::Interrupted => Err(error),
        _ => read_to_the_end(file, at, buffer),
    }
}

/// Reads the bytes from `at` on, zeros past the end of the file, in as many calls as it takes.
fn read_to_the_end<F: FileExt + OpenFile>(file: &F, at: u64, buffer: &mut [u8]) -> io::Result<()> {
    let there = file.metadata()?.len().saturating_sub(at);
    let there = there.min(buffer.len() as u64) as usize;
    file.read_exact_at(&mut buffer[..there], at)?;
    buffer[there..].fill(0);
    Ok(())
}

/// Drops the bytes past `bound`, if there are any.
fn shorten<F: OpenFile>(file: &F, bound: u64) -> io::Result<()> {
    if file.metadata()?.len() > bound {
        file.set_len(bound)?;
    }
    Ok(())
}

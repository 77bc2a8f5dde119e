//! A disk in memory.
//!
//! It is honest. Only a growth that is refused fails, and it leaves the disk as it was.

ghost use Rattle.std.specs.Prelude.{◌≡◌, ℕ, ◌+◌, ◌<◌, ◌≤◌, max, ◌*◌, true, false, [], ◌++◌, length, slice_index, take, IsOk, OnOk, OnErr};
ghost use Rattle.rs_disk.specs.Calls.{no_calls};
ghost use Rattle.rs_disk.specs.Content.{content_of, Gives, Holds, KeepsOthers};
ghost use Rattle.std.proofs.lemmas.Bool.{false≢true};
ghost use Rattle.rs_disk.specs.Counts.{Counts};
ghost use Rattle.std.proofs.lemmas.List.{get_or_past};

use crate::calls::CallLog;
use crate::disk::{Disk, DiskFault};
use rs_page::PAGE_SIZE;
use std::alloc::{AllocError, Global};
use std::marker::Model;

/// Bytes in memory.
#[derive(Drop)]
pub struct MemoryDisk {
    bytes: Vec<u8>,
    calls: CallLog,
}

impl Model for MemoryDisk {
    ghost use Rattle.rs_disk.specs.Memory.{Stored};

    ghost Value = { Stored };

    ghost view = { λ m. record { bytes = m.bytes.items; calls = m.calls } };
}

impl MemoryDisk {
    /// An empty disk. It takes no memory until it is written.
    pub fn new(alloc: Global) -> MemoryDisk
        ensures { result ≡ record { bytes = []; calls = no_calls } }
    {
        MemoryDisk {
            bytes: Vec::new(alloc),
            calls: CallLog::new(),
        }
    }

    /// A disk that holds these bytes.
    pub fn from_bytes(bytes: Vec<u8>) -> MemoryDisk
        ensures { result ≡ record { bytes = bytes.items; calls = no_calls } }
    {
        MemoryDisk {
            bytes,
            calls: CallLog::new(),
        }
    }

    /// The bytes that the disk holds.
    pub fn bytes(&self) -> &[u8]
        ensures { result.now ≡ self.now.bytes }
    {
        &self.bytes
    }

    /// Gives back the bytes that the disk holds.
    pub fn into_bytes(self) -> Vec<u8>
        ensures { result.items ≡ self.bytes }
    {
        let MemoryDisk { bytes, calls: _ } = self;
        bytes
    }
}

impl Disk for MemoryDisk {
    ghost seen = { λ m. content_of m.bytes };

    ghost is_honest = { λ _. true };

    ghost failures = { λ m. m.calls.failures };

    ghost is_synced = { λ m. m.calls.is_synced };

    ghost keeps_crashes = { λ _. false };

    ghost may_leave = { λ _ _. ⊥ };

    ghost left_since = { λ _ _ _. ⊥ };

    ghost zeros_past_the_end = { λ m _ i past. get_or_past m.bytes i 0 past };

    ghost zeros_past_an_image = { λ _ keeps. absurd (false≢true keeps) };

    ghost reads_too = { λ _ keeps. absurd (false≢true keeps) };

    ghost starts_now = { λ _ keeps. absurd (false≢true keeps) };

    ghost counts_now = { λ _ _ keeps. absurd (false≢true keeps) };

    ghost only_now = { λ _ keeps. absurd (false≢true keeps) };

    fn read(&mut self, at: u64, buffer: &mut [u8]) -> Result<(), DiskFault>
        ensures succeeds { IsOk result }
        ensures bytes { Gives (content_of self.old.bytes) at buffer.new }
        ensures same { self.new ≡ self.old }
    {
        read_out(&self.bytes, at as usize, buffer);
        Ok(())
    }

    /// It fails where the memory for a growth is refused, and then changes nothing but the count. Within
    /// what the disk holds it doesn't fail.
    fn write(&mut self, at: u64, bytes: &[u8]) -> Result<(), DiskFault>
        ensures written { OnOk result (Holds (content_of self.new.bytes) at bytes.now) }
        ensures others { KeepsOthers at (length bytes.now)
            (content_of self.old.bytes) (content_of self.new.bytes) }
        ensures inside { at + length bytes.now ≤ length self.old.bytes → IsOk result }
        ensures refused { OnErr result (self.new.bytes ≡ self.old.bytes) }
        ensures count { Counts result self.old.calls.failures self.new.calls.failures }
        ensures synced { self.new.calls.is_synced ≡ false }
    {
        let outcome = write_in(&mut self.bytes, at as usize, bytes);
        self.calls.note_change(outcome)
    }

    fn sync(&mut self) -> Result<(), DiskFault>
        ensures succeeds { IsOk result }
        ensures same { self.new.bytes ≡ self.old.bytes }
        ensures count { self.new.calls.failures ≡ self.old.calls.failures }
        ensures synced { self.new.calls.is_synced ≡ true }
    {
        // There is no medium to wait for.
        self.calls.note_sync(Ok(()))
    }

    fn cut(&mut self, pages: u32) -> Result<(), DiskFault>
        ensures succeeds { IsOk result }
        ensures cut { self.new.bytes ≡ take (PAGE_SIZE * pages) self.old.bytes }
        ensures count { self.new.calls.failures ≡ self.old.calls.failures }
        ensures synced { self.new.calls.is_synced ≡ false }
    {
        self.bytes.truncate(PAGE_SIZE * pages as usize);
        self.calls.note_change(Ok(()))
    }

    fn pages(&self) -> u32 {
        (self.bytes.len() / PAGE_SIZE).min(u32::MAX as usize) as u32
    }

    fn failures(&self) -> u64 {
        self.calls.failures()
    }
}

/// Copies out the bytes from `at` on, zeros past their end.
fn read_out(bytes: &[u8], at: usize, buffer: &mut [u8])
    ensures { Gives (content_of bytes.now) at buffer.new }
{
    let from = at.min(bytes.len());
    let held = (bytes.len() - from).min(buffer.len());
    if held < buffer.len() {
        clear(buffer);
    }
    overwrite(buffer, 0, &bytes[from..from + held]);
}

/// Makes all bytes zeros.
fn clear(bytes: &mut [u8])
    ensures zeros { (k : ℕ) → slice_index bytes.new k ≡ 0 }
    ensures length { length bytes.new ≡ length bytes.old }
{
    bytes.fill(0);
}

/// Writes in bytes from `at` on, after making room for them. A refused growth changes nothing.
fn write_in(file: &mut Vec<u8>, at: usize, bytes: &[u8]) -> Result<(), DiskFault>
    ensures written { OnOk result (Holds (content_of file.new.items) at bytes.now) }
    ensures others { OnOk result (KeepsOthers at (length bytes.now)
        (content_of file.old.items) (content_of file.new.items)) }
    ensures inside { at + length bytes.now ≤ length file.old.items → IsOk result }
    ensures refused { OnErr result (file.new.items ≡ file.old.items) }
{
    if bytes.is_empty() {
        return Ok(());
    }
    if at == file.len() {
        return append(file, bytes);
    }
    let end = at.checked_add(bytes.len()).ok_or(DiskFault)?;
    grow(file, end).map_err(|_| DiskFault)?;
    overwrite(file, at, bytes);
    Ok(())
}

/// Puts bytes after the last. A refused growth changes nothing.
fn append(file: &mut Vec<u8>, bytes: &[u8]) -> Result<(), DiskFault>
    ensures bytes { OnOk result (file.new.items ≡ file.old.items ++ bytes.now) }
    ensures refused { OnErr result (file.new.items ≡ file.old.items) }
{
    file.extend_from_slice(bytes).map_err(|_| DiskFault)
}

/// Makes room for `end` bytes. The bytes that are added are zeros.
fn grow(file: &mut Vec<u8>, end: usize) -> Result<(), AllocError>
    ensures long { OnOk result (length file.new.items ≡ max (length file.old.items) end) }
    ensures bytes { OnOk result ((i : ℕ)
        → slice_index file.new.items i ≡ slice_index file.old.items i) }
    ensures inside { end ≤ length file.old.items → IsOk result }
    ensures refused { OnErr result (file.new.items ≡ file.old.items) }
{
    if file.len() < end {
        file.resize(end, 0)?;
    }
    Ok(())
}

/// Writes over bytes that are there.
fn overwrite(file: &mut [u8], at: usize, bytes: &[u8])
    requires { at + length bytes.now ≤ length file.old }
    ensures inside { (k : ℕ) → k < length bytes.now
        → slice_index file.new (at + k) ≡ slice_index bytes.now k }
    ensures before { (i : ℕ) → i < at → slice_index file.new i ≡ slice_index file.old i }
    ensures after { (i : ℕ) → at + length bytes.now ≤ i
        → slice_index file.new i ≡ slice_index file.old i }
{
    file[at..at + bytes.len()].copy_from_slice(bytes);
}

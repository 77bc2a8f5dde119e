//! Bytes in memory, and a record of the calls that made them.
//!
//! Room for the record of a call is made before the call is done. Where that is refused, nothing changes.

ghost use Rattle.std.specs.Prelude.{◌≡◌, ◌⊎◌, ◌+◌, ◌-◌, ◌^◌, ◌/◌, min, ◌*◌, ◌<◌, ◌≤◌, [], ◌∷◌, IfOk, IsErr, IsTrue, OnErr, OnOk, false, true, length, reverse, vec_len, vec_capacity};
ghost use Rattle.rs_disk.specs.Content.{content_of, CutsTo, Gives, Holds, KeepsOthers};
ghost use Rattle.rs_recording_disk.specs.Image.{image_of, past_at};
ghost use Rattle.rs_recording_disk.specs.Recorded.{content_now, cut_to, first_bytes, is_cut, Leaves, LeavesNow, LeftSince, RecordsFailed, RecordsFailedWrite, replayed, with_call, written};
ghost use Rattle.rs_disk.specs.Crash.{CutOrNot, Only, Passes, Same, Torn};

use crate::call::{Call, WrittenRange};
use crate::image::{Unsynced, left_by};
use rs_disk::{Disk, DiskFault, FailedCut, MemoryDisk};
use rs_page::PAGE_SIZE;
use std::alloc::{AllocError, Global};
use std::marker::Model;

/// Bytes in memory, those that were there first, and the calls since.
#[derive(Drop)]
pub struct Recording {
    alloc: Global,
    start: Vec<u8>,
    calls: Vec<Call>,
    disk: MemoryDisk,
}

impl Model for Recording {
    ghost use Rattle.std.specs.Prelude.{◌≡◌, reverse};
    ghost use Rattle.rs_disk.specs.Content.{content_of};
    ghost use Rattle.rs_recording_disk.specs.Recorded.{Recorded, replayed};

    ghost Value = { Recorded };

    ghost view = { λ m. record { start = m.start.items; past = reverse m.calls.items } };

    ghost invariant = { λ m. content_of m.disk.bytes
        ≡ replayed (content_of m.start.items) (reverse m.calls.items) };
}

impl Recording {
    /// These bytes, and no call.
    pub fn new(alloc: Global, bytes: Vec<u8>) -> Result<Recording, AllocError>
        ensures { IfOk result (λ recording. recording ≡ record { start = bytes.items; past = [] }) }
    {
        let start = bytes.as_slice().to_vec(alloc)?;
        Ok(Recording {
            alloc,
            start,
            calls: Vec::new(alloc),
            disk: MemoryDisk::from_bytes(bytes),
        })
    }

    /// Reads, but for a call that is to fail.
    pub fn read(&mut self, at: u64, buffer: &mut [u8], is_failing: bool) -> Result<(), DiskFault>
        ensures bytes { OnOk result (Gives (content_now self.old) at buffer.new) }
        ensures same { content_now self.new ≡ content_now self.old }
        ensures crash { Passes LeavesNow LeftSince Same self.old self.new }
        ensures recorded { OnOk result (self.new ≡ with_call Call.Read self.old) }
        ensures failed { RecordsFailed result (IsTrue is_failing) Call.Read self.old self.new }
        ensures fails { IsTrue is_failing → IsErr result }
    {
        make_room(&mut self.calls)?;
        note(&mut self.calls, Call::Read);
        if is_failing {
            return Err(DiskFault);
        }
        self.disk.read(at, buffer)
    }

    /// Writes, of a call that is to fail the first half.
    pub fn write(&mut self, at: u64, bytes: &[u8], is_failing: bool) -> Result<(), DiskFault>
        ensures written { OnOk result (Holds (content_now self.new) at bytes.now) }
        ensures others { KeepsOthers at (length bytes.now)
            (content_now self.old) (content_now self.new) }
        ensures crash { Passes LeavesNow LeftSince (Torn at (length bytes.now)) self.old self.new }
        ensures recorded { OnOk result (self.new ≡ with_call
            (Call.Write (record { at = at; bytes = bytes.now; unwritten = 0 })) self.old) }
        ensures failed { RecordsFailedWrite result (IsTrue is_failing) at bytes.now self.old self.new }
        ensures fails { IsTrue is_failing → IsErr result }
    {
        if is_failing {
            let half = bytes.len() / 2;
            let _ = self.write_part(at, &bytes[..half], bytes.len() - half);
            return Err(DiskFault);
        }
        self.write_part(at, bytes, 0)
    }

    /// Writes the first bytes of a write that is of so many more.
    fn write_part(&mut self, at: u64, part: &[u8], unwritten: usize) -> Result<(), DiskFault>
        requires { length part.now + unwritten < 2 ^ 64 }
        ensures written { OnOk result (Holds (content_now self.new) at part.now) }
        ensures others { KeepsOthers at (length part.now + unwritten)
            (content_now self.old) (content_now self.new) }
        ensures crash { Passes LeavesNow LeftSince
            (Torn at (length part.now + unwritten)) self.old self.new }
        ensures recorded { OnOk result (self.new ≡ with_call
            (Call.Write (record { at = at; bytes = part.now; unwritten = unwritten })) self.old) }
        ensures failed { OnErr result ((self.new ≡ self.old) ⊎ (self.new ≡ with_call
            (Call.Write (record { at = at; bytes = []; unwritten = length part.now + unwritten })) self.old)) }
    {
        let mut kept = part.to_vec(self.alloc).map_err(|_| DiskFault)?;
        make_room(&mut self.calls)?;
        let outcome = write_or_clear(&mut self.disk, at, &mut kept);
        let left = unwritten + (part.len() - kept.len());
        let range = WrittenRange::new(at, kept, left);
        note(&mut self.calls, Call::Write(range));
        outcome
    }

    /// Notes a sync, but for a call that is to fail it is done.
    pub fn sync(&mut self, is_failing: bool) -> Result<(), DiskFault>
        ensures same { content_now self.new ≡ content_now self.old }
        ensures crash { Passes LeavesNow LeftSince Same self.old self.new }
        ensures durable { OnOk result (Only (content_now self.new) (LeavesNow self.new)) }
        ensures recorded { OnOk result (self.new ≡ with_call (Call.Sync true) self.old) }
        ensures failed { RecordsFailed result (IsTrue is_failing) (Call.Sync false) self.old self.new }
        ensures fails { IsTrue is_failing → IsErr result }
    {
        make_room(&mut self.calls)?;
        let is_done = !is_failing;
        note(&mut self.calls, Call::Sync { is_done });
        if is_done { Ok(()) } else { Err(DiskFault) }
    }

    /// Cuts, of a call that is to fail only where `failed_cut` says so.
    pub fn cut(
        &mut self,
        pages: u32,
        is_failing: bool,
        failed_cut: FailedCut,
    ) -> Result<(), DiskFault>
        ensures cut { CutsTo result (PAGE_SIZE * pages)
            (content_now self.old) (content_now self.new) }
        ensures crash { Passes LeavesNow LeftSince (CutOrNot (PAGE_SIZE * pages))
            self.old self.new }
        ensures recorded { OnOk result (self.new ≡ with_call (Call.Cut pages true) self.old) }
        ensures failed { RecordsFailed result (IsTrue is_failing) (Call.Cut pages (is_cut failed_cut)) self.old self.new }
        ensures fails { IsTrue is_failing → IsErr result }
    {
        make_room(&mut self.calls)?;
        let is_done = !is_failing || failed_cut == FailedCut::Done;
        if is_done {
            cut_to_pages(&mut self.disk, pages);
        }
        note(&mut self.calls, Call::Cut { pages, is_done });
        if is_failing { Err(DiskFault) } else { Ok(()) }
    }

    /// How many whole pages the bytes fill, 2^32 - 1 at the most.
    pub fn pages(&self) -> u32
        ensures { result ≡ min ((content_now self.now).size / PAGE_SIZE) (2 ^ 32 - 1) }
    {
        self.disk.pages()
    }

    /// The bytes that a crash leaves at the moment after the first so many calls.
    pub fn image(
        &self,
        alloc: Global,
        moment: usize,
        unsynced: Unsynced,
    ) -> Result<Vec<u8>, AllocError>
        requires { moment ≤ length self.now.past }
        ensures image { IfOk result (λ bytes. content_of bytes.items
            ≡ image_of unsynced (content_of self.now.start) (past_at moment self.now.past)) }
        ensures kept { unsynced ≡ Unsynced.Kept → IfOk result (λ bytes. content_of bytes.items
            ≡ replayed (content_of self.now.start) (past_at moment self.now.past)) }
        ensures left { IfOk result (λ bytes. Leaves (content_of self.now.start)
            (past_at moment self.now.past) (content_of bytes.items)) }
    {
        left_by(alloc, &self.start, &self.calls[..moment], unsynced)
    }

    /// The calls so far, the first of them first.
    pub fn calls(&self) -> &[Call]
        ensures { reverse result.now ≡ self.now.past }
    {
        &self.calls
    }
}

/// Makes room for one more call.
fn make_room(calls: &mut Vec<Call>) -> Result<(), DiskFault>
    ensures items { calls.new.items ≡ calls.old.items }
    ensures room { OnOk result (vec_len calls.new < vec_capacity calls.new) }
{
    calls.reserve(1).map_err(|_| DiskFault)
}

/// Adds a call, for which room was made.
fn note(calls: &mut Vec<Call>, call: Call)
    requires { vec_len calls.old < vec_capacity calls.old }
    ensures { reverse calls.new.items ≡ call ∷ reverse calls.old.items }
{
    calls.push(call).unwrap();
}

/// Writes the bytes, or clears them where there is no room for them.
fn write_or_clear(disk: &mut MemoryDisk, at: u64, bytes: &mut Vec<u8>) -> Result<(), DiskFault>
    ensures content { content_of disk.new.bytes
        ≡ written at bytes.new.items (content_of disk.old.bytes) }
    ensures kept { OnOk result (bytes.new.items ≡ bytes.old.items) }
    ensures cleared { OnErr result (bytes.new.items ≡ []) }
    ensures fewer { length bytes.new.items ≤ length bytes.old.items }
{
    let outcome = disk.write(at, bytes.as_slice());
    if outcome.is_err() {
        bytes.clear();
    }
    outcome
}

/// Cuts the bytes to so many pages.
pub(crate) fn cut_to_pages(disk: &mut MemoryDisk, pages: u32)
    ensures { content_of disk.new.bytes ≡ cut_to (PAGE_SIZE * pages) (content_of disk.old.bytes) }
{
    let _ = disk.cut(pages);
}

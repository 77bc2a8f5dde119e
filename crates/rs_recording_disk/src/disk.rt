//! A disk for tests that records its calls, one of which may fail.

ghost use Rattle.std.specs.Prelude.{◌≡◌, ◌≤◌, ◌*◌, [], false, true, IfOk, OnOk, length, reverse};
ghost use Rattle.rs_disk.specs.Content.{content_of, CutsTo, Gives, Holds, KeepsOthers};
ghost use Rattle.rs_disk.specs.Counts.{Counts, Syncs};
ghost use Rattle.rs_disk.specs.Crash.{CutOrNot, Only, Passes, Same, Torn};
ghost use Rattle.rs_recording_disk.specs.Image.{image_of, past_at};
ghost use Rattle.rs_recording_disk.specs.Recorded.{content_now, FailsInTurn, is_cut, Leaves, LeavesNow, LeftSince, Records, RecordsFailed, RecordsFailedWrite, replayed};
ghost use Rattle.rs_disk.specs.Calls.{no_calls};

use crate::call::Call;
use crate::image::Unsynced;
use crate::recording::Recording;
use rs_disk::{CallLog, Disk, DiskFault, FailedCut, is_failing_call};
use rs_page::PAGE_SIZE;
use std::alloc::{AllocError, Global};
use std::marker::Model;

/// A disk in memory that keeps the model of crashes. It records each call, and one call may fail.
///
/// Room for the record of a call is made before the call is done; where that is refused, the call fails and nothing
/// changes.
#[derive(Drop)]
pub struct RecordingDisk {
    recording: Recording,
    /// How many calls are left up to the one that fails, that one among them; 0: none is left to fail.
    calls_left: u64,
    failed_cut: FailedCut,
    log: CallLog,
}

impl Model for RecordingDisk {
    ghost use Rattle.rs_recording_disk.specs.Recorded.{RecordedDisk};

    ghost Value = { RecordedDisk };

    ghost view = { λ m. record {
      recorded = m.recording;
      calls_left = m.calls_left;
      failed_cut = m.failed_cut;
      calls = m.log;
    } };
}

impl RecordingDisk {
    /// A disk that holds these bytes, and loses none of them in a crash. The call with the number `failing_call`
    /// fails, the first being 1: a read or a sync does nothing, a write writes the first half of its range, a cut
    /// does what `failed_cut` says. With 0 no call is made to fail.
    pub fn new(
        alloc: Global,
        bytes: Vec<u8>,
        failing_call: u64,
        failed_cut: FailedCut,
    ) -> Result<RecordingDisk, AllocError>
        ensures { IfOk result (λ disk. disk ≡ record {
          recorded = record { start = bytes.items; past = [] };
          calls_left = failing_call;
          failed_cut = failed_cut;
          calls = no_calls;
        }) }
    {
        Ok(RecordingDisk {
            recording: Recording::new(alloc, bytes)?,
            calls_left: failing_call,
            failed_cut,
            log: CallLog::new(),
        })
    }

    /// The bytes that a crash leaves at the moment after the first so many calls. They are an image that it may leave.
    pub fn image(
        &self,
        alloc: Global,
        moment: usize,
        unsynced: Unsynced,
    ) -> Result<Vec<u8>, AllocError>
        requires { moment ≤ length self.now.recorded.past }
        ensures image { IfOk result (λ bytes. content_of bytes.items
            ≡ image_of unsynced (content_of self.now.recorded.start)
            (past_at moment self.now.recorded.past)) }
        ensures kept { unsynced ≡ Unsynced.Kept → IfOk result (λ bytes. content_of bytes.items
            ≡ replayed (content_of self.now.recorded.start) (past_at moment self.now.recorded.past)) }
        ensures left { IfOk result (λ bytes. Leaves (content_of self.now.recorded.start)
            (past_at moment self.now.recorded.past) (content_of bytes.items)) }
    {
        self.recording.image(alloc, moment, unsynced)
    }

    /// The calls so far, the first of them first.
    pub fn calls(&self) -> &[Call]
        ensures { reverse result.now ≡ self.now.recorded.past }
    {
        self.recording.calls()
    }
}

impl Disk for RecordingDisk {
    ghost use Rattle.rs_recording_disk.specs.Laws as laws;

    ghost seen = { λ m. content_now m.recorded };

    ghost is_honest = { λ _. true };

    ghost failures = { λ m. m.calls.failures };

    ghost is_synced = { λ m. m.calls.is_synced };

    ghost keeps_crashes = { λ _. true };

    ghost may_leave = { λ m. LeavesNow m.recorded };

    ghost left_since = { λ from m. LeftSince from.recorded m.recorded };

    ghost zeros_past_the_end = { λ m _. (laws.seen_ends m.recorded).zeros };

    ghost zeros_past_an_image = { λ m _ image left. (laws.left_ends m.recorded image left).zeros };

    ghost reads_too = { λ m _. laws.reads_now m.recorded };

    ghost starts_now = { λ m _. laws.starts_now m.recorded };

    ghost counts_now = { λ from m _. laws.counts_since from.recorded m.recorded };

    ghost only_now = { λ m _. laws.only_left m.recorded };

    fn read(&mut self, at: u64, buffer: &mut [u8]) -> Result<(), DiskFault>
        ensures bytes { OnOk result (Gives (content_now self.old.recorded) at buffer.new) }
        ensures same { content_now self.new.recorded ≡ content_now self.old.recorded }
        ensures count { Counts result self.old.calls.failures self.new.calls.failures }
        ensures synced { self.new.calls.is_synced ≡ self.old.calls.is_synced }
        ensures crash { Passes LeavesNow LeftSince Same self.old.recorded self.new.recorded }
        ensures recorded { Records result Call.Read self.old self.new }
        ensures failed { RecordsFailed result (self.old.calls_left ≡ 1) Call.Read self.old.recorded self.new.recorded }
        ensures turn { FailsInTurn result self.old self.new }
    {
        let is_failing = is_failing_call(&mut self.calls_left);
        let outcome = self.recording.read(at, buffer, is_failing);
        self.log.note_read(outcome)
    }

    fn write(&mut self, at: u64, bytes: &[u8]) -> Result<(), DiskFault>
        ensures written { OnOk result (Holds (content_now self.new.recorded) at bytes.now) }
        ensures others { KeepsOthers at (length bytes.now)
            (content_now self.old.recorded) (content_now self.new.recorded) }
        ensures count { Counts result self.old.calls.failures self.new.calls.failures }
        ensures synced { self.new.calls.is_synced ≡ false }
        ensures crash { Passes LeavesNow LeftSince (Torn at (length bytes.now))
            self.old.recorded self.new.recorded }
        ensures recorded { Records result
            (Call.Write (record { at = at; bytes = bytes.now; unwritten = 0 })) self.old self.new }
        ensures failed { RecordsFailedWrite result (self.old.calls_left ≡ 1) at bytes.now
            self.old.recorded self.new.recorded }
        ensures turn { FailsInTurn result self.old self.new }
    {
        let is_failing = is_failing_call(&mut self.calls_left);
        let outcome = self.recording.write(at, bytes, is_failing);
        self.log.note_change(outcome)
    }

    fn sync(&mut self) -> Result<(), DiskFault>
        ensures same { content_now self.new.recorded ≡ content_now self.old.recorded }
        ensures count { Counts result self.old.calls.failures self.new.calls.failures }
        ensures synced { Syncs result self.old.calls.is_synced self.new.calls.is_synced }
        ensures crash { Passes LeavesNow LeftSince Same self.old.recorded self.new.recorded }
        ensures durable { OnOk result
            (Only (content_now self.new.recorded) (LeavesNow self.new.recorded)) }
        ensures recorded { Records result (Call.Sync true) self.old self.new }
        ensures failed { RecordsFailed result (self.old.calls_left ≡ 1) (Call.Sync false)
            self.old.recorded self.new.recorded }
        ensures turn { FailsInTurn result self.old self.new }
    {
        let is_failing = is_failing_call(&mut self.calls_left);
        let outcome = self.recording.sync(is_failing);
        self.log.note_sync(outcome)
    }

    fn cut(&mut self, pages: u32) -> Result<(), DiskFault>
        ensures cut { CutsTo result (PAGE_SIZE * pages)
            (content_now self.old.recorded) (content_now self.new.recorded) }
        ensures count { Counts result self.old.calls.failures self.new.calls.failures }
        ensures synced { self.new.calls.is_synced ≡ false }
        ensures crash { Passes LeavesNow LeftSince (CutOrNot (PAGE_SIZE * pages))
            self.old.recorded self.new.recorded }
        ensures recorded { Records result (Call.Cut pages true) self.old self.new }
        ensures failed { RecordsFailed result (self.old.calls_left ≡ 1) (Call.Cut pages (is_cut self.old.failed_cut))
            self.old.recorded self.new.recorded }
        ensures turn { FailsInTurn result self.old self.new }
    {
        let is_failing = is_failing_call(&mut self.calls_left);
        let outcome = self.recording.cut(pages, is_failing, self.failed_cut);
        self.log.note_change(outcome)
    }

    fn pages(&self) -> u32 {
        self.recording.pages()
    }

    fn failures(&self) -> u64 {
        self.log.failures()
    }
}

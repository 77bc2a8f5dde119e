//! A disk for tests: one of its calls fails, and the others are another disk's.
//!
//! The call that fails may leave after what the model allows: half a write, a cut that was done.

ghost use Rattle.std.specs.Prelude.{◌≡◌, ◌==◌, ◌-◌, ◌*◌, false, length, IsTrue, IsErr, OnOk};
ghost use Rattle.rs_disk.specs.Calls.{no_calls};
ghost use Rattle.rs_disk.specs.Content.{Gives, Holds, KeepsOthers, CutsTo};
ghost use Rattle.std.proofs.lemmas.Bool.{false≢true};
ghost use Rattle.rs_disk.specs.Counts.{Counts, Syncs};

use crate::calls::CallLog;
use crate::disk::{Disk, DiskFault};
use rs_page::PAGE_SIZE;
use std::marker::Model;

/// Whether a cut that fails is done.
#[derive(Clone, Copy, Debug, PartialEq, Eq)]
pub enum FailedCut {
    Done,
    NotDone,
}

/// A disk of which one call fails once. Reads, writes, syncs and cuts are its calls.
///
/// It counts the failures of its own calls, those that come from the disk below among them.
#[derive(Drop)]
pub struct FailingDisk<D: Disk> {
    disk: D,
    /// How many calls are left up to the one that fails, that one among them; 0: none is left to fail.
    calls_left: u64,
    failed_cut: FailedCut,
    calls: CallLog,
}

impl<D: Disk> Model for FailingDisk<D> {
    ghost use Rattle.rs_disk.specs.Failing.{Failing};

    ghost Value = { Failing D };

    ghost view = { λ f. record {
      disk = f.disk;
      calls_left = f.calls_left;
      failed_cut = f.failed_cut;
      calls = f.calls;
    } };
}

impl<D: Disk> FailingDisk<D> {
    /// Passes each call on to `disk` but for the one with the number `failing_call`, the first being 1. That
    /// one fails: a read or a sync does nothing, a write writes the first half of its range, a cut does
    /// what `failed_cut` says. With 0 each call is passed on.
    pub fn new(disk: D, failing_call: u64, failed_cut: FailedCut) -> FailingDisk<D>
        ensures { result ≡ record {
          disk = disk;
          calls_left = failing_call;
          failed_cut = failed_cut;
          calls = no_calls;
        } }
    {
        FailingDisk {
            disk,
            calls_left: failing_call,
            failed_cut,
            calls: CallLog::new(),
        }
    }
}

/// Counts a call, and answers whether it is the one that fails.
pub fn is_failing_call(calls_left: &mut u64) -> bool
    ensures turn { result ≡ (calls_left.old == 1) }
    ensures left { calls_left.new ≡ calls_left.old - 1 }
{
    let is_failing = *calls_left == 1;
    *calls_left = calls_left.saturating_sub(1);
    is_failing
}

impl<D: Disk> Disk for FailingDisk<D> {
    ghost use Rattle.rs_disk.specs.Failing.{FailsInTurn};

    ghost seen = { λ failing. D.Disk.seen failing.disk };

    ghost is_honest = { λ failing. D.Disk.is_honest failing.disk };

    ghost failures = { λ failing. failing.calls.failures };

    ghost is_synced = { λ failing. failing.calls.is_synced };

    ghost keeps_crashes = { λ _. false };

    ghost may_leave = { λ _ _. ⊥ };

    ghost left_since = { λ _ _ _. ⊥ };

    ghost zeros_past_the_end = { λ failing. D.Disk.zeros_past_the_end failing.disk };

    ghost zeros_past_an_image = { λ _ keeps. absurd (false≢true keeps) };

    ghost reads_too = { λ _ keeps. absurd (false≢true keeps) };

    ghost starts_now = { λ _ keeps. absurd (false≢true keeps) };

    ghost counts_now = { λ _ _ keeps. absurd (false≢true keeps) };

    ghost only_now = { λ _ keeps. absurd (false≢true keeps) };

    fn read(&mut self, at: u64, buffer: &mut [u8]) -> Result<(), DiskFault>
        ensures bytes { IsTrue (D.is_honest self.old.disk)
            → OnOk result (Gives (D.seen self.old.disk) at buffer.new) }
        ensures same { IsTrue (D.is_honest self.old.disk)
            → D.seen self.new.disk ≡ D.seen self.old.disk }
        ensures honesty { D.is_honest self.new.disk ≡ D.is_honest self.old.disk }
        ensures count { Counts result self.old.calls.failures self.new.calls.failures }
        ensures synced { self.new.calls.is_synced ≡ self.old.calls.is_synced }
        ensures turn { FailsInTurn D.failures result self.old self.new }
    {
        let outcome = if is_failing_call(&mut self.calls_left) {
            Err(DiskFault)
        } else {
            self.disk.read(at, buffer)
        };
        self.calls.note_read(outcome)
    }

    fn write(&mut self, at: u64, bytes: &[u8]) -> Result<(), DiskFault>
        ensures written { IsTrue (D.is_honest self.old.disk)
            → OnOk result (Holds (D.seen self.new.disk) at bytes.now) }
        ensures others { IsTrue (D.is_honest self.old.disk)
            → KeepsOthers at (length bytes.now) (D.seen self.old.disk) (D.seen self.new.disk) }
        ensures honesty { D.is_honest self.new.disk ≡ D.is_honest self.old.disk }
        ensures count { Counts result self.old.calls.failures self.new.calls.failures }
        ensures synced { self.new.calls.is_synced ≡ false }
        ensures turn { FailsInTurn D.failures result self.old self.new }
    {
        let outcome = if is_failing_call(&mut self.calls_left) {
            write_half(&mut self.disk, at, bytes)
        } else {
            self.disk.write(at, bytes)
        };
        self.calls.note_change(outcome)
    }

    fn sync(&mut self) -> Result<(), DiskFault>
        ensures same { IsTrue (D.is_honest self.old.disk)
            → D.seen self.new.disk ≡ D.seen self.old.disk }
        ensures honesty { D.is_honest self.new.disk ≡ D.is_honest self.old.disk }
        ensures count { Counts result self.old.calls.failures self.new.calls.failures }
        ensures synced { Syncs result self.old.calls.is_synced self.new.calls.is_synced }
        ensures turn { FailsInTurn D.failures result self.old self.new }
    {
        let outcome = if is_failing_call(&mut self.calls_left) {
            Err(DiskFault)
        } else {
            self.disk.sync()
        };
        self.calls.note_sync(outcome)
    }

    fn cut(&mut self, pages: u32) -> Result<(), DiskFault>
        ensures cut { IsTrue (D.is_honest self.old.disk)
            → CutsTo result (PAGE_SIZE * pages) (D.seen self.old.disk) (D.seen self.new.disk) }
        ensures honesty { D.is_honest self.new.disk ≡ D.is_honest self.old.disk }
        ensures count { Counts result self.old.calls.failures self.new.calls.failures }
        ensures synced { self.new.calls.is_synced ≡ false }
        ensures turn { FailsInTurn D.failures result self.old self.new }
    {
        let outcome = if is_failing_call(&mut self.calls_left) {
            fail_to_cut(&mut self.disk, pages, self.failed_cut)
        } else {
            self.disk.cut(pages)
        };
        self.calls.note_change(outcome)
    }

    fn pages(&self) -> u32 {
        self.disk.pages()
    }

    fn failures(&self) -> u64 {
        self.calls.failures()
    }
}

/// Writes the first half of a range, and fails.
fn write_half<D: Disk>(disk: &mut D, at: u64, bytes: &[u8]) -> Result<(), DiskFault>
    ensures fails { IsErr result }
    ensures others { IsTrue (D.is_honest disk.old)
        → KeepsOthers at (length bytes.now) (D.seen disk.old) (D.seen disk.new) }
    ensures honesty { D.is_honest disk.new ≡ D.is_honest disk.old }
{
    let _ = disk.write(at, &bytes[..bytes.len() / 2]);
    Err(DiskFault)
}

/// Fails, after the cut or without it.
fn fail_to_cut<D: Disk>(disk: &mut D, pages: u32, failed_cut: FailedCut) -> Result<(), DiskFault>
    ensures fails { IsErr result }
    ensures cut { IsTrue (D.is_honest disk.old)
        → CutsTo result (PAGE_SIZE * pages) (D.seen disk.old) (D.seen disk.new) }
    ensures honesty { D.is_honest disk.new ≡ D.is_honest disk.old }
{
    if failed_cut == FailedCut::Done {
        let _ = disk.cut(pages);
    }
    Err(DiskFault)
}

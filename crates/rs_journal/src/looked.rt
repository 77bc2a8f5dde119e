//! A disk that only shows: the pages that a file stands for after recovery, with nothing written.
//!
//! Where the gate is open it shows the journal's copies in place of the pages that they copy. The gate and the journal's
//! fields are zeros, and a closed file of version 1 is shown as one of version 2.

ghost use Rattle.std.specs.Prelude.{◌≡◌, MatchResult, IsTrue};
ghost use Rattle.rs_disk.specs.Calls.{no_calls};
ghost use Rattle.rs_journal.specs.Look.{is_first_version, ShowsRecovered, HandsBack};

use crate::look::{Look, look_at, read_shown};
use rs_disk::{CallLog, Disk, DiskFault};
use rs_refusal::Refusal;
use std::alloc::Global;
use std::marker::Model;

/// A disk that shows another as it stands after recovery. A write or a cut fails, and a read reads the disk below.
///
/// It keeps the numbers of the pages that the journal copies, 4 bytes each. It counts the failures of its own calls, those
/// that come from the disk below among them.
#[derive(Drop)]
pub struct Looked<D: Disk> {
    disk: D,
    look: Look,
    calls: CallLog,
}

impl<D: Disk> Model for Looked<D> {
    ghost use Rattle.std.specs.Prelude.{IsTrue};
    ghost use Rattle.rs_journal.specs.Look.{LookedAt, IsLook};

    ghost Value = { LookedAt D };

    ghost view = { λ l. record { disk = l.disk; calls = l.calls } };

    ghost invariant = { λ l. IsTrue (D.is_honest l.disk)
        → IsLook l.look.numbers.items l.look.copies l.look.raises (D.seen l.disk) };
}

impl<D: Disk> Looked<D> {
    /// Looks at a disk, with the checks of recovery: 94 where the gate is open and the journal isn't well formed, 91 where a
    /// read fails, 90 where there is no room for the journal's numbers. The disk is only read, and a refusal hands it back.
    pub fn new(alloc: Global, disk: D) -> Result<Looked<D>, (D, Refusal)>
        ensures { MatchResult result
            (λ looked. ShowsRecovered D.Disk disk looked.disk × (looked.calls ≡ no_calls))
            (λ refused. HandsBack D.Disk refused.1 disk refused.0) }
    {
        let mut disk = disk;
        match look_at(alloc, &mut disk) {
            Ok(look) => Ok(Looked {
                disk,
                look,
                calls: CallLog::new(),
            }),
            Err(refusal) => Err((disk, refusal)),
        }
    }

    /// Whether the disk below has a closed file of version 1, which is shown as one of version 2.
    pub fn is_first_version(&self) -> bool
        ensures { IsTrue (D.is_honest self.now.disk) → result ≡ is_first_version (D.seen self.now.disk) }
    {
        self.look.raises
    }

    /// Gives back the disk below.
    pub fn into_disk(self) -> D
        ensures { result ≡ self.disk }
    {
        let Looked {
            disk,
            look: _,
            calls: _,
        } = self;
        disk
    }
}

impl<D: Disk> Disk for Looked<D> {
    ghost use Rattle.std.specs.Prelude.{◌≡◌, ◌*◌, IsTrue, IsErr, IsOk, OnOk, false};
    ghost use Rattle.rs_disk.specs.Content.{Gives};
    ghost use Rattle.rs_disk.specs.Counts.{Counts};
    ghost use Rattle.rs_journal.specs.Look.{shown};
    ghost use Rattle.std.proofs.lemmas.Bool.{false≢true};
    ghost use Rattle.rs_disk.specs.Crash.{Same};
    ghost use Rattle.rs_disk.specs.Reaches.{Reaches};
    ghost use Rattle.rs_journal.specs.LookLaws.{shown_past};

    ghost seen = { λ looked. shown (D.Disk.seen looked.disk) };

    ghost is_honest = { λ looked. D.Disk.is_honest looked.disk };

    ghost failures = { λ looked. looked.calls.failures };

    ghost is_synced = { λ looked. looked.calls.is_synced };

    ghost keeps_crashes = { λ _. false };

    ghost may_leave = { λ _ _. ⊥ };

    ghost left_since = { λ _ _ _. ⊥ };

    ghost zeros_past_the_end = { λ looked _ i past. shown_past (D.Disk.seen looked.disk) i past };

    ghost zeros_past_an_image = { λ _ keeps. absurd (false≢true keeps) };

    ghost reads_too = { λ _ keeps. absurd (false≢true keeps) };

    ghost starts_now = { λ _ keeps. absurd (false≢true keeps) };

    ghost counts_now = { λ _ _ keeps. absurd (false≢true keeps) };

    ghost only_now = { λ _ keeps. absurd (false≢true keeps) };

    fn read(&mut self, at: u64, buffer: &mut [u8]) -> Result<(), DiskFault>
        ensures bytes { IsTrue (D.is_honest self.old.disk)
            → OnOk result (Gives (shown (D.seen self.old.disk)) at buffer.new) }
        ensures reads { Reaches D.Disk Same self.old.disk self.new.disk }
        ensures passed_on { Counts result (D.failures self.old.disk) (D.failures self.new.disk) }
        ensures count { Counts result self.old.calls.failures self.new.calls.failures }
        ensures synced { self.new.calls.is_synced ≡ self.old.calls.is_synced }
    {
        let outcome = read_shown(&mut self.disk, &self.look, at, buffer).map_err(|_| DiskFault);
        self.calls.note_read(outcome)
    }

    /// It fails.
    fn write(&mut self, _at: u64, _bytes: &[u8]) -> Result<(), DiskFault>
        ensures fails { IsErr result }
        ensures same { self.new.disk ≡ self.old.disk }
        ensures count { Counts result self.old.calls.failures self.new.calls.failures }
        ensures synced { self.new.calls.is_synced ≡ false }
    {
        self.calls.note_change(Err(DiskFault))
    }

    /// It succeeds, since nothing was written.
    fn sync(&mut self) -> Result<(), DiskFault>
        ensures succeeds { IsOk result }
        ensures same { self.new.disk ≡ self.old.disk }
        ensures count { Counts result self.old.calls.failures self.new.calls.failures }
        ensures synced { IsTrue self.new.calls.is_synced }
    {
        self.calls.note_sync(Ok(()))
    }

    /// It fails.
    fn cut(&mut self, _pages: u32) -> Result<(), DiskFault>
        ensures fails { IsErr result }
        ensures same { self.new.disk ≡ self.old.disk }
        ensures count { Counts result self.old.calls.failures self.new.calls.failures }
        ensures synced { self.new.calls.is_synced ≡ false }
    {
        self.calls.note_change(Err(DiskFault))
    }

    fn pages(&self) -> u32 {
        self.disk.pages()
    }

    fn failures(&self) -> u64 {
        self.calls.failures()
    }
}

//! What a disk keeps of its calls: how many failed, and whether it is synced.

ghost use Rattle.std.specs.Prelude.{◌≡◌, false};
ghost use Rattle.rs_disk.specs.Calls.{no_calls};
ghost use Rattle.rs_disk.specs.Counts.{Counts, Syncs};

use crate::disk::DiskFault;
use std::marker::Model;

/// The calls of a disk so far.
#[derive(Drop)]
pub struct CallLog {
    failures: u64,
    is_synced: bool,
}

impl Model for CallLog {
    ghost use Rattle.rs_disk.specs.Calls.{Calls};

    ghost Value = { Calls };

    ghost view = { λ log. record { failures = log.failures; is_synced = log.is_synced } };
}

impl CallLog {
    /// No call was made yet.
    pub fn new() -> CallLog
        ensures { result ≡ no_calls }
    {
        CallLog {
            failures: 0,
            is_synced: false,
        }
    }

    /// How many calls have failed.
    pub fn failures(&self) -> u64
        ensures { result ≡ self.now.failures }
    {
        self.failures
    }

    /// Notes a read, and passes on what it answered.
    #[tactic(auto, unfolding(rs_refusal::specs::Counts::counted_on))]
    pub fn note_read(&mut self, outcome: Result<(), DiskFault>) -> Result<(), DiskFault>
        ensures same { result ≡ outcome }
        ensures count { Counts outcome self.old.failures self.new.failures }
        ensures synced { self.new.is_synced ≡ self.old.is_synced }
    {
        if outcome.is_err() {
            self.failures = self.failures.saturating_add(1);
        }
        outcome
    }

    /// Notes a write or a cut, and passes on what it answered.
    pub fn note_change(&mut self, outcome: Result<(), DiskFault>) -> Result<(), DiskFault>
        ensures same { result ≡ outcome }
        ensures count { Counts outcome self.old.failures self.new.failures }
        ensures synced { self.new.is_synced ≡ false }
    {
        self.is_synced = false;
        self.note_read(outcome)
    }

    /// Notes a sync, and passes on what it answered.
    pub fn note_sync(&mut self, outcome: Result<(), DiskFault>) -> Result<(), DiskFault>
        ensures same { result ≡ outcome }
        ensures count { Counts outcome self.old.failures self.new.failures }
        ensures synced { Syncs outcome self.old.is_synced self.new.is_synced }
    {
        if outcome.is_ok() {
            self.is_synced = true;
        }
        self.note_read(outcome)
    }
}

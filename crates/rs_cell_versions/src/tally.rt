//! This module counts cells against what was told of them.

ghost use Rattle.std.specs.Prelude.{◌≡◌, ◌≤◌, ◌⊎◌, ◌↔◌, ℕ, IsTrue, [], ◌∷◌, Err, IfErr, OnOk, length};
ghost use Rattle.rs_records.specs.Listed.{listed, record_width};

use crate::cell::{is_dated, is_living};
use rs_records::Cells;
use rs_refusal::Refusal;
use std::alloc::Global;

/// How many living and dead cells are still to come, and the dead ones that came, in their order.
#[derive(Drop)]
pub(crate) struct Tally {
    pub accepted: u64,
    pub living_left: u64,
    pub garbage_left: u64,
    pub dead: Cells,
}

ghost use Rattle.rs_cell_versions.specs.Looking.{AreOthers, Counts, HoldsTally};
ghost use Rattle.rs_cell_versions.specs.Tallies.{tallied};

impl Tally {
    /// So many are to come, dated up to this version. Takes no memory.
    pub fn new(alloc: Global, width: usize, accepted: u64, living: u64, garbage: u64) -> Tally
        requires { 20 ≤ width }
        ensures accepted { result.accepted ≡ accepted }
        ensures living { result.living_left ≡ living }
        ensures garbage { result.garbage_left ≡ garbage }
        ensures dead { listed result.dead ≡ [] }
        ensures width { record_width result.dead ≡ width }
    {
        Tally {
            accepted,
            living_left: living,
            garbage_left: garbage,
            dead: Cells::new(alloc, width),
        }
    }

    /// Counts cells. It is refused with 90, and with 94 where they are not those that are to come.
    pub fn count(&mut self, found: &Cells) -> Result<(), Refusal>
        requires some { 20 ≤ record_width found.now }
        requires width { record_width found.now ≡ record_width self.old.dead }
        ensures counts { OnOk result (Counts (tallied self.old) (tallied self.new) (listed found.now)) }
        ensures holds { (garbage : ℕ) → HoldsTally (tallied self.old) garbage → HoldsTally (tallied self.new) garbage }
        ensures accepted { self.new.accepted ≡ self.old.accepted }
        ensures width { record_width self.new.dead ≡ record_width self.old.dead }
        ensures refused { IfErr result (λ why. (why ≡ Refusal.OutOfMemory) ⊎ (why ≡ Refusal.DamagedFile)) }
        ensures damaged { result ≡ Err Refusal.DamagedFile → AreOthers (tallied self.old) (listed found.now) }
    {
        for index in 0..found.len() {
            self.count_one(found.get(index))?;
        }
        Ok(())
    }

    /// Counts a cell. It is refused as `count` is.
    fn count_one(&mut self, cell: &[u8]) -> Result<(), Refusal>
        requires some { 20 ≤ length cell.now }
        requires width { length cell.now ≡ record_width self.old.dead }
        ensures counts { OnOk result (Counts (tallied self.old) (tallied self.new) (cell.now ∷ [])) }
        ensures holds { (garbage : ℕ) → HoldsTally (tallied self.old) garbage → HoldsTally (tallied self.new) garbage }
        ensures accepted { self.new.accepted ≡ self.old.accepted }
        ensures width { record_width self.new.dead ≡ record_width self.old.dead }
        ensures refused { IfErr result (λ why. (why ≡ Refusal.OutOfMemory) ⊎ (why ≡ Refusal.DamagedFile)) }
        ensures damaged { result ≡ Err Refusal.DamagedFile → AreOthers (tallied self.old) (cell.now ∷ []) }
    {
        if !is_dated(self.accepted, cell) {
            return Err(Refusal::DamagedFile);
        }
        let lives = is_living(cell);
        let left = if lives {
            self.living_left
        } else {
            self.garbage_left
        };
        if left == 0 {
            return Err(Refusal::DamagedFile);
        }
        if lives {
            self.living_left -= 1;
            return Ok(());
        }
        self.dead.push(cell).map_err(|_| Refusal::OutOfMemory)?;
        self.garbage_left -= 1;
        Ok(())
    }

    /// Whether all came that were to come.
    pub fn is_whole(&self) -> bool
        ensures whole { IsTrue result ↔ ((self.now.living_left ≡ 0) × (self.now.garbage_left ≡ 0)) }
    {
        self.living_left == 0 && self.garbage_left == 0
    }
}

//! This module clears records of a store that no live version sees, while nothing else changes.

ghost use Rattle.std.specs.Prelude.{◌≡◌, ◌≤◌, ℕ, IfOk, Ok};
ghost use Rattle.rs_machine.specs.State.{State};
ghost use Rattle.rs_store.specs.Kept.{StandsIn, garbage_of};
ghost use Rattle.rs_store.specs.Releasing.{HasReleased, LeavesReleased};

use crate::bracket::{begin_change, settle};
use crate::store::Store;
use rs_changes::clear_only;
use rs_changes::rs_change_laws::clearing::cleared_file_stands_for_the_same_state;
use rs_disk::Disk;
use rs_file_meaning::changes::meant_contents_stay_meant;
use rs_file_meaning::live::{
    live_versions_see_the_same, live_versions_see_their_events, live_versions_see_their_referents,
};
use rs_file_meaning::standing::contents_have_one_state;
use rs_refusal::Refusal;
use std::alloc::Global;

impl<D: Disk> Store<D> {
    /// Clears records that no version from `oldest` on sees, 64 of them or all where they are fewer, and answers how many went; where
    /// none is dead nothing is begun. The store stands in the state in which it stood, at the same version, and versions from `oldest`
    /// on see what they saw. It is refused with 90, with 91, and with 94 only where the disk does not give back what was written. A
    /// refusal changes nothing.
    pub fn release(&mut self, alloc: Global, oldest: u64) -> Result<u64, Refusal>
        ensures leaves { LeavesReleased D.Disk result self.old self.new }
        ensures releases { (from : ℕ) (state : State) (stands : StandsIn D.Disk from self.old state) → from ≤ oldest → oldest ≤ self.old.file.accepted
            → IfOk result (λ gone. HasReleased D.Disk oldest gone stands.contents self.new state) }
        ensures idle { garbage_of self.old.file ≡ 0 → (result ≡ Ok 0) × (self.new ≡ self.old) }
    {
        meant_contents_stay_meant();
        contents_have_one_state();
        live_versions_see_their_events();
        live_versions_see_their_referents();
        live_versions_see_the_same();
        cleared_file_stands_for_the_same_state();
        if self.garbage() == 0 {
            return Ok(0);
        }
        begin_change(&mut self.pager)?;
        let made = clear_only(alloc, &mut self.pager, &mut self.file, oldest);
        settle(&mut self.pager, &mut self.file, made)
    }
}

//! This module begins a change and ends it: one that was made is kept, one that was refused is taken back, in pages and in what is open.

ghost use Rattle.std.specs.Prelude.{◌≡◌, ◌≤◌, ◌+◌, ℕ, Bool, true, false, OnErr, OnOk};
ghost use Rattle.rs_catalog.specs.Definitions.{Definitions, Numbered};
ghost use Rattle.rs_catalog.specs.Referents.{HeldReferents};
ghost use Rattle.rs_file.specs.Contents.{Contents};
ghost use Rattle.rs_file.specs.declared.opened.OpenedFile.{OpenedFile};
ghost use Rattle.rs_machine.specs.Lawful.{AreViewsMeant};
ghost use Rattle.rs_machine.specs.State.{State};
ghost use Rattle.rs_pager.specs.Maps.{KeepsBelow, working};
ghost use Rattle.rs_pager.specs.Paged.{Paged};
ghost use Rattle.rs_changes.specs.Changing.{Completes, GivesState};
ghost use Rattle.rs_store.specs.Bracket.{BeginsChange};
ghost use Rattle.rs_store.specs.Changing.{HasBecome};
ghost use Rattle.rs_store.specs.Kept.{StandsIn, StoreState};
ghost use Rattle.rs_store.specs.Settling.{HasBegun, IsKept, Settles};

use rs_changes::rs_change_laws::completing::completed_change_has_its_state;
use rs_disk::Disk;
use rs_file::OpenedFile;
use rs_file_meaning::changes::meant_contents_stay_meant;
use rs_file_meaning::live::{
    live_versions_see_the_same, live_versions_see_their_events, live_versions_see_their_referents,
};
use rs_file_meaning::standing::contents_have_one_state;
use rs_file_parts::{keep, take_back};
use rs_pager::Pager;
use rs_refusal::Refusal;

// decision: bracketed-changes
/// Makes room for a change, by a checkpoint where one was stopped or too many pages are changed, and begins it. It is refused with 90 and 91;
/// then none is begun.
pub(crate) fn begin_change<D: Disk>(pager: &mut Pager<D>) -> Result<(), Refusal>
    requires { pager.old.is_begun ≡ false }
    ensures begins { BeginsChange D.Disk result pager.old pager.new }
    ensures begun { OnOk result (pager.new.is_begun ≡ true) }
    ensures shut { OnErr result (pager.new.is_begun ≡ false) }
{
    pager.make_room()?;
    pager.begin();
    Ok(())
}

/// Keeps the change in its pages and in what is open where it was made, and takes it back where it was refused. It hands on the answer.
pub(crate) fn settle<D: Disk, T>(
    pager: &mut Pager<D>,
    file: &mut OpenedFile,
    made: Result<T, Refusal>,
) -> Result<T, Refusal>
    requires begun { pager.old.is_begun ≡ true }
    ensures same { result ≡ made }
    ensures settles { Settles D.Disk made pager.old pager.new file.old file.new }
    ensures shut { pager.new.is_begun ≡ false }
{
    match made {
        Ok(answer) => {
            pager.commit();
            keep(file);
            Ok(answer)
        }
        Err(refusal) => {
            pager.abandon();
            take_back(file);
            Err(refusal)
        }
    }
}

/// Where the part of a change was completed in pages that were kept, and that gives a state, a store over these pages has become so.
pub(crate) fn kept_change_gives_its_state<D: Disk>()
    ensures { (old : StoreState D) (first between last : Paged D) (file changed settled : OpenedFile) (catalog now : Definitions) (referents held : Numbered HeldReferents)
        → HasBegun D.Disk old (record { pager = first; file = file; catalog = catalog; referents = referents })
        → KeepsBelow D.Disk first between → IsKept D.Disk between last changed settled
        → (from oldest : ℕ) (state next : State) (stands : StandsIn D.Disk from old state) → from ≤ oldest → oldest ≤ old.file.accepted + 1
        → (part : Contents) → Completes oldest stands.contents part (working D.Disk between) changed → GivesState oldest stands.contents part now held next → AreViewsMeant next
        → HasBecome D.Disk oldest stands.contents (record { pager = last; file = settled; catalog = now; referents = held }) next }
{
    meant_contents_stay_meant();
    contents_have_one_state();
    live_versions_see_their_events();
    live_versions_see_their_referents();
    live_versions_see_the_same();
    completed_change_has_its_state();
}

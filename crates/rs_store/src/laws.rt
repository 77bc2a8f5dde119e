//! These laws say in which state a store stands, and for which one a disk.

ghost use Rattle.std.specs.Prelude.{◌≡◌, ℕ};
ghost use Rattle.rs_catalog.specs.Definitions.{state_from};
ghost use Rattle.rs_catalog.specs.Referents.{referents_on};
ghost use Rattle.rs_file.specs.Contents.{Contents};
ghost use Rattle.rs_disk.specs.Content.{Content};
ghost use Rattle.rs_file_parts.specs.Clearing.{clearable};
ghost use Rattle.rs_machine.specs.Lawful.{IsLawful};
ghost use Rattle.rs_machine.specs.State.{State, no_cursors};
ghost use Rattle.rs_file_meaning.specs.Seen.{spans_seen};
ghost use Rattle.rs_pager.specs.LookedAt.{IsFileOfNone, ShowsSameFile};
ghost use Rattle.rs_store.specs.Calls.{IsLeftOpen, IsNoFileOfAny};
ghost use Rattle.rs_store.specs.Kept.{Keeps, StandsIn, StoreState, garbage_of};
ghost use Rattle.rs_store.specs.Standing.{IsFileOf, Stands};

use rs_disk::Disk;
use rs_file::laws::file_holds_one_thing;
use rs_file_meaning::changes::meant_contents_stay_meant;
use rs_file_meaning::standing::{
    contents_have_one_state, pages_stand_for_one_state, what_stands_is_lawful,
};
use rs_pager::laws::disk_stands_for_one_map;

/// A store stands in one state at the most. That is the state of its catalogue, of the referents in memory, and of the spans that the
/// version accepted last sees.
pub fn store_stands_in_one_state<D: Disk>()
    ensures one { (oldest from : ℕ) (store : StoreState D) (one other : State)
        → StandsIn D.Disk oldest store one → StandsIn D.Disk from store other → one ≡ other }
    ensures state { (oldest : ℕ) (store : StoreState D) (state : State) (stands : StandsIn D.Disk oldest store state)
        → state ≡ state_from store.catalog (λ (route : ℕ). referents_on store.referents route) (spans_seen stands.contents store.file.accepted)
        (record { changes = store.file.accepted; cursors = no_cursors }) }
{
    file_holds_one_thing();
    contents_have_one_state();
    meant_contents_stay_meant();
}

/// Where no version before the one that was accepted last is live, just the dead records may be cleared.
pub fn dead_records_may_be_cleared<D: Disk>()
    ensures { (store : StoreState D) (contents : Contents) → Keeps D.Disk store contents → clearable store.file.accepted contents ≡ garbage_of store.file }
{}

/// A disk stands for one state at the most, within whatever limit it is looked at, and whether it was closed or not.
pub fn disk_stands_for_one_state()
    ensures file { (limit most : ℕ) (disk : Content) (one other : State)
        → IsFileOf limit disk one → IsFileOf most disk other → one ≡ other }
    ensures closed { (limit most : ℕ) (disk : Content) (one other : State)
        → Stands limit disk one → Stands most disk other → one ≡ other }
{
    disk_stands_for_one_map();
    pages_stand_for_one_state();
}

/// A look stands for the state for which the file stands that it shows, and for no other; and so it is of a file that is left open, or is
/// none.
pub fn look_stands_for_the_state()
    ensures stands { (limit : ℕ) (content look : Content) → ShowsSameFile content look → (state : State) → Stands limit content state → Stands limit look state }
    ensures stood { (limit : ℕ) (content look : Content) → ShowsSameFile content look → (state : State) → Stands limit look state → Stands limit content state }
    ensures left_open { (limit : ℕ) (content look : Content) → ShowsSameFile content look → IsLeftOpen limit look → IsLeftOpen limit content }
    ensures none { (limit : ℕ) (content look : Content) → ShowsSameFile content look → IsNoFileOfAny limit look → IsNoFileOfAny limit content }
    ensures lacks { (limit : ℕ) (content : Content) → IsFileOfNone content → IsNoFileOfAny limit content }
{}

/// The state that a disk stands for is lawful.
pub fn state_of_a_disk_is_lawful()
    ensures { (limit : ℕ) (disk : Content) (state : State) → Stands limit disk state → IsLawful state }
{
    what_stands_is_lawful();
}

//! What a crash leaves of a pager, by the stage in which its checkpoint stands.

ghost use Rattle.std.specs.Prelude.{◌≡◌, ◌≢◌, ◌⊎◌, IsTrue};
ghost use Rattle.rs_disk.specs.Content.{Content};
ghost use Rattle.rs_journal.specs.FilePages.{FilePages};
ghost use Rattle.rs_journal.specs.Stages.{IsQuiet};
ghost use Rattle.rs_journal.specs.declared.stage.Stage.TheVariants.{Fresh, Home, Closing};
ghost use Rattle.rs_pager.specs.Lasts.{GivesMap, KeepsMap};
ghost use Rattle.rs_pager.specs.Maps.{committed, IsKept, IsTied};
ghost use Rattle.rs_pager.specs.Paged.{Paged};

use rs_disk::Disk;

/// Each image that a crash may leave has the pages kept last, with a closed gate, or, where a checkpoint is under way, gives the committed
/// ones.
pub fn image_gives_what_is_kept<D: Disk>()
    ensures fresh { (pager : Paged D) (kept : FilePages) → IsKept D.Disk pager kept → pager.under_way.stage ≡ Fresh
        → IsTrue (D.keeps_crashes pager.disk) → (image : Content) → D.may_leave pager.disk image → IsQuiet kept image }
    ensures under_way { (pager : Paged D) (kept : FilePages) → IsKept D.Disk pager kept
        → IsTrue (D.keeps_crashes pager.disk) → (image : Content) → D.may_leave pager.disk image
        → IsQuiet kept image ⊎ GivesMap (committed D.Disk pager) image }
{}

/// From the stage `Home` on the committed pages are the ones kept last.
pub fn committed_pages_are_kept_from_home_on<D: Disk>()
    ensures home { (pager : Paged D) → IsTied D.Disk pager → pager.under_way.stage ≡ Home → KeepsMap D.Disk pager (committed D.Disk pager) }
    ensures closing { (pager : Paged D) → IsTied D.Disk pager → pager.under_way.stage ≡ Closing → KeepsMap D.Disk pager (committed D.Disk pager) }
{}

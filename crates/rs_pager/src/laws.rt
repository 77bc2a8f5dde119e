//! What follows of a disk's content and of what pagers keep: a content is a file of one map of pages at the most, and calls that last one
//! after another last together.

ghost use Rattle.std.specs.Prelude.{◌≡◌};
ghost use Rattle.rs_disk.specs.Content.{Content};
ghost use Rattle.rs_journal.specs.FilePages.{FilePages};
ghost use Rattle.rs_pages.specs.PageMap.{PageMap, SamePages};
ghost use Rattle.rs_pager.specs.Lasts.{Lasts};
ghost use Rattle.rs_pager.specs.Maps.{committed, IsKept, IsTied, KeepsBelow};
ghost use Rattle.rs_pager.specs.Paged.{Paged};
ghost use Rattle.rs_pager.specs.Versions.{IsFileOfPages};

use rs_disk::Disk;

/// A content is a file of one map of pages at the most.
pub fn disk_stands_for_one_map()
    ensures { (content : Content) (one other : PageMap)
        → IsFileOfPages content one → IsFileOfPages content other → SamePages one other }
{}

/// Calls that keep what is below the working pages last.
pub fn what_is_kept_below_lasts<D: Disk>()
    ensures { (old new : Paged D) → KeepsBelow D.Disk old new → Lasts D.Disk old new }
{}

/// Calls that last one after another, where the first keeps the committed pages, last together.
pub fn what_lasts_goes_on_to_last<D: Disk>()
    ensures { (a b c : Paged D) → (IsTied D.Disk a → IsTied D.Disk b) → (IsTied D.Disk a → SamePages (committed D.Disk b) (committed D.Disk a))
        → Lasts D.Disk a b → Lasts D.Disk b c → Lasts D.Disk a c }
{}

/// What lasts goes on to last where the disk stays as it is, and what was kept is kept still.
pub fn what_lasts_is_settled<D: Disk>()
    ensures { (a b c : Paged D) → Lasts D.Disk a b → c.disk ≡ b.disk → ((pages : FilePages) → IsKept D.Disk b pages → IsKept D.Disk c pages)
        → Lasts D.Disk a c }
{}

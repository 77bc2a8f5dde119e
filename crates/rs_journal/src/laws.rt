//! What follows of images, journals and pages: an image gives one map of pages at the most, and each well-formed journal
//! makes one of the pages kept last.

ghost use Rattle.std.specs.Prelude.{ℕ, ◌<◌, ◌≤◌};
ghost use Rattle.rs_disk.specs.Content.{Content};
ghost use Rattle.rs_journal.specs.Journal.{Journal, IsWellFormed, Recovers, Fills, MadePages};
ghost use Rattle.rs_journal.specs.FilePages.{FilePages, SamePages};
ghost use Rattle.rs_journal.specs.Recovery.{SaysCount};

/// An image gives one map of pages at the most.
pub fn image_gives_one_map()
    ensures { (image : Content) (one other : FilePages) → SaysCount one → SaysCount other
        → Recovers image one → Recovers image other → SamePages one other }
{}

/// A well-formed journal after the pages kept last makes a map of so many pages of them, where it copies each new one.
pub fn journal_makes_pages()
    ensures { (journal : Journal) (kept : FilePages) (count : ℕ) → IsWellFormed journal → 0 < kept.count → 0 < count
        → kept.count ≤ journal.first → count ≤ journal.first → Fills journal kept.count count
        → MadePages journal kept count }
{}

//! What follows of the pages that were listed: their journal makes the file's pages of those that were kept last.

ghost use Rattle.std.specs.Prelude.{ℕ, Bool, ◌<◌, ◌≤◌, IsSome};
ghost use Rattle.rs_page_cache.specs.Changes.{Changes, held_at};
ghost use Rattle.rs_pages.specs.declared.pages.TheConstants.{GREATEST_LIMIT};
ghost use Rattle.rs_journal.specs.FilePages.{FilePages};
ghost use Rattle.rs_journal.specs.Journal.{MadePages};
ghost use Rattle.rs_page_copies.specs.Listed.{Checkpoint, ListsCommitted, AreInside, AreFilled, journal_from};

/// The pages that were listed make a checkpoint of the pages kept last: all pages of the file, where each new one is held.
pub fn listed_pages_make_a_checkpoint()
    ensures { (changes : Changes) (pages : ℕ) (is_header_changed : Bool) (checkpoint : Checkpoint) (kept : FilePages)
        → ListsCommitted changes is_header_changed checkpoint.numbers → AreInside changes pages → pages ≤ GREATEST_LIMIT
        → 0 < kept.count → kept.count ≤ pages → AreFilled changes kept.count pages
        → MadePages (journal_from pages changes checkpoint) kept pages }
{}

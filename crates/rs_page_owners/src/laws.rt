//! What follows of owners: moves follow one another, a part's move is the whole's, and what each call of a page store does
//! to an owner's pages is one.

ghost use Rattle.std.specs.Prelude.{◌≡◌, ◌<◌, ℕ, Some, List};
ghost use Rattle.rs_pages.specs.PageKind.{PageKind};
ghost use Rattle.rs_pages.specs.FreeList.{Allocates, Releases};
ghost use Rattle.rs_pages.specs.PageMap.{PageMap, SamePages, ReplacesPage, in_use};
ghost use Rattle.rs_page_owners.specs.Counts.{◌&◌, one_at, no_pages};
ghost use Rattle.rs_page_owners.specs.Owners.{Moves};

/// One move and then another is a move.
pub fn moves_follow_one_another()
    ensures { (first second third : PageMap) (before between after : ℕ → ℕ)
        → Moves first second before between → Moves second third between after → Moves first third before after }
{}

/// What moves a part of an owner's pages moves all of them.
pub fn moving_a_part_moves_the_whole()
    ensures { (old new : PageMap) (before after rest : ℕ → ℕ)
        → Moves old new before after → Moves old new (before & rest) (after & rest) }
{}

/// Where the pages are the same, no page moves.
pub fn same_pages_move_nothing()
    ensures { (old new : PageMap) (used : ℕ → ℕ) → SamePages new old → Moves old new used used }
{}

/// A page that is the owner's is written.
pub fn writing_a_page_moves_nothing()
    ensures { (old new : PageMap) (number : ℕ) (was page : List ℕ)
        → in_use old number ≡ Some was → number < old.fields.pages → ReplacesPage number page old new
        → Moves old new (one_at number) (one_at number) }
{}

/// A page that comes into use is the owner's.
pub fn allocated_page_is_the_owners()
    ensures { (kind : PageKind) (old new : PageMap) (number : ℕ)
        → 1 < number → Allocates kind old new number → Moves old new no_pages (one_at number) }
{}

/// A page that is released is the owner's no more.
pub fn released_page_is_nobodys()
    ensures { (old new : PageMap) (number : ℕ) (was : List ℕ)
        → 1 < number → number < old.fields.pages → in_use old number ≡ Some was → Releases old new number
        → Moves old new (one_at number) no_pages }
{}

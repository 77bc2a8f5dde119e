//! What follows of pages and free lists: there is one free list, it is shorter than the count of pages, and what
//! each change of pages makes of it.

ghost use Rattle.std.specs.Prelude.{◌≡◌, ◌<◌, ℕ, Some, None, List, ◌∷◌, drop, length, slice_index, Contains};
ghost use Rattle.rs_page.specs.declared.header.PageKind.{PageKind};
ghost use Rattle.rs_pages.specs.PageMap.{PageMap, SamePages, ReplacesPage, in_use, with_catalogue};
ghost use Rattle.rs_pages.specs.FreeList.{IsFreeList, Allocates, Releases};

/// The free list of a map is one list of numbers at the most.
pub fn free_list_is_one()
    ensures { (map : PageMap) (one other : List ℕ)
        → IsFreeList map one → IsFreeList map other → one ≡ other }
{}

/// A free list is shorter than the count of pages, so one more page fits it.
pub fn free_list_is_shorter_than_the_count()
    ensures { (map : PageMap) (free : List ℕ) → 0 < map.fields.pages
        → IsFreeList map free → map.fields.free_pages < map.fields.pages }
{}

/// Each page of a free list comes after page 1, is one of the file's, and is not in use.
pub fn free_page_is_not_in_use()
    ensures { (map : PageMap) (free : List ℕ) (number : ℕ) → IsFreeList map free → Contains free number
        → (1 < number) × (number < map.fields.pages) × (in_use map number ≡ None) }
{}

/// No page is in a free list twice.
pub fn free_list_has_each_page_once()
    ensures { (map : PageMap) (free : List ℕ) → IsFreeList map free
        → (i j : ℕ) → i < length free → j < length free → slice_index free i ≡ slice_index free j → i ≡ j }
{}

/// Where the pages are the same, the free list is.
pub fn same_pages_have_one_free_list()
    ensures { (one other : PageMap) (free : List ℕ)
        → SamePages one other → IsFreeList other free → IsFreeList one free }
{}

/// Writing a page that was in use leaves the free list, whatever is written.
pub fn page_in_use_leaves_the_free_list()
    ensures { (old new : PageMap) (number : ℕ) (was page : List ℕ) (free : List ℕ)
        → in_use old number ≡ Some was → ReplacesPage number page old new
        → IsFreeList old free → IsFreeList new free }
{}

/// The place of the catalogue is nothing to the free list.
pub fn catalogue_leaves_the_free_list()
    ensures { (old new : PageMap) (first size : ℕ) (free : List ℕ)
        → new.fields ≡ with_catalogue first size old.fields
        → ((number : ℕ) → new.page number ≡ old.page number) → IsFreeList old free → IsFreeList new free }
{}

/// A page that comes into use is the first of the free list, or the list is empty and stays so.
pub fn allocating_takes_the_first_free_page()
    ensures { (kind : PageKind) (old new : PageMap) (number : ℕ) (free : List ℕ)
        → Allocates kind old new number → IsFreeList old free → IsFreeList new (drop 1 free) }
{}

/// A page that was in use and is released is the first of the free list.
pub fn released_page_is_the_first_free()
    ensures { (old new : PageMap) (number : ℕ) (was : List ℕ) (free : List ℕ)
        → 1 < number → number < old.fields.pages → in_use old number ≡ Some was
        → Releases old new number → IsFreeList old free → IsFreeList new (number ∷ free) }
{}

//! What follows of pages that were reached each once.

ghost use Rattle.std.specs.Prelude.{◌≡◌, ◌<◌, ◌≤◌, ℕ, Bool, List, false, replicate};
ghost use Rattle.rs_page_owners.specs.Counts.{◌&◌};
ghost use Rattle.rs_page_marks.specs.Marks.{taken, unmarked};

/// Where owners' pages are all that was reached, and no page is left, each page is an owner's just once, and no number past
/// the last is.
pub fn each_page_is_reached_once()
    ensures { (count : ℕ) (marks : List Bool) (used : ℕ → ℕ)
        → ((n : ℕ) → taken marks n ≡ (taken (replicate count false) & used) n) → unmarked marks ≡ 0
        → (n : ℕ) → (n < count → used n ≡ 1) × (count ≤ n → used n ≡ 0) }
{}

/// Where each page is an owner's just once, and nothing else was reached, no page is left.
pub fn no_page_is_left()
    ensures { (count : ℕ) (marks : List Bool) (used : ℕ → ℕ)
        → ((n : ℕ) → taken marks n ≡ (taken (replicate count false) & used) n) → ((n : ℕ) → n < count → used n ≡ 1)
        → unmarked marks ≡ 0 }
{}

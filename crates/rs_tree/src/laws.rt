//! What follows of trees: a root has one tree at the most, and a tree stays where its pages do.

ghost use Rattle.std.specs.Prelude.{◌≡◌, ◌<◌, ℕ, List};
ghost use Rattle.rs_pages.specs.PageMap.{PageMap};
ghost use Rattle.rs_page_owners.specs.Owners.{KeepsPages};
ghost use Rattle.rs_tree.specs.Tree.{IsTree};
ghost use Rattle.rs_tree.specs.Forms.{form};

use crate::summary::Summary;

/// The cells of a tree are one list.
pub fn tree_has_its_cells<S: Summary>()
    ensures { (width : ℕ) (pages : PageMap) (root : ℕ) (one other : List (List ℕ)) (used uses : ℕ → ℕ)
        → IsTree (form S.Summary width) pages root one used
        → IsTree (form S.Summary width) pages root other uses → one ≡ other }
{}

/// The pages of a tree are the same however it is seen.
pub fn tree_has_its_pages<S: Summary>()
    ensures { (width : ℕ) (pages : PageMap) (root : ℕ) (one other : List (List ℕ)) (used uses : ℕ → ℕ)
        → IsTree (form S.Summary width) pages root one used
        → IsTree (form S.Summary width) pages root other uses → (n : ℕ) → used n ≡ uses n }
{}

/// Where an owner's pages are kept, the tree that has them stays as it is.
pub fn kept_tree_stays<S: Summary>()
    ensures { (width : ℕ) (old new : PageMap) (root : ℕ) (cells : List (List ℕ)) (used : ℕ → ℕ)
        → KeepsPages used old new → IsTree (form S.Summary width) old root cells used
        → IsTree (form S.Summary width) new root cells used }
{}

//! Which of two neighbours comes first.

ghost use Rattle.std.specs.Prelude.{◌≡◌, ◌≤◌, ◌<◌, ◌+◌, [], ◌∷◌, if◌then◌else◌};
ghost use Rattle.rs_tree_remove.specs.Mending.{beside, IsNeighbour};

use rs_page::PageNumber;

/// Two pages, one before the other.
#[derive(Clone, Copy)]
pub struct Two {
    pub first: PageNumber,
    pub second: PageNumber,
}

/// The one before the other, or after it.
pub fn ordered(is_first: bool, one: PageNumber, other: PageNumber) -> Two
    ensures { result.first ∷ result.second ∷ [] ≡ beside is_first (one ∷ []) (other ∷ []) }
{
    if is_first {
        Two {
            first: one,
            second: other,
        }
    } else {
        Two {
            first: other,
            second: one,
        }
    }
}

/// The first place, or the last.
pub fn end(is_first: bool, last: usize) -> usize
    ensures { result ≡ (if is_first then 0 else last) }
{
    if is_first { 0 } else { last }
}

/// Where a neighbour is: whether the one comes first, the place of the first of the two, and that of the neighbour.
#[derive(Clone, Copy)]
pub struct Side {
    pub is_first: bool,
    pub at: usize,
    pub near: usize,
}

/// A neighbour of one of so many: the next one, else the one before.
pub fn neighbour(index: usize, count: usize) -> Side
    requires two { 2 ≤ count }
    requires inside { index < count }
    ensures neighbour { IsNeighbour index result.is_first result.at result.near }
    ensures both { result.at + 2 ≤ count }
    ensures near { result.near < count }
{
    if index + 1 < count {
        Side {
            is_first: true,
            at: index,
            near: index + 1,
        }
    } else {
        Side {
            is_first: false,
            at: index - 1,
            near: index - 1,
        }
    }
}

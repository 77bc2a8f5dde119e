//! What is left of a part of a tree that a cell was taken out of.

use rs_page::PageNumber;

/// What is left of a part of a tree.
#[derive(Clone, Copy)]
pub enum Removed {
    /// The cell was not there, and nothing has changed.
    Missing,
    /// The page at its top is there, and has what is left below it.
    Kept,
    /// Nothing is left, and its pages are free.
    Gone,
    /// Of what is below its page one part alone is left, with this page at its top. The page has not changed.
    Single(PageNumber),
}

//! What is looked for on a walk through a tree.

use crate::Layout;

/// The cells from `low` on, below `high`, whose own summary `keep` accepts, of a tree of this layout.
#[derive(Clone, Copy)]
pub struct Wanted<'a, F> {
    pub layout: Layout,
    pub low: &'a [u8],
    pub high: &'a [u8],
    pub keep: &'a F,
}

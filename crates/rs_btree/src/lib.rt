//! B-trees of cells over any implementation of pages.
//!
//! A tree is told by its root. Its calls are lent the pages; what they do is said of the list of its cells.
#![tactic(auto)]

pub mod lookup;
pub mod replacing;
pub mod stepping;
pub mod tree;

pub use tree::Tree;

//! B-trees of cells over pages: what a tree is, what its pages hold, and searches in them.
//!
//! A leaf holds cells in order, an inner page an entry for each page below it: its number, the summary of its cells and
//! the least of them. A search finds just the cells within its bounds that a test of summaries accepts, and tells how many
//! pages it read. On pages that are no tree it finds any cells or is refused, after no more reads than there are pages.
#![tactic(auto)]

pub mod asking;
pub mod collect;
pub mod entry;
pub mod laws;
pub mod layout;
pub mod limits;
pub mod load;
pub mod look;
pub mod node;
pub mod search;
pub mod splicing;
pub mod summary;
pub mod summing;
pub mod walk;
pub mod wanted;

pub use entry::write_entry;
pub use layout::Layout;
pub use limits::{GREATEST_ENTRY, GREATEST_WIDTH};
pub use node::{Node, content, read_node};
pub use search::{LEVELS, descend, range};
pub use splicing::splice_page;
pub use summary::{NoSummary, Summary};
pub use summing::{inner_summary, leaf_summary};

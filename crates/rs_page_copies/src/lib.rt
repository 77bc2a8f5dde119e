//! The pages that a checkpoint copies: which they are, and how the journal reads them where they are held.
//!
//! They are listed before a checkpoint's first stage, and the list is kept until its last, so that a checkpoint that a fault
//! stopped is resumed with the same pages and takes no memory. No page is copied in memory, but for page 0.
#![tactic(auto)]

mod copied;
pub mod laws;
mod listing;
pub mod under_way;

pub use under_way::UnderWay;

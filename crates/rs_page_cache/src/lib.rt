//! The pages that a pager holds in memory: changed ones until they are written, and a bounded number of clean ones.
//!
//! Changed pages have a committed version and a working copy, which a commit or an abandonment brings together without
//! memory. Clean pages are as the disk has them.
#![tactic(auto)]

pub mod changes;
pub mod clean;
pub mod limits;
mod slot;
mod slots;

pub use changes::{Changes, copy_into_spare};
pub use clean::{CleanPages, MOST_CLEAN};

//! A cell put into a tree, over any implementation of pages.
//!
//! The work goes along one path: down to the leaf that the cell belongs in, and up again through the pages whose entries
//! say what has changed. A page that is full is split in two.
#![tactic(auto)]

pub mod answer;
pub mod entries;
pub mod finding;
pub mod path;
pub mod roots;
pub mod splitting;
pub mod writing;

pub use roots::{Inserted, insert};

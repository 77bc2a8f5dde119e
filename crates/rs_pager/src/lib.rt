//! Numbered pages over a disk in a file of version 2: a map of committed pages and one of working pages.
//!
//! One set of changes is begun at a time. It is committed or abandoned as a whole, which takes no memory and touches no disk. What is
//! committed is made the file's by a checkpoint, so that at each moment a crash leaves the pages kept last or the committed ones.
#![tactic(auto)]

mod checkpointing;
pub mod laws;
pub mod limits;
mod looking;
mod opening;
pub mod pager;
mod paging;
mod reading;
pub mod second_header;

pub use looking::look_at_file;
pub use pager::{MOST_CHANGED, Pager};

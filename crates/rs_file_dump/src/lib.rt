//! The dump of a file: it is looked at, or its disk is opened, and checked as a whole, and the lines that rebuild what it holds are written.
//!
//! Opening a disk may recover it. Nothing is written to one that is looked at.
#![tactic(auto)]

pub mod dumping;
pub mod held;

pub use dumping::{dump_disk, dump_file};

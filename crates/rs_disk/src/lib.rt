//! A disk as a trait with a written meaning, and three disks.
//!
//! The trait says what a read gives after each write and cut, when a call may fail, and what a crash may leave. Nothing
//! here knows what the bytes mean.
#![tactic(auto)]

pub mod calls;
pub mod disk;
pub mod failing;
pub mod file;
pub mod memory;

pub use calls::CallLog;
pub use disk::{Disk, DiskFault};
pub use failing::{FailedCut, FailingDisk, is_failing_call};
pub use file::{FileDisk, OpenError};
pub use memory::MemoryDisk;

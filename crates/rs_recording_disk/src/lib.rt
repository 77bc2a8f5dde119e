//! A disk for tests that keeps the model of crashes, and gives what a crash may leave.
//!
//! It records each call with its effect. What it holds is what the calls make of its first bytes, so what a crash may
//! leave after each of them is known.
#![tactic(auto)]

pub mod call;
pub mod disk;
pub mod image;
pub mod recording;

pub use call::{Call, WrittenRange};
pub use disk::RecordingDisk;
pub use image::Unsynced;

//! The engine: one step, which serves one command of one session over the store of a file.
//!
//! It promises that each answer is the reference machine's, or names a want and changes nothing.
#![tactic(auto)]

pub mod engine;

pub use engine::Engine;
pub use rs_store_source::rs_store;

//! The refusals that every layer answers with, and the counts that tell why one was given.
//!
//! Each refusal has one number and one text. A count of 64 bits rises and stops at its greatest number.
#![tactic(auto)]

pub mod refusal;

pub use refusal::{Refusal, WORDS_BYTES};

//! Changes of a file's parts in the pages that they lie in, beside all else that the file holds.
//!
//! Each call says what becomes of whatever contents lie there. After a refusal the working pages are to be abandoned, and what is
//! open to be taken back.
#![tactic(auto)]

pub mod clearing;
pub mod definitions;
pub mod directory;
pub mod ending;
pub mod laws;
mod looking;
pub mod referents;
mod slot;
pub mod slots;

pub use clearing::clear;
pub use definitions::{Former, restore_definitions, write_definitions};
pub use directory::write_directory;
pub use ending::{keep, take_back};
pub use referents::{end_referent, put_referent};
pub use slots::write_slots;

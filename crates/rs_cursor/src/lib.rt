//! Cursors: answers that are given in parts, each under a name of its session.
//!
//! A cursor keeps no line: it keeps the plan of its query, the version that it looks at, and how far it was given.
#![tactic(auto)]

pub mod cursor;
pub mod cursors;
pub mod kept;
mod kept_from;
pub mod next_lines;
pub mod place;

pub use cursor::Cursor;
pub use cursors::Cursors;
pub use kept::{KeptAhead, KeptLines};
pub use place::Place;

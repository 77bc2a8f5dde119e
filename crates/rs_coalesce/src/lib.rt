//! Maximal runs: the longest spans along which one row holds.
//!
//! `runs` takes no memory: it joins the spans in place, in one pass where they are in order of place and few runs are open at a
//! time, and sorts them by row first where they are not.
#![tactic(auto)]

mod join;
pub mod lending;
pub mod maximal;
mod order;
mod turn;

pub use lending::lent;
pub use maximal::{runs, runs_of_runs_are_the_same};
pub use order::sort_by_place;

//! Whole trees: checked, with their cells counted, and cleared, each page to the free list.
//!
//! The check marks each page before it is read, so none is read twice and it ends on pages that are no tree. Clearing is
//! refused on pages that are no tree, or frees pages, no more than there are.
#![tactic(auto)]

pub mod check;
pub mod clearing;
pub mod enter;
pub mod keys;
pub mod order;
pub mod saying;
pub mod whole;

pub use clearing::clear;
pub use whole::validate;

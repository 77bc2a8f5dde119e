//! Numbered pages as their clients see them: a map of pages that is read and changed page by page.
//!
//! The trait is what trees and the catalogue ask of the layer below. The pager implements it over a disk; a
//! plain implementation in memory is for tests.
#![tactic(auto)]

pub mod laws;
pub mod limits;
pub mod pages;
pub mod plain;

pub use pages::{GREATEST_LIMIT, LEAST_LIMIT, Pages};
pub use plain::PlainPages;

//! A file says of each tree of records where it is and how many of its records live and are dead, and a tree is opened only as it
//! is told.

use rs_page::PageNumber;

/// What a file says of a tree of records.
#[derive(Clone, Copy)]
pub struct ToldRecords {
    /// The page at the top of the tree; 0: there are no records.
    pub root: PageNumber,
    /// How many of the records live.
    pub living: u64,
    /// How many are dead.
    pub garbage: u64,
    /// The version that was accepted last.
    pub accepted: u64,
}

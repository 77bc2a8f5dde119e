//! What is read, told by numbers.

use rs_value::Kind;

/// A stretch of a route at a version, where lines or points are read.
#[derive(Clone, Copy)]
pub struct RouteWindow {
    /// Whether lines or points are read.
    pub kind: Kind,
    /// The version.
    pub version: u64,
    /// The route's number.
    pub route: u32,
    /// The first thousandth inside.
    pub from: u32,
    /// The first thousandth after it.
    pub to: u32,
}

/// An index of a table, and the column that it is of.
#[derive(Clone, Copy)]
pub struct ColumnIndex {
    /// Where the index is among those of the table, the first 0.
    pub position: usize,
    /// The column's place, the leftmost 0.
    pub column: usize,
}

//! What holds where: a row along a span.

use rs_value::KeptRow;

/// A row along a span of one route.
#[derive(Debug, Drop)]
pub struct Span {
    /// The first thousandth at which the row holds.
    pub lo: u32,
    /// The first thousandth after the span; of a point, its place plus 1.
    pub hi: u32,
    /// The row that holds: one value for each column, from the left.
    pub tuple: KeptRow,
}

//! The routes that records are looked at beside when a file is opened.

/// A route by its number, with the measures of its start and its end, in thousandths.
#[derive(Clone, Copy)]
pub struct RouteSpan {
    /// Its number.
    pub number: u32,
    /// The least measure on it.
    pub start: u32,
    /// The greatest measure on it.
    pub finish: u32,
}

//! A total: what is answered of one group.

use rs_value::KeptRow;

/// What a column adds up to over the facts of a group.
#[derive(Clone, Copy, PartialEq, Eq, Debug)]
pub struct Sum {
    /// How many facts have a value in the column.
    pub weight: u128,
    /// What the values above 0 add up to.
    pub above_zero: u128,
    /// What the values below 0 add up to, by their sizes.
    pub below_zero: u128,
}

/// A group, at how many places it holds, and what a column adds up to, where one is summed.
#[derive(Debug, Drop)]
pub struct Total {
    /// The values that make the group.
    pub group: KeptRow,
    /// At how many places some row of the group holds.
    pub places: u128,
    /// What the column adds up to; none where no column is summed.
    pub sum: Option<Sum>,
}

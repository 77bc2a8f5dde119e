//! A plan on its way up, with what it is sorted and put back by.

use crate::plan::Plan;

/// A plan, how many records the tables at its leaves have, and how many columns its rows have.
///
/// The numbers of a checked query are far below the greatest ones, so that no sum of them is cut.
#[derive(Drop)]
pub(crate) struct Operand {
    /// The plan.
    pub(crate) plan: Plan,
    /// How many records the tables at its leaves have, a table being counted at each leaf.
    pub(crate) weight: u128,
    /// How many columns its rows have.
    pub(crate) width: u8,
}

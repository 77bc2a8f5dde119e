//! Conditions over a row, their columns by place.

use rs_value::{Comparison, Literal};

/// What a column is compared with.
#[derive(Drop)]
pub enum Term {
    /// The value in a column by its place, the leftmost 0.
    Column(u8),
    /// A value written out.
    Written(Literal),
}

/// A condition. A chain of AND or OR is one list, so that only brackets nest.
#[derive(Drop)]
pub enum Condition {
    /// A column, by its place, is compared; false where either value is NULL.
    Compare(u8, Comparison, Term),
    /// A column, by its place, holds NULL.
    TestsNull(u8),
    /// `NOT`.
    Negated(Box<Condition>),
    /// The same condition in brackets.
    Bracketed(Box<Condition>),
    /// `AND`; true where there are none.
    Both(Vec<Condition>),
    /// `OR`; false where there are none.
    Either(Vec<Condition>),
}

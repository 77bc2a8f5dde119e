//! Spans and conditions, and the definitions of what they mean.
//!
//! The definitions are in `specs/`: facts at single thousandths, insertion, operators on sets of rows, conditions, the
//! rows of a query, maximal runs, totals, and the text of a line. The code has the types that the layers above pass on, and laws.
#![tactic(auto)]

pub mod condition;
pub mod fact;
pub mod laws;
pub mod operator_laws;
pub mod totals;

pub use condition::{Condition, Term};
pub use fact::Span;

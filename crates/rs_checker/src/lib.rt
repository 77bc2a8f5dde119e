//! The checker: a query with its names looked up, its views opened and its windows located, or the first refusal.
#![tactic(auto)]

pub mod alignments;
pub mod checked;
pub mod checking;
pub mod columns;
pub mod conditions;
mod node;
mod operand;
mod operators;
mod size;
pub mod totals;
mod views;
mod windows;

pub use alignments::check_pieces;
pub use checked::{Checked, CheckedQuery, CheckedTable, Columns, LocatedPiece, LocatedWindow};
pub use checking::check;
pub use columns::column_of;
pub use conditions::check_condition;
pub use totals::{check_group, check_summed};

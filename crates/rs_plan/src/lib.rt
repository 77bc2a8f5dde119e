//! Plans: what is evaluated of a checked query, chosen by the rule of planning, and the lines of EXPLAIN.
#![tactic(auto)]

mod asking;
mod conditions;
pub mod counts;
pub mod explaining;
mod leaves;
mod nodes;
mod operand;
mod overlays;
mod placing;
pub mod plan;
pub mod planning;
mod weighing;
mod widths;

pub use counts::{Counts, Index};
pub use explaining::explain;
pub use plan::{
    Access, Leaf, Plan, PlannedIndex, PlannedPiece, PlannedRoute, PlannedTable, PlannedWindow,
};

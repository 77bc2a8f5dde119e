//! The lines that queries are answered with: planned, evaluated over a source of spans, and printed.
//!
//! It promises the machine's lines in each state that the source stands for. What the source refuses is handed on, and the source
//! stands for what it stood for.
#![tactic(auto)]

pub mod laws;
pub mod memory;
pub mod plans;
mod printer;
pub mod resuming;
pub mod route_lines;
pub mod routes;
mod row_text;
pub mod rows;
mod run_text;
pub mod runs;
pub mod totals;
pub mod versions;
pub mod within;

pub use memory::{InMemory, PlannedQuery};
pub use plans::{checked, explain_lines, planned, planning_indexes};
pub use resuming::Mark;
pub use route_lines::{PlanAt, Portion, RouteRest, push_route_lines};
pub use row_text::LINE_OVERHEAD;
pub use rows::lines;
pub use runs::runs_on;
pub use totals::{TotalColumns, total_columns, total_of};
pub use versions::Versions;

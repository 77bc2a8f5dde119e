//! Totals: of each group of a query's rows, at how many places it holds, how many facts it has, and what a column adds
//! up to.
//!
//! The rows are added route by route, each in one pass over its runs. No call goes through thousandths.
#![tactic(auto)]

mod groups;
mod numbers;
pub mod total;
pub mod total_text;
pub mod totals;

pub use total::{Sum, Total};
pub use total_text::push_total;
pub use totals::Totals;

//! Evaluation of a plan on one route, over a source of spans.
//!
//! It promises the maximal runs of the plan's rows there, as they were at a version. Each node of the plan is evaluated
//! once, on a list of routes that is longer than one below a TRANSFORM alone.
#![tactic(auto)]

mod carrying;
mod changes;
mod complements;
mod copies;
pub mod elsewhere;
pub mod evaluation;
mod joined;
pub mod kinds;
pub mod laws;
mod leaves;
mod operand;
mod pairs;
mod routes;
pub mod source;
mod windows;

pub use elsewhere::{is_elsewhere, route_over};
pub use evaluation::eval;
pub use kinds::kind_of;
pub use source::{Asked, Part, SoughtValue, Source};

//! The line of a record: what its fields say, written as the INSERT that they are.
//!
//! It promises that each line says the INSERT of its record. Measures and numbers are read as lines have them, and as offices write them.
#![tactic(auto)]

pub mod faults;
pub mod fields;
pub mod insert;
pub mod laws;
pub mod names;
pub mod numbers;
pub mod plan;
pub mod put;
pub mod words;

pub use faults::faults_of;
pub use insert::{Ends, Event, write_insert};
pub use names::made_name;
pub use plan::{Cause, Column, Measures, Misfit, Place, Plan, Scale, Source};
pub use words::write_words;

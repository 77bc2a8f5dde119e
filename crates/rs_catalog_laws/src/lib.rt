//! What a change of the catalogue, of a route's referents or of a table's spans does to the state of the machine: laws, each the
//! contract of a function that does nothing.
//!
//! The state is made of definitions, of referents by the routes' numbers, and of spans by the numbers of tables and routes. Spans
//! matter by the rows at each thousandth alone.
#![tactic(auto)]

pub mod definitions;
pub mod referents;
pub mod rows;

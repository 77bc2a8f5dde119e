//! What a store shows to the evaluation of plans: the spans of its tables at live versions, the ends of its routes, counts of its
//! records, and whether a route has facts.
//!
//! A read changes nothing that the store keeps, whatever it answers.
#![tactic(auto)]

pub mod asked;
pub mod counting;
pub mod ends;
pub mod laws;
pub mod routes;

pub use asked::{spans_asked, spans_of_value_asked};
pub use counting::records_of;
pub use ends::ends_asked;
pub use routes::has_facts_on;
pub use rs_store;

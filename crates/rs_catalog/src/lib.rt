//! The catalogue: routes, tables, views and alignments by name, and the referents of each route.
//!
//! It promises the finite maps that its definitions say, and for each new route and table the least free number.
#![tactic(auto)]

pub mod by_name;
pub mod catalog;
pub mod entries;
mod numbers;
pub mod referents;
pub mod uses;

pub use by_name::ByName;
pub use catalog::Catalog;
pub use entries::{
    AlignmentEntry, Ends, IndexEntry, NamedRoute, RouteEntry, TableEntry, ViewEntry,
};
pub use referents::RouteReferents;

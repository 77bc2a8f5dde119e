//! The definitions and the referents of a file, brought into memory, and the definitions listed again.
//!
//! It promises that the catalogue has just what the file lists, under the numbers and births that stand there, each view with the
//! query that its text says and passing the checks of its line, each route the referents that a version sees on it, and that what
//! the catalogue lists is what a file keeps of it.
#![tactic(auto)]

mod entries;
pub mod laws;
pub mod listing;
pub mod listing_laws;
pub mod making;
pub mod referents;
pub mod route_referents;
mod view_texts;
mod view_windows;
pub mod views;

pub use listing::stored_of;
pub use making::catalog_of;
pub use referents::referents_of;
pub use route_referents::referents_of_route;
pub use views::add_views;

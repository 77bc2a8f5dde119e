//! This crate keeps attribute indexes of tables of events: the records with a value are found without a look at the others.
//!
//! An index has an entry for each event record of its table, living or dead, and no other. Events are added, ended and cleared
//! in a table and its indexes together.
#![tactic(auto)]

mod apart;
pub mod attr_index;
pub mod defining;
mod entry;
pub mod laws;
mod meant;
pub mod opening;
mod ordered;
pub mod table;
pub mod told;

pub use attr_index::AttrIndex;
pub use defining::define;
pub use opening::open;
pub use table::{add, clear, kill, vacuum};
pub use told::ToldTable;

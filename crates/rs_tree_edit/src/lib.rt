//! What every change of a tree is made of: pages read, records put in the place of others, pages brought into use, and
//! entries written anew.
//!
//! Each call works on one page. What it makes of the part of a tree that the page belongs to is said by `TakesPlace`.
#![tactic(auto)]

pub mod adding;
pub mod choosing;
pub mod editing;
pub mod entries;
pub mod reading;

pub use adding::add_page;
pub use choosing::{entry_for, has_key};
pub use editing::{Edit, EditedPage, edit_page, header_of};
pub use entries::write_entry_of;
pub use reading::read_part;

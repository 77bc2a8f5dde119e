//! This crate says what the pages of a file hold together: the definitions, the directory, the records of each table with its
//! indexes, the referents, and the free pages.
#![tactic(auto)]

pub mod creating;
pub mod definitions;
pub mod directory;
pub mod free_pages;
pub mod laws;
pub mod loading;
pub mod numbers;
pub mod opened;
mod opening;

pub use creating::create;
pub use definitions::{indexes_of, schema_of};
pub use directory::directory_of;
pub use free_pages::reach_free;
pub use loading::load;
pub use numbers::check_numbers;
pub use opened::{OpenedFile, OpenedTable};

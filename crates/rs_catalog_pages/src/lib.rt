//! It keeps the definitions of a file as bytes in its pages: the catalogue, and the directory of its trees.
//!
//! It promises that what is read is what the pages say, or that they say nothing; and that what was stored is read again.
#![tactic(auto)]

mod chain;
pub mod directory;
pub mod directory_items;
pub mod items;
pub mod laws;
pub mod limits;
pub mod loading;
mod part;
mod placing;
pub mod storing;

pub use directory::{load_directory, store_directory};
pub use directory_items::{FixedList, INDEXES, StoredDirectory, StoredRoot, StoredTree, TABLES};
pub use items::{
    StoredAlignment, StoredCatalogue, StoredColumn, StoredIndex, StoredPiece, StoredRoute,
    StoredTable, StoredView,
};
pub use loading::load;
pub use storing::store;

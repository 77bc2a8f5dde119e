//! A cell taken out of a tree, over any implementation of pages.
//!
//! The work goes along one path: down to the leaf that has the cell, and up again through the pages whose entries say what is
//! left. An emptied leaf goes to the free list. An inner page with one part left is put in order with a neighbour, which takes
//! that part in where it has two of its own, and gives one away where it has more, so no page is ever needed.
#![tactic(auto)]

pub mod answer;
pub mod finishing;
pub mod leaf;
pub mod pairing;
pub mod path;
pub mod roots;
pub mod sides;

pub use answer::Removed;
pub use pairing::mend;
pub use roots::remove;

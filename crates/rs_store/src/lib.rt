//! The state of the machine in the pages of a file: which disk stands for which state, and the calls that keep it so.
#![tactic(auto)]

mod aligning;
mod bracket;
pub mod changing;
mod closing;
mod creating;
mod defining;
mod fitting;
mod indexing;
pub mod laws;
mod loading;
mod opening;
mod placing;
pub mod reading;
mod referring;
mod releasing;
mod rewriting;
mod routing;
pub mod store;
mod tabling;
pub mod versions;

pub use changing::Section;
pub use reading::IndexKey;
pub use store::Store;

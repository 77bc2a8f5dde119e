//! The operators on lists of spans of one route, each a sweep along the route.
//!
//! Lists are sorted by `lo`; rows of one list may overlap. Each operator says which rows its result has at each
//! thousandth, that it is sorted, that its spans are points or lines where those given are, and how wide its rows are.
#![tactic(auto)]

mod clipping;
mod columns;
mod comparisons;
mod complement;
mod conditions;
mod covering;
mod difference;
mod filter;
mod in_line;
mod laying;
mod order;
mod overlaying;
mod parts;
mod shifting;
mod taken;
mod union;

pub use clipping::window;
pub use columns::dissolve;
pub use complement::gaps;
pub use conditions::meets;
pub use covering::cover;
pub use difference::minus;
pub use filter::select;
pub use order::sort_by_place;
pub use overlaying::overlay;
pub use shifting::shift;
pub use union::merge;

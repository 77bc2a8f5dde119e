//! Positions on a route by three methods: absolute, relative to a referent, and interpolative.
//!
//! `locate` says where a position lies, `express` writes a measure as a position. That text says
//! one position, which lies at the measure; by the relative method this holds where the names of the route's
//! referents are words.
#![tactic(auto)]

pub mod expressing;
pub mod limits;
pub mod locating;
pub mod position;
pub mod referents;
pub mod route;
pub mod text;

pub use expressing::{
    ceiling_rounds_up, express, nearest_referent_is_one, nearest_referent_is_taken,
};
pub use limits::REFERENTS;
pub use locating::locate;
pub use position::{Method, Name, Position, START, Sign};
pub use referents::{
    Referent, Referents, put_referent_is_found, put_stands_on_its_route,
    removal_goes_from_its_route, removed_referent_is_missing,
};
pub use route::Route;
pub use text::{printed_position_is_read_back, text_says_one_position};

//! This crate keeps which query the text of a view says by itself.
//!
//! It is proved beside the parser. What it says is laws: each is the contract of a function that does nothing.
#![tactic(auto)]

pub mod views;

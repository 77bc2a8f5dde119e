//! The interface of an engine: the session that asks, the reply, and the trait that says which machine an engine is.
//!
//! How an engine keeps its state is its own concern: what calls an engine names `Serve` alone.
#![tactic(auto)]

pub mod reply;
pub mod serve;
pub mod session;

pub use reply::{Finish, Reply};
pub use serve::Serve;
pub use session::Session;

//! Lines to replies: the stream of requests is cut into lines, and each is answered.
//!
//! `run` serves a reader and a writer of any kind; `answer` serves bytes in memory. What they write is
//! the text of the reference machine's answers.
#![tactic(auto)]

pub mod laws;
pub mod limits;
mod lines;
pub mod put;
mod replies;
pub mod requests;
pub mod stream;

pub use put::put_parts;
pub use requests::{Requested, command_in};
pub use stream::{End, Fault, answer, run};

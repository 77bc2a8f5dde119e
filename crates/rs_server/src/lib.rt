//! The program over its words and streams: it does what the words ask, and ends with a status.
//!
//! `program` takes the words, the streams, and any file system in place of the system's; `serve_disk` and `dump_on` any disk in place of
//! a file, `serve_one` the two halves of one connection. All of them can be called over memory.
#![tactic(auto)]

pub mod aligning;
pub mod as_csv;
pub mod asking;
pub mod connection;
pub mod disks;
pub mod dumping;
pub mod file_system;
pub mod laws;
mod listening;
mod opened;
pub mod reasons;
mod reopened;
pub mod report;
pub mod service;
mod shown;
pub mod tally;
pub mod watch;
pub mod words;

pub use aligning::align;
pub use as_csv::{Outcome, answer_disk};
pub use asking::ask_on;
pub use connection::{CannotAccept, Connection, serve_connections, serve_one};
pub use disks::{create_on, serve_disk, serve_disk_at};
pub use dumping::dump_on;
pub use file_system::{FileSystem, Opening};
pub use reasons::Reason;
pub use report::{Failure, report_failure, report_unread_words};
pub use service::{do_as_asked, program};

//! Answers as CSV: the rows of a reply as records, after a header.
//!
//! What a record has is a function of the row's text.
#![tactic(auto)]

pub mod asking;
pub mod counts;
mod heads;
pub mod laws;
pub mod lines;
mod putting;
pub mod questions;
pub mod records;
pub mod shown;
pub mod words;

pub use asking::{Shape, Shapes, answer_as_csv};
pub use counts::Counts;
pub use lines::{Answered, Ended, answer_input};
pub use questions::answer_questions;
pub use records::push_record;
pub use shown::shown_of;
pub use words::first_other;

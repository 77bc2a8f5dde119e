//! What a command is answered: the text of its rows, and its count or its refusal.
//!
//! An engine promises that a refusal has no rows beside it, and that it names the first check that failed, or a want.

use rs_refusal::Refusal;

/// The rows of an answer, and how it ends.
#[derive(Drop)]
pub struct Reply {
    /// What follows `ROW ` in each line, in order. An engine's reply has none beside a refusal.
    pub rows: Vec<String>,
    /// The last line.
    pub finish: Finish,
}

/// How an answer ends.
#[derive(Drop)]
pub enum Finish {
    /// The command was accepted; the count of its OK line.
    Done(u128),
    /// The command was refused, and changed nothing.
    Refused(Refusal),
}

//! A line asked of an engine, and what it is answered as CSV.
//!
//! The line is read and served as `rs_protocol::run` does. It promises the machine's reply, with a header before its rows.

ghost use Rattle.std.specs.Prelude.{◌≡◌, ◌⊎◌, ◌++◌, Err, IfErr, IfOk, OnOk, flat_map, map};
ghost use Rattle.rs_csv_answers.specs.Answers.{AnswersAsCsv};
ghost use Rattle.rs_csv_answers.specs.Heads.{HasShape};
ghost use Rattle.rs_csv_answers.specs.Inner.{IsHeadOf, IsJoined};
ghost use Rattle.rs_csv_answers.specs.Records.{record_of};
ghost use Rattle.rs_machine.specs.Checking.{checked};
ghost use Rattle.rs_machine.specs.Served.{Machine};
ghost use Rattle.rs_serve.specs.ReplyView.{reply_of, rows_of};
ghost use Rattle.rs_syntax.specs.QueryView.{query_tree};
ghost use Rattle.rs_syntax.specs.View.{column_tree, tree_of};

use crate::heads::{push_lines_head, push_total_head};
use crate::records::push_record;
use arrayvec::ArrayVec;
use rs_protocol::command_in;
use rs_refusal::Refusal;
use rs_serve::{Finish, Reply, Serve};
use rs_syntax::{ColumnDefinition, Command, Query};
use rs_value::{COLUMNS, Kind};
use std::alloc::{AllocError, Global};

/// What the lines of a query have.
#[derive(Drop)]
pub struct Shape {
    /// Whether they are points or lines.
    pub kind: Kind,
    /// Their columns, from the left.
    pub columns: ArrayVec<ColumnDefinition, COLUMNS>,
}

/// An engine that says of a query what its lines have.
pub trait Shapes: Serve {
    /// The kind and the columns of a query; or the refusal of its checks.
    fn shape(&self, query: &Query) -> Result<Shape, Refusal>
        ensures shape { (machine : Machine) → Self.is self.now machine
            → IfOk result (λ shape. HasShape machine.state (query_tree query.now) shape.kind (map column_tree shape.columns.items)) }
        ensures refused { (machine : Machine) → Self.is self.now machine
            → IfErr result (λ why. (why ≡ Refusal.OutOfMemory) ⊎ (checked machine.state (query_tree query.now) ≡ Err why)) };
}

/// What a line, given without its LF, is answered, as CSV: a header, and a record for each row; or its refusal. It may be refused for want
/// of memory (90) after it was served too.
pub fn answer_as_csv<E: Shapes>(
    alloc: Global,
    engine: &mut E,
    line: &[u8],
) -> Result<Vec<u8>, Refusal>
    ensures answers { (old : Machine) → E.is engine.old old → (new : Machine) × E.is engine.new new × AnswersAsCsv (λ text. text.items) line.now old result new }
    ensures becomes { E.becomes engine.old engine.new }
{
    match command_in(alloc, line) {
        Ok(requested) => {
            let head = head_of(alloc, &*engine, &requested.command);
            let reply = engine.step(requested.session, requested.command);
            csv_of(head, &reply)
        }
        Err((_session, refusal)) => Err(refusal),
    }
}

/// The header of what a command is answered (decision: header-at-open); or the refusal of its query.
fn head_of<E: Shapes>(alloc: Global, engine: &E, command: &Command) -> Result<Vec<u8>, Refusal>
    ensures { (machine : Machine) → E.is engine.now machine → IsHeadOf (λ head. head.items) machine.state (tree_of command.now) result }
{
    let mut head = Vec::new(alloc);
    match command {
        Command::Select { query, method: _ } => {
            let shape = engine.shape(query)?;
            push_lines_head(&mut head, shape.kind, shape.columns.as_slice())?;
        }
        Command::Open {
            cursor: _,
            query,
            method: _,
        } => {
            let shape = engine.shape(query)?;
            push_lines_head(&mut head, shape.kind, shape.columns.as_slice())?;
        }
        Command::Translate { .. } => head.extend_from_slice(b"position\n")?,
        Command::Total {
            query: _,
            by,
            summed,
        } => push_total_head(&mut head, by.as_slice(), summed.is_some())?,
        _ => (),
    }
    Ok(head)
}

/// A header and the rows of a reply; or why there are none.
fn csv_of(head: Result<Vec<u8>, Refusal>, reply: &Reply) -> Result<Vec<u8>, Refusal>
    ensures { IsJoined (λ text. text.items) head (reply_of reply.now) result }
{
    match reply.finish {
        Finish::Refused(refusal) => Err(refusal),
        Finish::Done(_) => {
            let mut text = head?;
            push_records(&mut text, reply.rows.as_slice())?;
            Ok(text)
        }
    }
}

/// Appends the record of each row. Where memory runs out, a part may have been appended.
fn push_records(text: &mut Vec<u8>, rows: &[String]) -> Result<(), AllocError>
    ensures { OnOk result (text.new.items ≡ text.old.items ++ flat_map record_of (rows_of rows.now)) }
{
    for row in rows {
        push_record(text, row.as_bytes())?;
    }
    Ok(())
}

//! What INSERT and REMOVE of a line say.
//!
//! The syntax has been read, so a number out of its range is all that can be wrong with them.

ghost use Rattle.std.specs.Prelude.{◌≡◌, [], IfOk, IfErr};
ghost use Rattle.rs_grammar.specs.declared.kind.TokenKind.TheVariants as kinds;
ghost use Rattle.rs_value.specs.View.{literal_row};
ghost use Rattle.rs_syntax.specs.View.{removal_tree, tree_of};
ghost use Rattle.rs_syntax.specs.Written.{written_insert, written_remove, value_lexemes, list_lexemes, removal_lexemes, spelling, SaysRow, SaysRemoval, Says, AreToldOf};
ghost use Rattle.rs_syntax.specs.WrittenView.{removal_syntax};
ghost use Rattle.rs_meaning.specs.Saying.{NothingSaid};

use crate::meaning::{literal, name};
use crate::said_conditions::condition_said;
use crate::said_places::{location_said, window_said};
use rs_lexer::Token;
use rs_refusal::Refusal;
use rs_syntax::written::{WrittenAtom, WrittenLocation, WrittenValue, WrittenWindow};
use rs_syntax::{Atom, Command};
use rs_value::Literal;
use std::alloc::Global;

// The values of a row.
fn values_said(alloc: Global, line: &str, written: &[WrittenValue]) -> Result<Vec<Literal>, Refusal>
    requires { AreToldOf line.now (list_lexemes kinds.Comma value_lexemes written.now) }
    ensures ok { IfOk result (λ values. SaysRow line.now written.now (literal_row values.items)) }
    ensures err { IfErr result (NothingSaid (SaysRow line.now written.now)) }
{
    let mut values = Vec::new(alloc);
    for value in written {
        let literal = literal(alloc, line, *value)?;
        values.push(literal)?;
    }
    Ok(values)
}

/// An event: its place and its row.
pub fn event_said(
    alloc: Global,
    line: &str,
    table: Token,
    route: Token,
    along: WrittenLocation,
    row: &[WrittenValue],
) -> Result<Command, Refusal>
    requires { AreToldOf line.now (spelling (written_insert table route along row.now)) }
    ensures ok { IfOk result (λ command. Says line.now [] (written_insert table route along row.now) (tree_of command)) }
    ensures err { IfErr result (NothingSaid (Says line.now [] (written_insert table route along row.now))) }
{
    Ok(Command::Insert {
        table: name(line, table),
        route: name(line, route),
        place: location_said(line, along)?,
        values: values_said(alloc, line, row)?,
    })
}

// Which rows are taken away: all where no condition is written.
fn rows_said(
    alloc: Global,
    line: &str,
    written: &Option<Vec<Vec<WrittenAtom>>>,
) -> Result<Option<Vec<Vec<Atom>>>, Refusal>
    requires { AreToldOf line.now (removal_lexemes (removal_syntax written.now)) }
    ensures ok { IfOk result (λ condition. SaysRemoval line.now (removal_syntax written.now) (removal_tree condition)) }
    ensures err { IfErr result (NothingSaid (SaysRemoval line.now (removal_syntax written.now))) }
{
    match written {
        Some(condition) => Ok(Some(condition_said(alloc, line, condition)?)),
        None => Ok(None),
    }
}

/// Rows to be taken away: where, and which.
pub fn removal_said(
    alloc: Global,
    line: &str,
    table: Token,
    window: WrittenWindow,
    condition: &Option<Vec<Vec<WrittenAtom>>>,
) -> Result<Command, Refusal>
    requires { AreToldOf line.now (spelling (written_remove table window (removal_syntax condition.now))) }
    ensures ok { IfOk result (λ command. Says line.now [] (written_remove table window (removal_syntax condition.now)) (tree_of command)) }
    ensures err { IfErr result (NothingSaid (Says line.now [] (written_remove table window (removal_syntax condition.now)))) }
{
    Ok(Command::Remove {
        table: name(line, table),
        window: window_said(line, window)?,
        condition: rows_said(alloc, line, condition)?,
    })
}

//! What a written command says: names, texts, and numbers within their ranges.
//!
//! The syntax has been read, so a number out of its range is all that can be wrong with it.

ghost use Rattle.std.specs.Prelude.{◌≡◌, [], true, All, IfOk, IfErr};
ghost use Rattle.rs_lexer.specs.Lexis.{IsTokenOf};
ghost use Rattle.rs_syntax.specs.View.{tree_of, written_of};
ghost use Rattle.rs_syntax.specs.Written.{written_move, written_translate, written_select, written_explain, spelling, Says, AreToldOf};
ghost use Rattle.rs_syntax.specs.WrittenView.{query_syntax};
ghost use Rattle.rs_meaning.specs.Saying.{NothingSaid};
ghost use Rattle.rs_meaning.specs.Schema.{changes_schema};

use crate::meaning::{name, position};
use crate::said_alignments::alignment_said;
use crate::said_cursors::{cursor_closed, fetch_said, opening_said};
use crate::said_definitions::{index_said, referent_said, route_said, table_said, view_said};
use crate::said_drops::drop_said;
use crate::said_events::{event_said, removal_said};
use crate::said_queries::query_said;
use crate::said_totals::total_said;
use rs_lexer::Token;
use rs_methods::Method;
use rs_refusal::Refusal;
use rs_syntax::Command;
use rs_syntax::written::{WrittenCommand, WrittenPosition, WrittenQuery};
use std::alloc::Global;

// Another position for a referent.
fn move_said(
    line: &str,
    route: Token,
    referent: Token,
    to: WrittenPosition,
) -> Result<Command, Refusal>
    requires { AreToldOf line.now (spelling (written_move route referent to)) }
    ensures ok { IfOk result (λ command. Says line.now [] (written_move route referent to) (tree_of command)) }
    ensures err { IfErr result (NothingSaid (Says line.now [] (written_move route referent to))) }
{
    Ok(Command::MoveReferent {
        route: name(line, route),
        name: name(line, referent),
        position: position(line, to)?,
    })
}

// A position to be printed by a method.
fn translation_said(
    line: &str,
    route: Token,
    at: WrittenPosition,
    method: Method,
) -> Result<Command, Refusal>
    requires { AreToldOf line.now (spelling (written_translate route at method)) }
    ensures ok { IfOk result (λ command. Says line.now [] (written_translate route at method) (tree_of command)) }
    ensures err { IfErr result (NothingSaid (Says line.now [] (written_translate route at method))) }
{
    Ok(Command::Translate {
        route: name(line, route),
        position: position(line, at)?,
        method,
    })
}

// A query whose positions are printed by a method, absolute where none is named.
fn selection_said(
    alloc: Global,
    line: &str,
    query: &WrittenQuery,
    method: Option<Method>,
) -> Result<Command, Refusal>
    requires { AreToldOf line.now (spelling (written_select (query_syntax query.now) method)) }
    ensures ok { IfOk result (λ command. Says line.now [] (written_select (query_syntax query.now) method) (tree_of command)) }
    ensures err { IfErr result (NothingSaid (Says line.now [] (written_select (query_syntax query.now) method))) }
{
    Ok(Command::Select {
        query: query_said(alloc, line, query)?,
        method: method.unwrap_or(Method::Absolute),
    })
}

// A query whose plan is printed.
fn explanation_said(alloc: Global, line: &str, query: &WrittenQuery) -> Result<Command, Refusal>
    requires { AreToldOf line.now (spelling (written_explain (query_syntax query.now))) }
    ensures ok { IfOk result (λ command. Says line.now [] (written_explain (query_syntax query.now)) (tree_of command)) }
    ensures err { IfErr result (NothingSaid (Says line.now [] (written_explain (query_syntax query.now)))) }
{
    Ok(Command::Explain {
        query: query_said(alloc, line, query)?,
    })
}

// A change of the schema that the tokens of a line write so.
fn schema_change_said(
    alloc: Global,
    line: &str,
    tokens: &[Token],
    written: &WrittenCommand,
) -> Result<Command, Refusal>
    requires told { AreToldOf line.now (spelling (written_of written.now)) }
    requires inside { All (IsTokenOf line.now) tokens.now }
    requires schema { changes_schema (written_of written.now) ≡ true }
    ensures ok { IfOk result (λ command. Says line.now tokens.now (written_of written.now) (tree_of command)) }
    ensures err { IfErr result (NothingSaid (Says line.now tokens.now (written_of written.now))) }
{
    match written {
        WrittenCommand::DefineRoute {
            name,
            start,
            finish,
        } => route_said(line, *name, *start, *finish),
        WrittenCommand::DefineTable {
            kind,
            name,
            columns,
        } => table_said(alloc, line, *kind, *name, columns),
        WrittenCommand::DefineReferent {
            route,
            name,
            position,
        } => referent_said(line, *route, *name, *position),
        WrittenCommand::DefineIndex {
            name,
            table,
            column,
        } => Ok(index_said(line, *name, *table, *column)),
        WrittenCommand::DefineView { name, query } => view_said(alloc, line, tokens, *name, query),
        WrittenCommand::DefineAlignment { name, pieces } => {
            alignment_said(alloc, line, *name, pieces)
        }
        _ => Ok(drop_said(line, written)),
    }
}

/// The command that these tokens of a line write so.
///
/// Refused `NumberOutOfRange` where a number is out of its range, and `OutOfMemory` where a growth was
/// refused.
pub fn meaning(
    alloc: Global,
    line: &str,
    tokens: &[Token],
    written: &WrittenCommand,
) -> Result<Command, Refusal>
    requires told { AreToldOf line.now (spelling (written_of written.now)) }
    requires inside { All (IsTokenOf line.now) tokens.now }
    ensures ok { IfOk result (λ command. Says line.now tokens.now (written_of written.now) (tree_of command)) }
    ensures err { IfErr result (NothingSaid (Says line.now tokens.now (written_of written.now))) }
{
    match written {
        WrittenCommand::MoveReferent {
            route,
            name,
            position,
        } => move_said(line, *route, *name, *position),
        WrittenCommand::Insert {
            table,
            route,
            place,
            values,
        } => event_said(alloc, line, *table, *route, *place, values),
        WrittenCommand::Remove {
            table,
            window,
            condition,
        } => removal_said(alloc, line, *table, *window, condition),
        WrittenCommand::Translate {
            route,
            position,
            method,
        } => translation_said(line, *route, *position, *method),
        WrittenCommand::Select { query, method } => selection_said(alloc, line, query, *method),
        WrittenCommand::Total { query, by, summed } => total_said(alloc, line, query, by, *summed),
        WrittenCommand::Explain { query } => explanation_said(alloc, line, query),
        WrittenCommand::Open {
            cursor,
            query,
            method,
        } => opening_said(alloc, line, *cursor, query, *method),
        WrittenCommand::Fetch { cursor, rows } => fetch_said(line, *cursor, *rows),
        WrittenCommand::Close { cursor } => Ok(cursor_closed(line, *cursor)),
        WrittenCommand::Save => Ok(Command::Save),
        WrittenCommand::Reopen => Ok(Command::Reopen),
        _ => schema_change_said(alloc, line, tokens, written),
    }
}

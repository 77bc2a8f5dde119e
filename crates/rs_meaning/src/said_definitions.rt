//! What a definition of a line says: a route, a table, a referent, an index or a view.
//!
//! The syntax has been read, so a number out of its range is all that can be wrong with it.

ghost use Rattle.std.specs.Prelude.{◌≡◌, [], map, All, IfOk, IfErr};
ghost use Rattle.rs_grammar.specs.declared.kind.TokenKind.TheVariants as kinds;
ghost use Rattle.rs_lexer.specs.Lexis.{IsTokenOf};
ghost use Rattle.rs_syntax.specs.View.{column_tree, tree_of};
ghost use Rattle.rs_syntax.specs.Written.{written_route, written_table, written_referent, written_index, written_view, column_lexemes, list_lexemes, spelling, SaysColumns, Says, AreToldOf};
ghost use Rattle.rs_syntax.specs.WrittenView.{query_syntax};
ghost use Rattle.rs_meaning.specs.Saying.{NothingSaid};

use crate::meaning::{measure, name, position, type_said, view_text};
use crate::said_queries::query_said;
use rs_lexer::Token;
use rs_refusal::Refusal;
use rs_syntax::written::{WrittenColumn, WrittenPosition, WrittenQuery};
use rs_syntax::{ColumnDefinition, Command};
use rs_value::Kind;
use std::alloc::Global;

// The columns of a table.
fn columns_said(
    alloc: Global,
    line: &str,
    written: &[WrittenColumn],
) -> Result<Vec<ColumnDefinition>, Refusal>
    requires { AreToldOf line.now (list_lexemes kinds.Comma column_lexemes written.now) }
    ensures ok { IfOk result (λ columns. SaysColumns line.now written.now (map column_tree columns.items)) }
    ensures err { IfErr result (NothingSaid (SaysColumns line.now written.now)) }
{
    let mut columns = Vec::new(alloc);
    for column in written {
        let Some(column_type) = type_said(line, column.column_type) else {
            return Err(Refusal::NumberOutOfRange);
        };
        let definition = ColumnDefinition {
            name: name(line, column.name),
            column_type,
        };
        columns.push(definition)?;
    }
    Ok(columns)
}

/// A route between two measures.
pub fn route_said(line: &str, route: Token, start: Token, finish: Token) -> Result<Command, Refusal>
    requires { AreToldOf line.now (spelling (written_route route start finish)) }
    ensures ok { IfOk result (λ command. Says line.now [] (written_route route start finish) (tree_of command)) }
    ensures err { IfErr result (NothingSaid (Says line.now [] (written_route route start finish))) }
{
    Ok(Command::DefineRoute {
        name: name(line, route),
        start: measure(line, start)?,
        finish: measure(line, finish)?,
    })
}

/// A table with its columns.
pub fn table_said(
    alloc: Global,
    line: &str,
    kind: Kind,
    table: Token,
    definitions: &[WrittenColumn],
) -> Result<Command, Refusal>
    requires { AreToldOf line.now (spelling (written_table kind table definitions.now)) }
    ensures ok { IfOk result (λ command. Says line.now [] (written_table kind table definitions.now) (tree_of command)) }
    ensures err { IfErr result (NothingSaid (Says line.now [] (written_table kind table definitions.now))) }
{
    Ok(Command::DefineTable {
        kind,
        name: name(line, table),
        columns: columns_said(alloc, line, definitions)?,
    })
}

/// A referent at a position.
pub fn referent_said(
    line: &str,
    route: Token,
    referent: Token,
    at: WrittenPosition,
) -> Result<Command, Refusal>
    requires { AreToldOf line.now (spelling (written_referent route referent at)) }
    ensures ok { IfOk result (λ command. Says line.now [] (written_referent route referent at) (tree_of command)) }
    ensures err { IfErr result (NothingSaid (Says line.now [] (written_referent route referent at))) }
{
    Ok(Command::DefineReferent {
        route: name(line, route),
        name: name(line, referent),
        position: position(line, at)?,
    })
}

/// An index of a column of a table.
pub fn index_said(line: &str, index: Token, table: Token, column: Token) -> Command
    requires { AreToldOf line.now (spelling (written_index index table column)) }
    ensures { Says line.now [] (written_index index table column) (tree_of result) }
{
    Command::DefineIndex {
        name: name(line, index),
        table: name(line, table),
        column: name(line, column),
    }
}

/// A query under a name, with its text.
pub fn view_said(
    alloc: Global,
    line: &str,
    tokens: &[Token],
    view: Token,
    query: &WrittenQuery,
) -> Result<Command, Refusal>
    requires told { AreToldOf line.now (spelling (written_view view (query_syntax query.now))) }
    requires inside { All (IsTokenOf line.now) tokens.now }
    ensures ok { IfOk result (λ command. Says line.now tokens.now (written_view view (query_syntax query.now)) (tree_of command)) }
    ensures err { IfErr result (NothingSaid (Says line.now tokens.now (written_view view (query_syntax query.now)))) }
{
    let text = String::from_str(alloc, view_text(line, tokens))?;
    let query = query_said(alloc, line, query)?;
    Ok(Command::DefineView {
        name: name(line, view),
        query,
        text,
    })
}

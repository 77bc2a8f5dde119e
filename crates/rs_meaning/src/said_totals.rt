//! What TOTAL of a line says.
//!
//! The syntax has been read, so a number out of its range is all that can be wrong with it.

ghost use Rattle.std.specs.Prelude.{◌≡◌, [], IfOk, IfErr};
ghost use Rattle.rs_syntax.specs.View.{summed_tree, tree_of};
ghost use Rattle.rs_syntax.specs.Written.{written_total, summed_lexemes, summed_name, spelling, Says, AreToldOf};
ghost use Rattle.rs_syntax.specs.WrittenView.{query_syntax};
ghost use Rattle.rs_meaning.specs.Saying.{NothingSaid};

use crate::meaning::name;
use crate::said_queries::{names_said, query_said};
use rs_lexer::Token;
use rs_methods::Name;
use rs_refusal::Refusal;
use rs_syntax::Command;
use rs_syntax::written::WrittenQuery;
use std::alloc::Global;

// The column that is summed, where one is named.
fn summed_said(line: &str, column: Option<Token>) -> Option<Name>
    requires { AreToldOf line.now (summed_lexemes column) }
    ensures { summed_tree result ≡ summed_name line.now column }
{
    match column {
        Some(column) => Some(name(line, column)),
        None => None,
    }
}

/// A query whose rows are grouped by columns, and the column that is summed.
pub fn total_said(
    alloc: Global,
    line: &str,
    query: &WrittenQuery,
    columns: &[Token],
    column: Option<Token>,
) -> Result<Command, Refusal>
    requires { AreToldOf line.now (spelling (written_total (query_syntax query.now) columns.now column)) }
    ensures ok { IfOk result (λ command. Says line.now [] (written_total (query_syntax query.now) columns.now column) (tree_of command)) }
    ensures err { IfErr result (NothingSaid (Says line.now [] (written_total (query_syntax query.now) columns.now column))) }
{
    Ok(Command::Total {
        query: query_said(alloc, line, query)?,
        by: names_said(alloc, line, columns)?,
        summed: summed_said(line, column),
    })
}

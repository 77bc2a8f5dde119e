//! What OPEN, FETCH and CLOSE of a line say.
//!
//! The syntax has been read, so a number out of its range is all that can be wrong with it.

ghost use Rattle.std.specs.Prelude.{◌≡◌, ℕ, [], MatchOption, IfOk, IfErr};
ghost use Rattle.rs_lexer.specs.Lexis.{token_text, IsTokenOf};
ghost use Rattle.rs_syntax.specs.View.{tree_of};
ghost use Rattle.rs_syntax.specs.Written.{written_open, written_fetch, written_close, spelling, SaysRows, Says, AreToldOf};
ghost use Rattle.rs_syntax.specs.WrittenView.{query_syntax};
ghost use Rattle.rs_meaning.specs.Saying.{NothingSaid};

use crate::meaning::{name, number, text};
use crate::said_queries::query_said;
use rs_grammar::FETCHED_ROWS;
use rs_lexer::Token;
use rs_methods::Method;
use rs_refusal::Refusal;
use rs_syntax::Command;
use rs_syntax::written::WrittenQuery;
use std::alloc::Global;

/// A cursor on a query whose positions are printed by a method, absolute where none is named.
pub fn opening_said(
    alloc: Global,
    line: &str,
    cursor: Token,
    query: &WrittenQuery,
    method: Option<Method>,
) -> Result<Command, Refusal>
    requires { AreToldOf line.now (spelling (written_open cursor (query_syntax query.now) method)) }
    ensures ok { IfOk result (λ command. Says line.now [] (written_open cursor (query_syntax query.now) method) (tree_of command)) }
    ensures err { IfErr result (NothingSaid (Says line.now [] (written_open cursor (query_syntax query.now) method))) }
{
    let query = query_said(alloc, line, query)?;
    Ok(Command::Open {
        cursor: name(line, cursor),
        query,
        method: method.unwrap_or(Method::Absolute),
    })
}

// How many rows are fetched, if the number is in range.
fn rows_said(line: &str, digits: Token) -> Option<u32>
    requires { IsTokenOf line.now digits }
    ensures { MatchOption result ((rows : ℕ) → SaysRows (token_text line.now digits) rows → ⊥) (SaysRows (token_text line.now digits)) }
{
    let rows = number(text(line, digits), u64::from(FETCHED_ROWS))?;
    if rows == 0 { None } else { Some(rows as u32) }
}

/// The next rows of a cursor.
pub fn fetch_said(line: &str, cursor: Token, rows: Token) -> Result<Command, Refusal>
    requires { AreToldOf line.now (spelling (written_fetch cursor rows)) }
    ensures ok { IfOk result (λ command. Says line.now [] (written_fetch cursor rows) (tree_of command)) }
    ensures err { IfErr result (NothingSaid (Says line.now [] (written_fetch cursor rows))) }
{
    let Some(rows) = rows_said(line, rows) else {
        return Err(Refusal::NumberOutOfRange);
    };
    Ok(Command::Fetch {
        cursor: name(line, cursor),
        rows,
    })
}

/// A cursor closed.
pub fn cursor_closed(line: &str, cursor: Token) -> Command
    requires { AreToldOf line.now (spelling (written_close cursor)) }
    ensures { Says line.now [] (written_close cursor) (tree_of result) }
{
    Command::Close {
        cursor: name(line, cursor),
    }
}

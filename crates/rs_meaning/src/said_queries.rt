//! What queries of a line say.
//!
//! The syntax has been read, so a number out of its range is all that can be wrong with them.

ghost use Rattle.std.specs.Prelude.{◌≡◌, map, IfOk, IfErr};
ghost use Rattle.rs_refusal.specs.declared.refusal.Refusal.TheVariants.{OutOfMemory};
ghost use Rattle.rs_grammar.specs.declared.kind.TokenKind.TheVariants as kinds;
ghost use Rattle.rs_lexer.specs.Lexis.{token_text};
ghost use Rattle.rs_syntax.specs.QueryView.{query_tree};
ghost use Rattle.rs_syntax.specs.Written.{list_lexemes, name_lexemes, paired, query_lexemes, SaysQuery, AreToldOf};
ghost use Rattle.rs_syntax.specs.WrittenView.{query_syntax};
ghost use Rattle.rs_meaning.specs.Saying.{NothingSaid};

use crate::meaning::name;
use crate::said_conditions::condition_said;
use crate::said_places::window_said;
use rs_lexer::Token;
use rs_methods::Name;
use rs_refusal::Refusal;
use rs_syntax::Query;
use rs_syntax::written::{PairOperator, WrittenQuery};
use std::alloc::Global;

/// Names of columns.
///
/// Refused `OutOfMemory` where a growth was refused.
pub fn names_said(alloc: Global, line: &str, written: &[Token]) -> Result<Vec<Name>, Refusal>
    requires { AreToldOf line.now (list_lexemes kinds.Comma name_lexemes written.now) }
    ensures ok { IfOk result (λ names. map (λ name. name.bytes) names.items ≡ map (token_text line.now) written.now) }
    ensures err { IfErr result (λ refusal. refusal ≡ OutOfMemory) }
{
    let mut names = Vec::new(alloc);
    for token in written {
        names.push(name(line, *token))?;
    }
    Ok(names)
}

// Two queries under an operator.
fn pair(operator: PairOperator, left: Box<Query>, right: Box<Query>) -> Query
    ensures { query_tree result ≡ paired operator (query_tree left.value) (query_tree right.value) }
{
    match operator {
        PairOperator::Overlay => Query::Overlay(left, right),
        PairOperator::Cover => Query::Cover(left, right),
        PairOperator::Merge => Query::Merge(left, right),
        PairOperator::Minus => Query::Minus(left, right),
    }
}

// A query that an operator is applied to.
#[cycle(saying)]
fn operand_query_said(
    alloc: Global,
    line: &str,
    written: &WrittenQuery,
) -> Result<Box<Query>, Refusal>
    requires { AreToldOf line.now (query_lexemes (query_syntax written.now)) }
    ensures ok { IfOk result (λ query. SaysQuery line.now (query_syntax written.now) (query_tree query.value)) }
    ensures err { IfErr result (NothingSaid (SaysQuery line.now (query_syntax written.now))) }
{
    let query = query_said(alloc, line, written)?;
    Ok(Box::new(alloc, query)?)
}

/// A query.
///
/// Refused `NumberOutOfRange` where a number is out of its range, and `OutOfMemory` where a growth was
/// refused.
#[cycle(saying)]
pub fn query_said(alloc: Global, line: &str, written: &WrittenQuery) -> Result<Query, Refusal>
    requires { AreToldOf line.now (query_lexemes (query_syntax written.now)) }
    ensures ok { IfOk result (λ query. SaysQuery line.now (query_syntax written.now) (query_tree query)) }
    ensures err { IfErr result (NothingSaid (SaysQuery line.now (query_syntax written.now))) }
{
    match written {
        WrittenQuery::Named(table) => Ok(Query::Named(name(line, *table))),
        WrittenQuery::Where(operand, wanted) => {
            let query = operand_query_said(alloc, line, operand)?;
            let condition = condition_said(alloc, line, wanted)?;
            Ok(Query::Where(query, condition))
        }
        WrittenQuery::Dissolve(operand, columns) => {
            let query = operand_query_said(alloc, line, operand)?;
            let names = names_said(alloc, line, columns)?;
            Ok(Query::Dissolve(query, names))
        }
        WrittenQuery::Rename(operand, from, to) => {
            let query = operand_query_said(alloc, line, operand)?;
            Ok(Query::Rename(query, name(line, *from), name(line, *to)))
        }
        WrittenQuery::Pair(operator, first, second) => {
            let left = operand_query_said(alloc, line, first)?;
            let right = operand_query_said(alloc, line, second)?;
            Ok(pair(*operator, left, right))
        }
        WrittenQuery::Window(operand, place) => {
            let query = operand_query_said(alloc, line, operand)?;
            let window = window_said(line, *place)?;
            Ok(Query::Window(query, window))
        }
        WrittenQuery::Transform(operand, alignment) => {
            let query = operand_query_said(alloc, line, operand)?;
            Ok(Query::Transform(query, name(line, *alignment)))
        }
        WrittenQuery::Gaps(operand) => {
            let query = operand_query_said(alloc, line, operand)?;
            Ok(Query::Gaps(query))
        }
    }
}

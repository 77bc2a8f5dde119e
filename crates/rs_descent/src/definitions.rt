//! The descent's part for DEFINE.
//!
//! Each function takes tokens from the front and returns the others, or those at which it stopped.

ghost use Rattle.std.specs.Prelude.{◌≡◌, ◌∷◌, ◌++◌, IfOk};
ghost use Rattle.rs_grammar.specs.declared.kind.TokenKind.TheVariants as kinds;
ghost use Rattle.rs_grammar.specs.Grammar.{define_form, define_route_form, define_referent_form, define_view_form, define_table_form};
ghost use Rattle.rs_syntax.specs.Written.{mark, table_kind, spelling, lexemes_of, IsFull};
ghost use Rattle.rs_syntax.specs.View.{written_of};
ghost use Rattle.rs_descent.specs.Reading.{RunsTo};

use crate::alignments::define_alignment;
use crate::columns::columns;
use crate::front::{Stop, mark, need_mark, need_text};
use crate::indexes::define_index;
use crate::positions::{measure, position};
use crate::queries::boxed_query;
use rs_grammar::kind::TokenKind;
use rs_lexer::Token;
use rs_syntax::written::WrittenCommand;
use rs_value::Kind;
use std::alloc::Global;

// after DEFINE ROUTE: name FROM measure TO measure
fn define_route(tokens: &[Token]) -> Result<(WrittenCommand, &[Token]), Stop<'_>>
    ensures runs { RunsTo define_route_form tokens.now result }
    ensures spelled { IfOk result (λ found. mark kinds.Define ∷ mark kinds.Route ∷ lexemes_of tokens.now
        ≡ spelling (written_of found.0) ++ lexemes_of found.1.now) }
    ensures full { IfOk result (λ found. IsFull (written_of found.0)) }
{
    let (name, rest) = need_text(tokens, TokenKind::Name)?;
    let rest = need_mark(rest, TokenKind::From)?;
    let (start, rest) = measure(rest)?;
    let rest = need_mark(rest, TokenKind::To)?;
    let (finish, rest) = measure(rest)?;
    let command = WrittenCommand::DefineRoute {
        name,
        start,
        finish,
    };
    Ok((command, rest))
}

// after DEFINE REFERENT: route name AT pos
fn define_referent(tokens: &[Token]) -> Result<(WrittenCommand, &[Token]), Stop<'_>>
    ensures runs { RunsTo define_referent_form tokens.now result }
    ensures spelled { IfOk result (λ found. mark kinds.Define ∷ mark kinds.Referent ∷ lexemes_of tokens.now
        ≡ spelling (written_of found.0) ++ lexemes_of found.1.now) }
    ensures full { IfOk result (λ found. IsFull (written_of found.0)) }
{
    let (route, rest) = need_text(tokens, TokenKind::Name)?;
    let (name, rest) = need_text(rest, TokenKind::Name)?;
    let rest = need_mark(rest, TokenKind::At)?;
    let (position, rest) = position(rest)?;
    let command = WrittenCommand::DefineReferent {
        route,
        name,
        position,
    };
    Ok((command, rest))
}

// after DEFINE VIEW: name AS query
fn define_view(alloc: Global, tokens: &[Token]) -> Result<(WrittenCommand, &[Token]), Stop<'_>>
    ensures runs { RunsTo define_view_form tokens.now result }
    ensures spelled { IfOk result (λ found. mark kinds.Define ∷ mark kinds.View ∷ lexemes_of tokens.now
        ≡ spelling (written_of found.0) ++ lexemes_of found.1.now) }
    ensures full { IfOk result (λ found. IsFull (written_of found.0)) }
{
    let (name, rest) = need_text(tokens, TokenKind::Name)?;
    let rest = need_mark(rest, TokenKind::As)?;
    let (query, rest) = boxed_query(alloc, rest)?;
    Ok((WrittenCommand::DefineView { name, query }, rest))
}

// after DEFINE and a kind: TABLE name "(" columns ")"
fn define_table(
    alloc: Global,
    kind: Kind,
    tokens: &[Token],
) -> Result<(WrittenCommand, &[Token]), Stop<'_>>
    ensures runs { RunsTo define_table_form tokens.now result }
    ensures spelled { IfOk result (λ found. mark kinds.Define ∷ mark (table_kind kind) ∷ lexemes_of tokens.now
        ≡ spelling (written_of found.0) ++ lexemes_of found.1.now) }
    ensures full { IfOk result (λ found. IsFull (written_of found.0)) }
{
    let rest = need_mark(tokens, TokenKind::Table)?;
    let (name, rest) = need_text(rest, TokenKind::Name)?;
    let rest = need_mark(rest, TokenKind::LeftParen)?;
    let (columns, rest) = columns(alloc, rest)?;
    match mark(rest, TokenKind::RightParen) {
        Some(behind) => {
            let command = WrittenCommand::DefineTable {
                kind,
                name,
                columns,
            };
            Ok((command, behind))
        }
        None => Err(Stop::At(rest)),
    }
}

/// After DEFINE: a route, a referent, a view, an alignment, an index or a table.
pub fn define(alloc: Global, tokens: &[Token]) -> Result<(WrittenCommand, &[Token]), Stop<'_>>
    ensures runs { RunsTo define_form tokens.now result }
    ensures spelled { IfOk result (λ found. mark kinds.Define ∷ lexemes_of tokens.now
        ≡ spelling (written_of found.0) ++ lexemes_of found.1.now) }
    ensures full { IfOk result (λ found. IsFull (written_of found.0)) }
{
    if let Some(rest) = mark(tokens, TokenKind::Route) {
        return define_route(rest);
    }
    if let Some(rest) = mark(tokens, TokenKind::Referent) {
        return define_referent(rest);
    }
    if let Some(rest) = mark(tokens, TokenKind::View) {
        return define_view(alloc, rest);
    }
    if let Some(rest) = mark(tokens, TokenKind::Alignment) {
        return define_alignment(alloc, rest);
    }
    if let Some(rest) = mark(tokens, TokenKind::Index) {
        return define_index(rest);
    }
    if let Some(rest) = mark(tokens, TokenKind::Line) {
        return define_table(alloc, Kind::Line, rest);
    }
    match mark(tokens, TokenKind::Point) {
        Some(rest) => define_table(alloc, Kind::Point, rest),
        None => Err(Stop::At(tokens)),
    }
}

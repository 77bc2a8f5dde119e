//! The descent's part for DROP.
//!
//! Each function takes tokens from the front and returns the others, or those at which it stopped.

ghost use Rattle.std.specs.Prelude.{◌≡◌, [], ◌∷◌, ◌++◌, MatchOption, IfSome, IfOk};
ghost use Rattle.rs_grammar.specs.declared.kind.TokenKind.TheVariants as kinds;
ghost use Rattle.rs_grammar.specs.Grammar.{drop_form, drop_referent_form};
ghost use Rattle.rs_lexer.specs.Lexis.{kinds_of};
ghost use Rattle.rs_syntax.specs.Written.{mark, told, spelling, lexemes_of, IsFull};
ghost use Rattle.rs_syntax.specs.View.{written_of};
ghost use Rattle.rs_descent.specs.Reading.{Lacks, RunsTo};
ghost use Rattle.rs_descent.specs.Forms.{object_word};

use crate::front::{Stop, mark, need_text, text};
use rs_grammar::kind::TokenKind;
use rs_lexer::Token;
use rs_syntax::written::WrittenCommand;

// What is dropped by its name alone.
#[derive(Clone, Copy)]
enum ObjectKind {
    Route,
    Table,
    View,
    Alignment,
    Index,
}

// the word for a kind of object at the front, and what follows it
fn object_kind(tokens: &[Token]) -> Option<(ObjectKind, &[Token])>
    ensures found { MatchOption result ((kind : ObjectKind) → Lacks (object_word kind) (kinds_of tokens.now))
        (λ found. kinds_of tokens.now ≡ object_word found.0 ∷ kinds_of found.1.now) }
    ensures spelled { IfSome result (λ found. lexemes_of tokens.now ≡ mark (object_word found.0) ∷ lexemes_of found.1.now) }
{
    if let Some(rest) = mark(tokens, TokenKind::Route) {
        return Some((ObjectKind::Route, rest));
    }
    if let Some(rest) = mark(tokens, TokenKind::Table) {
        return Some((ObjectKind::Table, rest));
    }
    if let Some(rest) = mark(tokens, TokenKind::View) {
        return Some((ObjectKind::View, rest));
    }
    if let Some(rest) = mark(tokens, TokenKind::Alignment) {
        return Some((ObjectKind::Alignment, rest));
    }
    match mark(tokens, TokenKind::Index) {
        Some(rest) => Some((ObjectKind::Index, rest)),
        None => None,
    }
}

// the command that drops an object of a name
fn object_dropped(kind: ObjectKind, name: Token) -> WrittenCommand
    ensures spelled { spelling (written_of result) ≡ mark kinds.Drop ∷ mark (object_word kind) ∷ told kinds.Name name ∷ [] }
    ensures full { IsFull (written_of result) }
{
    match kind {
        ObjectKind::Route => WrittenCommand::DropRoute { name },
        ObjectKind::Table => WrittenCommand::DropTable { name },
        ObjectKind::View => WrittenCommand::DropView { name },
        ObjectKind::Alignment => WrittenCommand::DropAlignment { name },
        ObjectKind::Index => WrittenCommand::DropIndex { name },
    }
}

// after DROP REFERENT: route name
fn drop_referent(tokens: &[Token]) -> Result<(WrittenCommand, &[Token]), Stop<'_>>
    ensures runs { RunsTo drop_referent_form tokens.now result }
    ensures spelled { IfOk result (λ found. mark kinds.Drop ∷ mark kinds.Referent ∷ lexemes_of tokens.now
        ≡ spelling (written_of found.0) ++ lexemes_of found.1.now) }
    ensures full { IfOk result (λ found. IsFull (written_of found.0)) }
{
    let (route, rest) = need_text(tokens, TokenKind::Name)?;
    match text(rest, TokenKind::Name) {
        Some((name, behind)) => Ok((WrittenCommand::DropReferent { route, name }, behind)),
        None => Err(Stop::At(rest)),
    }
}

/// After DROP: a route, a table, a view, an alignment, an index or a referent.
pub fn drop_command(tokens: &[Token]) -> Result<(WrittenCommand, &[Token]), Stop<'_>>
    ensures runs { RunsTo drop_form tokens.now result }
    ensures spelled { IfOk result (λ found. mark kinds.Drop ∷ lexemes_of tokens.now
        ≡ spelling (written_of found.0) ++ lexemes_of found.1.now) }
    ensures full { IfOk result (λ found. IsFull (written_of found.0)) }
{
    if let Some((kind, rest)) = object_kind(tokens) {
        let (name, rest) = need_text(rest, TokenKind::Name)?;
        return Ok((object_dropped(kind, name), rest));
    }
    match mark(tokens, TokenKind::Referent) {
        Some(rest) => drop_referent(rest),
        None => Err(Stop::At(tokens)),
    }
}

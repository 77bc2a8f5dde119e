//! The token at the front of some tokens: a mark, or a token whose text counts.
//!
//! Each function returns the tokens after it, or those at which it stopped.

ghost use Rattle.std.specs.Prelude.{◌≡◌, ◌<◌, ◌∷◌, length, true, false, Some, MatchOption, IfSome, MatchResult, IfOk};
ghost use Rattle.rs_lexer.specs.Lexis.{kinds_of};
ghost use Rattle.rs_syntax.specs.Written.{mark, told, has_text, lexemes_of};
ghost use Rattle.rs_descent.specs.Reading.{Lacks, halt_of};

use rs_grammar::kind::TokenKind;
use rs_lexer::Token;
use std::alloc::AllocFailed;

/// Why a part was not read.
#[derive(Clone, Copy)]
pub enum Stop<'a> {
    /// No rule goes on with the first of these tokens, or the line ends too early where there is none.
    At(&'a [Token]),
    /// A growth was refused.
    OutOfMemory,
}

/// What found no room is dropped.
impl<T: Drop> From<AllocFailed<T>> for Stop<'_> {
    ghost use Rattle.std.specs.Prelude.{◌≡◌};
    ghost use Rattle.rs_descent.specs.declared.front.Stop.TheVariants.{OutOfMemory};

    ghost from_gives = { λ _ stop. stop ≡ OutOfMemory };

    fn from(_refused: AllocFailed<T>) -> Self {
        Stop::OutOfMemory
    }
}

fn is_kind(token: Token, kind: TokenKind) -> bool
    ensures same { result ≡ true → token.kind ≡ kind }
    ensures other { result ≡ false → token.kind ≡ kind → ⊥ }
{
    token.kind == kind
}

/// What follows a word or a symbol, if it is at the front.
pub fn mark(tokens: &[Token], kind: TokenKind) -> Option<&[Token]>
    requires { has_text kind ≡ false }
    ensures found { MatchOption result (Lacks kind (kinds_of tokens.now))
        (λ rest. kinds_of tokens.now ≡ kind ∷ kinds_of rest.now) }
    ensures spelled { IfSome result (λ rest. lexemes_of tokens.now ≡ mark kind ∷ lexemes_of rest.now) }
    ensures shorter { IfSome result (λ rest. length rest.now < length tokens.now) }
{
    let (first, rest) = tokens.split_first()?;
    if is_kind(*first, kind) {
        Some(rest)
    } else {
        None
    }
}

/// A name, a number or a text at the front, and what follows it.
pub fn text(tokens: &[Token], kind: TokenKind) -> Option<(Token, &[Token])>
    requires { has_text kind ≡ true }
    ensures found { MatchOption result (Lacks kind (kinds_of tokens.now))
        (λ found. kinds_of tokens.now ≡ kind ∷ kinds_of found.1.now) }
    ensures kind { IfSome result (λ found. found.0.kind ≡ kind) }
    ensures spelled { IfSome result (λ found. lexemes_of tokens.now ≡ told kind found.0 ∷ lexemes_of found.1.now) }
    ensures shorter { IfSome result (λ found. length found.1.now < length tokens.now) }
{
    let (first, rest) = tokens.split_first()?;
    if is_kind(*first, kind) {
        Some((*first, rest))
    } else {
        None
    }
}

/// What follows a word or a symbol that has to be at the front.
pub fn need_mark(tokens: &[Token], kind: TokenKind) -> Result<&[Token], Stop<'_>>
    requires { has_text kind ≡ false }
    ensures found { MatchResult result (λ rest. kinds_of tokens.now ≡ kind ∷ kinds_of rest.now)
        (λ stop. Lacks kind (kinds_of tokens.now) × (halt_of stop ≡ Some (kinds_of tokens.now))) }
    ensures spelled { IfOk result (λ rest. lexemes_of tokens.now ≡ mark kind ∷ lexemes_of rest.now) }
    ensures shorter { IfOk result (λ rest. length rest.now < length tokens.now) }
{
    match mark(tokens, kind) {
        Some(rest) => Ok(rest),
        None => Err(Stop::At(tokens)),
    }
}

/// A name, a number or a text that has to be at the front, and what follows it.
pub fn need_text(tokens: &[Token], kind: TokenKind) -> Result<(Token, &[Token]), Stop<'_>>
    requires { has_text kind ≡ true }
    ensures found { MatchResult result (λ found. kinds_of tokens.now ≡ kind ∷ kinds_of found.1.now)
        (λ stop. Lacks kind (kinds_of tokens.now) × (halt_of stop ≡ Some (kinds_of tokens.now))) }
    ensures kind { IfOk result (λ found. found.0.kind ≡ kind) }
    ensures spelled { IfOk result (λ found. lexemes_of tokens.now ≡ told kind found.0 ∷ lexemes_of found.1.now) }
    ensures shorter { IfOk result (λ found. length found.1.now < length tokens.now) }
{
    match text(tokens, kind) {
        Some(found) => Ok(found),
        None => Err(Stop::At(tokens)),
    }
}

//! The tokens of a line, cut by the longest match.
//!
//! Blanks separate tokens. Where no token begins at a byte that is no blank, the line has no cut.

ghost use Rattle.std.specs.Prelude.{◌≡◌, ◌==◌, ◌⊎◌, List, IfOk, IfErr, All};
ghost use Rattle.rs_lexer.specs.declared.token.Token.{Token};
ghost use Rattle.rs_lexer.specs.Lexis.{IsTokenOf, AreTokensFrom};

use crate::scan::front_token;
use rs_grammar::kind::TokenKind;
use rs_refusal::Refusal;
use std::alloc::Global;

/// A token of a line: its kind, and the place and the number of its bytes in the line.
#[derive(Clone, Copy)]
pub struct Token {
    /// What it is.
    pub kind: TokenKind,
    /// How many bytes of the line come before it.
    pub first: usize,
    /// How many bytes it has.
    pub length: usize,
}

// Room for the tokens of most lines, which is taken once.
const TOKENS: usize = 32;

// Blanks part tokens and are dropped.
fn is_blank(byte: u8) -> bool
    ensures { result ≡ (byte == 32) }
{
    byte == b' '
}

/// The tokens of the line from a byte place on.
///
/// Refused `UnknownCharacter` where the line can't be cut into tokens from there on, and
/// `OutOfMemory` where a growth was refused.
pub fn tokens(alloc: Global, line: &str, from: usize) -> Result<Vec<Token>, Refusal>
    ensures cut { IfOk result (λ tokens. AreTokensFrom line.now from tokens.items) }
    ensures inside { IfOk result (λ tokens. All (IsTokenOf line.now) tokens.items) }
    // 10 exactly where there is no cut.
    ensures refused { IfErr result (λ refusal. (refusal ≡ Refusal.OutOfMemory)
        ⊎ ((refusal ≡ Refusal.UnknownCharacter) × ((tokens : List Token) → AreTokensFrom line.now from tokens → ⊥))) }
{
    let bytes = line.as_bytes();
    let mut tokens = Vec::with_capacity(alloc, TOKENS)?;
    let mut place = from;
    while place < bytes.len() {
        if is_blank(bytes[place]) {
            place += 1;
        } else {
            let Some((kind, length)) = front_token(&bytes[place..]) else {
                return Err(Refusal::UnknownCharacter);
            };
            let token = Token {
                kind,
                first: place,
                length,
            };
            tokens.push(token)?;
            place += length;
        }
    }
    Ok(tokens)
}

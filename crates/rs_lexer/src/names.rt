//! This module says which texts are names, without a look at what stands under them.

ghost use Rattle.std.specs.Prelude.{◌↔◌, IsTrue};
ghost use Rattle.rs_lexer.specs.Names.{IsName};

use crate::scan::front_token;
use rs_grammar::kind::TokenKind;

/// Whether the text is a name: a word that is neither too long nor reserved.
pub fn is_name(text: &str) -> bool
    ensures { IsTrue result ↔ IsName text.now }
{
    are_name_bytes(text.as_bytes())
}

/// Whether the bytes are those of a name. Bytes that are no text are not.
pub fn are_name_bytes(bytes: &[u8]) -> bool
    ensures { IsTrue result ↔ IsName bytes.now }
{
    match front_token(bytes) {
        Some((kind, count)) => kind == TokenKind::Name && count == bytes.len(),
        None => false,
    }
}

//! The longest token at the front of some bytes, told by its first byte.
//!
//! Each kind has a loop of its own, which stops at the byte that no token goes on with, so a line is scanned in linear time.

ghost use Rattle.std.specs.Prelude.{◌≡◌, ℕ, ◌<◌, ◌≤◌, true, false, List, ◌∷◌, length, slice_index, take, MatchOption, None};
ghost use Rattle.std.specs.Char.{is_ascii_alphabetic, is_ascii_digit};
ghost use Rattle.std.specs.List.{prefix_len};
ghost use Rattle.std.specs.Str.{bytes_eq};
ghost use Rattle.rs_grammar.specs.Words.{is_word_byte};
ghost use Rattle.rs_lexer.specs.Lexis.{reserved, kind_in, word_kind, single_kind, token_kind, IsLongestToken};
ghost use Rattle.rs_lexer.specs.Scanning.{rows_of, after_start, accepts, run, IsLongestRest};
ghost use Rattle.rs_lexer.specs.States as states;

use rs_grammar::kind::{NAME_BYTES, RESERVED, Reserved, TokenKind};

// Whether these bytes, which are as many, are the word.
fn same_bytes(bytes: &[u8], word: &[u8]) -> bool
    requires { length bytes.now ≡ length word.now }
    ensures { result ≡ bytes_eq bytes.now word.now }
{
    for (place, byte) in bytes.iter().enumerate() {
        if *byte != word[place] {
            return false;
        }
    }
    true
}

// Whether these bytes are the word. Most words of a table have another length, which tells it at once.
fn is_word(bytes: &[u8], word: &[u8]) -> bool
    ensures { result ≡ bytes_eq bytes.now word.now }
{
    bytes.len() == word.len() && same_bytes(bytes, word)
}

// The kind beside a word in a table.
fn kind_in(table: &[Reserved], word: &[u8]) -> Option<TokenKind>
    ensures { result ≡ kind_in (rows_of table.now) word.now }
{
    for row in table {
        if is_word(row.word.as_bytes(), word) {
            return Some(row.kind);
        }
    }
    None
}

// The reserved words that begin with the byte: their places in `RESERVED`, which is in alphabetical order.
fn beginning_with(first: u8) -> &'static [Reserved]
    ensures { (others : List ℕ) → kind_in (rows_of result.now) (first ∷ others) ≡ kind_in reserved (first ∷ others) }
{
    match first {
        b'A' => &RESERVED[0..5],
        b'B' => &RESERVED[5..6],
        b'C' => &RESERVED[6..8],
        b'D' => &RESERVED[8..11],
        b'E' => &RESERVED[11..12],
        b'F' => &RESERVED[12..15],
        b'G' => &RESERVED[15..16],
        b'I' => &RESERVED[16..22],
        b'L' => &RESERVED[22..23],
        b'M' => &RESERVED[23..26],
        b'N' => &RESERVED[26..28],
        b'O' => &RESERVED[28..32],
        b'P' => &RESERVED[32..33],
        b'R' => &RESERVED[33..39],
        b'S' => &RESERVED[39..42],
        b'T' => &RESERVED[42..48],
        b'V' => &RESERVED[48..50],
        b'W' => &RESERVED[50..52],
        _ => &[],
    }
}

// The kind of a reserved word, sought among those of its first letter.
fn reserved_kind(word: &[u8]) -> Option<TokenKind>
    ensures { result ≡ kind_in reserved word.now }
{
    let first = word.first()?;
    kind_in(beginning_with(*first), word)
}

// The kind of a word.
fn word_kind(word: &[u8]) -> TokenKind
    ensures { result ≡ word_kind word.now }
{
    match reserved_kind(word) {
        Some(kind) => kind,
        None => {
            if word.len() <= NAME_BYTES {
                TokenKind::Name
            } else {
                TokenKind::LongWord
            }
        }
    }
}

// The kind of a symbol of one byte that begins no other symbol.
fn single_kind(byte: u8) -> Option<TokenKind>
    ensures { result ≡ single_kind byte }
{
    match byte {
        b'(' => Some(TokenKind::LeftParen),
        b')' => Some(TokenKind::RightParen),
        b',' => Some(TokenKind::Comma),
        b'=' => Some(TokenKind::Equal),
        b'+' => Some(TokenKind::PlusSign),
        b'-' => Some(TokenKind::MinusSign),
        b'@' => Some(TokenKind::AtSign),
        b'%' => Some(TokenKind::PercentSign),
        _ => None,
    }
}

fn is_word_byte(byte: u8) -> bool
    ensures { result ≡ is_word_byte byte }
{
    byte.is_ascii_alphabetic() || byte.is_ascii_digit() || byte == b'_'
}

// How many letters there are at the front.
fn letters_length(bytes: &[u8]) -> usize
    ensures { result ≡ prefix_len is_ascii_alphabetic bytes.now }
{
    bytes
        .iter()
        .take_while(|byte| byte.is_ascii_alphabetic())
        .count()
}

// How many letters, digits and `_` there are at the front.
fn word_bytes_length(bytes: &[u8]) -> usize
    ensures { result ≡ prefix_len is_word_byte bytes.now }
{
    bytes.iter().take_while(|byte| is_word_byte(**byte)).count()
}

// The same. Most bytes of words are letters, which a test of their own tells sooner.
fn word_length(bytes: &[u8]) -> usize
    ensures count { result ≡ prefix_len is_word_byte bytes.now }
    ensures inside { result ≤ length bytes.now }
{
    let letters = letters_length(bytes);
    letters + word_bytes_length(&bytes[letters..])
}

// How many digits there are at the front.
fn digits_length(bytes: &[u8]) -> usize
    ensures { result ≡ prefix_len is_ascii_digit bytes.now }
{
    bytes
        .iter()
        .take_while(|byte| byte.is_ascii_digit())
        .count()
}

// What the longest number has after its first digit: its kind, and how many bytes.
fn number(rest: &[u8]) -> (TokenKind, usize)
    ensures { IsLongestRest states.Whole rest.now result.0 result.1 }
{
    let whole = digits_length(rest);
    if whole < rest.len() && rest[whole] == b'.' {
        let decimals = digits_length(&rest[whole + 1..]);
        if decimals > 0 {
            return (TokenKind::Decimal, whole + 1 + decimals);
        }
    }
    (TokenKind::Whole, whole)
}

// How many bytes the longest quoted text has after its first quote; 0 where it is not closed.
fn quoted_length(rest: &[u8]) -> usize
    ensures inside { result ≤ length rest.now }
    ensures closed { 0 < result → run states.Inside (take result rest.now) ≡ states.Behind }
    ensures longest { (longer : ℕ) → result < longer → longer ≤ length rest.now
        → accepts (run states.Inside (take longer rest.now)) ≡ false }
{
    let mut is_open = true;
    let mut count = 0;
    for (place, byte) in rest.iter().enumerate() {
        if *byte == b'\'' {
            is_open = !is_open;
            if !is_open {
                count = place + 1;
            }
        } else if !is_open {
            return count;
        }
    }
    count
}

// What the longest quoted text has after its first quote: its kind, and how many bytes.
fn quoted(rest: &[u8]) -> Option<(TokenKind, usize)>
    ensures { MatchOption result ((count : ℕ) → count ≤ length rest.now → accepts (run states.Inside (take count rest.now)) ≡ false)
        (λ token. IsLongestRest states.Inside rest.now token.0 token.1) }
{
    let count = quoted_length(rest);
    if count > 0 {
        Some((TokenKind::Quoted, count))
    } else {
        None
    }
}

// The first byte, and 0 where there is none.
fn first_or_zero(bytes: &[u8]) -> u8
    ensures { result ≡ slice_index bytes.now 0 }
{
    if bytes.is_empty() { 0 } else { bytes[0] }
}

// What the longest symbol has after `<`: its kind, and how many bytes.
fn less(rest: &[u8]) -> (TokenKind, usize)
    ensures { IsLongestRest states.Less rest.now result.0 result.1 }
{
    match first_or_zero(rest) {
        b'=' => (TokenKind::LessOrEqual, 1),
        b'>' => (TokenKind::Unequal, 1),
        _ => (TokenKind::Less, 0),
    }
}

// What the longest symbol has after `>`: its kind, and how many bytes.
fn greater(rest: &[u8]) -> (TokenKind, usize)
    ensures { IsLongestRest states.Greater rest.now result.0 result.1 }
{
    match first_or_zero(rest) {
        b'=' => (TokenKind::GreaterOrEqual, 1),
        _ => (TokenKind::Greater, 0),
    }
}

// What the longest token has after this first byte, which is no letter: its kind, and how many bytes.
fn other(first: u8, rest: &[u8]) -> Option<(TokenKind, usize)>
    requires { is_ascii_alphabetic first ≡ false }
    ensures { MatchOption result ((count : ℕ) → count ≤ length rest.now → accepts (run (after_start first) (take count rest.now)) ≡ false)
        (λ token. IsLongestRest (after_start first) rest.now token.0 token.1) }
{
    if first.is_ascii_digit() {
        return Some(number(rest));
    }
    match first {
        b'\'' => quoted(rest),
        b'<' => Some(less(rest)),
        b'>' => Some(greater(rest)),
        _ => Some((single_kind(first)?, 0)),
    }
}

/// The longest token at the front of the bytes: its kind and the number of its bytes. `None` where
/// no front is a token.
pub fn front_token(bytes: &[u8]) -> Option<(TokenKind, usize)>
    ensures { MatchOption result ((count : ℕ) → count ≤ length bytes.now → token_kind (take count bytes.now) ≡ None)
        (λ token. IsLongestToken bytes.now token.0 token.1) }
{
    let (first, rest) = bytes.split_first()?;
    if first.is_ascii_alphabetic() {
        let count = word_length(rest) + 1;
        return Some((word_kind(&bytes[..count]), count));
    }
    let (kind, count) = other(*first, rest)?;
    Some((kind, count + 1))
}

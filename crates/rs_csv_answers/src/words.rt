//! Which texts are questions, by their first word.

ghost use Rattle.std.specs.Prelude.{◌≡◌, IfSome, false, is_none, map};
ghost use Rattle.std.specs.List.{list_all};
ghost use Rattle.rs_csv_answers.specs.Words.{after_spaces, asks_rows, begins_with_word, ends_word};

/// The first of the texts that is no question.
pub fn first_other<'a>(texts: &[&'a str]) -> Option<&'a str>
    ensures none { is_none result ≡ list_all asks_rows (map (λ text. text.now) texts.now) }
    ensures other { IfSome result (λ text. asks_rows text.now ≡ false) }
{
    for text in texts {
        let text: &'a str = text;
        if !is_question(text) {
            return Some(text);
        }
    }
    None
}

/// Whether the first word of a text is SELECT or TOTAL.
pub fn is_question(text: &str) -> bool
    ensures { result ≡ asks_rows text.now }
{
    let rest = without_spaces(text.as_bytes());
    has_word(rest, b"SELECT") || has_word(rest, b"TOTAL")
}

/// The bytes from the first that is no space.
fn without_spaces(bytes: &[u8]) -> &[u8]
    ensures { result.now ≡ after_spaces bytes.now }
{
    for place in 0..bytes.len() {
        if bytes[place] != b' ' {
            return &bytes[place..];
        }
    }
    &[]
}

/// Whether a text begins with this word, which ends there.
fn has_word(text: &[u8], word: &[u8]) -> bool
    ensures { result ≡ begins_with_word word.now text.now }
{
    match text.strip_prefix(word) {
        Some(rest) => is_end(rest),
        None => false,
    }
}

/// Whether a word ends before these bytes.
fn is_end(rest: &[u8]) -> bool
    ensures { result ≡ ends_word rest.now }
{
    match rest.first() {
        Some(byte) => !(byte.is_ascii_alphanumeric() || *byte == b'_'),
        None => true,
    }
}

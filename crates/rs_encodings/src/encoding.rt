//! How the characters of an input are encoded, as it is said and by its mark.

ghost use Rattle.std.specs.Prelude.{◌≡◌, ◌<◌, ◌++◌, [], ℕ, List, length};
ghost use Rattle.rs_encodings.specs.Forms.{form_of};

/// How the characters of an input are encoded.
#[derive(Clone, Copy, PartialEq, Eq, Debug)]
pub enum Encoding {
    /// UTF-16 where the input begins with its byte order mark, and UTF-8 elsewhere.
    ByMark,
    /// ISO 8859-1: each byte is the character of that number.
    Latin1,
}

/// Which of the two bytes of a unit of UTF-16 comes first.
#[derive(Clone, Copy)]
pub enum ByteOrder {
    /// Little-endian, with the mark FF FE.
    LowFirst,
    /// Big-endian, with the mark FE FF.
    HighFirst,
}

/// How bytes are characters.
#[derive(Clone, Copy)]
pub enum Code {
    /// Each byte is one.
    Latin1,
    /// Each unit of two bytes is one, or two units are.
    Utf16(ByteOrder),
}

/// What is to be made of bytes.
#[derive(Clone, Copy)]
pub enum Form {
    /// They are passed on as they are.
    Plain,
    /// Their characters are.
    Coded(Code),
}

/// What is to be made of an input that begins with these bytes, four or all that there are.
pub fn form_by_head(encoding: Encoding, head: &[u8]) -> Form
    ensures { (rest : List ℕ) → (length head.now < 4 → rest ≡ []) → result ≡ form_of encoding (head.now ++ rest) }
{
    match encoding {
        Encoding::Latin1 => Form::Coded(Code::Latin1),
        Encoding::ByMark => form_by_mark(head),
    }
}

// The same by the mark alone.
fn form_by_mark(head: &[u8]) -> Form
    ensures { (rest : List ℕ) → (length head.now < 4 → rest ≡ []) → result ≡ form_of Encoding.ByMark (head.now ++ rest) }
{
    if head.len() < 2 {
        return Form::Plain;
    }
    match (head[0], head[1]) {
        (0xff, 0xfe) => Form::Coded(Code::Utf16(ByteOrder::LowFirst)),
        (0xfe, 0xff) => Form::Coded(Code::Utf16(ByteOrder::HighFirst)),
        _ => Form::Plain,
    }
}

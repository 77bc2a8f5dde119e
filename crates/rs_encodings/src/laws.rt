//! What the text of an input is, of characters that were encoded.

ghost use Rattle.std.specs.Prelude.{◌≡◌, ◌∷◌, ℕ, List, true};
ghost use Rattle.std.specs.Str.{all_scalars, encode_utf8_all};
ghost use Rattle.rs_encodings.specs.Encoded.{byte_order_mark, utf16_bytes};
ghost use Rattle.rs_encodings.specs.Texts.{decoded};
ghost use Rattle.rs_encodings.specs.declared.encoding.ByteOrder.{ByteOrder};

use crate::encoding::Encoding;

/// The text of characters in UTF-16 after its mark is these characters in UTF-8 after its mark, in either order of bytes.
pub fn text_of_utf16_is_what_was_encoded()
    ensures { (order : ByteOrder) (characters : List ℕ) → all_scalars characters ≡ true → decoded Encoding.ByMark (utf16_bytes order (byte_order_mark ∷ characters)) ≡ encode_utf8_all (byte_order_mark ∷ characters) }
{}

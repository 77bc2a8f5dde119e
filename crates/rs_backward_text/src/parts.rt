//! Bytes and words are put before those that are at the end of a buffer.

ghost use Rattle.std.specs.Prelude.{◌≡◌, ◌≤◌, ◌<◌, ◌+◌, ◌∷◌, ◌++◌, drop, length};

/// Puts a byte before the one at `end`, and says where it is.
pub fn put_before(byte: u8, bytes: &mut [u8], end: usize) -> usize
    requires room { 0 < end }
    requires inside { end ≤ length bytes.old }
    ensures begins { result + 1 ≡ end }
    ensures length { length bytes.new ≡ length bytes.old }
    ensures put { drop result bytes.new ≡ byte ∷ drop end bytes.old }
{
    bytes[end - 1] = byte;
    end - 1
}

/// Puts a word before the byte at `end`, and says where it begins.
pub fn put_word_before(word: &[u8], bytes: &mut [u8], end: usize) -> usize
    requires room { length word.now ≤ end }
    requires inside { end ≤ length bytes.old }
    ensures begins { result + length word.now ≡ end }
    ensures length { length bytes.new ≡ length bytes.old }
    ensures put { drop result bytes.new ≡ word.now ++ drop end bytes.old }
{
    let start = end - word.len();
    bytes[start..end].copy_from_slice(word);
    start
}

/// Puts a decimal digit before the byte at `end`.
pub fn put_digit_before(digit: u32, bytes: &mut [u8], end: usize) -> usize
    requires digit { digit < 10 }
    requires room { 0 < end }
    requires inside { end ≤ length bytes.old }
    ensures begins { result + 1 ≡ end }
    ensures length { length bytes.new ≡ length bytes.old }
    ensures put { drop result bytes.new ≡ (48 + digit) ∷ drop end bytes.old }
{
    put_before(b'0' + digit as u8, bytes, end)
}

//! Reads and writes texts after the number of their bytes, in one byte or in two.

ghost use Rattle.std.specs.Prelude.{◌≡◌, ◌⊎◌, ◌<◌, ◌^◌, ℕ, List, length, string_bytes, IfOk, IfErr, OnOk};
ghost use Rattle.rs_refusal.specs.declared.refusal.Refusal.TheVariants as refusals;
ghost use Rattle.rs_bytes.specs.Codes.{Reads, ReadsNone, ReadsSome, Writes, SaysUtf8, SaysMany, SaysCounted};
ghost use Rattle.rs_bytes.specs.Laws.{utf8_one, counted_one};

use crate::item::Item;
use crate::reader::Reader;
use rs_refusal::Refusal;
use std::alloc::{AllocError, Global};
use std::str;

/// A text of at most 255 bytes, after a byte that says how many it has.
impl Item for String {
    ghost Said = { List ℕ };

    ghost said = { string_bytes };

    ghost says = { SaysCounted 1 SaysUtf8 };

    ghost fits = { λ text. length text < 2 ^ 8 };

    ghost one = { counted_one 1 SaysUtf8 utf8_one };

    ghost fitting = { λ bytes text is. is.3.0 };

    fn read(alloc: Global, reader: &mut Reader<'_>) -> Result<String, Refusal> {
        let count = u8::read(alloc, reader)?;
        read_text(alloc, usize::from(count), reader)
    }

    fn write(&self, bytes: &mut Vec<u8>) -> Result<(), AllocError> {
        (self.len() as u8).write(bytes)?;
        write_text(self.as_str(), bytes)
    }
}

/// A text of at most 65,535 bytes, after two bytes that say how many it has.
#[derive(Drop)]
pub struct LongText {
    /// The text.
    pub text: String,
}

impl Item for LongText {
    ghost Said = { List ℕ };

    ghost said = { λ long. string_bytes long.text };

    ghost says = { SaysCounted 2 SaysUtf8 };

    ghost fits = { λ text. length text < 2 ^ 16 };

    ghost one = { counted_one 2 SaysUtf8 utf8_one };

    ghost fitting = { λ bytes text is. is.3.0 };

    fn read(alloc: Global, reader: &mut Reader<'_>) -> Result<LongText, Refusal> {
        let count = u16::read(alloc, reader)?;
        let text = read_text(alloc, usize::from(count), reader)?;
        Ok(LongText { text })
    }

    fn write(&self, bytes: &mut Vec<u8>) -> Result<(), AllocError> {
        (self.text.len() as u16).write(bytes)?;
        write_text(self.text.as_str(), bytes)
    }
}

// Reads a text of so many bytes. It is refused as `Item::read` is, with 90 only where the bytes say a text, for its copy alone.
fn read_text(alloc: Global, count: usize, reader: &mut Reader<'_>) -> Result<String, Refusal>
    ensures read { IfOk result (λ text. Reads (SaysMany count SaysUtf8) reader.old (string_bytes text) reader.new) }
    ensures damaged { IfErr result (λ refusal. refusal ≡ refusals.DamagedFile → ReadsNone (SaysMany count SaysUtf8) reader.old) }
    ensures memory { IfErr result (λ refusal. refusal ≡ refusals.OutOfMemory → ReadsSome (SaysMany count SaysUtf8) reader.old) }
    ensures refused { IfErr result (λ refusal. (refusal ≡ refusals.OutOfMemory) ⊎ (refusal ≡ refusals.DamagedFile)) }
{
    let bytes = reader.take(count)?;
    match str::from_utf8(bytes) {
        Ok(text) => Ok(String::from_str(alloc, text)?),
        Err(_) => Err(Refusal::DamagedFile),
    }
}

// Appends the bytes of a text.
fn write_text(text: &str, bytes: &mut Vec<u8>) -> Result<(), AllocError>
    ensures { OnOk result (Writes SaysUtf8 bytes.old.items text.now bytes.new.items) }
{
    bytes.extend_from_slice(text.as_bytes())?;
    Ok(())
}

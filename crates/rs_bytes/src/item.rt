//! Says what an item is: it is read from the front of bytes and appended to bytes.

ghost use Rattle.std.specs.Prelude.{◌≡◌, ◌⊎◌, ℕ, List, ◌++◌, IfOk, IfErr, OnOk};
ghost use Rattle.rs_refusal.specs.declared.refusal.Refusal.TheVariants as refusals;
ghost use Rattle.rs_bytes.specs.Codes.{Reads, ReadsNone, Writes};

use crate::reader::Reader;
use rs_refusal::Refusal;
use std::alloc::{AllocError, Global};

/// What bytes say.
pub trait Item: Drop {
    /// The type of what bytes say.
    ghost Said: { Type 0 };

    /// What an item says.
    ghost said: { Self → Said };

    /// Which bytes say it.
    ghost says: { List ℕ → Said → Type 0 };

    /// What bytes can say.
    ghost fits: { Said → Type 0 };

    /// Reads the item at the front. It is refused with `Refusal::DamagedFile` (94) where none is there, and
    /// with `Refusal::OutOfMemory` (90) where memory runs out; then some of the bytes may have been taken.
    fn read(alloc: Global, reader: &mut Reader<'_>) -> Result<Self, Refusal>
        ensures read { IfOk result (λ item. Reads says reader.old (said item) reader.new) }
        ensures damaged { IfErr result (λ refusal. refusal ≡ refusals.DamagedFile → ReadsNone says reader.old) }
        ensures refused { IfErr result (λ refusal. (refusal ≡ refusals.OutOfMemory) ⊎ (refusal ≡ refusals.DamagedFile)) };

    /// Appends the bytes of the item. Where memory runs out, some may have been appended.
    fn write(&self, bytes: &mut Vec<u8>) -> Result<(), AllocError>
        requires fits { fits (said self.now) }
        ensures written { OnOk result (Writes says bytes.old.items (said self.now) bytes.new.items) };

    /// Bytes say one item at their front at the most.
    ghost one: { (f r g s : List ℕ) (x y : Said) → says f x → says g y → f ++ r ≡ g ++ s → (x ≡ y) × (r ≡ s) };

    /// What bytes say can be written again.
    ghost fitting: { (bytes : List ℕ) (x : Said) → says bytes x → fits x };
}

/// Reads an item from bytes that say it and nothing more, with the same refusals.
pub fn read_whole<T: Item>(alloc: Global, bytes: &[u8]) -> Result<T, Refusal>
    ensures read { IfOk result (λ item. T.says bytes.now (T.said item)) }
    ensures damaged { IfErr result (λ refusal. refusal ≡ refusals.DamagedFile → (value : T.Said) → T.says bytes.now value → ⊥) }
    ensures refused { IfErr result (λ refusal. (refusal ≡ refusals.OutOfMemory) ⊎ (refusal ≡ refusals.DamagedFile)) }
{
    let mut reader = Reader::new(bytes);
    let item = T::read(alloc, &mut reader)?;
    if reader.is_empty() {
        Ok(item)
    } else {
        Err(Refusal::DamagedFile)
    }
}

//! Reads and writes lists after the number of their items, in one byte or in four.

ghost use Rattle.std.specs.Prelude.{◌≡◌, ◌⊎◌, ◌<◌, ◌^◌, List, length, map, All, IfOk, IfErr, OnOk};
ghost use Rattle.rs_refusal.specs.declared.refusal.Refusal.TheVariants as refusals;
ghost use Rattle.rs_bytes.specs.Codes.{Reads, ReadsNone, Writes, SaysEach, SaysMany, SaysCounted};
ghost use Rattle.rs_bytes.specs.Laws.{each_one, each_fits, counted_one};

use crate::item::Item;
use crate::reader::Reader;
use rs_refusal::Refusal;
use std::alloc::{AllocError, Global};

/// A list after the number of its items in four bytes.
impl<T: Item> Item for Vec<T> {
    ghost Said = { List T.Said };

    ghost said = { λ v. map T.said v.items };

    ghost says = { SaysCounted 4 (SaysEach T.says) };

    ghost fits = { λ values. (length values < 2 ^ 32) × All T.fits values };

    ghost one = { counted_one 4 (SaysEach T.says) (each_one T.says T.one) };

    ghost fitting = { λ bytes values is. (is.3.0, each_fits T.says T.fits T.fitting is.1 values is.4) };

    fn read(alloc: Global, reader: &mut Reader<'_>) -> Result<Vec<T>, Refusal> {
        let count = u32::read(alloc, reader)?;
        read_each(alloc, count, reader)
    }

    fn write(&self, bytes: &mut Vec<u8>) -> Result<(), AllocError> {
        (self.len() as u32).write(bytes)?;
        write_each(self.as_slice(), bytes)
    }
}

/// A list of at most 255 items, after a byte that says how many there are.
#[derive(Drop)]
pub struct ShortList<T> {
    /// The items.
    pub list: Vec<T>,
}

impl<T: Item> Item for ShortList<T> {
    ghost Said = { List T.Said };

    ghost said = { λ short. map T.said short.list.items };

    ghost says = { SaysCounted 1 (SaysEach T.says) };

    ghost fits = { λ values. (length values < 2 ^ 8) × All T.fits values };

    ghost one = { counted_one 1 (SaysEach T.says) (each_one T.says T.one) };

    ghost fitting = { λ bytes values is. (is.3.0, each_fits T.says T.fits T.fitting is.1 values is.4) };

    fn read(alloc: Global, reader: &mut Reader<'_>) -> Result<ShortList<T>, Refusal> {
        let count = u8::read(alloc, reader)?;
        let list = read_each(alloc, u32::from(count), reader)?;
        Ok(ShortList { list })
    }

    fn write(&self, bytes: &mut Vec<u8>) -> Result<(), AllocError> {
        (self.list.len() as u8).write(bytes)?;
        write_each(self.list.as_slice(), bytes)
    }
}

/// Reads so many items, one after another. It is refused as `Item::read` is, where one of them is missing.
pub fn read_each<T: Item>(
    alloc: Global,
    count: u32,
    reader: &mut Reader<'_>,
) -> Result<Vec<T>, Refusal>
    ensures read { IfOk result (λ v. Reads (SaysMany count (SaysEach T.says)) reader.old (map T.said v.items) reader.new) }
    ensures damaged { IfErr result (λ refusal. refusal ≡ refusals.DamagedFile → ReadsNone (SaysMany count (SaysEach T.says)) reader.old) }
    ensures refused { IfErr result (λ refusal. (refusal ≡ refusals.OutOfMemory) ⊎ (refusal ≡ refusals.DamagedFile)) }
{
    let mut items = Vec::new(alloc);
    for _i in 0..count {
        items.push(T::read(alloc, reader)?)?;
    }
    Ok(items)
}

/// Appends the bytes of each item. Where memory runs out, some may have been appended.
pub fn write_each<T: Item>(items: &[T], bytes: &mut Vec<u8>) -> Result<(), AllocError>
    requires fit { All T.fits (map T.said items.now) }
    ensures written { OnOk result (Writes (SaysEach T.says) bytes.old.items (map T.said items.now) bytes.new.items) }
{
    for item in items {
        item.write(bytes)?;
    }
    Ok(())
}

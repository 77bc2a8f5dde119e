//! Reads and writes two items, one after the other.

ghost use Rattle.std.specs.Prelude.{◌≡◌, ◌⊎◌, IfOk, IfErr, OnOk};
ghost use Rattle.rs_refusal.specs.declared.refusal.Refusal.TheVariants as refusals;
ghost use Rattle.rs_bytes.specs.Codes.{SaysBoth};
ghost use Rattle.rs_bytes.specs.Laws.{both_one};

use crate::item::Item;
use crate::reader::Reader;
use rs_refusal::Refusal;
use std::alloc::{AllocError, Global};

impl<A: Item, B: Item> Item for (A, B) {
    ghost Said = { A.Said × B.Said };

    ghost said = { λ pair. (A.said pair.0, B.said pair.1) };

    ghost says = { SaysBoth A.says B.says };

    ghost fits = { λ pair. A.fits pair.0 × B.fits pair.1 };

    ghost one = { both_one A.says B.says A.one B.one };

    ghost fitting = { λ bytes pair is. (A.fitting is.0 pair.0 is.3, B.fitting is.1 pair.1 is.4) };

    fn read(alloc: Global, reader: &mut Reader<'_>) -> Result<(A, B), Refusal> {
        let first = A::read(alloc, reader)?;
        let second = B::read(alloc, reader)?;
        Ok((first, second))
    }

    fn write(&self, bytes: &mut Vec<u8>) -> Result<(), AllocError> {
        self.0.write(bytes)?;
        self.1.write(bytes)
    }
}

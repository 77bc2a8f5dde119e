//! Reads and writes numbers of one, two, four and eight bytes, the highest byte first.

ghost use Rattle.std.specs.Prelude.{◌≡◌, ◌⊎◌, ◌<◌, ◌^◌, ℕ, length, IfOk, IfErr, OnOk};
ghost use Rattle.std.specs.Int.{w64, to_be_bytes};
ghost use Rattle.rs_refusal.specs.declared.refusal.Refusal.TheVariants as refusals;
ghost use Rattle.rs_bytes.specs.Codes.{SaysNumber};
ghost use Rattle.rs_bytes.specs.Laws.{number_one};

use crate::item::Item;
use crate::reader::Reader;
use rs_refusal::Refusal;
use std::alloc::{AllocError, Global};

impl Item for u8 {
    ghost Said = { ℕ };

    ghost said = { λ x. x };

    ghost says = { SaysNumber 1 };

    ghost fits = { λ x. x < 256 };

    ghost one = { number_one 1 };

    ghost fitting = { λ bytes x is. is.0 };

    fn read(_alloc: Global, reader: &mut Reader<'_>) -> Result<u8, Refusal> {
        let bytes = reader.take(1)?;
        Ok(bytes[0])
    }

    fn write(&self, bytes: &mut Vec<u8>) -> Result<(), AllocError> {
        bytes.push(*self)?;
        Ok(())
    }
}

impl Item for u16 {
    ghost Said = { ℕ };

    ghost said = { λ x. x };

    ghost says = { SaysNumber 2 };

    ghost fits = { λ x. x < 2 ^ 16 };

    ghost one = { number_one 2 };

    ghost fitting = { λ bytes x is. is.0 };

    fn read(_alloc: Global, reader: &mut Reader<'_>) -> Result<u16, Refusal> {
        let bytes = reader.take(2)?;
        Ok(u16::from_be_bytes(bytes.try_into().unwrap()))
    }

    fn write(&self, bytes: &mut Vec<u8>) -> Result<(), AllocError> {
        bytes.extend_from_slice(&self.to_be_bytes())
    }
}

impl Item for u32 {
    ghost Said = { ℕ };

    ghost said = { λ x. x };

    ghost says = { SaysNumber 4 };

    ghost fits = { λ x. x < 2 ^ 32 };

    ghost one = { number_one 4 };

    ghost fitting = { λ bytes x is. is.0 };

    fn read(_alloc: Global, reader: &mut Reader<'_>) -> Result<u32, Refusal> {
        let bytes = reader.take(4)?;
        Ok(u32::from_be_bytes(bytes.try_into().unwrap()))
    }

    fn write(&self, bytes: &mut Vec<u8>) -> Result<(), AllocError> {
        bytes.extend_from_slice(&self.to_be_bytes())
    }
}

impl Item for u64 {
    ghost Said = { ℕ };

    ghost said = { λ x. x };

    ghost says = { SaysNumber 8 };

    ghost fits = { λ x. x < 2 ^ 64 };

    ghost one = { number_one 8 };

    ghost fitting = { λ bytes x is. is.0 };

    fn read(_alloc: Global, reader: &mut Reader<'_>) -> Result<u64, Refusal> {
        Ok(number_of_eight(reader.take(8)?))
    }

    fn write(&self, bytes: &mut Vec<u8>) -> Result<(), AllocError> {
        bytes.extend_from_slice(&self.to_be_bytes())
    }
}

fn number_of_eight(bytes: &[u8]) -> u64
    requires { length bytes.now ≡ 8 }
    ensures { to_be_bytes w64 result ≡ bytes.now }
{
    u64::from_be_bytes(bytes.try_into().unwrap())
}

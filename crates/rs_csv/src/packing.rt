//! This module keeps lines in less memory: texts in them that were met before are held by their numbers.
//!
//! It promises that each text is unpacked as it was.

ghost use Rattle.std.specs.Prelude.{◌≡◌, ◌++◌, ◌∷◌, [], OnOk, get_or, length};

use crate::words::Words;
use std::alloc::{AllocError, Global};
use std::marker::Model;

/// Texts, packed.
#[derive(Drop)]
pub struct PackedLines {
    // What was met in them so far.
    words: Words,
    // The codes of each.
    blocks: Vec<Vec<u16>>,
}

impl Model for PackedLines {
    ghost use Rattle.std.specs.Prelude.{List, ℕ};

    ghost Value = { List (List ℕ) };

    ghost use Rattle.rs_csv.specs.Packing.{HasKnownCodes, packed_texts};

    ghost view = { packed_texts };

    ghost invariant = { HasKnownCodes };
}

impl PackedLines {
    /// No texts.
    pub fn new(alloc: Global) -> Self
        ensures { result ≡ [] }
    {
        PackedLines {
            words: Words::new(alloc),
            blocks: Vec::new(alloc),
        }
    }

    /// How many there are.
    pub fn len(&self) -> usize
        ensures { result ≡ length self.now }
    {
        self.blocks.len()
    }

    /// Packs a text.
    pub fn add(&mut self, alloc: Global, text: &[u8]) -> Result<(), AllocError>
        ensures { OnOk result (self.new ≡ self.old ++ text.now ∷ []) }
    {
        let mut packed = Vec::new(alloc);
        self.words.pack(text, &mut packed)?;
        let codes = Vec::from_slice(alloc, packed.as_slice())?;
        self.blocks.push(codes)?;
        Ok(())
    }

    /// Adds one of these to a text.
    pub fn unpack(&self, index: usize, text: &mut Vec<u8>) -> Result<(), AllocError>
        ensures { OnOk result (text.new.items ≡ text.old.items ++ get_or self.now index []) }
    {
        match self.blocks.get(index) {
            Some(codes) => self.words.unpack(codes.as_slice(), text),
            None => Ok(()),
        }
    }
}

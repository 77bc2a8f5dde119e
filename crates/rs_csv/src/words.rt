//! Texts that were met before, each with a code, by which a text is packed.
//!
//! It promises that a code stands for what it did when it was given, whatever is met later.

ghost use Rattle.std.specs.Prelude.{◌≡◌, ◌+◌, ◌<◌, ◌≤◌, ◌++◌, [], IfOk, IfSome, None, OnOk, length, take};
ghost use Rattle.rs_csv.specs.Words.{AreKnown, TextsGrow, said, unpacked};

use crate::word::Word;
use std::alloc::{AllocError, Global};
use std::marker::Model;

/// How many texts there are at the most.
const WORDS: usize = 32_768;

/// How many places there are where codes are looked for.
const SLOTS: usize = 65_536;

/// The texts that were met before, and where their codes are found.
#[derive(Drop)]
pub struct Words {
    // The texts, by their numbers.
    known: Vec<Word>,
    // The codes of the texts, each at the place that `look` had come to when the text was learned. A place without a code has 0. There
    // are no places before a text is packed.
    slots: Vec<u16>,
}

impl Model for Words {
    ghost use Rattle.std.specs.Prelude.{List, ℕ, map};

    ghost Value = { List (List ℕ) };

    ghost use Rattle.rs_csv.specs.Words.{word_text};

    ghost view = { λ words. map word_text words.known.items };
}

/// The code that was found for the beginning of a text.
#[derive(Clone, Copy)]
struct Found {
    // The code.
    code: u16,
    // How many bytes it stands for.
    count: usize,
    // The place of a code for one byte more.
    slot: usize,
}

// The place of the code for what a code stands for and a byte more.
fn slot_of(code: u16, byte: u8) -> usize {
    let key = u32::from(code)
        .wrapping_mul(256)
        .wrapping_add(u32::from(byte));
    usize::from((key.wrapping_mul(2_654_435_761) >> 16) as u16)
}

impl Words {
    /// No texts, as before any is met.
    pub fn new(alloc: Global) -> Self
        ensures { result ≡ [] }
    {
        Words {
            known: Vec::new(alloc),
            slots: Vec::new(alloc),
        }
    }

    // Makes the places for codes, each without one, unless they are there already.
    fn make_slots(&mut self) -> Result<(), AllocError>
        ensures { self.new ≡ self.old }
    {
        if self.slots.is_empty() {
            self.slots.resize(SLOTS, 0)?;
        }
        Ok(())
    }

    // The text with this code, where it is one of these and not a byte.
    fn text(&self, code: u16) -> Option<&[u8]>
        ensures stands { IfSome result (λ found. found.now ≡ said self.now code) }
        ensures known { IfSome result (λ _. code < 256 + length self.now) }
        ensures none { result ≡ None → 256 ≤ code → said self.now code ≡ [] }
    {
        let index = usize::from(code).checked_sub(256)?;
        let word = self.known.get(index)?;
        Some(word.text())
    }

    // The code at a place, where it stands for so many bytes and this one more.
    fn code_at(&self, slot: usize, count: usize, byte: u8) -> Option<u16> {
        let code = *self.slots.get(slot)?;
        let word = self.known.get(usize::from(code).checked_sub(256)?)?;
        if usize::from(word.count) == count.wrapping_add(1)
            && word.bytes.get(count) == Some(&byte)
        {
            Some(code)
        } else {
            None
        }
    }

    // Looks for the code of the longest text that these bytes begin with, and for the place of the code for one byte more. It compares
    // lengths and last bytes alone, so the code may stand for another text.
    fn look(&self, first: u8, others: &[u8]) -> Found {
        let mut code = u16::from(first);
        let mut count: usize = 1;
        for byte in others {
            let slot = slot_of(code, *byte);
            match self.code_at(slot, count, *byte) {
                Some(longer) => code = longer,
                None => return Found { code, count, slot },
            }
            count = count.wrapping_add(1);
        }
        Found {
            code,
            count,
            slot: SLOTS,
        }
    }

    // Finds the longest text that a text begins with, or else its first byte.
    fn find(&self, text: &[u8]) -> Found
        requires { 0 < length text.now }
        ensures some { 0 < result.count }
        ensures within { result.count ≤ length text.now }
        ensures known { result.code < 256 + length self.now }
        ensures stands { said self.now result.code ≡ take result.count text.now }
    {
        let (first, others) = match text.split_first() {
            Some((first, others)) => (*first, others),
            None => (0, text),
        };
        let found = self.look(first, others);
        match self.text(found.code) {
            Some(word) if !word.is_empty() && text.starts_with(word) => Found {
                code: found.code,
                count: word.len(),
                slot: found.slot,
            },
            _ => Found {
                code: u16::from(first),
                count: 1,
                slot: found.slot,
            },
        }
    }

    // Puts the code that the next text will have at this place, and answers true. Where the place has a code, is none of the places, or
    // there are `WORDS` texts already, it puts nothing and answers false.
    fn take_slot(&mut self, slot: usize) -> bool
        ensures { self.new ≡ self.old }
    {
        let number = self.known.len();
        if number >= WORDS {
            return false;
        }
        match self.slots.get_mut(slot) {
            Some(place) if *place == 0 => {
                *place = (number + 256) as u16;
                true
            }
            _ => false,
        }
    }

    // Adds a word.
    fn push(&mut self, word: Word) -> Result<(), AllocError>
        ensures { TextsGrow self.old self.new }
    {
        self.known.push(word)?;
        Ok(())
    }

    // Adds a text at a place, where both have room.
    fn learn(&mut self, slot: usize, text: &[u8]) -> Result<(), AllocError>
        ensures { TextsGrow self.old self.new }
    {
        match Word::with(text) {
            Some(word) if self.take_slot(slot) => self.push(word),
            _ => Ok(()),
        }
    }

    // Adds the code that `find` gives for the beginning of this text, and answers how many bytes it stands for. These and the byte after
    // them are learned as a new text, where they can be.
    fn pack_front(&mut self, text: &[u8], packed: &mut Vec<u16>) -> Result<usize, AllocError>
        requires some { 0 < length text.now }
        requires known { AreKnown self.old packed.old.items }
        ensures some { IfOk result (λ count. 0 < count) }
        ensures within { IfOk result (λ count. count ≤ length text.now) }
        ensures grows { TextsGrow self.old self.new }
        ensures known { OnOk result (AreKnown self.new packed.new.items) }
        ensures packed { IfOk result (λ count. unpacked self.new packed.new.items ≡ unpacked self.old packed.old.items ++ take count text.now) }
    {
        let found = self.find(text);
        packed.push(found.code)?;
        if let Some(longer) = text.get(..found.count + 1) {
            self.learn(found.slot, longer)?;
        }
        Ok(found.count)
    }

    /// Packs a text: adds codes to `packed`, which has none before, that stand for it. New texts may be learned from it.
    pub fn pack(&mut self, text: &[u8], packed: &mut Vec<u16>) -> Result<(), AllocError>
        requires { packed.old.items ≡ [] }
        ensures grows { TextsGrow self.old self.new }
        ensures known { OnOk result (AreKnown self.new packed.new.items) }
        ensures packed { OnOk result (unpacked self.new packed.new.items ≡ text.now) }
    {
        self.make_slots()?;
        let mut at = 0;
        'words: while at < text.len() {
            at += self.pack_front(&text[at..], packed)?;
        }
        Ok(())
    }

    // Adds what a code stands for to a text.
    fn put_code(&self, code: u16, text: &mut Vec<u8>) -> Result<(), AllocError>
        ensures { OnOk result (text.new.items ≡ text.old.items ++ said self.now code) }
    {
        if let Some(word) = self.text(code) {
            return text.extend_from_slice(word);
        }
        if let Ok(byte) = u8::try_from(code) {
            text.push(byte)?;
        }
        Ok(())
    }

    /// Adds what codes stand for to a text.
    pub fn unpack(&self, codes: &[u16], text: &mut Vec<u8>) -> Result<(), AllocError>
        ensures { OnOk result (text.new.items ≡ text.old.items ++ unpacked self.now codes.now) }
    {
        for code in codes {
            self.put_code(*code, text)?;
        }
        Ok(())
    }
}

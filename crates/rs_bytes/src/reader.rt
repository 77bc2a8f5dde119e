//! It keeps a reader of bytes, which a contract sees as the bytes that are left.

ghost use Rattle.std.specs.Prelude.{◌≡◌, ◌<◌, ◌↔◌, [], ◌++◌, length, IsTrue, IfOk, IfErr, OnErr};
ghost use Rattle.rs_refusal.specs.declared.refusal.Refusal.TheVariants as refusals;

use rs_refusal::Refusal;
use std::marker::Model;

/// Bytes that are read from the front.
#[derive(Drop)]
pub struct Reader<'a> {
    rest: &'a [u8],
}

impl<'a> Model for Reader<'a> {
    ghost use Rattle.std.specs.Prelude.{ℕ, List};

    ghost Value = { List ℕ };

    ghost view = { λ r. r.rest.now };
}

impl<'a> Reader<'a> {
    /// A reader of all these bytes.
    pub fn new(bytes: &'a [u8]) -> Reader<'a>
        ensures { result ≡ bytes.now }
    {
        Reader { rest: bytes }
    }

    /// Whether no bytes are left.
    pub fn is_empty(&self) -> bool
        ensures { IsTrue result ↔ (self.now ≡ []) }
    {
        self.rest.is_empty()
    }

    /// The next bytes, so many. It is refused with `Refusal::DamagedFile` (94) where fewer are left, which then stay.
    pub fn take(&mut self, count: usize) -> Result<&'a [u8], Refusal>
        ensures taken { IfOk result (λ bytes. self.old ≡ bytes.now ++ self.new) }
        ensures count { IfOk result (λ bytes. length bytes.now ≡ count) }
        ensures refused { IfErr result (λ refusal. refusal ≡ refusals.DamagedFile) }
        ensures few { IfErr result (λ _. length self.old < count) }
        ensures kept { OnErr result (self.new ≡ self.old) }
    {
        let Some((bytes, rest)) = self.rest.split_at_checked(count) else {
            return Err(Refusal::DamagedFile);
        };
        self.rest = rest;
        Ok(bytes)
    }
}

//! What is held of one changed page: its number, the committed page that the disk lacks, and the working copy.
//!
//! Both pages are side by side, so that a commit moves one into the other's place and takes no memory.

ghost use Rattle.std.specs.Prelude.{◌≡◌, ℕ, List, Some, None, true, false, is_some, IsSome, IsTrue, IsSomeAnd};
ghost use Rattle.std.specs.Option.{option_map};
ghost use Rattle.rs_page.specs.PageBytes.{is_free};
ghost use Rattle.rs_pages.specs.Held.{held_change, with_copy};
ghost use Rattle.rs_page_cache.specs.Changes.{committed_held, abandoned_held, IsUsedCopy};

use rs_page::Page;
use std::marker::Model;
use std::mem;

/// What is held of one changed page.
#[derive(Drop)]
pub(crate) struct Slot {
    number: u32,
    /// The committed page, where the disk lacks it.
    committed: Option<Box<Page>>,
    /// The working page, where it is another.
    copy: Option<Box<Page>>,
}

impl Model for Slot {
    ghost use Rattle.rs_page_cache.specs.Changes.{HeldSlot, bytes_of};

    ghost Value = { HeldSlot };

    ghost view = { λ s. (s.number, record { committed = bytes_of s.committed; copy = bytes_of s.copy }) };
}

impl Slot {
    ghost use Rattle.rs_page_cache.specs.Lending.{lends_copy};
    ghost use Rattle.std.specs.Borrow.{sem};

    /// A page of which nothing but a working copy is held.
    pub(crate) fn copied(number: u32, page: Box<Page>) -> Slot
        ensures { result ≡ (number, record { committed = None; copy = Some page.value.bytes }) }
    {
        Slot {
            number,
            committed: None,
            copy: Some(page),
        }
    }

    /// The number of its page.
    pub(crate) fn number(&self) -> u32
        ensures { result ≡ self.now.0 }
    {
        self.number
    }

    /// The working page: the copy, else the committed one.
    pub(crate) fn working(&self) -> Option<&Page>
        ensures { option_map (λ page. page.now.bytes) result ≡ held_change self.now.1 }
    {
        match &self.copy {
            Some(page) => Some(page),
            None => self.committed(),
        }
    }

    /// The committed page.
    pub(crate) fn committed(&self) -> Option<&Page>
        ensures { option_map (λ page. page.now.bytes) result ≡ self.now.1.committed }
    {
        match &self.committed {
            Some(page) => Some(page),
            None => None,
        }
    }

    /// The working copy.
    pub(crate) fn copy(&self) -> Option<&Page>
        ensures { option_map (λ page. page.now.bytes) result ≡ self.now.1.copy }
    {
        match &self.copy {
            Some(page) => Some(page),
            None => None,
        }
    }

    /// Whether there is a working copy.
    pub(crate) fn has_copy(&self) -> bool
        ensures { result ≡ is_some self.now.1.copy }
    {
        self.copy.is_some()
    }

    /// Whether there is a working copy that is in use.
    pub(crate) fn has_used_copy(&self) -> bool
        ensures some { IsTrue result → IsSome self.now.1.copy }
        ensures used { IsTrue result → IsSomeAnd self.now.1.copy (λ page. IsUsedCopy page self.now.1) }
        ensures none { result ≡ false → (page : List ℕ) → self.now.1.copy ≡ Some page → is_free page ≡ true }
    {
        match &self.copy {
            Some(page) => !page.is_free(),
            None => false,
        }
    }

    /// Puts a working copy in place.
    pub(crate) fn put_copy(&mut self, page: Box<Page>)
        ensures { self.new ≡ (self.old.0, with_copy page.value.bytes self.old.1) }
    {
        self.copy = Some(page);
    }

    /// The copy, to be changed.
    pub(crate) fn copy_mut(&mut self) -> Option<&mut Page>
        ensures* lends { sem 𝓛 (lends_copy self.entry result) }
        ensures held { self.old.1.copy ≡ option_map (λ page. page.now.bytes) result }
    {
        match &mut self.copy {
            Some(page) => Some(page),
            None => None,
        }
    }

    /// The copy becomes the committed page. The page whose place it took is answered.
    pub(crate) fn commit(&mut self) -> Option<Box<Page>>
        ensures { self.new ≡ (self.old.0, committed_held self.old.1) }
    {
        match self.copy.take() {
            Some(page) => mem::replace(&mut self.committed, Some(page)),
            None => None,
        }
    }

    /// The copy goes.
    pub(crate) fn abandon(&mut self)
        ensures { self.new ≡ (self.old.0, abandoned_held self.old.1) }
    {
        self.copy = None;
    }
}

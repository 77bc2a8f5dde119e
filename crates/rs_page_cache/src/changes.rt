//! The changed pages: by number, the committed page that the disk lacks and the working copy.
//!
//! The numbers of the working copies are listed apart, so that a commit or an abandonment visits these alone. Room in
//! that list is made before each copy, so neither of the two takes memory. The memory of some pages that a commit put others in
//! place of is kept for the next copies.

ghost use Rattle.std.specs.Prelude.{◌≡◌, ◌≢◌, ◌≤◌, ◌<◌, ◌^◌, ◌++◌, ◌∷◌, ◌↔◌, ℕ, List, Some, None, true, [], length, is_some, IsOk, IsSome, IsTrue, IfOk, IfSome, IfNone, OnOk, OnErr, IsOkUnless, slice_index};
ghost use Rattle.std.specs.Option.{option_map};
ghost use Rattle.rs_page.specs.PageBytes.{is_free};
ghost use Rattle.rs_pages.specs.Held.{held_change, with_copy};
ghost use Rattle.rs_page_cache.specs.Changes.{held_at, committed_held, abandoned_held, committed_numbers, AreWhole, HasCopied, IsUsedCopy, IsWhole, ListsHeld, NumbersCommitted, PutsBlank};

use crate::slot::Slot;
use crate::slots::Slots;
use arrayvec::ArrayVec;
use rs_page::{Page, PageKind, PageNumber};
use rs_refusal::Refusal;
use std::alloc::{AllocError, Global};
use std::marker::Model;

/// How many pages are kept for their memory alone.
const MOST_SPARES: usize = 4;

/// The changed pages.
#[derive(Drop)]
pub struct Changes {
    slots: Slots,
    /// The numbers of the pages with a working copy are among these.
    copied: Vec<u32>,
    /// Memory of pages that nobody needs any more.
    spares: ArrayVec<Option<Box<Page>>, MOST_SPARES>,
}

impl Model for Changes {
    ghost use Rattle.rs_page_cache.specs.Changes.{Changes, HasCopied};

    ghost Value = { Changes };

    ghost view = { λ c. c.slots };

    ghost invariant = { λ c. HasCopied c.slots c.copied.items };
}

impl Changes {
    ghost use Rattle.rs_page_cache.specs.Lending.{lends_change};
    ghost use Rattle.std.specs.Borrow.{sem};

    /// No page is changed. It takes no memory until a page is.
    pub fn new(alloc: Global) -> Changes
        ensures { result ≡ [] }
    {
        Changes {
            slots: Slots::new(alloc),
            copied: Vec::new(alloc),
            spares: ArrayVec::new(),
        }
    }

    /// How many pages are changed.
    pub fn len(&self) -> usize
        ensures { result ≡ length self.now }
    {
        self.slots.len()
    }

    /// Whether no page is changed.
    pub fn is_empty(&self) -> bool
        ensures { IsTrue result ↔ (self.now ≡ []) }
    {
        self.slots.len() == 0
    }

    /// How many pages are held as changes: each entry is one of them, and each of them has one entry.
    pub fn held(&self) -> usize
        ensures count { result ≡ length self.now }
        ensures pages { ListsHeld self.now }
    {
        self.slots.len()
    }

    /// The working page with this number, where it is changed.
    pub fn working(&self, number: PageNumber) -> Option<&Page>
        ensures { option_map (λ page. page.now.bytes) result ≡ held_change (held_at self.now number) }
    {
        match self.slots.get(number.number()) {
            Some(slot) => slot.working(),
            None => None,
        }
    }

    /// The committed page with this number, where it is held as a change.
    pub fn committed(&self, number: PageNumber) -> Option<&Page>
        ensures { option_map (λ page. page.now.bytes) result ≡ (held_at self.now number).committed }
    {
        match self.slots.get(number.number()) {
            Some(slot) => slot.committed(),
            None => None,
        }
    }

    /// The working copy of the page with this number, where it has one.
    pub fn copy(&self, number: PageNumber) -> Option<&Page>
        ensures { option_map (λ page. page.now.bytes) result ≡ (held_at self.now number).copy }
    {
        match self.slots.get(number.number()) {
            Some(slot) => slot.copy(),
            None => None,
        }
    }

    /// Whether the page with this number has a working copy.
    pub fn has_copy(&self, number: PageNumber) -> bool
        ensures { result ≡ is_some (held_at self.now number).copy }
    {
        match self.slots.get(number.number()) {
            Some(slot) => slot.has_copy(),
            None => false,
        }
    }

    /// The working copy of the page with this number, to be changed, where it has one that is in use.
    pub fn used_copy_mut(&mut self, number: PageNumber) -> Option<&mut Page>
        ensures* lends { sem 𝓛 (lends_change self.entry number result) }
        ensures held { IfSome result (λ page. IsUsedCopy page.now.bytes (held_at self.old number)) }
        ensures none { IfNone result ((page : List ℕ) → (held_at self.old number).copy ≡ Some page → is_free page ≡ true) }
    {
        // For the proof: that a number with a copy keeps one.
        match self.slots.used_copy_mut(number.number()) {
            Some(page) => Some(page),
            None => None,
        }
    }

    /// Puts a working copy of a page in place. After a refusal nothing has changed.
    pub fn put_copy(&mut self, number: PageNumber, page: Box<Page>) -> Result<(), AllocError>
        ensures there { OnOk result (held_at self.new number ≡ with_copy page.value.bytes (held_at self.old number)) }
        ensures others { OnOk result ((other : ℕ) → other ≢ number → held_at self.new other ≡ held_at self.old other) }
        ensures refused { OnErr result (self.new ≡ self.old) }
    {
        if self.has_copy(number) {
            self.slots.put_copy(number.number(), page)
        } else {
            self.add_copy(number, page)
        }
    }

    /// Puts a working copy in place of a page that has none, with room for its number first. After a refusal nothing has
    /// changed. Whether it has one is not looked up: of one that has its number would be listed twice.
    pub fn add_copy(&mut self, number: PageNumber, page: Box<Page>) -> Result<(), AllocError>
        ensures there { OnOk result (held_at self.new number ≡ with_copy page.value.bytes (held_at self.old number)) }
        ensures others { OnOk result ((other : ℕ) → other ≢ number → held_at self.new other ≡ held_at self.old other) }
        ensures refused { OnErr result (self.new ≡ self.old) }
    {
        self.copied.push(number.number())?;
        match self.slots.put_copy(number.number(), page) {
            Ok(()) => Ok(()),
            Err(error) => {
                let _ = self.copied.pop();
                Err(error)
            }
        }
    }

    /// Memory for a page, where some is left over.
    pub fn take_spare(&mut self) -> Option<Box<Page>>
        ensures { self.new ≡ self.old }
    {
        self.spares.pop().flatten()
    }

    /// Puts a working copy in place that has a header of this kind and zeros after it. After a refusal (90) nothing has
    /// changed.
    pub fn put_blank(
        &mut self,
        kind: PageKind,
        number: PageNumber,
        next: PageNumber,
    ) -> Result<(), Refusal>
        ensures blank { OnOk result (PutsBlank kind number next self.old self.new) }
        ensures refused { OnErr result (self.new ≡ self.old) }
        ensures refusal { IsOkUnless result Refusal.OutOfMemory }
    {
        let page = Box::new(self.allocator(), Page::blank(kind, number, next)).map_err(
            |_| Refusal::OutOfMemory,
        )?;
        self.put_copy(number, page)
            .map_err(|_| Refusal::OutOfMemory)
    }

    /// What gives the memory for pages.
    pub fn allocator(&self) -> Global {
        *self.copied.allocator()
    }

    /// Each working copy becomes the committed page.
    pub fn commit(&mut self)
        ensures { (number : ℕ) → held_at self.new number ≡ committed_held (held_at self.old number) }
    {
        commit_all(&mut self.slots, &self.copied, &mut self.spares);
        self.copied.clear();
    }

    /// Each working copy goes.
    pub fn abandon(&mut self)
        ensures { (number : ℕ) → held_at self.new number ≡ abandoned_held (held_at self.old number) }
    {
        abandon_all(&mut self.slots, &self.copied);
        self.copied.clear();
    }

    /// Puts the numbers of the pages whose committed version is held into the list, in ascending order and in place of what it
    /// had. After a refusal it may have some of them.
    pub fn list_committed(&self, numbers: &mut Vec<u32>) -> Result<(), AllocError>
        ensures { OnOk result (NumbersCommitted self.now numbers.new.items) }
    {
        numbers.clear();
        list_numbers(self.slots.all(), numbers)?;
        numbers.sort_unstable();
        Ok(())
    }

    /// No page is changed any more.
    pub fn clear(&mut self)
        ensures { self.new ≡ [] }
    {
        self.slots.clear();
        self.copied.clear();
    }
}

/// A page with these bytes, in the memory of a spare one where there is one, and is then never refused.
pub fn copy_into_spare(
    alloc: Global,
    spare: Option<Box<Page>>,
    page: &Page,
) -> Result<Box<Page>, AllocError>
    ensures bytes { IfOk result (λ copy. copy.value.bytes ≡ page.now.bytes) }
    ensures spared { IsSome spare → IsOk result }
{
    match spare {
        Some(mut copy) => {
            *copy = *page;
            Ok(copy)
        }
        None => Box::new(alloc, *page).map_err(|_| AllocError),
    }
}

/// Commits the pages with these numbers, and keeps the memory of some whose place they took.
fn commit_all(
    slots: &mut Slots,
    copied: &[u32],
    spares: &mut ArrayVec<Option<Box<Page>>, MOST_SPARES>,
)
    ensures commits { (number : ℕ) → committed_held (held_at slots.new number) ≡ committed_held (held_at slots.old number) }
    ensures done { (k : ℕ) → k < length copied.now → (held_at slots.new (slice_index copied.now k)).copy ≡ None }
    ensures others { (number : ℕ) → (held_at slots.old number).copy ≡ None → (held_at slots.new number).copy ≡ None }
{
    for number in copied {
        keep(spares, slots.commit(*number));
    }
}

/// Keeps the memory of a page, while there is room for it.
fn keep(spares: &mut ArrayVec<Option<Box<Page>>, MOST_SPARES>, page: Option<Box<Page>>) {
    if page.is_some() {
        let _ = spares.try_push(page);
    }
}

/// Abandons the pages with these numbers.
fn abandon_all(slots: &mut Slots, copied: &[u32])
    ensures abandons { (number : ℕ) → abandoned_held (held_at slots.new number) ≡ abandoned_held (held_at slots.old number) }
    ensures done { (k : ℕ) → k < length copied.now → (held_at slots.new (slice_index copied.now k)).copy ≡ None }
    ensures others { (number : ℕ) → (held_at slots.old number).copy ≡ None → (held_at slots.new number).copy ≡ None }
{
    for number in copied {
        slots.abandon(*number);
    }
}

/// Lists the numbers of the pages whose committed version is held, in any order. After a refusal it may have listed some.
fn list_numbers(slots: &[Slot], numbers: &mut Vec<u32>) -> Result<(), AllocError>
    requires { numbers.old.items ≡ [] }
    ensures listed { OnOk result (numbers.new.items ≡ committed_numbers slots.now) }
    ensures whole { OnOk result (AreWhole slots.now) }
{
    for slot in slots {
        list_number(numbers, slot)?;
    }
    Ok(())
}

/// Lists the number of a page whose committed version is held.
fn list_number(numbers: &mut Vec<u32>, slot: &Slot) -> Result<(), AllocError>
    ensures listed { OnOk result (numbers.new.items ≡ numbers.old.items ++ committed_numbers (slot.now ∷ [])) }
    ensures whole { IsWhole slot.now }
{
    match slot.committed() {
        Some(page) => {
            // For the proof: that the page is whole.
            let _bytes: &[u8] = &page.bytes;
            numbers.push(slot.number())?;
            Ok(())
        }
        None => Ok(()),
    }
}

//! The slots of the changed pages, found by number.
//!
//! They are side by side in any order, and a list by page number has the place of each, so a slot is found by one look into that
//! list. It has four bytes for each page up to the greatest that was changed, and its room is made before a slot is added.

ghost use Rattle.std.specs.Prelude.{◌≡◌, ◌≢◌, ◌++◌, ◌∷◌, ◌<◌, ◌^◌, ℕ, List, Some, None, true, [], length, suc, IsSome, IfSome, IfNone, MatchOption, OnOk, OnErr, slice_get, slice_index};
ghost use Rattle.std.specs.BTreeMap.{is_at};
ghost use Rattle.std.specs.Map.{lookup};
ghost use Rattle.std.specs.Option.{option_map};
ghost use Rattle.std.specs.Ordering.{nat_cmp};
ghost use Rattle.rs_page.specs.PageBytes.{is_free};
ghost use Rattle.rs_pages.specs.Held.{held_change, nothing_held, with_copy};
ghost use Rattle.rs_page_cache.specs.Changes.{held_at, committed_held, abandoned_held, IsUsedCopy, ListsHeld};

use crate::slot::Slot;
use rs_page::Page;
use std::alloc::{AllocError, Global};
use std::marker::Model;

/// The slots of the changed pages.
#[derive(Drop)]
pub(crate) struct Slots {
    held: Vec<Slot>,
    /// By page number one more than the place of its slot, or 0 where it has none.
    places: Vec<u32>,
}

impl Model for Slots {
    ghost use Rattle.rs_page_cache.specs.Changes.{Changes, HasPlaces};

    ghost Value = { Changes };

    ghost view = { λ s. s.held.items };

    ghost invariant = { λ s. HasPlaces s.held.items s.places.items };
}

impl Slots {
    ghost use Rattle.rs_page_cache.specs.Lending.{lends_slot};
    ghost use Rattle.std.specs.Borrow.{sem};

    /// None is held. It takes no memory until one is.
    pub(crate) fn new(alloc: Global) -> Slots
        ensures { result ≡ [] }
    {
        Slots {
            held: Vec::new(alloc),
            places: Vec::new(alloc),
        }
    }

    /// How many are held: each is that of another page, and holds something of it.
    pub(crate) fn len(&self) -> usize
        ensures count { result ≡ length self.now }
        ensures pages { ListsHeld self.now }
    {
        self.held.len()
    }

    /// All that are held, in any order.
    pub(crate) fn all(&self) -> &[Slot]
        ensures slots { result.now ≡ self.now }
        ensures pages { ListsHeld self.now }
    {
        &self.held
    }

    /// The slot of the page with this number.
    pub(crate) fn get(&self, number: u32) -> Option<&Slot>
        ensures { option_map (λ slot. slot.now.1) result ≡ lookup (is_at (nat_cmp number)) self.now }
    {
        match self.place(number) {
            Some(place) => Some(&self.held[place]),
            None => None,
        }
    }

    /// The place of the slot of the page with this number.
    fn place(&self, number: u32) -> Option<usize>
        ensures some { IfSome result (λ place. slice_get self.now place ≡ Some (number, held_at self.now number)) }
        ensures none { IfNone result (lookup (is_at (nat_cmp number)) self.now ≡ None) }
    {
        place_in(&self.places, number)
    }

    /// The working copy of the page with this number, to be changed, where it has one that is in use.
    pub(crate) fn used_copy_mut(&mut self, number: u32) -> Option<&mut Page>
        ensures* lends { sem 𝓛 (lends_slot self.entry number result) }
        ensures held { IfSome result (λ page. IsUsedCopy page.now.bytes (held_at self.old number)) }
        ensures none { IfNone result ((page : List ℕ) → (held_at self.old number).copy ≡ Some page → is_free page ≡ true) }
    {
        let Some(place) = self.place(number) else {
            return None;
        };
        let slot = &mut self.held[place];
        if slot.has_used_copy() {
            slot.copy_mut()
        } else {
            None
        }
    }

    /// Puts a working copy of the page with this number in place. After a refusal nothing has changed.
    pub(crate) fn put_copy(&mut self, number: u32, page: Box<Page>) -> Result<(), AllocError>
        ensures there { OnOk result (held_at self.new number ≡ with_copy page.value.bytes (held_at self.old number)) }
        ensures others { OnOk result ((other : ℕ) → other ≢ number → held_at self.new other ≡ held_at self.old other) }
        ensures refused { OnErr result (self.new ≡ self.old) }
    {
        match self.place(number) {
            Some(place) => {
                self.held[place].put_copy(page);
                Ok(())
            }
            None => self.add(Slot::copied(number, page)),
        }
    }

    /// Adds the slot of a page that has none, with room for its place first. After a refusal nothing has changed.
    fn add(&mut self, slot: Slot) -> Result<(), AllocError>
        requires none { lookup (is_at (nat_cmp slot.0)) self.old ≡ None }
        requires some { IsSome (held_change slot.1) }
        ensures there { OnOk result (held_at self.new slot.0 ≡ slot.1) }
        ensures others { OnOk result ((other : ℕ) → other ≢ slot.0 → held_at self.new other ≡ held_at self.old other) }
        ensures refused { OnErr result (self.new ≡ self.old) }
    {
        let number = slot.number();
        reach(&mut self.places, number)?;
        self.held.push(slot)?;
        self.places[number as usize] = self.held.len() as u32;
        Ok(())
    }

    /// Commits the page with this number, if it is changed. The page whose place it took is answered.
    pub(crate) fn commit(&mut self, number: u32) -> Option<Box<Page>>
        ensures there { held_at self.new number ≡ committed_held (held_at self.old number) }
        ensures others { (other : ℕ) → other ≢ number → held_at self.new other ≡ held_at self.old other }
    {
        match self.place(number) {
            Some(place) => self.held[place].commit(),
            None => None,
        }
    }

    /// Abandons the page with this number, if it is changed. Where nothing is held of it then, it is no changed page.
    pub(crate) fn abandon(&mut self, number: u32)
        ensures there { held_at self.new number ≡ abandoned_held (held_at self.old number) }
        ensures others { (other : ℕ) → other ≢ number → held_at self.new other ≡ held_at self.old other }
    {
        if let Some(place) = self.place(number) {
            if self.held[place].committed().is_some() {
                self.held[place].abandon();
            } else {
                self.remove(number, place);
            }
        }
    }

    /// Removes the slot of the page with this number, which is at this place. The last one takes its place.
    fn remove(&mut self, number: u32, place: usize)
        requires { slice_get self.old place ≡ Some (number, held_at self.old number) }
        ensures there { held_at self.new number ≡ nothing_held }
        ensures others { (other : ℕ) → other ≢ number → held_at self.new other ≡ held_at self.old other }
    {
        let last = self.held[self.held.len() - 1].number();
        self.places[last as usize] = self.places[number as usize];
        self.places[number as usize] = 0;
        let _ = self.held.swap_remove(place);
    }

    /// None is held any more. Of the places only those of the slots are visited.
    pub(crate) fn clear(&mut self)
        ensures { self.new ≡ [] }
    {
        while let Some(slot) = self.held.pop() {
            self.places[slot.number() as usize] = 0;
        }
    }
}

/// The place that is written for this number.
fn place_in(places: &[u32], number: u32) -> Option<usize>
    ensures { MatchOption result (slice_index places.now number ≡ 0) (λ place. slice_index places.now number ≡ suc place) }
{
    match places.get(number as usize) {
        Some(place) => (*place as usize).checked_sub(1),
        None => None,
    }
}

/// Makes the list of places reach this number. After a refusal it is as it was.
fn reach(places: &mut Vec<u32>, number: u32) -> Result<(), AllocError>
    ensures reaches { OnOk result (number < length places.new.items) }
    ensures same { (other : ℕ) → slice_index places.new.items other ≡ slice_index places.old.items other }
    ensures few { length places.old.items < 2 ^ 32 → length places.new.items < 2 ^ 32 }
{
    let wanted = number.checked_add(1).ok_or(AllocError)? as usize;
    if places.len() < wanted {
        places.resize(wanted, 0)?;
    }
    Ok(())
}

//! Writes the catalogue into its pages.
//!
//! It keeps the pages that it has, and takes or gives back those that are missing or too many. A page that holds its part
//! already is only read.

ghost use Rattle.std.specs.Prelude.{◌≡◌, ◌≢◌, ◌≤◌, ◌<◌, ◌+◌, ◌-◌, ◌*◌, ◌^◌, ◌↔◌, true, Err, IfErr, IfOk, IsTrue, length};
ghost use Rattle.rs_page.specs.declared.header.TheConstants.{PAGE_ROOM};
ghost use Rattle.rs_page_owners.specs.Calls.{Makes, WorksOn};
ghost use Rattle.rs_pages.specs.Calls.{OnlyReads, Reads};
ghost use Rattle.rs_pages.specs.PageMap.{HasNoFit};
ghost use Rattle.rs_pages.specs.Store.{Rests};
ghost use Rattle.rs_pages.specs.Uses.{RefusesToLend};
ghost use Rattle.rs_catalog_pages.specs.Chain.{HoldsPart};
ghost use Rattle.rs_catalog_pages.specs.Calls.{LeavesCatalogue, StaysRefused, Stores};
ghost use Rattle.rs_catalog_pages.specs.Fitting.{FitsCatalogue, IsShort};
ghost use Rattle.rs_catalog_pages.specs.Said.{said_catalogue};
ghost use Rattle.rs_catalog_pages.specs.Parts.{WritesPart};
ghost use Rattle.rs_catalog_pages.specs.Storing.{AreNotOwn, WritesParts, NeedsMorePages};
ghost use Rattle.rs_catalog_pages.specs.Places.{number_from, part_at};

use crate::items::StoredCatalogue;
use crate::part::{is_part, put_part};
use crate::placing::{grow, shrink};
use rs_bytes::Item;
use rs_page::{PAGE_ROOM, PageNumber};
use rs_pages::Pages;
use rs_refusal::Refusal;
use std::alloc::Global;

/// Stores the catalogue in place of the one in these pages, and answers which pages it has now: those that it had, then
/// new ones, and no more than it needs. The file gains at most as many pages as the catalogue does. The caller keeps the old
/// list until it commits. It is refused with 90, with 91, with 92 only where the file is full and the catalogue needs more
/// pages than these, and with 94 only where these pages, each one owner's, hold no bytes of a catalogue; the working pages
/// are to be abandoned then.
pub fn store<P: Pages>(
    alloc: Global,
    pages: &mut P,
    numbers: &[PageNumber],
    catalogue: &StoredCatalogue,
) -> Result<Vec<PageNumber>, Refusal>
    requires begun { (P.store pages.old).is_begun ≡ true }
    requires fits { FitsCatalogue (said_catalogue catalogue.now) }
    requires short { IsShort (said_catalogue catalogue.now) }
    ensures leaves { LeavesCatalogue P.Pages numbers.now result pages.old pages.new }
    ensures stores { Stores P.Pages numbers.now (said_catalogue catalogue.now) result pages.old pages.new }
    ensures count { IfOk result (λ after. (P.store pages.new).map.fields.pages
        ≤ (P.store pages.old).map.fields.pages + (length after.items - length numbers.now)) }
    ensures room { result ≡ Err Refusal.FileFull → NeedsMorePages numbers.now (said_catalogue catalogue.now) }
{
    let mut bytes = Vec::new(alloc);
    catalogue.write(&mut bytes)?;
    let mut after = Vec::new(alloc);
    after.extend_from_slice(numbers)?;
    let count = parts_of(bytes.len());
    grow(pages, &mut after, count)?;
    shrink(pages, &mut after, count)?;
    write_parts(pages, after.as_slice(), bytes.as_slice())?;
    pages.set_catalogue(number_from(after.as_slice(), 0), bytes.len() as u32);
    Ok(after)
}

/// How many pages so many bytes need.
fn parts_of(length: usize) -> usize
    ensures room { length ≤ result * PAGE_ROOM }
    ensures few { result * PAGE_ROOM < length + PAGE_ROOM }
{
    let full = length / PAGE_ROOM;
    if length % PAGE_ROOM == 0 {
        full
    } else {
        full + 1
    }
}

/// Writes the bytes into these pages, the last first, each with the number of the next. It is refused as `page_mut` is.
fn write_parts<P: Pages>(pages: &mut P, numbers: &[PageNumber], bytes: &[u8]) -> Result<(), Refusal>
    requires begun { (P.store pages.old).is_begun ≡ true }
    requires few { length numbers.now < 2 ^ 40 }
    requires room { length bytes.now ≤ length numbers.now * PAGE_ROOM }
    ensures keeps { P.keeps pages.old pages.new }
    ensures works { WorksOn P.Pages (AreNotOwn (P.store pages.old).map numbers.now) result pages.old pages.new }
    ensures writes { Makes P.Pages (λ old new _. WritesParts old new numbers.now bytes.now (number_from numbers.now 0)) result
        pages.old pages.new }
    ensures as_many { (P.store pages.new).map.fields.pages ≡ (P.store pages.old).map.fields.pages }
    ensures room { result ≢ Err Refusal.FileFull }
{
    let mut index = numbers.len();
    while index > 0 {
        let next = number_from(numbers, index);
        index -= 1;
        write_part(pages, numbers[index], next, part_at(bytes, index))?;
    }
    Ok(())
}

/// The page at a place of the list; 0 past the last.
fn number_from(numbers: &[PageNumber], index: usize) -> PageNumber
    ensures { result ≡ number_from numbers.now index }
{
    match numbers.get(index) {
        Some(number) => *number,
        None => PageNumber::new(0),
    }
}

/// The bytes for the page at a place of the list.
fn part_at(bytes: &[u8], index: usize) -> &[u8]
    requires { index < 2 ^ 40 }
    ensures { result.now ≡ part_at bytes.now index }
{
    let start = index * PAGE_ROOM;
    if start >= bytes.len() {
        return &[];
    }
    let (_, rest) = bytes.split_at(start);
    if rest.len() <= PAGE_ROOM {
        return rest;
    }
    let (part, _) = rest.split_at(PAGE_ROOM);
    part
}

/// Makes the page with this number, which is in use, hold this part of the catalogue; where it does already,
/// nothing changes. It is refused as `page_mut` is; nothing has changed then.
fn write_part<P: Pages>(
    pages: &mut P,
    number: PageNumber,
    next: PageNumber,
    part: &[u8],
) -> Result<(), Refusal>
    requires begun { (P.store pages.old).is_begun ≡ true }
    requires fits { length part.now ≤ PAGE_ROOM }
    ensures keeps { P.keeps pages.old pages.new }
    ensures works { WorksOn P.Pages (HasNoFit (P.store pages.old).map number) result pages.old pages.new }
    ensures written { Makes P.Pages (λ old new _. WritesPart old new number next part.now) result pages.old pages.new }
    ensures stays { StaysRefused P.Pages result pages.old pages.new }
    ensures spares { P.is_tied pages.old → HoldsPart (P.store pages.old).map number next part.now
        → Rests (P.is_tied pages.old) (P.store pages.old) (P.store pages.new) }
    ensures as_many { (P.store pages.new).map.fields.pages ≡ (P.store pages.old).map.fields.pages }
    ensures room { result ≢ Err Refusal.FileFull }
{
    if holds_part(pages, number, next, part)? {
        return Ok(());
    }
    replace_part(pages, number, next, part)
}

/// Whether the page with this number holds this part of the catalogue already. It is refused as `page` is. No page changes.
fn holds_part<P: Pages>(
    pages: &mut P,
    number: PageNumber,
    next: PageNumber,
    part: &[u8],
) -> Result<bool, Refusal>
    ensures rests { OnlyReads P.Pages result pages.old pages.new }
    ensures reads { Reads P.Pages (λ map holds. IsTrue holds ↔ HoldsPart map number next part.now) result pages.old }
    ensures refused { IfErr result (RefusesToLend (P.is_tied pages.old) (P.store pages.old) number) }
{
    let count = pages.count();
    match pages.page(number) {
        Ok(page) => Ok(is_part(page, number, next, count, part)),
        Err(refusal) => Err(refusal),
    }
}

/// Writes a part of the catalogue into the page with this number, which is in use, whatever it holds. It is refused as
/// `page_mut` is; nothing has changed then.
fn replace_part<P: Pages>(
    pages: &mut P,
    number: PageNumber,
    next: PageNumber,
    part: &[u8],
) -> Result<(), Refusal>
    requires begun { (P.store pages.old).is_begun ≡ true }
    requires fits { length part.now ≤ PAGE_ROOM }
    ensures keeps { P.keeps pages.old pages.new }
    ensures works { WorksOn P.Pages (HasNoFit (P.store pages.old).map number) result pages.old pages.new }
    ensures written { Makes P.Pages (λ old new _. WritesPart old new number next part.now) result pages.old pages.new }
    ensures stays { StaysRefused P.Pages result pages.old pages.new }
    ensures as_many { (P.store pages.new).map.fields.pages ≡ (P.store pages.old).map.fields.pages }
    ensures room { result ≢ Err Refusal.FileFull }
{
    let page = pages.page_mut(number)?;
    put_part(page, number, next, part);
    Ok(())
}

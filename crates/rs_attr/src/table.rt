//! This module changes a table together with its indexes.
//!
//! Each changes the table and then each index in turn. After a refusal some of them may have changed: they and the working
//! pages are to be abandoned.

ghost use Rattle.std.specs.Prelude.{◌≡◌, ◌≢◌, ◌<◌, ◌≤◌, ℕ, IsTrue, IfOk, IsOkUnless, OnOk, length, true, Err};
ghost use Rattle.std.specs.List.{AllByRecursion};
ghost use Rattle.rs_attr.specs.Calls.{Adds, Clears, IsEmpty, KeepsTable, Kills, Leaves, Vacuums};
ghost use Rattle.rs_attr.specs.Inner.{ChangesEach, LeavesEach, changed};
ghost use Rattle.rs_attr.specs.Tables.{AreOn, kept_parts};
ghost use Rattle.rs_value.specs.Values.{IsRowOf};
ghost use Rattle.rs_versioned.specs.Calls.{TakesFirst};
ghost use Rattle.rs_versioned.specs.Events.{event_of, event_width};
ghost use Rattle.rs_cell_versions.specs.Version.{HaveDiedBy, born_of, ended, is_living};
ghost use Rattle.rs_cell_versions.specs.declared.cell.TheConstants.{LIVING};

use crate::attr_index::{AttrIndex, Change};
use rs_cell_versions::{LIVING, born_of, end_at};
use rs_facts::fact::Span;
use rs_pages::Pages;
use rs_records::Cells;
use rs_refusal::Refusal;
use rs_versioned::EventTable;
use rs_versioned::event::cell_of;
use std::alloc::Global;

/// Puts the row on the route along the span, as versions from this one on see it, into the table and its indexes, and answers
/// whether the record was not there before; where it was, nothing changes. It is refused with 90, with 91, with 92 where the
/// file is full, and with 94 only where no such table with its indexes lies there with pages of their own; the table, its
/// indexes and the working pages are to be abandoned then.
pub fn add<P: Pages>(
    alloc: Global,
    pages: &mut P,
    table: &mut EventTable,
    indexes: &mut [AttrIndex],
    version: u64,
    route: u32,
    span: &Span,
) -> Result<bool, Refusal>
    requires begun { (P.store pages.old).is_begun ≡ true }
    requires row { IsRowOf table.old.types span.now.tuple }
    requires indexes { AreOn table.old.types indexes.old }
    ensures leaves { Leaves P.Pages table.old indexes.old result pages.old pages.new }
    ensures adds { Adds P.Pages table.old indexes.old table.new indexes.new (event_of route span.now version) result pages.old pages.new }
    ensures table { KeepsTable table.old table.new indexes.old indexes.new }
    ensures dead { table.new.working.dead ≡ table.old.working.dead }
{
    let cell = cell_of(alloc, table.schema(), route, span, version).map_err(
        |_| Refusal::OutOfMemory,
    )?;
    let new = table.add_cell(pages, &cell)?;
    if new {
        change_each(alloc, pages, indexes, Change::Put, &cell)?;
    }
    Ok(new)
}

/// Ends a living event at a version, in the table and its indexes, and answers whether it was there: versions before this one
/// see it as they did, and no other does. An event that no version saw before this one is taken out; at version 0 any is. It is
/// refused as `add` is; the table, its indexes and the working pages are to be abandoned then.
pub fn kill<P: Pages>(
    alloc: Global,
    pages: &mut P,
    table: &mut EventTable,
    indexes: &mut [AttrIndex],
    version: u64,
    cell: &[u8],
) -> Result<bool, Refusal>
    requires begun { (P.store pages.old).is_begun ≡ true }
    requires width { length cell.now ≡ event_width table.old.types }
    requires living { IsTrue (is_living cell.now) }
    requires version { version < LIVING }
    requires order { born_of cell.now < version → HaveDiedBy version table.old.working.dead }
    requires indexes { AreOn table.old.types indexes.old }
    ensures leaves { Leaves P.Pages table.old indexes.old result pages.old pages.new }
    ensures kills { Kills P.Pages table.old indexes.old table.new indexes.new version cell.now result pages.old pages.new }
    ensures table { KeepsTable table.old table.new indexes.old indexes.new }
    ensures order { (last : ℕ) → version ≤ last → HaveDiedBy last table.old.working.dead → HaveDiedBy last table.new.working.dead }
    ensures more { length table.old.working.dead ≤ length table.new.working.dead }
{
    let found = table.kill(pages, version, cell)?;
    if found && !indexes.is_empty() {
        change_each(alloc, pages, indexes, Change::Take, cell)?;
        if born_of(cell) < version {
            let ended = ended_at(alloc, cell, version)?;
            change_each(alloc, pages, indexes, Change::Put, &ended)?;
        }
    }
    Ok(found)
}

/// Takes out events that no version from `oldest` on sees, those that died first before the others, at most so many, of the
/// table and its indexes, and answers their cells. No page is needed: it is refused as `add` is, but for 92; the table, its
/// indexes and the working pages are to be abandoned then.
pub fn vacuum<P: Pages>(
    alloc: Global,
    pages: &mut P,
    table: &mut EventTable,
    indexes: &mut [AttrIndex],
    oldest: u64,
    most: usize,
) -> Result<Cells, Refusal>
    requires begun { (P.store pages.old).is_begun ≡ true }
    requires indexes { AreOn table.old.types indexes.old }
    ensures leaves { Leaves P.Pages table.old indexes.old result pages.old pages.new }
    ensures vacuums { Vacuums P.Pages table.old indexes.old table.new indexes.new oldest most result pages.old pages.new }
    ensures takes { IfOk result (TakesFirst (event_width table.old.types) oldest most table.old.working) }
    ensures table { KeepsTable table.old table.new indexes.old indexes.new }
    ensures order { (version : ℕ) → HaveDiedBy version table.old.working.dead → HaveDiedBy version table.new.working.dead }
    ensures room { result ≢ Err Refusal.FileFull }
{
    let taken = table.vacuum(alloc, pages, oldest, most)?;
    for place in 0..taken.len() {
        change_each(alloc, pages, indexes, Change::Take, taken.get(place))?;
    }
    Ok(taken)
}

/// Takes all events out of the table and all entries out of its indexes. No page is needed: it is refused as `add` is, but for
/// 92; the table, its indexes and the working pages are to be abandoned then.
pub fn clear<P: Pages>(
    pages: &mut P,
    table: &mut EventTable,
    indexes: &mut [AttrIndex],
) -> Result<(), Refusal>
    requires begun { (P.store pages.old).is_begun ≡ true }
    requires indexes { AreOn table.old.types indexes.old }
    ensures leaves { Leaves P.Pages table.old indexes.old result pages.old pages.new }
    ensures clears { Clears P.Pages table.old indexes.old table.new indexes.new result pages.old pages.new }
    ensures empty { OnOk result (IsEmpty table.new indexes.new) }
    ensures table { KeepsTable table.old table.new indexes.old indexes.new }
    ensures room { result ≢ Err Refusal.FileFull }
{
    table.clear(pages)?;
    for place in 0..indexes.len() {
        indexes[place].clear(pages)?;
    }
    Ok(())
}

/// Puts the entry of a cell into each index, or takes it out of each. No page is needed to take it out.
fn change_each<P: Pages>(
    alloc: Global,
    pages: &mut P,
    indexes: &mut [AttrIndex],
    change: Change,
    cell: &[u8],
) -> Result<(), Refusal>
    requires begun { (P.store pages.old).is_begun ≡ true }
    requires width { AllByRecursion (λ index. index.field.cell_width ≡ length cell.now) indexes.old }
    ensures leaves { LeavesEach P.Pages indexes.old (length cell.now) result pages.old pages.new }
    ensures changed { ChangesEach P.Pages indexes.old indexes.new (length cell.now) (changed change cell.now) result pages.old pages.new }
    ensures kept { kept_parts indexes.new ≡ kept_parts indexes.old }
    ensures room { change ≡ Change.Take → result ≢ Err Refusal.FileFull }
{
    for place in 0..indexes.len() {
        indexes[place].change(alloc, pages, change, cell)?;
    }
    Ok(())
}

/// The same cell, ended at this version.
fn ended_at(alloc: Global, cell: &[u8], version: u64) -> Result<Vec<u8>, Refusal>
    requires width { 20 ≤ length cell.now }
    ensures ended { IfOk result (λ copy. copy.items ≡ ended version cell.now) }
    ensures refused { IsOkUnless result Refusal.OutOfMemory }
{
    let mut ended = Vec::new(alloc);
    ended
        .extend_from_slice(cell)
        .map_err(|_| Refusal::OutOfMemory)?;
    end_at(&mut ended, version);
    Ok(ended)
}

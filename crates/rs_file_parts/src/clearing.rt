//! This module clears a file's tables and its referents: records go that no live version sees.

ghost use Rattle.std.specs.Prelude.{◌≡◌, ◌≢◌, ◌<◌, ◌≤◌, ◌+◌, ◌%◌, ℕ, true, Err, IfOk, length};
ghost use Rattle.rs_attr.specs.Calls as attr;
ghost use Rattle.rs_attr.specs.Tables.{AreOn};
ghost use Rattle.rs_cell_versions.specs.Version.{HaveDiedBy};
ghost use Rattle.rs_file_parts.specs.Calls.{Clears, Leaves, StartsAt};
ghost use Rattle.rs_file_parts.specs.Inner.{ClearsAllReferents, ClearsOpened, ClearsPlaces};
ghost use Rattle.rs_file_parts.specs.Parts.{HaveAllDiedBy, IsReady, KeepsCommitted, KeepsOpened, Makes};
ghost use Rattle.rs_page_owners.specs.Calls as owners;

use crate::looking::have_none_dead;
use rs_attr::vacuum;
use rs_file::{OpenedFile, OpenedTable};
use rs_pages::Pages;
use rs_refusal::Refusal;
use std::alloc::Global;

/// The oldest version that is to see what it saw, and how many records may go.
#[derive(Clone, Copy)]
struct Bounds {
    oldest: u64,
    most: u64,
}

/// Takes out records that no version from `oldest` on sees, at most `most`, and answers how many: of the table at the place `first`
/// (modulo their number), then of the others in turn, at last of the referents. No page is needed: it is refused with 90, with 91,
/// and with 94 only where no contents lie there with what is open; the working pages are to be abandoned then, and what is open is
/// to be taken back.
pub fn clear<P: Pages>(
    alloc: Global,
    pages: &mut P,
    file: &mut OpenedFile,
    oldest: u64,
    most: u64,
    first: usize,
) -> Result<u64, Refusal>
    requires begun { (P.store pages.old).is_begun ≡ true }
    requires ready { IsReady file.old }
    ensures leaves { Leaves P.Pages file.old result pages.old pages.new }
    ensures clears { Clears P.Pages file.old file.new oldest most result pages.old pages.new }
    ensures turn { StartsAt P.Pages file.old file.new oldest most first result pages.old pages.new }
    ensures few { IfOk result (λ gone. gone ≤ most) }
    ensures keeps { KeepsCommitted file.old file.new }
    ensures order { (version : ℕ) → HaveAllDiedBy version file.old → HaveAllDiedBy version file.new }
    ensures room { result ≢ Err Refusal.FileFull }
{
    if have_none_dead(file.tables.as_slice()) {
        return clear_referents(alloc, pages, file, oldest, most);
    }
    let count = file.tables.len();
    let start = place_among(first, count);
    let bounds = Bounds { oldest, most };
    let after = clear_tables(alloc, pages, file, start, count, bounds)?;
    let rest = Bounds {
        oldest,
        most: most - after,
    };
    let before = clear_tables(alloc, pages, file, 0, start, rest)?;
    let last = rest.most - before;
    let referents = clear_referents(alloc, pages, file, oldest, last)?;
    Ok(after + before + referents)
}

/// The place with this number, counted round and round among so many.
fn place_among(number: usize, count: usize) -> usize
    ensures few { result ≤ count }
    ensures place { 0 < count → result ≡ number % count }
{
    if count == 0 { 0 } else { number % count }
}

/// Clears the tables at the places from one up to another, one after the other, and answers how many records went.
fn clear_tables<P: Pages>(
    alloc: Global,
    pages: &mut P,
    file: &mut OpenedFile,
    from: usize,
    to: usize,
    bounds: Bounds,
) -> Result<u64, Refusal>
    requires begun { (P.store pages.old).is_begun ≡ true }
    requires ready { IsReady file.old }
    requires places { to ≤ length file.old.tables.items }
    ensures leaves { Leaves P.Pages file.old result pages.old pages.new }
    ensures clears { owners.Makes P.Pages (λ old new gone. (accepted : ℕ)
        → Makes old new file.old file.new accepted accepted (ClearsPlaces bounds.oldest bounds.most gone from to)) result
        pages.old pages.new }
    ensures few { IfOk result (λ gone. gone ≤ bounds.most) }
    ensures keeps { KeepsCommitted file.old file.new }
    ensures order { (version : ℕ) → HaveAllDiedBy version file.old → HaveAllDiedBy version file.new }
    ensures room { result ≢ Err Refusal.FileFull }
{
    let mut gone = 0;
    for place in from..to {
        let left = bounds.most - gone;
        let went = clear_place(alloc, pages, file, place, bounds.oldest, left)?;
        gone += went;
    }
    Ok(gone)
}

/// Clears the table at this place, and answers how many records went.
fn clear_place<P: Pages>(
    alloc: Global,
    pages: &mut P,
    file: &mut OpenedFile,
    place: usize,
    oldest: u64,
    most: u64,
) -> Result<u64, Refusal>
    requires begun { (P.store pages.old).is_begun ≡ true }
    requires ready { IsReady file.old }
    requires place { place < length file.old.tables.items }
    ensures leaves { Leaves P.Pages file.old result pages.old pages.new }
    ensures clears { owners.Makes P.Pages (λ old new gone. (accepted : ℕ)
        → Makes old new file.old file.new accepted accepted (ClearsPlaces oldest most gone place (place + 1))) result
        pages.old pages.new }
    ensures few { IfOk result (λ gone. gone ≤ most) }
    ensures keeps { KeepsCommitted file.old file.new }
    ensures order { (version : ℕ) → HaveAllDiedBy version file.old → HaveAllDiedBy version file.new }
    ensures room { result ≢ Err Refusal.FileFull }
{
    clear_table(alloc, pages, &mut file.tables[place], oldest, most)
}

/// Clears a table with its indexes, and answers how many records went.
fn clear_table<P: Pages>(
    alloc: Global,
    pages: &mut P,
    table: &mut OpenedTable,
    oldest: u64,
    most: u64,
) -> Result<u64, Refusal>
    requires begun { (P.store pages.old).is_begun ≡ true }
    requires indexes { AreOn table.old.records.types table.old.indexes.items }
    ensures leaves { attr.Leaves P.Pages table.old.records table.old.indexes.items result pages.old pages.new }
    ensures clears { owners.Makes P.Pages (λ old new. ClearsOpened old new table.old table.new oldest most) result
        pages.old pages.new }
    ensures few { IfOk result (λ gone. gone ≤ most) }
    ensures table { KeepsOpened table.old table.new }
    ensures order { (version : ℕ) → HaveDiedBy version table.old.records.working.dead → HaveDiedBy version table.new.records.working.dead }
    ensures room { result ≢ Err Refusal.FileFull }
{
    if table.records.garbage() == 0 {
        return Ok(0);
    }
    let taken = vacuum(
        alloc,
        pages,
        &mut table.records,
        &mut table.indexes,
        oldest,
        most as usize,
    )?;
    Ok(taken.len() as u64)
}

/// Clears the referents, and answers how many went.
fn clear_referents<P: Pages>(
    alloc: Global,
    pages: &mut P,
    file: &mut OpenedFile,
    oldest: u64,
    most: u64,
) -> Result<u64, Refusal>
    requires begun { (P.store pages.old).is_begun ≡ true }
    ensures leaves { Leaves P.Pages file.old result pages.old pages.new }
    ensures clears { owners.Makes P.Pages (λ old new gone. (accepted : ℕ)
        → Makes old new file.old file.new accepted accepted (ClearsAllReferents oldest most gone)) result pages.old pages.new }
    ensures few { IfOk result (λ gone. gone ≤ most) }
    ensures keeps { KeepsCommitted file.old file.new }
    ensures order { (version : ℕ) → HaveAllDiedBy version file.old → HaveAllDiedBy version file.new }
    ensures room { result ≢ Err Refusal.FileFull }
{
    let taken = file.referents.vacuum(alloc, pages, oldest, most as usize)?;
    Ok(taken.len() as u64)
}

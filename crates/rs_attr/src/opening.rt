//! This module checks a table with its indexes, which lies in a file already, against what the file says of it.
//!
//! The trees are checked first: their pages are marked and the entries of the indexes counted. Then the cells of the table are
//! read part by part: a part ends where the next of the routes begins, so that events of one route alone may be in it. Cells wait
//! in memory, those of several parts or as many of a long one as may, and are then looked for in the order of each index together,
//! so that its pages are read a few times, however many routes there are. Where each cell has its entry in an index, and there are
//! as many entries as cells, the index is that of just these cells.

ghost use Rattle.std.specs.Prelude.{◌≡◌, ◌⊎◌, ◌<◌, ◌≤◌, ◌+◌, ◌++◌, ◌∷◌, ◌*◌, ◌^◌, [], ℕ, List, Contains, IfErr, IfOk, OnOk, length};
ghost use Rattle.std.specs.List.{AllByRecursion};
ghost use Rattle.std.specs.Int.{w32, to_be_bytes};
ghost use Rattle.rs_page.specs.declared.header.TheConstants.{PAGE_ROOM};
ghost use Rattle.rs_attr.specs.Calls.{IsOpened, Opens};
ghost use Rattle.rs_attr.specs.OpeningCalls.{Checks, Gathers, LooksUp, Reaches};
ghost use Rattle.rs_attr.specs.Tables.{AreOn};
ghost use Rattle.rs_cell_versions.specs.OpeningCalls.{RefusesLook};
ghost use Rattle.rs_pages.specs.Calls.{OnlyReads};
ghost use Rattle.rs_page_marks.specs.Marks.{taken};
ghost use Rattle.rs_records.specs.Listed.{listed, record_width};
ghost use Rattle.rs_versioned.specs.Events.{event_width};
ghost use Rattle.rs_versioned.specs.Meant.{AreRising};

use crate::attr_index::AttrIndex;
use crate::meant::check_events;
use crate::told::ToldTable;
use rs_cell_versions::Opening;
use rs_interval::GreatestEnd;
use rs_page_marks::Reached;
use rs_pages::Pages;
use rs_records::Cells;
use rs_refusal::Refusal;
use rs_value::row_width;
use rs_versioned::event::EVENT_BYTES;
use rs_versioned::{EventTable, RouteSpan, ToldRecords};
use std::alloc::Global;

/// How many bytes of cells wait at the least before their entries are looked for. Putting them in order takes some three times as
/// many.
const LEAST_WAITING: usize = 0x10_0000;

/// Into how many full batches the cells of a large table are divided. Where an eighth of them takes more than `LEAST_WAITING` bytes, that
/// eighth waits: so each index is gone through nine times at the most, however large the table is.
const FULL_BATCHES: u64 = 8;

/// The table that lies in a file already, beside its indexes; their pages are marked. Ok exactly where it lies there as it was
/// told, with the indexes of its cells, in pages none of which was reached before, and the version that was accepted last has just
/// the maximal runs of its facts, on the routes that are given; 94 where no such table does; 90 and 91. The routes are given by
/// rising numbers. No page changes. Which pages are marked after a refusal is unspecified.
pub fn open<P: Pages>(
    alloc: Global,
    pages: &mut P,
    told: ToldTable,
    indexes: &[AttrIndex],
    routes: &[RouteSpan],
    reached: &mut Reached,
) -> Result<EventTable, Refusal>
    requires fits { 3 * (8 + event_width told.schema.items) ≤ PAGE_ROOM }
    requires indexes { AreOn told.schema.items indexes.now }
    requires rising { AreRising routes.now }
    ensures rests { OnlyReads P.Pages result pages.old pages.new }
    ensures size { length reached.new ≡ length reached.old }
    ensures table { IfOk result (IsOpened told.schema.items told.records) }
    ensures opens { Opens P.Pages told indexes.now routes.now (taken reached.old) (taken reached.new) result pages.old }
    ensures refused { RefusesLook result }
{
    let width = row_width(&told.schema) + EVENT_BYTES;
    let mut opening = Opening::<GreatestEnd>::begin(alloc, pages, width, &told.records, reached)?;
    reach_indexes(pages, indexes, told.records, reached)?;
    let mut waiting = Cells::new(alloc, width);
    let most = most_waiting(told.records, width);
    let mut route = None;
    for next in routes {
        let cells = opening.part(alloc, pages, &beginning(*next))?;
        check_events(alloc, &told, route, &cells)?;
        gather(alloc, pages, indexes, &cells, &mut waiting, most)?;
        route = Some(*next);
    }
    let (versions, left) = opening.finish(alloc, pages)?;
    check_events(alloc, &told, route, &left)?;
    check_last(alloc, pages, indexes, &left, waiting, most)?;
    Ok(EventTable::with(told.schema, versions))
}

/// The bytes with which the cells of events on the route begin.
fn beginning(route: RouteSpan) -> [u8; 4]
    ensures bytes { result ≡ to_be_bytes w32 route.number }
    ensures fits { route.number < 2 ^ 32 }
{
    route.number.to_be_bytes()
}

/// How many cells, each of so many bytes, wait at the most before their entries are looked for.
fn most_waiting(told: ToldRecords, width: usize) -> usize
    requires some { 0 < width }
{
    let part = told.living.saturating_add(told.garbage) / FULL_BATCHES;
    usize::max(LEAST_WAITING / width, part as usize)
}

/// Checks the trees of the indexes, marks their pages, and counts their entries: as many as there are living and dead records.
/// It is refused with 91, and with 94 where no such trees stand there none of whose pages was reached before.
fn reach_indexes<P: Pages>(
    pages: &mut P,
    indexes: &[AttrIndex],
    told: ToldRecords,
    reached: &mut Reached,
) -> Result<(), Refusal>
    ensures rests { OnlyReads P.Pages result pages.old pages.new }
    ensures size { length reached.new ≡ length reached.old }
    ensures reaches { Reaches P.Pages indexes.now (told.living + told.garbage) (taken reached.old) (taken reached.new) result pages.old }
    ensures refused { IfErr result (λ why. (why ≡ Refusal.Disk) ⊎ (why ≡ Refusal.DamagedFile)) }
{
    for index in indexes {
        let entries = index.validate(pages, reached)?;
        if told.living.checked_add(told.garbage) != Some(entries) {
            return Err(Refusal::DamagedFile);
        }
    }
    Ok(())
}

/// Puts the cells after those that wait. As often as `most` do, their entries are looked for in each index, and none waits any
/// longer. It is refused with 90, with 91, and with 94 only where the indexes are not those of cells that these are among. No page changes.
fn gather<P: Pages>(
    alloc: Global,
    pages: &mut P,
    indexes: &[AttrIndex],
    cells: &Cells,
    waiting: &mut Cells,
    most: usize,
) -> Result<(), Refusal>
    requires width { record_width cells.now ≡ record_width waiting.old }
    requires indexes { AllByRecursion (λ index. index.field.cell_width ≡ record_width waiting.old) indexes.now }
    ensures rests { OnlyReads P.Pages result pages.old pages.new }
    ensures width { record_width waiting.new ≡ record_width waiting.old }
    ensures gathers { Gathers P.Pages indexes.now (listed waiting.old) (listed waiting.new) (listed cells.now) result pages.old }
    ensures among { OnOk result ((all : List (List ℕ)) → AllByRecursion (Contains all) (listed waiting.old ++ listed cells.now)
        → AllByRecursion (Contains all) (listed waiting.new)) }
    ensures refused { RefusesLook result }
{
    if indexes.is_empty() {
        return Ok(());
    }
    for place in 0..cells.len() {
        gather_one(alloc, pages, indexes, cells.get(place), waiting, most)?;
    }
    Ok(())
}

/// Puts one cell after those that wait, as `gather` does.
fn gather_one<P: Pages>(
    alloc: Global,
    pages: &mut P,
    indexes: &[AttrIndex],
    cell: &[u8],
    waiting: &mut Cells,
    most: usize,
) -> Result<(), Refusal>
    requires width { length cell.now ≡ record_width waiting.old }
    requires indexes { AllByRecursion (λ index. index.field.cell_width ≡ record_width waiting.old) indexes.now }
    ensures rests { OnlyReads P.Pages result pages.old pages.new }
    ensures width { record_width waiting.new ≡ record_width waiting.old }
    ensures gathers { Gathers P.Pages indexes.now (listed waiting.old) (listed waiting.new) (cell.now ∷ []) result pages.old }
    ensures among { OnOk result ((all : List (List ℕ)) → AllByRecursion (Contains all) (listed waiting.old ++ cell.now ∷ [])
        → AllByRecursion (Contains all) (listed waiting.new)) }
    ensures refused { RefusesLook result }
{
    waiting.push(cell)?;
    if waiting.len() < most {
        return Ok(());
    }
    check_all(alloc, pages, indexes, waiting)?;
    *waiting = Cells::new(alloc, waiting.width());
    Ok(())
}

/// Ok where those that wait and the cells each have their entries in each index. It is refused as `gather` is.
fn check_last<P: Pages>(
    alloc: Global,
    pages: &mut P,
    indexes: &[AttrIndex],
    cells: &Cells,
    mut waiting: Cells,
    most: usize,
) -> Result<(), Refusal>
    requires width { record_width cells.now ≡ record_width waiting }
    requires indexes { AllByRecursion (λ index. index.field.cell_width ≡ record_width waiting) indexes.now }
    ensures rests { OnlyReads P.Pages result pages.old pages.new }
    ensures checks { Checks P.Pages indexes.now (listed waiting ++ listed cells.now) result pages.old }
    ensures refused { RefusesLook result }
{
    gather(alloc, pages, indexes, cells, &mut waiting, most)?;
    check_all(alloc, pages, indexes, &waiting)
}

/// Ok where each of the cells has its entry in each index. It is refused with 90, with 91, and with 94 only where the indexes are not
/// those of cells that these are among. No page changes.
fn check_all<P: Pages>(
    alloc: Global,
    pages: &mut P,
    indexes: &[AttrIndex],
    cells: &Cells,
) -> Result<(), Refusal>
    requires indexes { AllByRecursion (λ index. index.field.cell_width ≡ record_width cells.now) indexes.now }
    ensures rests { OnlyReads P.Pages result pages.old pages.new }
    ensures checks { Checks P.Pages indexes.now (listed cells.now) result pages.old }
    ensures refused { RefusesLook result }
{
    for index in indexes {
        index.check_entries(alloc, pages, cells)?;
    }
    Ok(())
}

impl AttrIndex {
    // decision: indexes-checked-by-search
    /// Ok where each of the cells has its entry in the index. They are looked for in the index's order. It is refused with 90,
    /// with 91, and with 94 only where one has none. No page changes.
    pub fn check_entries<P: Pages>(
        &self,
        alloc: Global,
        pages: &mut P,
        cells: &Cells,
    ) -> Result<(), Refusal>
        requires width { record_width cells.now ≡ self.now.field.cell_width }
        ensures rests { OnlyReads P.Pages result pages.old pages.new }
        ensures looks_up { LooksUp P.Pages self.now (listed cells.now) result pages.old }
        ensures refused { RefusesLook result }
    {
        let entries = self.entries_of(alloc, cells)?;
        if self.has_each(pages, &entries)? {
            Ok(())
        } else {
            Err(Refusal::DamagedFile)
        }
    }
}

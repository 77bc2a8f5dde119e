//! The walk through a tree: into each page below that may have a cell within the bounds, and whose summary is accepted.
//!
//! It goes down so many levels at the most and reads so many pages, so that it ends on pages that are no tree.

ghost use Rattle.std.specs.Prelude.{◌≡◌, ◌<◌, ◌≤◌, ℕ, List, IfErr, length};
ghost use Rattle.std.specs.Fn.{FnReturnsAt};
ghost use Rattle.rs_records.specs.Listed.{listed, record_width};
ghost use Rattle.rs_tree.specs.Calls.{WalksBy};
ghost use Rattle.rs_tree.specs.Layouts.{entry_bytes};
ghost use Rattle.rs_tree.specs.Looking.{HoldsEntries};
ghost use Rattle.rs_tree.specs.Walking.{Walks, WalksEntry, WalksEntries, ReadsOnce, ReadsEntryOnce, ReadsEntriesOnce, IsWalkRefusal, HasNoPart, HasNoPartOfEntry, HasNoPartsOfEntries};
ghost use Rattle.rs_tree.specs.Forms.{form_in};
ghost use Rattle.rs_pages.specs.Calls.{DamagedOnlyIf, OnlyReads, Reads};

use crate::Summary;
use crate::asking::accepts;
use crate::entry::{child, summary};
use crate::look::look;
use crate::wanted::Wanted;
use rs_page::PageNumber;
use rs_pages::Pages;
use rs_records::Cells;
use rs_refusal::Refusal;
use std::alloc::Global;

/// Walks through the part of a tree with this page at its top.
#[cycle(walking)]
pub fn walk<P: Pages, S: Summary, F: Fn(&S) -> bool>(
    alloc: Global,
    pages: &mut P,
    number: PageNumber,
    levels: u32,
    wanted: &Wanted<'_, F>,
    left: &mut u32,
    cells: &mut Cells,
) -> Result<(), Refusal>
    requires callable { F.IsAlwaysCallable wanted.now.keep.now }
    requires width { record_width cells.old ≡ wanted.now.layout.width }
    requires summary { wanted.now.layout.summary ≡ S.WIDTH }
    ensures rests { OnlyReads P.Pages result pages.old pages.new }
    ensures width { record_width cells.new ≡ wanted.now.layout.width }
    ensures fewer { left.new ≤ left.old }
    ensures walks { WalksBy P.Pages S.Summary (FnReturnsAt F.Fn wanted.now.keep.now) (λ map passes.
        Walks (form_in S.Summary wanted.now.layout) map number wanted.now.low.now wanted.now.high.now passes
        (listed cells.old) (listed cells.new) left.old left.new) result pages.old }
    ensures once { Reads P.Pages (λ map _. ReadsOnce (form_in S.Summary wanted.now.layout) map number left.old left.new) result
        pages.old }
    ensures refused { IfErr result IsWalkRefusal }
    ensures damaged { DamagedOnlyIf P.Pages (λ map. HasNoPart (form_in S.Summary wanted.now.layout) map number levels left.old) result
        pages.old }
{
    let Some(entries) = look(alloc, pages, number, wanted, left, cells)? else {
        return Ok(());
    };
    if levels == 0 {
        return Err(Refusal::DamagedFile);
    }
    walk_entries(alloc, pages, &entries, levels, wanted, left, cells)
}

/// Walks through what the entries say that were taken of an inner page.
#[cycle(walking)]
fn walk_entries<P: Pages, S: Summary, F: Fn(&S) -> bool>(
    alloc: Global,
    pages: &mut P,
    entries: &Cells,
    levels: u32,
    wanted: &Wanted<'_, F>,
    left: &mut u32,
    cells: &mut Cells,
) -> Result<(), Refusal>
    requires callable { F.IsAlwaysCallable wanted.now.keep.now }
    requires width { record_width cells.old ≡ wanted.now.layout.width }
    requires summary { wanted.now.layout.summary ≡ S.WIDTH }
    requires entries { record_width entries.now ≡ entry_bytes wanted.now.layout }
    requires levels { 0 < levels }
    ensures rests { OnlyReads P.Pages result pages.old pages.new }
    ensures width { record_width cells.new ≡ wanted.now.layout.width }
    ensures fewer { left.new ≤ left.old }
    ensures walks { WalksBy P.Pages S.Summary (FnReturnsAt F.Fn wanted.now.keep.now) (λ map passes.
        (page : List ℕ) (count : ℕ) → HoldsEntries page count wanted.now.layout wanted.now.low.now wanted.now.high.now (listed entries.now)
        → WalksEntries (form_in S.Summary wanted.now.layout) map page count wanted.now.low.now wanted.now.high.now passes
        (listed cells.old) (listed cells.new) left.old left.new) result pages.old }
    ensures once { Reads P.Pages (λ map _. (page : List ℕ) (count : ℕ)
        → HoldsEntries page count wanted.now.layout wanted.now.low.now wanted.now.high.now (listed entries.now)
        → ReadsEntriesOnce (form_in S.Summary wanted.now.layout) map page count left.old left.new) result pages.old }
    ensures refused { IfErr result IsWalkRefusal }
    ensures damaged { DamagedOnlyIf P.Pages (λ map. (page : List ℕ) (count : ℕ)
        → HoldsEntries page count wanted.now.layout wanted.now.low.now wanted.now.high.now (listed entries.now)
        → HasNoPartsOfEntries (form_in S.Summary wanted.now.layout) map page count levels left.old) result pages.old }
{
    for index in 0..entries.len() {
        let entry = entries.get(index);
        walk_entry(alloc, pages, entry, levels, wanted, left, cells)?;
    }
    Ok(())
}

/// Walks through what an entry says, where its summary is accepted.
#[cycle(walking)]
fn walk_entry<P: Pages, S: Summary, F: Fn(&S) -> bool>(
    alloc: Global,
    pages: &mut P,
    entry: &[u8],
    levels: u32,
    wanted: &Wanted<'_, F>,
    left: &mut u32,
    cells: &mut Cells,
) -> Result<(), Refusal>
    requires callable { F.IsAlwaysCallable wanted.now.keep.now }
    requires width { record_width cells.old ≡ wanted.now.layout.width }
    requires summary { wanted.now.layout.summary ≡ S.WIDTH }
    requires entry { length entry.now ≡ entry_bytes wanted.now.layout }
    requires levels { 0 < levels }
    ensures rests { OnlyReads P.Pages result pages.old pages.new }
    ensures width { record_width cells.new ≡ wanted.now.layout.width }
    ensures fewer { left.new ≤ left.old }
    ensures walks { WalksBy P.Pages S.Summary (FnReturnsAt F.Fn wanted.now.keep.now) (λ map passes.
        WalksEntry (form_in S.Summary wanted.now.layout) map entry.now wanted.now.low.now wanted.now.high.now passes
        (listed cells.old) (listed cells.new) left.old left.new) result pages.old }
    ensures once { Reads P.Pages (λ map _. ReadsEntryOnce (form_in S.Summary wanted.now.layout) map entry.now left.old left.new)
        result pages.old }
    ensures refused { IfErr result IsWalkRefusal }
    ensures damaged { DamagedOnlyIf P.Pages (λ map. HasNoPartOfEntry (form_in S.Summary wanted.now.layout) map entry.now levels left.old)
        result pages.old }
{
    if !accepts(wanted.keep, &S::read(summary(entry, wanted.layout))) {
        return Ok(());
    }
    let number = child(entry, wanted.layout);
    walk(alloc, pages, number, levels - 1, wanted, left, cells)
}

//! This module makes the index of a table that has events already.
//!
//! The table's cells are read part by part, so that no more than one part is in memory at a time: a part ends where the next of
//! the given routes begins. Whatever routes are given, each cell is in one part.

ghost use Rattle.std.specs.Prelude.{◌≡◌, ◌<◌, IfOk, false, length, true};
ghost use Rattle.rs_attr.specs.Calls.{Defines, IsFresh};
ghost use Rattle.rs_attr.specs.Entries.{FitsPages};
ghost use Rattle.rs_attr.specs.Inner.{Appends, AppendsNone, Enters, EntersNone};
ghost use Rattle.rs_page_owners.specs.Calls as owners;
ghost use Rattle.rs_records.specs.Listed.{listed, record_width};
ghost use Rattle.rs_records.specs.Order.{is_below};
ghost use Rattle.rs_versioned.specs.Calls.{Leaves};
ghost use Rattle.rs_versioned.specs.Events.{kept_events};

use crate::attr_index::AttrIndex;
use rs_cell_versions::rs_btree::Tree;
use rs_interval::GreatestEnd;
use rs_page::PageNumber;
use rs_pages::Pages;
use rs_records::{Cells, is_below};
use rs_refusal::Refusal;
use rs_versioned::EventTable;
use std::alloc::Global;

/// Bytes that all cells of events are below: a cell begins with two numbers of four bytes and a byte that is 0 or 1.
const ABOVE_CELLS: [u8; 9] = [255; 9];

/// The index of a column of the table, with an entry for each of its events, living or dead. It is refused with 90, with 91,
/// with 92 where the file is full, and with 94 only where no such events lie there with pages of their own; the working pages
/// are to be abandoned then. Abandoned before its first commit, it is empty.
pub fn define<P: Pages>(
    alloc: Global,
    pages: &mut P,
    table: &EventTable,
    column: usize,
    routes: &[u32],
) -> Result<AttrIndex, Refusal>
    requires begun { (P.store pages.old).is_begun ≡ true }
    requires column { column < length table.now.types }
    requires fits { FitsPages table.now.types column }
    ensures leaves { Leaves P.Pages kept_events table.now result pages.old pages.new }
    ensures defines { Defines P.Pages table.now result pages.old pages.new }
    ensures index { IfOk result (IsFresh table.now.types column) }
{
    let cells: Tree<GreatestEnd> = Tree::at(table.width(), table.root());
    let mut index = AttrIndex::with(table.schema(), column, PageNumber::new(0));
    let mut low = 0_u32.to_be_bytes();
    for route in routes {
        let high = route.to_be_bytes();
        if is_below(&low, &high) {
            enter(alloc, pages, &cells, &mut index, &low, &high)?;
            low = high;
        }
    }
    enter(alloc, pages, &cells, &mut index, &low, &ABOVE_CELLS)?;
    Ok(index)
}

/// Enters the cells of a table's tree from `low` on, below `high`, into the index.
fn enter<P: Pages>(
    alloc: Global,
    pages: &mut P,
    cells: &Tree<GreatestEnd>,
    index: &mut AttrIndex,
    low: &[u8],
    high: &[u8],
) -> Result<(), Refusal>
    requires begun { (P.store pages.old).is_begun ≡ true }
    requires width { cells.now.width ≡ index.old.field.cell_width }
    requires order { is_below high.now low.now ≡ false }
    ensures leaves { owners.Leaves P.Pages (EntersNone index.old.field (P.store pages.old).map cells.now.root index.old.working low.now)
        result pages.old pages.new }
    ensures entered { owners.Makes P.Pages (λ old new _. Enters index.old.field old new cells.now.root
        index.old.working index.new.working low.now high.now) result pages.old pages.new }
    ensures field { index.new.field ≡ index.old.field }
    ensures committed { index.new.committed ≡ index.old.committed }
{
    let part = cells.range(alloc, pages, low, high)?;
    append(alloc, pages, index, &part)
}

/// Enters cells that come after those of the index.
fn append<P: Pages>(
    alloc: Global,
    pages: &mut P,
    index: &mut AttrIndex,
    cells: &Cells,
) -> Result<(), Refusal>
    requires begun { (P.store pages.old).is_begun ≡ true }
    requires width { record_width cells.now ≡ index.old.field.cell_width }
    ensures leaves { owners.Leaves P.Pages (AppendsNone index.old.field (P.store pages.old).map index.old.working (listed cells.now))
        result pages.old pages.new }
    ensures appended { owners.Makes P.Pages (λ old new _. Appends index.old.field old new
        index.old.working index.new.working (listed cells.now)) result pages.old pages.new }
    ensures field { index.new.field ≡ index.old.field }
    ensures committed { index.new.committed ≡ index.old.committed }
{
    for place in 0..cells.len() {
        index.put(alloc, pages, cells.get(place))?;
    }
    Ok(())
}

//! An attribute index keeps the entries of a table's cells in a tree, by the values of one column.
//!
//! Changes are made together or not at all: `commit` keeps them, `abandon` takes them back, and neither takes memory. The
//! pages are to be committed or abandoned with them.

ghost use Rattle.std.specs.Prelude.{◌≡◌, ◌≢◌, ◌↔◌, ◌<◌, ◌≤◌, ℕ, List, [], Contains, Err, IfOk, IsPermutation, IsTrue, OnOk, length, map, true, false};
ghost use Rattle.std.specs.List.{AllByRecursion};
ghost use Rattle.rs_attr.specs.Entries.{FitsPages, IsColumn, entry_bytes, entry_of, index_form};
ghost use Rattle.rs_attr.specs.Inner.{changed};
ghost use Rattle.rs_attr.specs.IndexCalls.{Checks, Edits, FindsWith, KeepsIndex, Leaves, RefusesReading};
ghost use Rattle.rs_pages.specs.Calls.{OnlyReads, Reads};
ghost use Rattle.rs_page_marks.specs.Marks.{taken};
ghost use Rattle.rs_records.specs.Listed.{listed, record_width};
ghost use Rattle.rs_tree.specs.Cells.{with_cell, without_cell};
ghost use Rattle.rs_tree.specs.Tree.{IsTree};
ghost use Rattle.rs_tree_whole.specs.Calls.{RefusesToCheck};
ghost use Rattle.rs_value.specs.declared.column.TheConstants.{COLUMNS};
ghost use Rattle.rs_value.specs.Encoding.{row_width};
ghost use Rattle.rs_value.specs.Values.{IsOfType};
ghost use Rattle.rs_value.specs.View.{datum_of};

use crate::entry::{entry_of, followed_by, value_bytes};
use crate::ordered::entries_by_value;
use rs_cell_versions::rs_btree::Tree;
use rs_page::PageNumber;
use rs_page_marks::Reached;
use rs_pages::Pages;
use rs_records::Cells;
use rs_refusal::Refusal;
use rs_tree::NoSummary;
use rs_value::{ColumnType, Schema, Value, column_width};
use rs_versioned::event::EVENT_BYTES;
use std::alloc::{AllocError, Global};
use std::marker::Model;

/// The bytes of an event's cell before its row.
pub(crate) const FRONT_BYTES: usize = 8;

/// What becomes of the entry of a cell.
#[derive(Clone, Copy)]
pub(crate) enum Change {
    /// It comes into the index.
    Put,
    /// It goes out of it.
    Take,
}

/// An index of the event records of a table by the values of one column.
#[derive(Drop)]
pub struct AttrIndex {
    tree: Tree<NoSummary>,
    column: ColumnType,
    start: usize,
    cell_width: usize,
    committed: PageNumber,
}

impl Model for AttrIndex {
    ghost use Rattle.std.specs.Prelude.{◌≡◌, ◌≤◌, ◌+◌, ◌*◌};
    ghost use Rattle.rs_page.specs.declared.header.TheConstants.{PAGE_ROOM};
    ghost use Rattle.rs_attr.specs.Entries.{entry_bytes};
    ghost use Rattle.rs_attr.specs.Tables.{IndexState};
    ghost use Rattle.rs_value.specs.Encoding.{width};

    ghost Value = { IndexState };

    ghost view = { λ index. record {
      field = record { column = index.column; start = index.start; cell_width = index.cell_width };
      working = index.tree.root;
      committed = index.committed;
    } };

    ghost invariant = { λ index. (index.tree.width ≡ width index.column + index.cell_width) × (index.start + (width index.column + 20) ≤ index.cell_width)
        × (3 * (4 + (width index.column + index.cell_width)) ≤ PAGE_ROOM) };
}

impl AttrIndex {
    /// The index of the column with this number, whose tree has this root; 0: it has no entries. Three entries of an inner
    /// page fit it at least.
    pub fn with(schema: &Schema, column: usize, root: PageNumber) -> AttrIndex
        requires column { column < length schema.now.items }
        requires fits { FitsPages schema.now.items column }
        ensures column { IsColumn schema.now.items column result.field }
        ensures working { result.working ≡ root }
        ensures committed { result.committed ≡ root }
    {
        let columns = schema.as_slice();
        let width = column_width(columns[column]);
        let start = FRONT_BYTES + bytes_of(&columns[..column]);
        let cell_width = EVENT_BYTES + bytes_of(columns);
        AttrIndex {
            tree: Tree::at(width + cell_width, root),
            column: columns[column],
            start,
            cell_width,
            committed: root,
        }
    }

    /// The page at the top of the tree; 0 where there are no entries.
    pub fn root(&self) -> PageNumber
        ensures { result ≡ self.now.working }
    {
        self.tree.root()
    }

    /// Whether its root is another than at the last commit.
    pub fn is_changed(&self) -> bool
        ensures { result ≡ false → self.now.committed ≡ self.now.working }
    {
        self.tree.root() != self.committed
    }

    // decision: index-of-cells
    /// The entries of the cells with this value that are not below `from` and below `to`, in their order, and how many pages were
    /// read: those that lead to these entries, and two for each level of the index and as many more for each of the entries at the
    /// most. It is refused with 90, with 91, and with 94 only where no tree stands there. No page changes.
    pub fn entries_with<P: Pages>(
        &self,
        alloc: Global,
        pages: &mut P,
        value: &Value,
        from: &[u8],
        to: &[u8],
    ) -> Result<(Cells, u32), Refusal>
        requires of_type { IsOfType self.now.field.column (datum_of value.now) }
        ensures rests { OnlyReads P.Pages result pages.old pages.new }
        ensures width { IfOk result (λ found. record_width found.0 ≡ entry_bytes self.now.field) }
        ensures found { FindsWith P.Pages self.now (datum_of value.now) from.now to.now result pages.old }
        ensures refused { RefusesReading P.Pages self.now result pages.old pages.new }
    {
        let bytes = value_bytes(alloc, self.column, value)?;
        let low = followed_by(alloc, &bytes, from)?;
        let high = followed_by(alloc, &bytes, to)?;
        let all = |_: &NoSummary| true;
        self.tree.descend(alloc, pages, &low, &high, &all)
    }

    /// Checks the tree, marks its pages, and answers how many entries it has. Ok exactly where a well formed tree stands there
    /// none of whose pages was reached before; 94 where none does; 91 where a page couldn't be read. Which pages are
    /// marked after a refusal is unspecified.
    pub fn validate<P: Pages>(&self, pages: &mut P, reached: &mut Reached) -> Result<u64, Refusal>
        ensures rests { OnlyReads P.Pages result pages.old pages.new }
        ensures size { length reached.new ≡ length reached.old }
        ensures checks { Checks P.Pages self.now (taken reached.old) (taken reached.new) result pages.old }
        ensures refused { RefusesToCheck result }
    {
        self.tree.validate(pages, reached)
    }

    /// The entries of the cells, about in their order.
    pub(crate) fn entries_of(&self, alloc: Global, cells: &Cells) -> Result<Cells, AllocError>
        requires width { record_width cells.now ≡ self.now.field.cell_width }
        ensures moved { IfOk result (λ entries. IsPermutation (map (entry_of self.now.field) (listed cells.now)) (listed entries)) }
        ensures width { IfOk result (λ entries. record_width entries ≡ entry_bytes self.now.field) }
    {
        entries_by_value(alloc, cells, self.start, column_width(self.column))
    }

    /// Whether the entries are each in the index. It is refused with 91, and with 94 only where no tree stands there. No page
    /// changes.
    pub(crate) fn has_each<P: Pages>(&self, pages: &mut P, entries: &Cells) -> Result<bool, Refusal>
        requires width { record_width entries.now ≡ entry_bytes self.now.field }
        ensures rests { OnlyReads P.Pages result pages.old pages.new }
        ensures found { Reads P.Pages (λ map found. (all : List (List ℕ)) (used : ℕ → ℕ)
            → IsTree (index_form self.now.field) map self.now.working all used
            → (IsTrue found ↔ AllByRecursion (Contains all) (listed entries.now))) result pages.old }
        ensures refused { RefusesReading P.Pages self.now result pages.old pages.new }
    {
        self.tree.has_each(pages, entries)
    }

    /// Puts the entry of a cell into the index, or takes it out. It is refused as `put` and `take` are.
    pub(crate) fn change<P: Pages>(
        &mut self,
        alloc: Global,
        pages: &mut P,
        change: Change,
        cell: &[u8],
    ) -> Result<(), Refusal>
        requires begun { (P.store pages.old).is_begun ≡ true }
        requires width { length cell.now ≡ self.old.field.cell_width }
        ensures leaves { Leaves P.Pages self.old result pages.old pages.new }
        ensures changed { Edits P.Pages self.old self.new (changed change cell.now) result pages.old pages.new }
        ensures index { KeepsIndex result self.old self.new }
        ensures room { change ≡ Change.Take → result ≢ Err Refusal.FileFull }
    {
        match change {
            Change::Put => self.put(alloc, pages, cell),
            Change::Take => self.take(alloc, pages, cell),
        }
    }

    /// Puts the entry of a cell into the index. It is refused with 90, with 91, with 92 where the file is full, and with 94 only
    /// where no tree stands there with pages of its own; the index is as it was then, and the working pages are to be abandoned.
    pub(crate) fn put<P: Pages>(
        &mut self,
        alloc: Global,
        pages: &mut P,
        cell: &[u8],
    ) -> Result<(), Refusal>
        requires begun { (P.store pages.old).is_begun ≡ true }
        requires width { length cell.now ≡ self.old.field.cell_width }
        ensures leaves { Leaves P.Pages self.old result pages.old pages.new }
        ensures put { Edits P.Pages self.old self.new (with_cell cell.now) result pages.old pages.new }
        ensures index { KeepsIndex result self.old self.new }
    {
        let wide = column_width(self.column);
        let entry = entry_of(alloc, cell, self.start, wide).map_err(|_| Refusal::OutOfMemory)?;
        self.tree.insert(pages, &entry)?;
        Ok(())
    }

    /// Takes the entry of a cell out of the index. It is refused as `put` is, but for 92.
    pub(crate) fn take<P: Pages>(
        &mut self,
        alloc: Global,
        pages: &mut P,
        cell: &[u8],
    ) -> Result<(), Refusal>
        requires begun { (P.store pages.old).is_begun ≡ true }
        requires width { length cell.now ≡ self.old.field.cell_width }
        ensures leaves { Leaves P.Pages self.old result pages.old pages.new }
        ensures taken { Edits P.Pages self.old self.new (without_cell cell.now) result pages.old pages.new }
        ensures index { KeepsIndex result self.old self.new }
        ensures room { result ≢ Err Refusal.FileFull }
    {
        let wide = column_width(self.column);
        let entry = entry_of(alloc, cell, self.start, wide).map_err(|_| Refusal::OutOfMemory)?;
        self.tree.remove(pages, &entry)?;
        Ok(())
    }

    /// Takes out all entries and frees their pages. It is refused with 90, with 91, and with 94 only where no tree stands there
    /// with pages of its own; the index is as it was then, and the working pages are to be abandoned.
    pub fn clear<P: Pages>(&mut self, pages: &mut P) -> Result<(), Refusal>
        requires begun { (P.store pages.old).is_begun ≡ true }
        ensures leaves { Leaves P.Pages self.old result pages.old pages.new }
        ensures cleared { Edits P.Pages self.old self.new (λ _. []) result pages.old pages.new }
        ensures empty { OnOk result (self.new.working ≡ 0) }
        ensures index { KeepsIndex result self.old self.new }
        ensures room { result ≢ Err Refusal.FileFull }
    {
        self.tree.clear(pages)?;
        let width = column_width(self.column) + self.cell_width;
        self.tree = Tree::at(width, PageNumber::new(0));
        Ok(())
    }

    /// Keeps what was changed. Takes no memory.
    pub fn commit(&mut self)
        ensures field { self.new.field ≡ self.old.field }
        ensures working { self.new.working ≡ self.old.working }
        ensures committed { self.new.committed ≡ self.old.working }
    {
        self.committed = self.tree.root();
    }

    /// Takes back what was changed since the last commit. Takes no memory.
    pub fn abandon(&mut self)
        ensures field { self.new.field ≡ self.old.field }
        ensures working { self.new.working ≡ self.old.committed }
        ensures committed { self.new.committed ≡ self.old.committed }
    {
        let width = column_width(self.column) + self.cell_width;
        self.tree = Tree::at(width, self.committed);
    }
}

/// How many bytes a value of each of these columns takes together.
fn bytes_of(columns: &[ColumnType]) -> usize
    requires few { length columns.now ≤ COLUMNS }
    ensures { result ≡ row_width columns.now }
{
    let mut total = 0;
    for column in columns {
        total += column_width(*column);
    }
    total
}

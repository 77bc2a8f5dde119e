//! This module writes of the directory the slots of what is open, where just these tables and indexes were there before. Tables and
//! indexes that have not changed since the last commit keep the bytes of theirs.

ghost use Rattle.std.specs.Prelude.{◌≡◌, ◌≢◌, ◌<◌, ◌≤◌, ℕ, true, Err, length, map};
ghost use Rattle.std.specs.List.{AllByRecursion, AllZip};
ghost use Rattle.rs_catalog_pages.specs.Calls.{StaysRefused};
ghost use Rattle.rs_catalog_pages.specs.Said.{said_index, said_table, said_tree};
ghost use Rattle.rs_file.specs.Contents.{item_of};
ghost use Rattle.rs_file.specs.Slots.{HasAsMany, indexes_on};
ghost use Rattle.rs_file_parts.specs.Calls.{HoldsNoDirectory, Rewrites};
ghost use Rattle.rs_file_parts.specs.Inner.{HaveChangedWithin};
ghost use Rattle.rs_file_parts.specs.Parts.{IsReady};
ghost use Rattle.rs_file_parts.specs.Slots.{PutsRoots, PutsRootsOn, PutsSlots, PutsTrees};
ghost use Rattle.rs_page_owners.specs.Calls.{Leaves};
ghost use Rattle.rs_page_owners.specs.Counts.{times};

use crate::looking::{Places, changed_places, has_changed};
use crate::slot::{put_accepted, put_referents, put_root, put_tree};
use rs_attr::AttrIndex;
use rs_catalog_pages::{INDEXES, StoredIndex, StoredTable, StoredTree, TABLES};
use rs_file::{OpenedFile, OpenedTable};
use rs_page::{Page, PageNumber};
use rs_pages::Pages;
use rs_refusal::Refusal;
use rs_versioned::{EventTable, ReferentTable};

// decision: slots-of-the-directory
/// Writes the slots of what is open into the directory that is there, with this version as the one that was accepted last: the file
/// holds all that lies there then, where the directory had nothing under the numbers of other tables and indexes, and of these what
/// stood there at the last commit. It is refused with 90, with 91, and with 94 only where no contents lie there beside a directory;
/// nothing has changed then.
pub fn write_slots<P: Pages>(pages: &mut P, file: &OpenedFile, version: u64) -> Result<(), Refusal>
    requires begun { (P.store pages.old).is_begun ≡ true }
    requires ready { IsReady file.now }
    ensures leaves { Leaves P.Pages (HoldsNoDirectory (P.store pages.old).map) result pages.old pages.new }
    ensures writes { Rewrites P.Pages file.now version result pages.old pages.new }
    ensures stays { StaysRefused P.Pages result pages.old pages.new }
    ensures room { result ≢ Err Refusal.FileFull }
{
    let page = pages.page_mut(PageNumber::new(1))?;
    put_slots(page, file, version);
    Ok(())
}

/// Puts the slots of what is open.
fn put_slots(page: &mut Page, file: &OpenedFile, version: u64)
    requires { IsReady file.now }
    ensures { PutsSlots file.now version page.old.bytes page.new.bytes }
{
    let items = file.definitions.tables.as_slice();
    let tables = file.tables.as_slice();
    let places = changed_places(tables);
    put_trees(page, items, tables, places);
    put_roots(
        page,
        items,
        file.definitions.indexes.as_slice(),
        tables,
        places,
    );
    put_referents(page, &tree_of_referents(&file.referents));
    put_accepted(page, version);
}

/// Puts the trees of the tables at these places into the slots of their numbers, where they have changed. No other has.
fn put_trees(page: &mut Page, items: &[StoredTable], tables: &[OpenedTable], places: Places)
    requires many { length items.now ≡ length tables.now }
    requires below { AllByRecursion (λ item. item.number < TABLES) (map said_table items.now) }
    requires once { (number : ℕ) → times (map (λ item. item.number) (map said_table items.now)) number ≤ 1 }
    requires changed { HaveChangedWithin places.from places.to (length tables.now) tables.now }
    ensures { PutsTrees (map said_table items.now) tables.now (map said_table items.now) tables.now page.old.bytes page.new.bytes }
{
    for place in places.from..places.to {
        let table = &tables[place];
        if table.records.is_changed() {
            put_tree(page, items[place].number, &tree_of_records(&table.records));
        }
    }
}

/// Puts the roots of the indexes of the tables at these places into the slots of their numbers, where a table has one that has changed.
/// No other has.
fn put_roots(
    page: &mut Page,
    items: &[StoredTable],
    indexes: &[StoredIndex],
    tables: &[OpenedTable],
    places: Places,
)
    requires many { AllZip (HasAsMany (map said_index indexes.now)) (map said_table items.now) tables.now }
    requires tables_once { (number : ℕ) → times (map (λ item. item.number) (map said_table items.now)) number ≤ 1 }
    requires below { AllByRecursion (λ index. index.number < INDEXES) (map said_index indexes.now) }
    requires once { (number : ℕ) → times (map (λ index. index.number) (map said_index indexes.now)) number ≤ 1 }
    requires changed { HaveChangedWithin places.from places.to (length tables.now) tables.now }
    ensures { PutsRoots (map said_index indexes.now) (map said_table items.now) tables.now (map said_table items.now) tables.now page.old.bytes page.new.bytes }
{
    for place in places.from..places.to {
        let table = &tables[place];
        if has_changed(table.indexes.as_slice()) {
            put_roots_on(page, indexes, items[place].number, table.indexes.as_slice());
        }
    }
}

/// Puts the roots of the indexes of the table with this number.
fn put_roots_on(page: &mut Page, items: &[StoredIndex], table: u32, indexes: &[AttrIndex])
    requires many { length (indexes_on (map said_index items.now) table) ≡ length indexes.now }
    requires below { AllByRecursion (λ index. index.number < INDEXES) (map said_index items.now) }
    requires once { (number : ℕ) → times (map (λ index. index.number) (map said_index items.now)) number ≤ 1 }
    ensures { PutsRootsOn (indexes_on (map said_index items.now) table) indexes.now page.old.bytes page.new.bytes }
{
    let mut next = 0;
    for item in items {
        if item.table == table {
            put_root(page, item.number, indexes[next].root());
            next += 1;
        }
    }
}

/// The tree of a table's records.
fn tree_of_records(records: &EventTable) -> StoredTree
    ensures { said_tree result ≡ item_of records.now.working }
{
    StoredTree {
        root: records.root(),
        living: records.living(),
        garbage: records.garbage(),
    }
}

/// The tree of the referents.
fn tree_of_referents(referents: &ReferentTable) -> StoredTree
    ensures { said_tree result ≡ item_of referents.now.working }
{
    StoredTree {
        root: referents.root(),
        living: referents.living(),
        garbage: referents.garbage(),
    }
}

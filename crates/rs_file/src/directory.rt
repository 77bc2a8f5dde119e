//! This module makes the directory of what is open: each table's tree and each index's root is in the slot of its number.

ghost use Rattle.std.specs.Prelude.{◌≡◌, ◌<◌, ◌≤◌, ◌^◌, ℕ, All, IfOk, length, map};
ghost use Rattle.std.specs.List.{AllByRecursion, AllZip};
ghost use Rattle.rs_catalog_pages.specs.Fitting.{FitsDirectory, FitsTree};
ghost use Rattle.rs_catalog_pages.specs.Said.{said_catalogue, said_directory, said_index, said_table, said_tree};
ghost use Rattle.rs_file.specs.Contents.{AreGivenOnce, AreSaid, Contents, item_of, no_tree};
ghost use Rattle.rs_file.specs.Opening.{IsOpened};
ghost use Rattle.rs_file.specs.Slots.{ArePut, AreRoots, AreTrees, HasAsMany, IsOfItem, indexes_on, said_roots};
ghost use Rattle.rs_page_owners.specs.Counts.{times};

use crate::opened::OpenedTable;
use rs_attr::AttrIndex;
use rs_catalog_pages::{
    FixedList, INDEXES, StoredCatalogue, StoredDirectory, StoredIndex, StoredRoot, StoredTable,
    StoredTree, TABLES,
};
use rs_page::PageNumber;
use rs_versioned::{EventTable, ReferentTable};
use std::alloc::{AllocError, Global};

/// The directory of these tables with their indexes, of the referents, and of the version that was accepted last.
pub fn directory_of(
    alloc: Global,
    definitions: &StoredCatalogue,
    tables: &[OpenedTable],
    referents: &ReferentTable,
    accepted: u64,
) -> Result<StoredDirectory, AllocError>
    requires given { AreGivenOnce (said_catalogue definitions.now) }
    requires tables { AllZip (IsOfItem (said_catalogue definitions.now)) (said_catalogue definitions.now).tables tables.now }
    ensures fits { IfOk result (λ directory. FitsDirectory (said_directory directory)) }
    ensures accepted { IfOk result (λ directory. directory.accepted ≡ accepted) }
    ensures said { IfOk result (λ directory. (contents : Contents) → contents.definitions ≡ said_catalogue definitions.now
        → AllZip IsOpened tables.now contents.tables → contents.referents.standing ≡ referents.now.working
        → AreSaid (record contents { directory = said_directory directory })) }
{
    let items = definitions.tables.as_slice();
    let trees = trees_of(alloc, items, tables)?;
    let roots = roots_of(alloc, items, definitions.indexes.as_slice(), tables)?;
    Ok(StoredDirectory {
        tables: FixedList { list: trees },
        indexes: FixedList { list: roots },
        referents: referents_tree(referents),
        accepted,
    })
}

/// The tree of the referents.
fn referents_tree(referents: &ReferentTable) -> StoredTree
    ensures tree { said_tree result ≡ item_of referents.now.working }
    ensures fits { FitsTree (said_tree result) }
{
    stored_tree(referents.root(), referents.living(), referents.garbage())
}

/// The tree of a table's records.
fn records_tree(records: &EventTable) -> StoredTree
    ensures tree { said_tree result ≡ item_of records.now.working }
    ensures fits { FitsTree (said_tree result) }
{
    stored_tree(records.root(), records.living(), records.garbage())
}

/// A tree with this root.
fn stored_tree(root: PageNumber, living: u64, garbage: u64) -> StoredTree
    ensures root { result.root ≡ root }
    ensures living { result.living ≡ living }
    ensures garbage { result.garbage ≡ garbage }
    ensures fits { FitsTree (said_tree result) }
{
    let root = PageNumber::new(root.number());
    StoredTree {
        root,
        living,
        garbage,
    }
}

/// This root.
fn stored_root(root: PageNumber) -> StoredRoot
    ensures root { result.root ≡ root }
    ensures fits { result.root < 2 ^ 32 }
{
    let root = PageNumber::new(root.number());
    StoredRoot { root }
}

/// The trees of these tables by their numbers.
fn trees_of(
    alloc: Global,
    items: &[StoredTable],
    tables: &[OpenedTable],
) -> Result<Vec<StoredTree>, AllocError>
    requires many { length items.now ≡ length tables.now }
    requires below { AllByRecursion (λ item. item.number < TABLES) (map said_table items.now) }
    requires once { (number : ℕ) → times (map (λ item. item.number) (map said_table items.now)) number ≤ 1 }
    ensures { IfOk result (λ trees. AreTrees (map said_table items.now) tables.now (map said_tree trees.items)) }
{
    let mut trees = no_trees(alloc)?;
    for (place, table) in tables.iter().enumerate() {
        trees[items[place].number as usize] = records_tree(&table.records);
    }
    Ok(trees)
}

/// No tree under any number.
fn no_trees(alloc: Global) -> Result<Vec<StoredTree>, AllocError>
    ensures many { IfOk result (λ trees. length trees.items ≡ TABLES) }
    ensures none { IfOk result (λ trees. AllByRecursion (λ tree. said_tree tree ≡ no_tree) trees.items) }
{
    let mut trees = Vec::with_capacity(alloc, TABLES as usize)?;
    for _ in 0..TABLES {
        trees.push(stored_tree(PageNumber::new(0), 0, 0))?;
    }
    Ok(trees)
}

/// The roots of the indexes of these tables by their numbers.
fn roots_of(
    alloc: Global,
    items: &[StoredTable],
    indexes: &[StoredIndex],
    tables: &[OpenedTable],
) -> Result<Vec<StoredRoot>, AllocError>
    requires many { AllZip (HasAsMany (map said_index indexes.now)) (map said_table items.now) tables.now }
    requires tables_once { (number : ℕ) → times (map (λ item. item.number) (map said_table items.now)) number ≤ 1 }
    requires below { AllByRecursion (λ index. index.number < INDEXES) (map said_index indexes.now) }
    requires once { (number : ℕ) → times (map (λ index. index.number) (map said_index indexes.now)) number ≤ 1 }
    ensures { IfOk result (λ roots. AreRoots (map said_index indexes.now) (map said_table items.now) tables.now (said_roots roots.items)) }
{
    let mut roots = no_roots(alloc)?;
    for (place, table) in tables.iter().enumerate() {
        put_roots(
            &mut roots,
            indexes,
            items[place].number,
            table.indexes.as_slice(),
        );
    }
    Ok(roots)
}

/// No root under any number.
fn no_roots(alloc: Global) -> Result<Vec<StoredRoot>, AllocError>
    ensures many { IfOk result (λ roots. length roots.items ≡ INDEXES) }
    ensures none { IfOk result (λ roots. AllByRecursion (λ root. root.root ≡ 0) roots.items) }
{
    let mut roots = Vec::with_capacity(alloc, INDEXES as usize)?;
    for _ in 0..INDEXES {
        roots.push(stored_root(PageNumber::new(0)))?;
    }
    Ok(roots)
}

/// Puts the roots of the indexes of the table with this number into the slots of their numbers. All other slots stay.
fn put_roots(roots: &mut Vec<StoredRoot>, items: &[StoredIndex], table: u32, indexes: &[AttrIndex])
    requires slots { length roots.old.items ≡ INDEXES }
    requires fit { All (λ root. root < 2 ^ 32) (said_roots roots.old.items) }
    requires many { length (indexes_on (map said_index items.now) table) ≡ length indexes.now }
    requires below { AllByRecursion (λ index. index.number < INDEXES) (map said_index items.now) }
    requires once { (number : ℕ) → times (map (λ index. index.number) (map said_index items.now)) number ≤ 1 }
    ensures { ArePut (indexes_on (map said_index items.now) table) indexes.now (said_roots roots.old.items) (said_roots roots.new.items) }
{
    let mut next = 0;
    for item in items {
        if item.table == table {
            roots[item.number as usize] = stored_root(indexes[next].root());
            next += 1;
        }
    }
}

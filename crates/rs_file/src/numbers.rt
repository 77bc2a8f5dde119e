//! This module checks the numbers of tables and indexes: each is given once, and the directory has nothing under the others.

ghost use Rattle.std.specs.Prelude.{◌≡◌, ◌<◌, ◌≤◌, ◌↔◌, ℕ, Some, IsTrue, IsOkUnless, OnErr, OnOk, length, map, slice_get};
ghost use Rattle.std.specs.List.{AllByRecursion};
ghost use Rattle.rs_catalog_pages.specs.Said.{said_catalogue, said_directory, said_tree};
ghost use Rattle.rs_file.specs.Contents.{AreNumbered, no_tree};
ghost use Rattle.rs_page_owners.specs.Counts.{times};

use rs_catalog_pages::{
    INDEXES, StoredCatalogue, StoredDirectory, StoredIndex, StoredRoot, StoredTable, StoredTree,
    TABLES,
};
use rs_refusal::Refusal;

/// Ok exactly where each number of a table or an index is below its limit and given once, each index is of a table, and the
/// directory has nothing under a number that is not given; 94 where not.
pub fn check_numbers(
    catalogue: &StoredCatalogue,
    directory: &StoredDirectory,
) -> Result<(), Refusal>
    requires tables { length directory.now.tables.list.items ≡ TABLES }
    requires indexes { length directory.now.indexes.list.items ≡ INDEXES }
    ensures numbered { OnOk result (AreNumbered (said_catalogue catalogue.now) (said_directory directory.now)) }
    ensures none { OnErr result (AreNumbered (said_catalogue catalogue.now) (said_directory directory.now) → ⊥) }
    ensures refused { IsOkUnless result Refusal.DamagedFile }
{
    let tables = catalogue.tables.as_slice();
    let indexes = catalogue.indexes.as_slice();
    if are_tables_numbered(tables)
        && are_indexes_numbered(indexes, tables)
        && has_no_other_table(tables, directory.tables.list.as_slice())
        && has_no_other_index(indexes, directory.indexes.list.as_slice())
    {
        Ok(())
    } else {
        Err(Refusal::DamagedFile)
    }
}

/// Whether each number of a table is below the limit and given once.
fn are_tables_numbered(tables: &[StoredTable]) -> bool
    ensures { IsTrue result ↔ (AllByRecursion (λ table. table.number < TABLES) tables.now
        × ((number : ℕ) → times (map (λ table. table.number) tables.now) number ≤ 1)) }
{
    for table in tables {
        if !is_table_numbered(table, tables) {
            return false;
        }
    }
    true
}

/// Whether the number of a table is below the limit, and one of these tables has it.
fn is_table_numbered(table: &StoredTable, tables: &[StoredTable]) -> bool
    ensures { IsTrue result ↔ ((table.now.number < TABLES) × (times (map (λ other. other.number) tables.now) table.now.number ≡ 1)) }
{
    table.number < TABLES && tables_with(tables, table.number) == 1
}

/// Whether each number of an index is below the limit and given once, and each index is of one of the tables.
fn are_indexes_numbered(indexes: &[StoredIndex], tables: &[StoredTable]) -> bool
    ensures { IsTrue result ↔ (AllByRecursion (λ index. index.number < INDEXES) indexes.now
        × ((number : ℕ) → times (map (λ index. index.number) indexes.now) number ≤ 1)
        × AllByRecursion (λ index. 0 < times (map (λ table. table.number) tables.now) index.table) indexes.now) }
{
    for index in indexes {
        if !is_index_numbered(index, indexes, tables) {
            return false;
        }
    }
    true
}

/// Whether the number of an index is below the limit, one of these indexes has it, and it is of one of the tables.
fn is_index_numbered(index: &StoredIndex, indexes: &[StoredIndex], tables: &[StoredTable]) -> bool
    ensures { IsTrue result ↔ ((index.now.number < INDEXES) × (times (map (λ other. other.number) indexes.now) index.now.number ≡ 1)
        × (0 < times (map (λ table. table.number) tables.now) index.now.table)) }
{
    index.number < INDEXES
        && indexes_with(indexes, index.number) == 1
        && tables_with(tables, index.table) > 0
}

/// Whether the directory has no tree under a number that no table has.
fn has_no_other_table(tables: &[StoredTable], trees: &[StoredTree]) -> bool
    requires { length trees.now ≡ TABLES }
    ensures { IsTrue result ↔ ((number : ℕ) → number < TABLES → times (map (λ table. table.number) tables.now) number ≡ 0
        → slice_get (map said_tree trees.now) number ≡ Some no_tree) }
{
    for number in 0..TABLES {
        if !is_no_tree(&trees[number as usize]) && tables_with(tables, number) == 0 {
            return false;
        }
    }
    true
}

/// Whether the directory says that there is no tree.
fn is_no_tree(tree: &StoredTree) -> bool
    ensures { IsTrue result ↔ (said_tree tree.now ≡ no_tree) }
{
    tree.root.number() == 0 && tree.living == 0 && tree.garbage == 0
}

/// Whether the directory has no root under a number that no index has.
fn has_no_other_index(indexes: &[StoredIndex], roots: &[StoredRoot]) -> bool
    requires { length roots.now ≡ INDEXES }
    ensures { IsTrue result ↔ ((number : ℕ) → number < INDEXES → times (map (λ index. index.number) indexes.now) number ≡ 0
        → slice_get (map (λ (root : StoredRoot). root.root) roots.now) number ≡ Some 0) }
{
    for number in 0..INDEXES {
        if roots[number as usize].root.number() != 0 && indexes_with(indexes, number) == 0 {
            return false;
        }
    }
    true
}

/// How many tables have this number.
fn tables_with(tables: &[StoredTable], number: u32) -> usize
    ensures { result ≡ times (map (λ table. table.number) tables.now) number }
{
    tables.iter().filter(|table| table.number == number).count()
}

/// How many indexes have this number.
fn indexes_with(indexes: &[StoredIndex], number: u32) -> usize
    ensures { result ≡ times (map (λ index. index.number) indexes.now) number }
{
    indexes
        .iter()
        .filter(|index| index.number == number)
        .count()
}

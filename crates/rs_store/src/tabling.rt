//! This module defines and drops the tables of a store: each call is one change of the state, whole or not at all.

ghost use Rattle.std.specs.Prelude.{◌≡◌, ◌≤◌, ◌<◌, ◌+◌, ℕ, true, false, map, IfOk, OnOk};
ghost use Rattle.std.specs.FinMap as names;
ghost use Rattle.std.specs.List.{AllByRecursion};
ghost use Rattle.rs_catalog.specs.Changes as changes;
ghost use Rattle.rs_catalog.specs.Definitions.{AreDefinitions, IsFree, TableItem};
ghost use Rattle.rs_catalog_pages.specs.Said.{said_catalogue};
ghost use Rattle.rs_stored_catalog.specs.Listing.{listing_of};
ghost use Rattle.rs_machine.specs.Lawful.{AreColumnsOfTable, IsLawful};
ghost use Rattle.rs_machine.specs.State.{State, has};
ghost use Rattle.rs_machine.specs.Step.{empty_table, with_table, without_table};
ghost use Rattle.rs_machine.specs.declared.limits.TheConstants.{CHANGES, TABLES};
ghost use Rattle.rs_changes.specs.Calls.{MayChange};
ghost use Rattle.rs_store.specs.Bracket.{StandsNext};
ghost use Rattle.rs_store.specs.Changing.{LeavesStore};
ghost use Rattle.rs_store.specs.Kept.{IsAtRest};
ghost use Rattle.rs_store.specs.Rewriting.{Redefines, RedefinesNumbered, Rewrites};
ghost use Rattle.rs_store.specs.Tabling.{HasColumnsAt, HasNumbered, HasNumberedMore, PutsNumbered, TakesNamed, without_number};
ghost use Rattle.rs_syntax.specs.View.{column_tree};

use crate::bracket::{begin_change, kept_change_gives_its_state, settle};
use crate::placing::{numbered_at, table_place};
use crate::rewriting::check_definitions;
use crate::store::Store;
use rs_catalog::Catalog;
use rs_catalog_pages::{StoredCatalogue, StoredTable};
use rs_changes::rs_change_laws::tables::{
    table_defined_gives_its_state, table_dropped_gives_its_state,
};
use rs_disk::Disk;
use rs_file::laws::tables_of_lines_fit_pages;
use rs_file::{OpenedFile, schema_of};
use rs_machine_laws::view_lines::shortest_line_defines_the_view;
use rs_methods::Name;
use rs_pages::Pages;
use rs_refusal::Refusal;
use rs_stored_catalog::listing_laws::one_table_is_listed_more_or_less;
use rs_stored_catalog::stored_of;
use rs_syntax::ColumnDefinition;
use rs_value::{Kind, Schema};
use std::alloc::{AllocError, Global};

impl<D: Disk> Store<D> {
    /// Defines a table without rows under the least number that no table has. Versions from `oldest` on see what they saw. It is refused
    /// with 90, with 91, and with 92 where the file is full; with 94 only where the disk does not give back what was written. A refusal
    /// changes nothing.
    pub fn define_table(
        &mut self,
        alloc: Global,
        oldest: u64,
        kind: Kind,
        name: Name,
        columns: Vec<ColumnDefinition>,
    ) -> Result<(), Refusal>
        requires new { has self.old.catalog.tables name.bytes ≡ false }
        requires columns { AreColumnsOfTable (map column_tree columns.items) }
        requires few { names.len self.old.catalog.tables < TABLES }
        requires room { self.old.file.accepted < CHANGES }
        ensures leaves { LeavesStore D.Disk (λ (state : State). IsLawful (with_table state name.bytes (empty_table kind (map column_tree columns.items)))) result self.old self.new }
        ensures defines { StandsNext D.Disk oldest (λ (state : State). IsLawful (with_table state name.bytes (empty_table kind (map column_tree columns.items))))
            (λ state. with_table state name.bytes (empty_table kind (map column_tree columns.items))) result self.old self.new }
    {
        kept_change_gives_its_state::<D>();
        table_defined_gives_its_state();
        shortest_line_defines_the_view();
        self.catalog.stand();
        begin_change(&mut self.pager)?;
        let made = define_table_in_both(
            alloc,
            &mut self.pager,
            &mut self.file,
            &mut self.catalog,
            oldest,
            TableDefinition {
                kind,
                name,
                columns,
            },
        );
        settle(&mut self.pager, &mut self.file, made)
    }

    /// Drops a table with its rows and its indexes, where no version before the next one is live. It is refused as `define_table` is.
    pub fn drop_table(&mut self, alloc: Global, oldest: u64, name: &Name) -> Result<(), Refusal>
        requires there { has self.old.catalog.tables name.now.bytes ≡ true }
        requires room { self.old.file.accepted < CHANGES }
        ensures leaves { LeavesStore D.Disk (λ (state : State). IsLawful (without_table state name.now.bytes)) result self.old self.new }
        ensures drops { oldest ≡ self.old.file.accepted + 1 → StandsNext D.Disk oldest (λ (state : State). IsLawful (without_table state name.now.bytes))
            (λ state. without_table state name.now.bytes) result self.old self.new }
    {
        kept_change_gives_its_state::<D>();
        table_dropped_gives_its_state();
        shortest_line_defines_the_view();
        self.catalog.stand();
        begin_change(&mut self.pager)?;
        let made = drop_table_from_both(
            alloc,
            &mut self.pager,
            &mut self.file,
            &mut self.catalog,
            oldest,
            name,
        );
        settle(&mut self.pager, &mut self.file, made)
    }
}

/// A table as a line defines it.
#[derive(Drop)]
struct TableDefinition {
    kind: Kind,
    name: Name,
    columns: Vec<ColumnDefinition>,
}

/// Puts a new table into memory, under the least number that none has, and then into the file; where the file refuses it, it goes out of
/// memory again.
fn define_table_in_both<P: Pages>(
    alloc: Global,
    pages: &mut P,
    file: &mut OpenedFile,
    catalog: &mut Catalog,
    oldest: u64,
    table: TableDefinition,
) -> Result<(), Refusal>
    requires begun { (P.store pages.old).is_begun ≡ true }
    requires rests { IsAtRest file.old catalog.old }
    requires room { file.old.accepted < CHANGES }
    requires new { has catalog.old.tables table.name.bytes ≡ false }
    requires columns { AreColumnsOfTable (map column_tree table.columns.items) }
    requires few { names.len catalog.old.tables < TABLES }
    ensures { let next = λ (number : ℕ). changes.with_table catalog.old table.name.bytes (record { number = number; kind = table.kind; columns = map column_tree table.columns.items }) in
        RedefinesNumbered P.is_tied P.store P.keeps oldest (λ number. AreDefinitions (next number) × IsFree (λ (item : TableItem). item.number) catalog.old.tables number
        × HasNumberedMore number (said_catalogue file.old.definitions) (listing_of (next number)))
        (λ number. PutsNumbered number (listing_of (next number))) next result pages.old pages.new file.old file.new catalog.old catalog.new }
{
    one_table_is_listed_more_or_less();
    tables_of_lines_fit_pages();
    let TableDefinition {
        kind,
        name,
        columns,
    } = table;
    catalog.stand();
    let number = catalog.define_table(name, kind, columns)?;
    catalog.stand();
    let made = write_table(alloc, pages, file, catalog, oldest, number);
    if made.is_err() {
        catalog.drop_table(&name);
    }
    made
}

/// Takes a table out of the file and then out of memory; where the file refuses that, it stays in both.
fn drop_table_from_both<P: Pages>(
    alloc: Global,
    pages: &mut P,
    file: &mut OpenedFile,
    catalog: &mut Catalog,
    oldest: u64,
    name: &Name,
) -> Result<(), Refusal>
    requires begun { (P.store pages.old).is_begun ≡ true }
    requires rests { IsAtRest file.old catalog.old }
    requires room { file.old.accepted < CHANGES }
    requires there { has catalog.old.tables name.now.bytes ≡ true }
    ensures { let next = changes.without_table catalog.old name.now.bytes in
        Redefines P.is_tied P.store P.keeps oldest (TakesNamed catalog.old.tables name.now.bytes (listing_of next)) next result pages.old pages.new file.old file.new catalog.old catalog.new }
{
    catalog.stand();
    erase_table(alloc, pages, file, catalog, oldest, name)?;
    catalog.drop_table(name);
    Ok(())
}

/// Writes the definitions of this catalogue into the file, which has all its tables but the one of this number, and puts that there. It
/// is refused with 90, with 91, with 92 where the file is full, and with 94 where a file can't keep the definitions or the disk does not
/// give back what was written.
fn write_table<P: Pages>(
    alloc: Global,
    pages: &mut P,
    file: &mut OpenedFile,
    catalog: &Catalog,
    oldest: u64,
    number: u32,
) -> Result<(), Refusal>
    requires begun { (P.store pages.old).is_begun ≡ true }
    requires may { MayChange file.old }
    requires room { file.old.accepted < CHANGES }
    requires births { AllByRecursion (λ route. route.born ≤ file.old.accepted + 1) (listing_of catalog.now).routes }
    requires more { HasNumberedMore number (said_catalogue file.old.definitions) (listing_of catalog.now) }
    ensures { Rewrites P.is_tied P.store P.keeps oldest (PutsNumbered number (listing_of catalog.now)) (listing_of catalog.now) result pages.old pages.new file.old file.new }
{
    catalog.stand();
    let stored = stored_of(alloc, &file.definitions, catalog)?;
    check_definitions(&stored)?;
    let (place, schema) = columns_at(stored.tables.as_slice(), number);
    rs_changes::define_table(alloc, pages, file, oldest, stored, place, schema)
}

/// The place of the table of this number, which is one of these, and its columns.
fn columns_at(tables: &[StoredTable], number: u32) -> (usize, Schema)
    requires there { HasNumbered tables.now number }
    ensures at { HasColumnsAt tables.now number result.0 result.1.items }
{
    let place = numbered_at(tables, number).unwrap();
    (place, schema_of(&tables[place]).unwrap())
}

/// Takes the table of this name out of the file, whose definitions this catalogue lists, and writes those without it. It is refused as
/// `write_table` is.
fn erase_table<P: Pages>(
    alloc: Global,
    pages: &mut P,
    file: &mut OpenedFile,
    catalog: &Catalog,
    oldest: u64,
    name: &Name,
) -> Result<(), Refusal>
    requires begun { (P.store pages.old).is_begun ≡ true }
    requires rests { IsAtRest file.old catalog.now }
    requires room { file.old.accepted < CHANGES }
    requires there { has catalog.now.tables name.now.bytes ≡ true }
    ensures { let items = listing_of (changes.without_table catalog.now name.now.bytes) in
        Rewrites P.is_tied P.store P.keeps oldest (TakesNamed catalog.now.tables name.now.bytes items) items result pages.old pages.new file.old file.new }
{
    one_table_is_listed_more_or_less();
    catalog.stand();
    let number = catalog.table(name).unwrap().number();
    let stored = stored_without_table(alloc, &file.definitions, catalog, number)?;
    check_definitions(&stored)?;
    let place = table_place(file, catalog, name);
    rs_changes::drop_table(alloc, pages, file, oldest, stored, place)
}

/// The definitions of the catalogue as a file keeps them, without the table of this number and its indexes. The only refusal is for want
/// of memory.
fn stored_without_table(
    alloc: Global,
    former: &StoredCatalogue,
    catalog: &Catalog,
    number: u32,
) -> Result<StoredCatalogue, AllocError>
    ensures { IfOk result (λ stored. said_catalogue stored ≡ without_number number (listing_of catalog.now)) }
{
    let mut stored = stored_of(alloc, former, catalog)?;
    stored.tables.retain(|table| table.number != number);
    stored.indexes.retain(|index| index.table != number);
    Ok(stored)
}

//! This module defines and drops the indexes of a store: each call is one change of the state, whole or not at all.

ghost use Rattle.std.specs.Prelude.{◌≡◌, ◌≤◌, ◌<◌, ◌+◌, ℕ, true, false, map, IfOk, OnOk, Some};
ghost use Rattle.std.specs.FinMap as names;
ghost use Rattle.std.specs.List.{AllByRecursion};
ghost use Rattle.rs_catalog.specs.Changes as changes;
ghost use Rattle.rs_catalog.specs.Definitions.{AreDefinitions, IndexItem, IsColumnOf, TableItem};
ghost use Rattle.rs_catalog_pages.specs.Said.{said_catalogue, said_index};
ghost use Rattle.rs_stored_catalog.specs.Listing.{listing_of};
ghost use Rattle.rs_machine.specs.Lawful.{IsLawful};
ghost use Rattle.rs_machine.specs.State.{State, has};
ghost use Rattle.rs_machine.specs.Step.{with_index, without_index};
ghost use Rattle.rs_machine.specs.declared.limits.TheConstants.{CHANGES, INDEXES};
ghost use Rattle.rs_changes.specs.Calls.{MayChange};
ghost use Rattle.rs_store.specs.Bracket.{StandsNext};
ghost use Rattle.rs_store.specs.Changing.{LeavesStore};
ghost use Rattle.rs_store.specs.Indexing.{ChangesListed, HasIndexListed, position_among, without_index_numbered};
ghost use Rattle.rs_store.specs.Kept.{IsAtRest};
ghost use Rattle.rs_store.specs.Placing.{IsPlaceOf};
ghost use Rattle.rs_store.specs.Rewriting.{Redefines, RedefinesNumbered, Rewrites};

use crate::bracket::{begin_change, kept_change_gives_its_state, settle};
use crate::placing::table_place;
use crate::rewriting::check_definitions;
use crate::store::Store;
use rs_catalog::Catalog;
use rs_catalog_pages::{StoredCatalogue, StoredIndex, StoredRoute};
use rs_changes::rs_change_laws::tables::index_listed_gives_its_state;
use rs_changes::{IndexPlace, NewIndex};
use rs_disk::Disk;
use rs_file::OpenedFile;
use rs_file::laws::tables_of_lines_fit_pages;
use rs_machine_laws::view_lines::shortest_line_defines_the_view;
use rs_methods::Name;
use rs_pages::Pages;
use rs_refusal::Refusal;
use rs_stored_catalog::listing_laws::one_index_is_listed_more_or_less;
use rs_stored_catalog::stored_of;
use std::alloc::{AllocError, Global};

impl<D: Disk> Store<D> {
    /// Defines an index of a column of a table, by its name and its number, under the least number that no index has. Versions from
    /// `oldest` on see what they saw. It is refused with 90, with 91, and with 92 where the file is full; with 94 only where the disk
    /// does not give back what was written. A refusal changes nothing.
    pub fn define_index(
        &mut self,
        alloc: Global,
        oldest: u64,
        name: Name,
        table: Name,
        table_number: u32,
        column: u8,
    ) -> Result<(), Refusal>
        requires new { has self.old.catalog.indexes name.bytes ≡ false }
        requires of { IsColumnOf self.old.catalog.tables table.bytes table_number column }
        requires few { names.len self.old.catalog.indexes < INDEXES }
        requires room { self.old.file.accepted < CHANGES }
        ensures leaves { LeavesStore D.Disk (λ (state : State). IsLawful (with_index state name.bytes (record { table = table.bytes; column = column }))) result self.old self.new }
        ensures defines { StandsNext D.Disk oldest (λ (state : State). IsLawful (with_index state name.bytes (record { table = table.bytes; column = column })))
            (λ state. with_index state name.bytes (record { table = table.bytes; column = column })) result self.old self.new }
    {
        kept_change_gives_its_state::<D>();
        index_listed_gives_its_state();
        shortest_line_defines_the_view();
        self.catalog.stand();
        let place = table_place(&self.file, &self.catalog, &table);
        begin_change(&mut self.pager)?;
        let made = define_index_in_both(
            alloc,
            &mut self.pager,
            &mut self.file,
            &mut self.catalog,
            oldest,
            place,
            IndexDefinition {
                name,
                table,
                table_number,
                column,
            },
        );
        settle(&mut self.pager, &mut self.file, made)
    }

    /// Drops an index. It is refused as `define_index` is.
    pub fn drop_index(&mut self, alloc: Global, oldest: u64, name: &Name) -> Result<(), Refusal>
        requires there { has self.old.catalog.indexes name.now.bytes ≡ true }
        requires room { self.old.file.accepted < CHANGES }
        ensures leaves { LeavesStore D.Disk (λ (state : State). IsLawful (without_index state name.now.bytes)) result self.old self.new }
        ensures drops { StandsNext D.Disk oldest (λ (state : State). IsLawful (without_index state name.now.bytes)) (λ state. without_index state name.now.bytes) result self.old self.new }
    {
        kept_change_gives_its_state::<D>();
        index_listed_gives_its_state();
        shortest_line_defines_the_view();
        self.catalog.stand();
        begin_change(&mut self.pager)?;
        let made = drop_index_from_both(
            alloc,
            &mut self.pager,
            &mut self.file,
            &mut self.catalog,
            oldest,
            name,
        );
        settle(&mut self.pager, &mut self.file, made)
    }
}

/// An index as a line defines it, with the number of its table.
struct IndexDefinition {
    name: Name,
    table: Name,
    table_number: u32,
    column: u8,
}

/// Puts a new index of the table at the place into memory, under the least number that none has, and then into the file; where the file
/// refuses it, it goes out of memory again.
fn define_index_in_both<P: Pages>(
    alloc: Global,
    pages: &mut P,
    file: &mut OpenedFile,
    catalog: &mut Catalog,
    oldest: u64,
    place: usize,
    index: IndexDefinition,
) -> Result<(), Refusal>
    requires begun { (P.store pages.old).is_begun ≡ true }
    requires rests { IsAtRest file.old catalog.old }
    requires room { file.old.accepted < CHANGES }
    requires new { has catalog.old.indexes index.name.bytes ≡ false }
    requires of { IsColumnOf catalog.old.tables index.table.bytes index.table_number index.column }
    requires few { names.len catalog.old.indexes < INDEXES }
    requires place { (item : TableItem) → names.get catalog.old.tables index.table.bytes ≡ Some item → IsPlaceOf file.old item place }
    ensures { let next = λ (number : ℕ). changes.with_index catalog.old index.name.bytes (record { number = number; table = index.table.bytes; table_number = index.table_number; column = index.column }) in
        RedefinesNumbered P.is_tied P.store P.keeps oldest (λ number. AreDefinitions (next number)) (λ number. ChangesListed (listing_of (next number)))
        next result pages.old pages.new file.old file.new catalog.old catalog.new }
{
    one_index_is_listed_more_or_less();
    tables_of_lines_fit_pages();
    let IndexDefinition {
        name,
        table,
        table_number,
        column,
    } = index;
    catalog.stand();
    let _number = catalog.define_index(name, table, table_number, column)?;
    catalog.stand();
    let made = write_index(alloc, pages, file, catalog, oldest, place, &name);
    if made.is_err() {
        catalog.drop_index(&name);
    }
    made
}

/// Takes an index out of the file and then out of memory; where the file refuses that, it stays in both.
fn drop_index_from_both<P: Pages>(
    alloc: Global,
    pages: &mut P,
    file: &mut OpenedFile,
    catalog: &mut Catalog,
    oldest: u64,
    name: &Name,
) -> Result<(), Refusal>
    requires begun { (P.store pages.old).is_begun ≡ true }
    requires rests { IsAtRest file.old catalog.old }
    requires room { file.old.accepted < CHANGES }
    requires there { has catalog.old.indexes name.now.bytes ≡ true }
    ensures { let next = changes.without_index catalog.old name.now.bytes in
        Redefines P.is_tied P.store P.keeps oldest (ChangesListed (listing_of next)) next result pages.old pages.new file.old file.new catalog.old catalog.new }
{
    catalog.stand();
    erase_index(alloc, pages, file, catalog, oldest, name)?;
    catalog.drop_index(name);
    Ok(())
}

/// Writes the definitions of this catalogue into the file, which has all its indexes but the one of this name, and makes that of the
/// table at the place. It is refused with 90, with 91, with 92 where the file is full, and with 94 where a file can't keep the
/// definitions or the disk does not give back what was written.
fn write_index<P: Pages>(
    alloc: Global,
    pages: &mut P,
    file: &mut OpenedFile,
    catalog: &Catalog,
    oldest: u64,
    place: usize,
    name: &Name,
) -> Result<(), Refusal>
    requires begun { (P.store pages.old).is_begun ≡ true }
    requires may { MayChange file.old }
    requires room { file.old.accepted < CHANGES }
    requires births { AllByRecursion (λ route. route.born ≤ file.old.accepted + 1) (listing_of catalog.now).routes }
    requires there { has catalog.now.indexes name.now.bytes ≡ true }
    requires more { (item : IndexItem) → names.get catalog.now.indexes name.now.bytes ≡ Some item
        → HasIndexListed name.now.bytes item place (said_catalogue file.old.definitions) (listing_of catalog.now) }
    ensures { Rewrites P.is_tied P.store P.keeps oldest (ChangesListed (listing_of catalog.now)) (listing_of catalog.now) result pages.old pages.new file.old file.new }
{
    catalog.stand();
    let index = catalog.index(name).unwrap();
    let stored = stored_of(alloc, &file.definitions, catalog)?;
    check_definitions(&stored)?;
    let position = position_of(
        stored.indexes.as_slice(),
        index.number(),
        index.table_number(),
    );
    let routes = numbers_of(alloc, stored.routes.as_slice())?;
    let column = usize::from(index.column());
    let at = NewIndex {
        table: place,
        position,
        column,
    };
    rs_changes::define_index(alloc, pages, file, oldest, stored, at, &routes)
}

/// Takes the index of this name out of the file, whose definitions this catalogue lists, and writes those without it. It is refused as
/// `write_index` is.
fn erase_index<P: Pages>(
    alloc: Global,
    pages: &mut P,
    file: &mut OpenedFile,
    catalog: &Catalog,
    oldest: u64,
    name: &Name,
) -> Result<(), Refusal>
    requires begun { (P.store pages.old).is_begun ≡ true }
    requires rests { IsAtRest file.old catalog.now }
    requires room { file.old.accepted < CHANGES }
    requires there { has catalog.now.indexes name.now.bytes ≡ true }
    ensures { let items = listing_of (changes.without_index catalog.now name.now.bytes) in
        Rewrites P.is_tied P.store P.keeps oldest (ChangesListed items) items result pages.old pages.new file.old file.new }
{
    one_index_is_listed_more_or_less();
    catalog.stand();
    let index = catalog.index(name).unwrap();
    let number = index.number();
    let place = table_place(file, catalog, index.table());
    let position = position_of(
        file.definitions.indexes.as_slice(),
        number,
        index.table_number(),
    );
    let stored = stored_without_index(alloc, &file.definitions, catalog, number)?;
    check_definitions(&stored)?;
    let at = IndexPlace {
        table: place,
        position,
    };
    rs_changes::drop_index(alloc, pages, file, oldest, stored, at)
}

/// The definitions of the catalogue as a file keeps them, without the index of this number. The only refusal is for want of memory.
fn stored_without_index(
    alloc: Global,
    former: &StoredCatalogue,
    catalog: &Catalog,
    number: u32,
) -> Result<StoredCatalogue, AllocError>
    ensures { IfOk result (λ stored. said_catalogue stored ≡ without_index_numbered number (listing_of catalog.now)) }
{
    let mut stored = stored_of(alloc, former, catalog)?;
    stored.indexes.retain(|index| index.number != number);
    Ok(stored)
}

/// How many indexes of the table come before the one of this number.
fn position_of(indexes: &[StoredIndex], number: u32, table: u32) -> usize
    ensures { result ≡ position_among number table (map said_index indexes.now) }
{
    let mut position = 0;
    for index in indexes {
        if index.number == number {
            return position;
        }
        if index.table == table {
            position += 1;
        }
    }
    position
}

/// The numbers of the routes.
fn numbers_of(alloc: Global, routes: &[StoredRoute]) -> Result<Vec<u32>, AllocError> {
    routes.iter().map(|route| route.number).collect(alloc)
}

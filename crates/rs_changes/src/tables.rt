//! Tables and indexes that come or go, each with the definitions that name it.
//!
//! Records are cleared first, then the part changes, and at last the definitions and the directory are written. Where they are not,
//! what is open gets its tables and indexes back, which takes no memory.

ghost use Rattle.std.specs.Prelude.{◌≡◌, ◌≤◌, ◌<◌, ◌+◌, ◌*◌, ℕ, true, length, Err, IfOk, IsOk, IsOkUnless, OnErr, OnOk};
ghost use Rattle.std.specs.List.{AllByRecursion, insert};
ghost use Rattle.std.specs.Vec.{vec_capacity, vec_len};
ghost use Rattle.rs_attr.specs.Calls as attr;
ghost use Rattle.rs_attr.specs.Entries.{FitsPages};
ghost use Rattle.rs_attr.specs.Tables.{AreOn};
ghost use Rattle.rs_catalog_pages.specs.Fitting.{FitsCatalogue, IsShort};
ghost use Rattle.rs_catalog_pages.specs.Said.{said_catalogue};
ghost use Rattle.rs_file.specs.Contents.{AreGivenOnce};
ghost use Rattle.rs_file.specs.declared.opened.OpenedTable.{OpenedTable};
ghost use Rattle.rs_file_parts.specs.Calls.{Leaves};
ghost use Rattle.rs_file_parts.specs.Parts.{HaveAllDiedBy, IsReady, KeepsCommitted, KeepsOpened, Makes};
ghost use Rattle.rs_machine.specs.declared.limits.TheConstants.{CHANGES};
ghost use Rattle.rs_pages.specs.PageMap.{PageMap};
ghost use Rattle.rs_changes.specs.Calls.{Changes, ComesNext, LeavesFile, MayDefine};
ghost use Rattle.rs_changes.specs.Tables.{ComesTable, Empties, HasIndexAt, HasIndexOfAt, HasTableAt, HoldsNoneBeside, IsIndexPut, IsIndexTaken, IsTablePut, IsWritten, KeepsEvents, LeavesNext, LosesTableAt, Writes};
ghost use Rattle.rs_change_laws.specs.Parts.{ChangesIndexes, PutsTable, TakesTable};
ghost use Rattle.rs_versioned.specs.Events.{event_width};

use rs_attr::{AttrIndex, define};
use rs_catalog_pages::StoredCatalogue;
use rs_file::{OpenedFile, OpenedTable};
use rs_file_parts::{clear, restore_definitions, write_definitions, write_directory};
use rs_pages::Pages;
use rs_refusal::Refusal;
use rs_value::Schema;
use rs_versioned::EventTable;
use std::alloc::Global;

/// How many records that no live version sees are cleared, where there are so many.
const CLEARED: u64 = 64;

/// Where an index is: its table's place among the tables of the file, and its position among the indexes of that table.
#[derive(Clone, Copy)]
pub struct IndexPlace {
    /// The table's place.
    pub table: usize,
    /// The position among its indexes.
    pub position: usize,
}

/// An index that is made: where it comes, and the column that it is of.
#[derive(Clone, Copy)]
pub struct NewIndex {
    /// The table's place.
    pub table: usize,
    /// The position among its indexes.
    pub position: usize,
    /// The column's place.
    pub column: usize,
}

/// Puts a table without events at its place, and writes the definitions, which have that table more. Versions from `oldest` on see what
/// they saw. It is refused with 90, with 91, with 92 where the file is full, and with 94 only where the file holds no contents with what
/// is open.
pub fn define_table<P: Pages>(
    alloc: Global,
    pages: &mut P,
    file: &mut OpenedFile,
    oldest: u64,
    definitions: StoredCatalogue,
    place: usize,
    schema: Schema,
) -> Result<(), Refusal>
    requires may { MayDefine P.Pages file.old definitions pages.old }
    requires given { AreGivenOnce (said_catalogue definitions) }
    requires more { HasTableAt place schema.items (said_catalogue file.old.definitions) (said_catalogue definitions) }
    ensures leaves { LeavesFile P.Pages file.old result pages.old pages.new }
    ensures puts { Changes P.Pages oldest file.old file.new (PutsTable place schema.items (said_catalogue definitions)) result pages.old pages.new }
    ensures opened { ComesNext definitions result file.old file.new }
{
    let version = file.accepted + 1;
    clear(alloc, pages, file, oldest, CLEARED, version as usize)?;
    put_table(alloc, file, place, schema)?;
    match write_next(alloc, pages, file, definitions) {
        Ok(()) => Ok(()),
        Err(why) => {
            let _table = file.tables.remove(place);
            Err(why)
        }
    }
}

/// Takes the table at the place away with its events and its indexes, and writes the definitions, which are without it and them. It is
/// refused as `define_table` is.
pub fn drop_table<P: Pages>(
    alloc: Global,
    pages: &mut P,
    file: &mut OpenedFile,
    oldest: u64,
    definitions: StoredCatalogue,
    place: usize,
) -> Result<(), Refusal>
    requires may { MayDefine P.Pages file.old definitions pages.old }
    requires given { AreGivenOnce (said_catalogue definitions) }
    requires less { LosesTableAt place (said_catalogue file.old.definitions) (said_catalogue definitions) }
    ensures leaves { LeavesFile P.Pages file.old result pages.old pages.new }
    ensures takes { Changes P.Pages oldest file.old file.new (TakesTable place (said_catalogue definitions)) result pages.old pages.new }
    ensures opened { ComesNext definitions result file.old file.new }
{
    empty_place(pages, file, place)?;
    let version = file.accepted + 1;
    clear(alloc, pages, file, oldest, CLEARED, version as usize)?;
    let table = file.tables.remove(place);
    match write_next(alloc, pages, file, definitions) {
        Ok(()) => Ok(()),
        Err(why) => {
            let _put = put_at(&mut file.tables, place, table);
            Err(why)
        }
    }
}

/// Makes the index of a column of a table from the events that the table has, and writes the definitions, which have that index more.
/// The table's records are read from route to route, in the order of the numbers that are given; any list of them makes the same index.
/// It is refused as `define_table` is.
pub fn define_index<P: Pages>(
    alloc: Global,
    pages: &mut P,
    file: &mut OpenedFile,
    oldest: u64,
    definitions: StoredCatalogue,
    place: NewIndex,
    routes: &[u32],
) -> Result<(), Refusal>
    requires may { MayDefine P.Pages file.old definitions pages.old }
    requires given { AreGivenOnce (said_catalogue definitions) }
    requires more { HasIndexOfAt place.table place.position place.column (said_catalogue file.old.definitions) (said_catalogue definitions) }
    ensures leaves { LeavesFile P.Pages file.old result pages.old pages.new }
    ensures changes { Changes P.Pages oldest file.old file.new (ChangesIndexes place.table (said_catalogue definitions)) result pages.old pages.new }
    ensures opened { ComesNext definitions result file.old file.new }
{
    let version = file.accepted + 1;
    clear(alloc, pages, file, oldest, CLEARED, version as usize)?;
    put_index(
        alloc,
        pages,
        &mut file.tables[place.table],
        place.position,
        place.column,
        routes,
    )?;
    match write_next(alloc, pages, file, definitions) {
        Ok(()) => Ok(()),
        Err(why) => {
            let _index = file.tables[place.table].indexes.remove(place.position);
            Err(why)
        }
    }
}

/// Takes an index away, and writes the definitions, which are without it. It is refused as `define_table` is.
pub fn drop_index<P: Pages>(
    alloc: Global,
    pages: &mut P,
    file: &mut OpenedFile,
    oldest: u64,
    definitions: StoredCatalogue,
    place: IndexPlace,
) -> Result<(), Refusal>
    requires may { MayDefine P.Pages file.old definitions pages.old }
    requires given { AreGivenOnce (said_catalogue definitions) }
    requires less { HasIndexAt place.table place.position (said_catalogue definitions) (said_catalogue file.old.definitions) }
    ensures leaves { LeavesFile P.Pages file.old result pages.old pages.new }
    ensures changes { Changes P.Pages oldest file.old file.new (ChangesIndexes place.table (said_catalogue definitions)) result pages.old pages.new }
    ensures opened { ComesNext definitions result file.old file.new }
{
    let version = file.accepted + 1;
    clear(alloc, pages, file, oldest, CLEARED, version as usize)?;
    let index = take_index(pages, &mut file.tables[place.table], place.position)?;
    match write_next(alloc, pages, file, definitions) {
        Ok(()) => Ok(()),
        Err(why) => {
            let _put = put_at(&mut file.tables[place.table].indexes, place.position, index);
            Err(why)
        }
    }
}

/// Writes these definitions of what is open, and the directory, with the next version as the one that was accepted last. It is refused
/// with 90, with 91, with 92 where the file is full, and with 94 only where no contents lie there with what is open, beside a directory;
/// what is open is as it was then.
fn write_next<P: Pages>(
    alloc: Global,
    pages: &mut P,
    file: &mut OpenedFile,
    definitions: StoredCatalogue,
) -> Result<(), Refusal>
    requires begun { (P.store pages.old).is_begun ≡ true }
    requires ready { IsReady (record file.old { definitions = definitions }) }
    requires room { file.old.accepted < CHANGES }
    requires fits { FitsCatalogue (said_catalogue definitions) }
    requires short { IsShort (said_catalogue definitions) }
    requires births { AllByRecursion (λ route. route.born ≤ file.old.accepted + 1) (said_catalogue definitions).routes }
    ensures leaves { LeavesNext P.Pages (HoldsNoneBeside (P.store pages.old).map file.old) result pages.old pages.new }
    ensures writes { Writes P.Pages (said_catalogue definitions) file.old file.new result pages.old pages.new }
    ensures opened { OnOk result (IsWritten definitions file.old file.new) }
    ensures stays { OnErr result (file.new ≡ file.old) }
{
    let version = file.accepted + 1;
    let former = write_definitions(alloc, pages, file, definitions)?;
    match write_directory(alloc, pages, file, version) {
        Ok(()) => {
            file.accepted = version;
            Ok(())
        }
        Err(why) => {
            restore_definitions(file, former);
            Err(why)
        }
    }
}

/// Puts a table of these columns, without events and indexes, at the place. It is refused with 90, and what is open is as it was then.
fn put_table(
    alloc: Global,
    file: &mut OpenedFile,
    place: usize,
    schema: Schema,
) -> Result<(), Refusal>
    requires place { place ≤ length file.old.tables.items }
    requires fits { 3 * (8 + event_width schema.items) ≤ 4080 }
    ensures makes { OnOk result ((map : PageMap) (accepted : ℕ) → Makes map map file.old file.new accepted accepted (ComesTable place schema.items)) }
    ensures put { OnOk result (IsTablePut place schema.items file.old file.new) }
    ensures stays { OnErr result (KeepsCommitted file.old file.new) }
    ensures refused { IsOkUnless result Refusal.OutOfMemory }
{
    let records = EventTable::new(alloc, schema);
    let indexes = Vec::new(alloc);
    put_at(&mut file.tables, place, OpenedTable { records, indexes })
}

/// Puts one at the place of a list. It is refused with 90 where the list is full and can't grow.
fn put_at<T: Drop>(list: &mut Vec<T>, place: usize, one: T) -> Result<(), Refusal>
    requires place { place ≤ length list.old.items }
    ensures put { OnOk result (list.new.items ≡ insert list.old.items place one) }
    ensures stays { OnErr result (list.new.items ≡ list.old.items) }
    ensures room { vec_len list.old < vec_capacity list.old → IsOk result }
    ensures refused { IsOkUnless result Refusal.OutOfMemory }
{
    match list.insert(place, one) {
        Ok(()) => Ok(()),
        Err(_) => Err(Refusal::OutOfMemory),
    }
}

/// Makes the index of a column of the table from its events, and puts it at the position among its indexes. It is refused with 90, with
/// 91, with 92 where the file is full, and with 94 only where no such table with its indexes lies there with pages of their own.
fn put_index<P: Pages>(
    alloc: Global,
    pages: &mut P,
    table: &mut OpenedTable,
    position: usize,
    column: usize,
    routes: &[u32],
) -> Result<(), Refusal>
    requires begun { (P.store pages.old).is_begun ≡ true }
    requires column { column < length table.old.records.types }
    requires fits { FitsPages table.old.records.types column }
    requires position { position ≤ length table.old.indexes.items }
    ensures leaves { attr.Leaves P.Pages table.old.records table.old.indexes.items result pages.old pages.new }
    ensures changes { KeepsEvents P.Pages table.old table.new result pages.old pages.new }
    ensures put { OnOk result (IsIndexPut position column table.old table.new) }
    ensures table { OnErr result (KeepsOpened table.old table.new) }
{
    let index = define(alloc, pages, &table.records, column, routes)?;
    put_at(&mut table.indexes, position, index)
}

/// Takes all entries out of the index at the position among the table's indexes, and takes it away from them. It is refused with 90,
/// with 91, and with 94 only where no such table with its indexes lies there with pages of their own.
fn take_index<P: Pages>(
    pages: &mut P,
    table: &mut OpenedTable,
    position: usize,
) -> Result<AttrIndex, Refusal>
    requires begun { (P.store pages.old).is_begun ≡ true }
    requires position { position < length table.old.indexes.items }
    requires indexes { AreOn table.old.records.types table.old.indexes.items }
    ensures leaves { attr.Leaves P.Pages table.old.records table.old.indexes.items result pages.old pages.new }
    ensures changes { KeepsEvents P.Pages table.old table.new result pages.old pages.new }
    ensures taken { IfOk result (IsIndexTaken position table.old table.new) }
    ensures table { OnErr result (KeepsOpened table.old table.new) }
{
    table.indexes[position].clear(pages)?;
    Ok(table.indexes.remove(position))
}

/// Takes all events out of the table at this place, and all entries out of its indexes. It is refused with 90, with 91, and with 94 only
/// where no contents lie there with what is open.
fn empty_place<P: Pages>(pages: &mut P, file: &mut OpenedFile, place: usize) -> Result<(), Refusal>
    requires begun { (P.store pages.old).is_begun ≡ true }
    requires ready { IsReady file.old }
    requires place { place < length file.old.tables.items }
    ensures leaves { Leaves P.Pages file.old result pages.old pages.new }
    ensures makes { Empties P.Pages file.old file.new place result pages.old pages.new }
    ensures keeps { KeepsCommitted file.old file.new }
    ensures order { (version : ℕ) → HaveAllDiedBy version file.old → OnOk result (HaveAllDiedBy version file.new) }
{
    empty_table(pages, &mut file.tables[place])
}

/// Takes all events out of a table, and all entries out of its indexes.
fn empty_table<P: Pages>(pages: &mut P, table: &mut OpenedTable) -> Result<(), Refusal>
    requires begun { (P.store pages.old).is_begun ≡ true }
    requires indexes { AreOn table.old.records.types table.old.indexes.items }
    ensures leaves { attr.Leaves P.Pages table.old.records table.old.indexes.items result pages.old pages.new }
    ensures clears { attr.Clears P.Pages table.old.records table.old.indexes.items table.new.records table.new.indexes.items result pages.old pages.new }
    ensures empty { OnOk result (attr.IsEmpty table.new.records table.new.indexes.items) }
    ensures table { KeepsOpened table.old table.new }
{
    rs_attr::clear(pages, &mut table.records, &mut table.indexes)
}

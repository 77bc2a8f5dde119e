//! This module reads the rows of a store's tables, by the numbers of tables, indexes and routes.

ghost use Rattle.std.specs.Prelude.{◌≡◌, ◌≢◌, Err, IfNone, IfOk, IfSome, MatchResult, Some, count_by, map};
ghost use Rattle.std.specs.FinMap as names;
ghost use Rattle.std.specs.List.{AllByRecursion};
ghost use Rattle.rs_catalog.specs.Definitions.{TableItem};
ghost use Rattle.rs_catalog_pages.specs.Said.{said_catalogue, said_index};
ghost use Rattle.rs_file.specs.Calls.{RefusesToLoad};
ghost use Rattle.rs_file.specs.Contents.{Contents};
ghost use Rattle.rs_file.specs.declared.opened.OpenedTable.{OpenedTable};
ghost use Rattle.rs_table_reads.specs.Events.{AreEvents, SaysSpans};
ghost use Rattle.rs_table_reads.specs.Found.{IsIndexed};
ghost use Rattle.rs_table_reads.specs.Read.{spans_in};
ghost use Rattle.rs_facts.specs.Fact.{Name};
ghost use Rattle.rs_facts.specs.Spans.{ArePlaced, seen};
ghost use Rattle.rs_file_parts.specs.Parts.{IsReady};
ghost use Rattle.rs_machine.specs.Checks.{column_types};
ghost use Rattle.rs_pager.specs.Maps.{IsTied, working};
ghost use Rattle.rs_pager.specs.Opened.{CountsFault};
ghost use Rattle.rs_file_meaning.specs.Seen.{events_of};
ghost use Rattle.rs_store.specs.Kept.{Keeps};
ghost use Rattle.rs_store.specs.Placing.{HasNoNumber};
ghost use Rattle.rs_store.specs.Reading.{GivesValue, HasNoIndex, HasRead, HasReadIndex, IsIndexAt, IsTableNumbered, ReadsStore, is_of_key, lives, living_of};
ghost use Rattle.rs_value.specs.Values.{IsRowOf};
ghost use Rattle.rs_value.specs.View.{literal_datum};

use crate::placing::numbered_at;
use crate::store::Store;
use rs_catalog_pages::StoredIndex;
use rs_disk::Disk;
use rs_facts::Span;
use rs_file::{OpenedFile, OpenedTable};
use rs_refusal::Refusal;
use rs_table_reads::{ColumnIndex, FoundEvents, RouteWindow};
use rs_value::Literal;
use std::alloc::Global;

/// An index by its number, with the number of the table and the place of the column that it is of.
#[derive(Clone, Copy)]
pub struct IndexKey {
    /// The table's number.
    pub table: u32,
    /// The index's number.
    pub number: u32,
    /// The column's place, the leftmost 0.
    pub column: u8,
}

impl<D: Disk> Store<D> {
    /// The spans of the table with this number in the window, in the order in which they are printed, and how many pages were read:
    /// two for each level of the table's tree and as many more for each event that overlaps the window, of whatever version, at the
    /// most. Spans that are not placed as the kind asks are left out; there are none where no table has the number. Where the catalogue
    /// has it, each row is one of the table's columns. It is refused with 90, with 91, and with 94 only where the disk does not give
    /// back what was written. Nothing that is kept changes, whatever is answered.
    pub fn spans(
        &mut self,
        alloc: Global,
        table: u32,
        window: RouteWindow,
    ) -> Result<(Vec<Span>, u32), Refusal>
        ensures reads { ReadsStore D.Disk self.old self.new }
        ensures count { MatchResult result (λ _. D.failures self.new.pager.disk ≡ D.failures self.old.pager.disk)
            (λ why. CountsFault why (D.failures self.old.pager.disk) (D.failures self.new.pager.disk)) }
        ensures gives { (contents : Contents) → Keeps D.Disk self.old contents
            → IfOk result (λ found. map seen found.0.items ≡ spans_in window (events_of contents table)) }
        ensures pages { IsTied D.Disk self.old.pager → IfOk result (λ found. HasRead (working D.Disk self.old.pager) self.old.file table window found.1) }
        ensures placed { IfOk result (λ found. ArePlaced window.kind (map seen found.0.items)) }
        ensures rows { (name : Name) (item : TableItem) → names.get self.old.catalog.tables name ≡ Some item → item.number ≡ table
            → IfOk result (λ found. AllByRecursion (λ span. IsRowOf (column_types item.columns) span.row) (map seen found.0.items)) }
        ensures sound { (contents : Contents) → Keeps D.Disk self.old contents → result ≢ Err Refusal.DamagedFile }
        ensures refused { RefusesToLoad result }
    {
        self.catalog.stand();
        match numbered(&self.file, table) {
            Some(opened) => rs_table_reads::spans(alloc, &mut self.pager, opened, window),
            None => Ok((Vec::new(alloc), 0)),
        }
    }

    /// The events of the table with this number that overlap the window, in the order in which their spans are printed; none where no
    /// table has the number. Their spans are those that `spans` gives, and it is refused as `spans` is. Nothing that is kept changes,
    /// whatever is answered.
    pub fn found_events(
        &mut self,
        alloc: Global,
        table: u32,
        window: RouteWindow,
    ) -> Result<FoundEvents, Refusal>
        ensures reads { ReadsStore D.Disk self.old self.new }
        ensures count { MatchResult result (λ _. D.failures self.new.pager.disk ≡ D.failures self.old.pager.disk)
            (λ why. CountsFault why (D.failures self.old.pager.disk) (D.failures self.new.pager.disk)) }
        ensures are { IfOk result AreEvents }
        ensures says { (contents : Contents) → Keeps D.Disk self.old contents
            → IfOk result (λ found. SaysSpans found (spans_in window (events_of contents table))) }
        ensures sound { (contents : Contents) → Keeps D.Disk self.old contents → result ≢ Err Refusal.DamagedFile }
        ensures refused { RefusesToLoad result }
    {
        self.catalog.stand();
        match numbered(&self.file, table) {
            Some(opened) => rs_table_reads::found_events(alloc, &mut self.pager, opened, window),
            None => Ok(FoundEvents::none(alloc, window)),
        }
    }

    /// The spans that `spans` gives of the table of the index, but only those that have the value in its column, found by the index;
    /// and how many pages were read: two for each level of the index and as many more for each event with the value on the route, of
    /// whatever version, that begins before the window ends, at the most. Where the file has no such index of the table, all that
    /// `spans` gives. It is refused as `spans` is. Nothing that is kept changes, whatever is answered.
    pub fn spans_with(
        &mut self,
        alloc: Global,
        key: IndexKey,
        value: &Literal,
        window: RouteWindow,
    ) -> Result<(Vec<Span>, u32), Refusal>
        ensures reads { ReadsStore D.Disk self.old self.new }
        ensures count { MatchResult result (λ _. D.failures self.new.pager.disk ≡ D.failures self.old.pager.disk)
            (λ why. CountsFault why (D.failures self.old.pager.disk) (D.failures self.new.pager.disk)) }
        ensures gives { (contents : Contents) → Keeps D.Disk self.old contents
            → IfOk result (λ found. GivesValue self.old.file key (literal_datum value.now) window (events_of contents key.table) (map seen found.0.items)) }
        ensures pages { IsTied D.Disk self.old.pager
            → IfOk result (λ found. HasReadIndex (working D.Disk self.old.pager) self.old.file key (literal_datum value.now) window found.1) }
        ensures placed { IfOk result (λ found. ArePlaced window.kind (map seen found.0.items)) }
        ensures rows { (name : Name) (item : TableItem) → names.get self.old.catalog.tables name ≡ Some item → item.number ≡ key.table
            → IfOk result (λ found. AllByRecursion (λ span. IsRowOf (column_types item.columns) span.row) (map seen found.0.items)) }
        ensures sound { (contents : Contents) → Keeps D.Disk self.old contents → result ≢ Err Refusal.DamagedFile }
        ensures refused { RefusesToLoad result }
    {
        self.catalog.stand();
        let Some(opened) = numbered(&self.file, key.table) else {
            return Ok((Vec::new(alloc), 0));
        };
        let Some(at) = indexed_at(&self.file, key) else {
            return rs_table_reads::spans(alloc, &mut self.pager, opened, window);
        };
        rs_table_reads::spans_with(alloc, &mut self.pager, opened, at, value, window)
    }

    /// How many events of the table with this number live; 0 where no table has it.
    pub fn records(&self, table: u32) -> u64
        ensures counted { result ≡ living_of self.now.file table }
        ensures living { (contents : Contents) → Keeps D.Disk self.now contents → result ≡ count_by lives (events_of contents table) }
    {
        match numbered(&self.file, table) {
            Some(opened) => opened.records.living(),
            None => 0,
        }
    }
}

/// The open table with this number.
fn numbered(file: &OpenedFile, number: u32) -> Option<&OpenedTable>
    requires ready { IsReady file.now }
    ensures found { IfSome result (λ table. IsTableNumbered file.now number table.now) }
    ensures none { IfNone result (HasNoNumber file.now.definitions.tables.items number) }
{
    let place = numbered_at(file.definitions.tables.as_slice(), number)?;
    Some(&file.tables[place])
}

/// Where the index of this number is among those of the table, if it is of the table and the column.
fn indexed_at(file: &OpenedFile, key: IndexKey) -> Option<ColumnIndex>
    requires ready { IsReady file.now }
    ensures at { IfSome result (λ at. IsIndexAt (said_catalogue file.now.definitions).indexes key at.position) }
    ensures indexed { IfSome result (λ at. (at.column ≡ key.column)
        × ((table : OpenedTable) → IsTableNumbered file.now key.table table → IsIndexed table at)) }
    ensures none { IfNone result (HasNoIndex (said_catalogue file.now.definitions).indexes key) }
{
    let position = position_of_key(file.definitions.indexes.as_slice(), key)?;
    Some(ColumnIndex {
        position,
        column: usize::from(key.column),
    })
}

/// How many indexes of the table come before the one that the key is of.
fn position_of_key(indexes: &[StoredIndex], key: IndexKey) -> Option<usize>
    ensures found { IfSome result (IsIndexAt (map said_index indexes.now) key) }
    ensures none { IfNone result (HasNoIndex (map said_index indexes.now) key) }
{
    let mut position = 0;
    for place in 0..indexes.len() {
        if is_of_key(&indexes[place], key) {
            return Some(position);
        }
        if indexes[place].table == key.table {
            position += 1;
        }
    }
    None
}

/// Whether the index has the key's number, and is of its table and column.
fn is_of_key(index: &StoredIndex, key: IndexKey) -> bool
    ensures { result ≡ is_of_key key (said_index index.now) }
{
    index.table == key.table && index.number == key.number && index.column == key.column
}

//! This module reads the columns of a table and its indexes off its definitions and the directory.

ghost use Rattle.std.specs.Prelude.{◌≡◌, ◌≤◌, ◌+◌, ◌*◌, ◌==◌, ◌⊎◌, Err, IfErr, IfNone, IfOk, IfSome, List, filter, length, map};
ghost use Rattle.std.specs.List.{AllByRecursion, AllZip};
ghost use Rattle.rs_page.specs.declared.header.TheConstants.{PAGE_ROOM};
ghost use Rattle.rs_attr.specs.Tables.{IndexState};
ghost use Rattle.rs_catalog_pages.specs.Said.{said_column, said_directory, said_index, said_table};
ghost use Rattle.rs_file.specs.Contents.{IsIndex, type_of};
ghost use Rattle.rs_refusal.specs.declared.refusal.Refusal.TheVariants as refusals;
ghost use Rattle.rs_value.specs.declared.column.TheConstants.{COLUMNS};
ghost use Rattle.rs_versioned.specs.Events.{event_width};

use rs_attr::AttrIndex;
use rs_catalog_pages::{StoredColumn, StoredDirectory, StoredIndex, StoredTable};
use rs_refusal::Refusal;
use rs_tree::GREATEST_ENTRY;
use rs_value::{ColumnType, Schema, column_width, row_width};
use rs_versioned::event::EVENT_BYTES;
use std::alloc::Global;

/// The bytes of an entry of an inner page of a table's tree beside its cell.
const TABLE_ENTRY_FRONT: usize = 8;

/// The bytes of such an entry of an index's tree beside its value and its cell.
const INDEX_ENTRY_FRONT: usize = 4;

/// The columns of a table; none where they are too many, or three entries of an inner page of its tree would not fit it.
pub fn schema_of(table: &StoredTable) -> Option<Schema>
    ensures columns { IfSome result (λ schema. schema.items ≡ map type_of (said_table table.now).columns) }
    ensures fits { IfSome result (λ schema. (length (said_table table.now).columns ≤ COLUMNS) × (3 * (8 + event_width schema.items) ≤ PAGE_ROOM)) }
    ensures none { IfNone result (length (said_table table.now).columns ≤ COLUMNS
        → 3 * (8 + event_width (map type_of (said_table table.now).columns)) ≤ PAGE_ROOM → ⊥) }
{
    let mut schema = Schema::new();
    for column in table.columns.list.as_slice() {
        if schema.is_full() {
            return None;
        }
        schema.push(type_of(column));
    }
    if row_width(&schema) > GREATEST_ENTRY - TABLE_ENTRY_FRONT - EVENT_BYTES {
        return None;
    }
    Some(schema)
}

/// The type of a column.
fn type_of(column: &StoredColumn) -> ColumnType
    ensures { result ≡ type_of (said_column column.now) }
{
    if column.type_code == 0 {
        ColumnType::Int
    } else {
        ColumnType::Text(column.type_code)
    }
}

/// The indexes of the table with this number, in their order. It is refused with 90, and with 94 only where one of them is
/// of no column, has no root in the directory, or three entries of an inner page of its tree would not fit it.
pub fn indexes_of(
    alloc: Global,
    schema: &Schema,
    number: u32,
    items: &[StoredIndex],
    directory: &StoredDirectory,
) -> Result<Vec<AttrIndex>, Refusal>
    ensures indexes { IfOk result (λ indexes. AllZip (IsIndex schema.now.items (said_directory directory.now))
        (filter (λ index. index.table == number) (map said_index items.now)) indexes.items) }
    ensures none { result ≡ Err Refusal.DamagedFile → (states : List IndexState) → AllZip (IsIndex schema.now.items (said_directory directory.now))
        (filter (λ index. index.table == number) (map said_index items.now)) states → ⊥ }
    ensures committed { IfOk result (λ indexes. AllByRecursion (λ index. index.committed ≡ index.working) indexes.items) }
    ensures refused { IfErr result (λ why. (why ≡ refusals.OutOfMemory) ⊎ (why ≡ refusals.DamagedFile)) }
{
    let mut indexes = Vec::new(alloc);
    for item in items {
        if item.table == number {
            let Some(index) = index_of(schema, item, directory) else {
                return Err(Refusal::DamagedFile);
            };
            indexes.push(index)?;
        }
    }
    Ok(indexes)
}

/// The index that an item says; none where it is of no column, has no root in the directory, or three entries of an inner page
/// of its tree would not fit it.
fn index_of(schema: &Schema, item: &StoredIndex, directory: &StoredDirectory) -> Option<AttrIndex>
    ensures is { IfSome result (IsIndex schema.now.items (said_directory directory.now) (said_index item.now)) }
    ensures committed { IfSome result (λ index. index.committed ≡ index.working) }
    ensures none { IfNone result ((state : IndexState) → IsIndex schema.now.items (said_directory directory.now) (said_index item.now) state → ⊥) }
{
    let column = usize::from(item.column);
    let root = directory
        .indexes
        .list
        .as_slice()
        .get(item.number as usize)?
        .root;
    let width = column_width(*schema.as_slice().get(column)?);
    if row_width(schema) > GREATEST_ENTRY - INDEX_ENTRY_FRONT - EVENT_BYTES - width {
        return None;
    }
    Some(AttrIndex::with(schema, column, root))
}

//! How many records of a file are dead and not cleared.

ghost use Rattle.std.specs.Prelude.{◌≡◌, ◌≤◌, ◌<◌, ◌+◌, ◌-◌, ◌^◌, ℕ, Some, length, min, slice_get};
ghost use Rattle.std.specs.List.{sum_by};
ghost use Rattle.rs_changes.specs.Garbage.{dead_of, garbage_of};
ghost use Rattle.rs_file.specs.declared.opened.OpenedTable.{OpenedTable};

use rs_file::opened::{OpenedFile, OpenedTable};

/// How many records of all tables and of the referents are dead and not cleared (2^64 - 1 at the most).
pub fn garbage(file: &OpenedFile) -> u64
    ensures { result ≡ min (garbage_of file.now) (2 ^ 64 - 1) }
{
    with_dead(file.referents.garbage(), file.tables.as_slice())
}

/// How many more records are dead than so many were before.
pub(crate) fn ended_since(file: &OpenedFile, before: u64) -> u64
    ensures { (dead : ℕ) → before ≡ min dead (2 ^ 64 - 1) → result ≤ garbage_of file.now - dead }
{
    garbage(file).saturating_sub(before)
}

/// How many records of the table at this place are dead and not cleared.
pub(crate) fn dead_at(file: &OpenedFile, place: usize) -> u64
    requires { place < length file.now.tables.items }
    ensures { (table : OpenedTable) → slice_get file.now.tables.items place ≡ Some table → result ≡ dead_of table }
{
    file.tables[place].records.garbage()
}

/// So many and the dead records of these tables (2^64 - 1 at the most).
fn with_dead(first: u64, tables: &[OpenedTable]) -> u64
    ensures { result ≡ min (first + sum_by dead_of tables.now) (2 ^ 64 - 1) }
{
    let mut count = first;
    for table in tables {
        count = count.saturating_add(table.records.garbage());
    }
    count
}

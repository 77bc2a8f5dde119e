//! This module finds out which tables may have changed since the last commit, and whether records are dead, at the cost of a few
//! instructions for each table that has not changed and has none.

ghost use Rattle.std.specs.Prelude.{◌≡◌, ◌≤◌, true, false, length};
ghost use Rattle.std.specs.List.{AllByRecursion};
ghost use Rattle.rs_file_parts.specs.Inner.{HaveChangedWithin, HasNoneDead};
ghost use Rattle.rs_file_parts.specs.Parts.{IsTableCommitted};

use rs_attr::AttrIndex;
use rs_file::OpenedTable;

/// How many tables are looked at together, with no branch in between.
const TOGETHER: usize = 8;

/// The places from one up to another.
#[derive(Clone, Copy)]
pub(crate) struct Places {
    pub from: usize,
    pub to: usize,
}

/// The places from the first table that may have changed since the last commit up to the one after the last.
pub(crate) fn changed_places(tables: &[OpenedTable]) -> Places
    ensures { HaveChangedWithin result.from result.to (length tables.now) tables.now }
{
    let mut places = Places { from: 0, to: 0 };
    let runs = tables.len() / TOGETHER;
    for run in 0..runs {
        let from = run * TOGETHER;
        if may_have_changed(&tables[from..from + TOGETHER]) {
            places = with_changed(places, tables, from, from + TOGETHER);
        }
    }
    with_changed(places, tables, runs * TOGETHER, tables.len())
}

/// These places, and those of the tables from one place up to another that may have changed.
#[inline(never)]
fn with_changed(places: Places, tables: &[OpenedTable], from: usize, to: usize) -> Places
    requires order { from ≤ to }
    requires inside { to ≤ length tables.now }
    requires before { HaveChangedWithin places.from places.to from tables.now }
    ensures { HaveChangedWithin result.from result.to to tables.now }
{
    let mut places = places;
    for place in from..to {
        if has_table_changed(&tables[place]) {
            let first = if places.from == places.to {
                place
            } else {
                places.from
            };
            places = Places {
                from: first,
                to: place + 1,
            };
        }
    }
    places
}

/// Whether one of these tables may have changed since the last commit, or has an index.
fn may_have_changed(tables: &[OpenedTable]) -> bool
    ensures { result ≡ false → AllByRecursion IsTableCommitted tables.now }
{
    let mut changed = false;
    let mut indexes = 0;
    for table in tables {
        changed |= table.records.is_changed();
        indexes |= table.indexes.len();
    }
    changed || indexes > 0
}

/// Whether a table or one of its indexes may have changed since the last commit.
fn has_table_changed(table: &OpenedTable) -> bool
    ensures { result ≡ false → IsTableCommitted table.now }
{
    table.records.is_changed() || has_changed(table.indexes.as_slice())
}

/// Whether one of these indexes may have changed since the last commit.
pub(crate) fn has_changed(indexes: &[AttrIndex]) -> bool
    ensures { result ≡ false → AllByRecursion (λ index. index.committed ≡ index.working) indexes.now }
{
    for index in indexes {
        if index.is_changed() {
            return true;
        }
    }
    false
}

/// Whether no record of these tables is dead.
pub(crate) fn have_none_dead(tables: &[OpenedTable]) -> bool
    ensures { result ≡ true → AllByRecursion HasNoneDead tables.now }
{
    let runs = tables.len() / TOGETHER;
    for run in 0..runs {
        let from = run * TOGETHER;
        if has_dead(&tables[from..from + TOGETHER]) {
            return false;
        }
    }
    !has_dead(&tables[runs * TOGETHER..])
}

/// Whether a record of these few tables is dead.
fn has_dead(tables: &[OpenedTable]) -> bool
    ensures { result ≡ false → AllByRecursion HasNoneDead tables.now }
{
    for table in tables {
        if table.records.garbage() > 0 {
            return true;
        }
    }
    false
}

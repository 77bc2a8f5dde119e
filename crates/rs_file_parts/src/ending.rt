//! This module keeps what was changed of what is open, or takes it back. Neither takes memory; the pages are to be committed or
//! abandoned with it.

ghost use Rattle.std.specs.Prelude.{◌≡◌, ℕ};
ghost use Rattle.std.specs.List.{AllZip};
ghost use Rattle.rs_file.specs.declared.opened.OpenedFile.{OpenedFile};
ghost use Rattle.rs_file_parts.specs.Calls.{StaysOpened};
ghost use Rattle.rs_file_parts.specs.Inner.{IsIndexKept, IsIndexTakenBack, IsTableKept, IsTableTakenBack};
ghost use Rattle.rs_file_parts.specs.Parts.{HaveAllDiedBy, IsAsItWas, IsCommitted, IsReady, KeepsCommitted};

use crate::looking::changed_places;
use rs_attr::AttrIndex;
use rs_file::{OpenedFile, OpenedTable};

/// Keeps what was changed since the last commit: what is open is the same, and is what stood there at the last commit.
pub fn keep(file: &mut OpenedFile)
    ensures committed { IsCommitted file.new }
    ensures stays { StaysOpened file.old file.new }
    ensures ready { IsReady file.old → IsReady file.new }
    ensures order { (version : ℕ) → HaveAllDiedBy version file.old → HaveAllDiedBy version file.new }
    ensures definitions { file.new.definitions ≡ file.old.definitions }
    ensures accepted { file.new.accepted ≡ file.old.accepted }
{
    let places = changed_places(file.tables.as_slice());
    for place in places.from..places.to {
        keep_table(&mut file.tables[place]);
    }
    file.referents.commit();
}

/// Takes back what was changed since the last commit. Where nothing else was, what is open is as it was then.
pub fn take_back(file: &mut OpenedFile)
    ensures back { (was : OpenedFile) → IsCommitted was → KeepsCommitted was file.old → IsAsItWas was file.new }
    ensures committed { IsCommitted file.new }
    ensures ready { IsReady file.old → IsReady file.new }
{
    for place in 0..file.tables.len() {
        take_back_table(&mut file.tables[place]);
    }
    file.referents.abandon();
}

/// Keeps what was changed of a table.
fn keep_table(table: &mut OpenedTable)
    ensures { IsTableKept table.old table.new }
{
    if table.records.is_changed() {
        table.records.commit();
    }
    keep_indexes(&mut table.indexes);
}

/// Keeps what was changed of these indexes.
fn keep_indexes(indexes: &mut [AttrIndex])
    ensures { AllZip IsIndexKept indexes.old indexes.new }
{
    for place in 0..indexes.len() {
        indexes[place].commit();
    }
}

/// Takes back what was changed of a table.
fn take_back_table(table: &mut OpenedTable)
    ensures { IsTableTakenBack table.old table.new }
{
    table.records.abandon();
    take_back_indexes(&mut table.indexes);
}

/// Takes back what was changed of these indexes.
fn take_back_indexes(indexes: &mut [AttrIndex])
    ensures { AllZip IsIndexTakenBack indexes.old indexes.new }
{
    for place in 0..indexes.len() {
        indexes[place].abandon();
    }
}

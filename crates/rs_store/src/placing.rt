//! This module finds the place of a table among those of a file, by its name and by its number.

ghost use Rattle.std.specs.Prelude.{◌≡◌, true, IfNone, IfSome, Some};
ghost use Rattle.std.specs.FinMap as names;
ghost use Rattle.rs_catalog.specs.Definitions.{TableItem};
ghost use Rattle.rs_machine.specs.State.{has};
ghost use Rattle.rs_store.specs.Kept.{IsAtRest};
ghost use Rattle.rs_store.specs.Placing.{HasNoNumber, IsNumberedAt, IsPlaceOf};

use rs_catalog::Catalog;
use rs_catalog_pages::StoredTable;
use rs_file::OpenedFile;
use rs_methods::Name;

/// The place of the table of this name among the file's, whose catalogue is in memory.
pub(crate) fn table_place(file: &OpenedFile, catalog: &Catalog, table: &Name) -> usize
    requires rests { IsAtRest file.now catalog.now }
    requires there { has catalog.now.tables table.now.bytes ≡ true }
    ensures { (item : TableItem) → names.get catalog.now.tables table.now.bytes ≡ Some item → IsPlaceOf file.now item result }
{
    catalog.stand();
    let number = catalog.table(table).unwrap().number();
    numbered_place(file, number)
}

/// The place of the table of this number among the file's, of which one has it.
pub(crate) fn numbered_place(file: &OpenedFile, number: u32) -> usize
    requires { HasNoNumber file.now.definitions.tables.items number → ⊥ }
    ensures { IsNumberedAt file.now.definitions.tables.items number result }
{
    numbered_at(file.definitions.tables.as_slice(), number).unwrap()
}

/// The place of the table of this number.
pub(crate) fn numbered_at(tables: &[StoredTable], number: u32) -> Option<usize>
    ensures found { IfSome result (IsNumberedAt tables.now number) }
    ensures none { IfNone result (HasNoNumber tables.now number) }
{
    for place in 0..tables.len() {
        if tables[place].number == number {
            return Some(place);
        }
    }
    None
}

//! These laws say that a file holds one thing at the most, and that a change of one part of it leaves all else.

ghost use Rattle.std.specs.Prelude.{◌≡◌, ◌≤◌, ◌<◌, ◌+◌, ◌*◌, ◌^◌, ℕ, List, ◌++◌, ◌∷◌, length, map};
ghost use Rattle.std.specs.List.{AllByRecursion, AllZip};
ghost use Rattle.rs_page.specs.declared.header.TheConstants.{PAGE_ROOM};
ghost use Rattle.rs_attr.specs.Entries.{FitsPages};
ghost use Rattle.rs_catalog_pages.specs.Chain.{StoresBytes};
ghost use Rattle.rs_catalog_pages.specs.Directory.{DirectoryItems, HasDirectory, StoresDirectory};
ghost use Rattle.rs_catalog_pages.specs.Items.{CatalogueItems, SaysCatalogue, TableItem};
ghost use Rattle.rs_catalog_pages.specs.Said.{said_catalogue};
ghost use Rattle.rs_file.specs.Contents.{AreGivenOnce, AreSaid, Contents, HasNoRoots, HoldsAll, HoldsParts, LiesTable, ReferentContents, SameContents, TableContents, beside_definitions, beside_referents, beside_table, table_pages};
ghost use Rattle.rs_file.specs.Opening.{IsFile};
ghost use Rattle.rs_file.specs.Slots.{IsOfItem};
ghost use Rattle.rs_file.specs.declared.opened.OpenedFile.{OpenedFile};
ghost use Rattle.rs_file.specs.declared.opened.OpenedTable.{OpenedTable};
ghost use Rattle.rs_page_owners.specs.Counts.{◌&◌, times};
ghost use Rattle.rs_page_owners.specs.Owners.{Moves, Shares};
ghost use Rattle.rs_pages.specs.PageMap.{PageMap};
ghost use Rattle.rs_tree.specs.declared.limits.TheConstants.{GREATEST_WIDTH};
ghost use Rattle.rs_value.specs.Encoding.{row_width, width};
ghost use Rattle.rs_value.specs.declared.column.ColumnType.{ColumnType};
ghost use Rattle.rs_value.specs.declared.column.TheConstants.{ROW_BYTES, TEXT_BYTES};
ghost use Rattle.rs_versioned.specs.Events.{event_width};
ghost use Rattle.rs_versioned.specs.declared.event.TheConstants.{EVENT_BYTES};
ghost use Rattle.rs_versioned.specs.Records.{HoldsRecords};
ghost use Rattle.rs_versioned.specs.Referents.{kept_referents};

/// A file holds one thing at the most.
pub fn file_holds_one_thing()
    ensures { (map : PageMap) (one other : Contents) → HoldsAll map one → HoldsAll map other → SameContents one other }
{}

/// Each part of a file has its pages beside those of all others.
pub fn each_part_has_its_pages()
    ensures table { (map : PageMap) (accepted : ℕ) (contents : Contents) (before after : List TableContents) (table : TableContents)
        → contents.tables ≡ before ++ table ∷ after → HoldsParts map accepted contents
        → Shares map (table_pages table & beside_table contents (before ++ after)) }
    ensures referents { (map : PageMap) (accepted : ℕ) (contents : Contents) → HoldsParts map accepted contents
        → Shares map (contents.referents.used & beside_referents contents) }
    ensures definitions { (map : PageMap) (accepted : ℕ) (contents : Contents) → HoldsParts map accepted contents
        → Shares map (times contents.pages & beside_definitions contents) }
{}

/// Where the pages of a table and its indexes have become those of another, all else stays.
pub fn changed_table_leaves_all_else()
    ensures parts { (old new : PageMap) (from to : ℕ) (contents : Contents) (before after : List TableContents) (table now : TableContents)
        → contents.tables ≡ before ++ table ∷ after → from ≤ to → HoldsParts old from contents
        → LiesTable new to now → Moves old new (table_pages table) (table_pages now)
        → HoldsParts new to (record contents { tables = before ++ now ∷ after }) }
    ensures directory { (old new : PageMap) (accepted : ℕ) (contents : Contents) (before after : List TableContents)
        (table : TableContents) (used : ℕ → ℕ) → contents.tables ≡ before ++ table ∷ after → HoldsParts old accepted contents
        → Moves old new (table_pages table) used → new.page 1 ≡ old.page 1 }
{}

/// Where the pages of the referents have become those of others, all else stays.
pub fn changed_referents_leave_all_else()
    ensures parts { (old new : PageMap) (from to : ℕ) (contents : Contents) (now : ReferentContents)
        → from ≤ to → HoldsParts old from contents
        → HoldsRecords kept_referents new now.standing to now.referents now.used → Moves old new contents.referents.used now.used
        → HoldsParts new to (record contents { referents = now }) }
    ensures directory { (old new : PageMap) (accepted : ℕ) (contents : Contents) (used : ℕ → ℕ) → HoldsParts old accepted contents
        → Moves old new contents.referents.used used → new.page 1 ≡ old.page 1 }
{}

/// Where other definitions were stored, all else stays.
pub fn changed_definitions_leave_all_else()
    ensures parts { (old new : PageMap) (from to : ℕ) (contents : Contents) (pages bytes : List ℕ) (definitions : CatalogueItems)
        → from ≤ to → HoldsParts old from contents → SaysCatalogue bytes definitions
        → StoresBytes old new contents.pages pages bytes
        → HoldsParts new to (record contents { definitions = definitions; pages = pages }) }
    ensures directory { (old new : PageMap) (accepted : ℕ) (contents : Contents) (pages bytes : List ℕ)
        → HoldsParts old accepted contents → StoresBytes old new contents.pages pages bytes → new.page 1 ≡ old.page 1 }
{}

/// Where another directory was stored in the place of one, all else stays.
pub fn changed_directory_leaves_all_else()
    ensures { (old new : PageMap) (from to : ℕ) (contents : Contents) (was now : DirectoryItems)
        → from ≤ to → HasDirectory old was → HoldsParts old from contents → StoresDirectory old new now
        → HoldsParts new to (record contents { directory = now }) }
{}

/// Where the directory that says what is open was stored in the place of another, the file holds all of it.
pub fn stored_directory_holds_all()
    ensures { (old new : PageMap) (from : ℕ) (contents : Contents) (was now : DirectoryItems)
        → from ≤ now.accepted → HasDirectory old was → HoldsParts old from contents → StoresDirectory old new now
        → AreSaid (record contents { directory = now }) → now.accepted < 2 ^ 63
        → AllByRecursion (λ route. route.born ≤ now.accepted) contents.definitions.routes
        → HoldsAll new (record contents { directory = now }) }
{}

/// The directory of a file that was loaded can be made.
pub fn loaded_file_has_its_directory()
    ensures given { (file : OpenedFile) → IsFile file → AreGivenOnce (said_catalogue file.definitions) }
    ensures tables { (file : OpenedFile) → IsFile file
        → AllZip (IsOfItem (said_catalogue file.definitions)) (said_catalogue file.definitions).tables file.tables.items }
{}

/// A table that has kept its columns and the fields of its indexes stays one that the directory can be made of.
pub fn changed_table_stays_of_its_item()
    ensures { (definitions : CatalogueItems) (item : TableItem) (old new : OpenedTable) → IsOfItem definitions item old
        → new.records.types ≡ old.records.types
        → map (λ index. index.field) new.indexes.items ≡ map (λ index. index.field) old.indexes.items
        → IsOfItem definitions item new }
{}

/// A table that has no pages comes to the others and goes from them, and all else stays.
pub fn table_without_pages_comes_and_goes()
    ensures comes { (map : PageMap) (accepted : ℕ) (contents : Contents) (before after : List TableContents) (table : TableContents)
        → contents.tables ≡ before ++ after → HoldsParts map accepted contents
        → LiesTable map accepted table → ((number : ℕ) → table_pages table number ≡ 0)
        → HoldsParts map accepted (record contents { tables = before ++ table ∷ after }) }
    ensures goes { (map : PageMap) (accepted : ℕ) (contents : Contents) (before after : List TableContents) (table : TableContents)
        → contents.tables ≡ before ++ table ∷ after → HoldsParts map accepted contents
        → ((number : ℕ) → table_pages table number ≡ 0)
        → HoldsParts map accepted (record contents { tables = before ++ after }) }
{}

/// A table without a root, whose indexes have none, has no pages. It goes from the others, and all else stays.
pub fn table_without_roots_goes()
    ensures pages { (map : PageMap) (accepted : ℕ) (table : TableContents) → LiesTable map accepted table → HasNoRoots table
        → (number : ℕ) → table_pages table number ≡ 0 }
    ensures goes { (map : PageMap) (accepted : ℕ) (contents : Contents) (before after : List TableContents) (table : TableContents)
        → contents.tables ≡ before ++ table ∷ after → HoldsParts map accepted contents → HasNoRoots table
        → HoldsParts map accepted (record contents { tables = before ++ after }) }
{}

/// Where a table's rows are no wider than a row can be, three entries of an inner page of its tree fit a page; and where no column
/// is wider than a text can be, three of that of an index of each column do. The widest cell of a tree is that of an index of the
/// longest texts, in the widest rows.
pub fn tables_of_lines_fit_pages()
    ensures table { (types : List ColumnType) → row_width types ≤ ROW_BYTES → 3 * (8 + event_width types) ≤ PAGE_ROOM }
    ensures index { (types : List ColumnType) → row_width types ≤ ROW_BYTES → AllByRecursion (λ type. width type ≤ TEXT_BYTES + 1) types
        → (column : ℕ) → FitsPages types column }
    ensures widest { TEXT_BYTES + 1 + (ROW_BYTES + EVENT_BYTES) ≡ GREATEST_WIDTH }
{}

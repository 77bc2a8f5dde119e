//! These laws say what stays meant where one part of a file's contents changes, or fewer versions are looked at.

ghost use Rattle.std.specs.Prelude.{◌≡◌, ◌≤◌, ◌⊎◌, ◌++◌, ◌∷◌, ℕ, Contains, List};
ghost use Rattle.rs_catalog_pages.specs.Directory.{DirectoryItems};
ghost use Rattle.rs_catalog_pages.specs.Items.{CatalogueItems, RouteItem, TableItem};
ghost use Rattle.rs_catalog_meaning.specs.Meaning.{AreMeant};
ghost use Rattle.rs_catalog_meaning.specs.Stating.{kind_of};
ghost use Rattle.rs_file.specs.Contents.{Contents, ReferentContents, SameContents, TableContents};
ghost use Rattle.rs_file_meaning.specs.Changed.{HasTableBetween, HaveOwnNumbers, IsUnusedFrom, SaysTheSame, TableComes, with_table};
ghost use Rattle.rs_file_meaning.specs.Meant.{IsMeant, IsTableMeant};
ghost use Rattle.rs_file_meaning.specs.Seen.{events_of, routes_at};
ghost use Rattle.rs_versioned.specs.Meant.{AreReferentsMeant};
ghost use Rattle.rs_versioned.specs.Runs.{AreRunsFrom};

/// Contents that are meant from a version on are meant from a later one on, and contents that say the same are meant alike.
pub fn meant_contents_stay_meant()
    ensures fewer { (oldest from : ℕ) (contents : Contents) → oldest ≤ from → IsMeant oldest contents → IsMeant from contents }
    ensures same { (oldest : ℕ) (one other : Contents) → SaysTheSame one other → IsMeant oldest one → IsMeant oldest other }
    ensures says { (one other : Contents) → SameContents one other → SaysTheSame one other }
{}

/// Each table of contents that are meant has its runs. Where a table is another one, what is asked of it alone keeps the contents
/// meant, and no other table is seen otherwise.
pub fn changed_table_leaves_the_others_meant()
    ensures table { (oldest version : ℕ) (contents : Contents) (item : TableItem) (before : List TableContents) (table : TableContents) (after : List TableContents)
        → HasTableBetween contents item before table after → IsMeant oldest contents → oldest ≤ version → version ≤ contents.directory.accepted
        → IsTableMeant contents.definitions.routes version item table }
    ensures runs { (oldest : ℕ) (contents : Contents) (item : TableItem) (before : List TableContents) (table : TableContents) (after : List TableContents)
        → HasTableBetween contents item before table after → IsMeant oldest contents
        → AreRunsFrom (kind_of item.kind) oldest contents.directory.accepted table.events }
    ensures meant { (oldest : ℕ) (contents : Contents) (item : TableItem) (before : List TableContents) (table now : TableContents) (after : List TableContents)
        → HasTableBetween contents item before table after → IsMeant oldest contents
        → ((version : ℕ) → oldest ≤ version → version ≤ contents.directory.accepted → IsTableMeant contents.definitions.routes version item now)
        → IsMeant oldest (with_table contents before now after) }
    ensures between { (contents : Contents) (item : TableItem) (before : List TableContents) (table now : TableContents) (after : List TableContents) (directory : DirectoryItems)
        → HasTableBetween contents item before table after
        → HasTableBetween (record (with_table contents before now after) { directory = directory }) item before now after }
    ensures was { (contents : Contents) (item : TableItem) (before : List TableContents) (table : TableContents) (after : List TableContents)
        → HasTableBetween contents item before table after → HaveOwnNumbers contents.definitions.tables
        → events_of contents item.number ≡ table.events }
    ensures is { (contents : Contents) (item : TableItem) (before : List TableContents) (table : TableContents) (after : List TableContents)
        → HasTableBetween contents item before table after → (now : TableContents) → HaveOwnNumbers contents.definitions.tables
        → events_of (with_table contents before now after) item.number ≡ now.events }
    ensures others { (contents : Contents) (item : TableItem) (before : List TableContents) (table : TableContents) (after : List TableContents)
        → HasTableBetween contents item before table after → (now : TableContents) (number : ℕ) → (number ≡ item.number → ⊥)
        → events_of (with_table contents before now after) number ≡ events_of contents number }
{}

/// Where the referents are others, what is asked of them alone keeps the contents meant.
pub fn changed_referents_leave_all_else_meant()
    ensures { (oldest : ℕ) (contents : Contents) (now : ReferentContents) → IsMeant oldest contents
        → ((version : ℕ) → oldest ≤ version → version ≤ contents.directory.accepted
        → AreReferentsMeant (routes_at version contents.definitions.routes) version now.referents)
        → IsMeant oldest (record contents { referents = now }) }
{}

/// Where the definitions are others, which are meant, the records stay so: where routes come and where those go on which no version
/// from the oldest on sees a record, where a table without events comes, and where a table goes.
pub fn changed_definitions_leave_records_meant()
    ensures routes { (oldest : ℕ) (contents : Contents) (definitions : CatalogueItems)
        → IsMeant oldest contents → AreMeant definitions → definitions.tables ≡ contents.definitions.tables
        → ((route : RouteItem) → Contains contents.definitions.routes route → Contains definitions.routes route ⊎ IsUnusedFrom oldest route.number contents)
        → IsMeant oldest (record contents { definitions = definitions }) }
    ensures table_comes { (oldest : ℕ) (contents : Contents) (definitions : CatalogueItems) (before : List TableContents) (table : TableContents) (after : List TableContents)
        → IsMeant oldest contents → AreMeant definitions → definitions.routes ≡ contents.definitions.routes
        → TableComes contents definitions before table after
        → IsMeant oldest (record contents { definitions = definitions; tables = before ++ table ∷ after }) }
    ensures table_goes { (oldest : ℕ) (contents : Contents) (definitions : CatalogueItems) (item : TableItem) (before : List TableContents) (table : TableContents) (after : List TableContents)
        → IsMeant oldest contents → AreMeant definitions → definitions.routes ≡ contents.definitions.routes
        → (has : HasTableBetween contents item before table after) → definitions.tables ≡ has.first ++ has.last
        → IsMeant oldest (record contents { definitions = definitions; tables = before ++ after }) }
{}

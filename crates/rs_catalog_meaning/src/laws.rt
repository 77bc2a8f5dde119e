//! The laws say what follows from definitions that are meant, which pass the checks of their DEFINE lines: with them the machine's state is
//! lawful, and they can be stored.

ghost use Rattle.std.specs.Prelude.{◌≡◌, ◌≤◌, ℕ, [], false, map, Contains, Some};
ghost use Rattle.std.specs.FinMap as names;
ghost use Rattle.rs_catalog_pages.specs.declared.directory_items.TheConstants as file;
ghost use Rattle.rs_catalog_pages.specs.Items.{CatalogueItems, IndexItem, TableItem, ViewItem};
ghost use Rattle.rs_catalog_pages.specs.Fitting.{FitsCatalogue, IsShort};
ghost use Rattle.rs_machine.specs.declared.limits.TheConstants as machine;
ghost use Rattle.rs_machine.specs.Lawful.{IsLawful};
ghost use Rattle.rs_machine.specs.State.{has};
ghost use Rattle.rs_page_owners.specs.Counts.{times};
ghost use Rattle.rs_catalog_meaning.specs.Fitting.{FitsTypes};
ghost use Rattle.rs_catalog_meaning.specs.Meaning.{AreMeant};
ghost use Rattle.rs_catalog_meaning.specs.Stating.{AreListed, state_of};

/// The machine's state with these definitions, and without views, referents, facts and cursors, is lawful; the name of each view is
/// free there. Where each table has a number of its own, as in a file, the state has each index under its name, of the table with
/// its table's number.
pub fn meant_definitions_make_a_lawful_state()
    ensures state { (catalogue : CatalogueItems) → AreMeant catalogue → IsLawful (state_of catalogue) }
    ensures views { (catalogue : CatalogueItems) (view : ViewItem) → AreMeant catalogue → Contains catalogue.views view
        → has (state_of catalogue).tables view.name ≡ false }
    ensures indexes { (catalogue : CatalogueItems) (index : IndexItem) (table : TableItem) → AreMeant catalogue
        → ((number : ℕ) → times (map (λ (table : TableItem). table.number) catalogue.tables) number ≤ 1)
        → Contains catalogue.indexes index → Contains catalogue.tables table → table.number ≡ index.table
        → names.get (state_of catalogue).indexes index.name ≡ Some (record { table = table.name; column = index.column }) }
{}

/// The converse: definitions are meant where the state with them is lawful, and what it does not say of them is so.
pub fn listed_definitions_of_a_lawful_state_are_meant()
    ensures meant { (catalogue : CatalogueItems) → AreListed catalogue → IsLawful (state_of catalogue) → AreMeant catalogue }
    ensures listed { (catalogue : CatalogueItems) → AreMeant catalogue → AreListed catalogue }
{}

/// A catalogue without definitions is meant.
pub fn empty_catalogue_is_meant()
    ensures { AreMeant (record { routes = []; tables = []; indexes = []; views = []; alignments = [] }) }
{}

/// The bytes of definitions that are meant can be counted in page 0: `store` takes them without a test.
pub fn meant_definitions_are_short()
    ensures { (catalogue : CatalogueItems) → AreMeant catalogue → IsShort catalogue }
{}

/// Bytes can say them, where the numbers and texts that meaning does not bound fit the types of a `StoredCatalogue`.
pub fn meant_definitions_fit()
    ensures { (catalogue : CatalogueItems) → AreMeant catalogue → FitsTypes catalogue → FitsCatalogue catalogue }
{}

/// A file may have as many tables and indexes as the machine.
pub fn limits_of_file_and_machine_are_the_same()
    ensures tables { file.TABLES ≡ machine.TABLES }
    ensures indexes { file.INDEXES ≡ machine.INDEXES }
{}

//! The laws say that pages hold one catalogue and one directory at the most, that both stay where their pages do, and that few
//! definitions can be stored.

ghost use Rattle.std.specs.Prelude.{◌≡◌, ◌≤◌, ◌<◌, ℕ, List, length};
ghost use Rattle.rs_page_owners.specs.Counts.{times};
ghost use Rattle.rs_page_owners.specs.Owners.{Keeps};
ghost use Rattle.rs_pages.specs.PageMap.{PageMap};
ghost use Rattle.rs_catalog_pages.specs.Chain.{HoldsBytes};
ghost use Rattle.rs_catalog_pages.specs.Directory.{DirectoryItems, HasDirectory};
ghost use Rattle.rs_catalog_pages.specs.Fitting.{IsShort};
ghost use Rattle.rs_catalog_pages.specs.Items.{CatalogueItems, SaysCatalogue};

/// The pages of the catalogue are one list.
pub fn catalogue_has_its_pages()
    ensures { (map : PageMap) (one other bytes said : List ℕ) → HoldsBytes map one bytes → HoldsBytes map other said
        → one ≡ other }
{}

/// The bytes of the catalogue are one list.
pub fn catalogue_has_its_bytes()
    ensures { (map : PageMap) (one other bytes said : List ℕ) → HoldsBytes map one bytes → HoldsBytes map other said
        → bytes ≡ said }
{}

/// Bytes say one catalogue at the most.
pub fn bytes_say_one_catalogue()
    ensures { (bytes : List ℕ) (one other : CatalogueItems) → SaysCatalogue bytes one → SaysCatalogue bytes other
        → one ≡ other }
{}

/// A file has one directory at the most.
pub fn directory_is_one()
    ensures { (map : PageMap) (one other : DirectoryItems) → HasDirectory map one → HasDirectory map other → one ≡ other }
{}

/// Where an owner's pages are kept, the catalogue in them stays as it is.
pub fn kept_catalogue_stays()
    ensures { (old new : PageMap) (numbers bytes : List ℕ) → Keeps (times numbers) old new → HoldsBytes old numbers bytes
        → HoldsBytes new numbers bytes }
{}

/// Where page 1 is kept, the directory stays as it is.
pub fn kept_directory_stays()
    ensures { (old new : PageMap) (directory : DirectoryItems) → new.page 1 ≡ old.page 1 → HasDirectory old directory
        → HasDirectory new directory }
{}

/// The bytes of definitions can be counted in page 0 where no list of them has more than 4,096.
pub fn few_definitions_are_short()
    ensures { (catalogue : CatalogueItems) → length catalogue.routes ≤ 4096 → length catalogue.tables ≤ 4096
        → length catalogue.indexes ≤ 4096 → length catalogue.views ≤ 4096 → length catalogue.alignments ≤ 4096
        → IsShort catalogue }
{}

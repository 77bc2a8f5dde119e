//! These structs hold what a file has, opened.

use rs_attr::AttrIndex;
use rs_catalog_pages::StoredCatalogue;
use rs_page::PageNumber;
use rs_versioned::{EventTable, ReferentTable};

/// A table with its indexes.
#[derive(Drop)]
pub struct OpenedTable {
    /// Its event records.
    pub records: EventTable,
    /// Its indexes, in the order of their definitions.
    pub indexes: Vec<AttrIndex>,
}

/// What stands in a file, opened.
#[derive(Drop)]
pub struct OpenedFile {
    /// The definitions.
    pub definitions: StoredCatalogue,
    /// The pages that the definitions lie in, in their order.
    pub pages: Vec<PageNumber>,
    /// The tables with their indexes, in the order of their definitions.
    pub tables: Vec<OpenedTable>,
    /// The referents.
    pub referents: ReferentTable,
    /// The version that was accepted last.
    pub accepted: u64,
}

//! This module makes a file in which there are no definitions yet.

ghost use Rattle.std.specs.Prelude.{◌≡◌, [], true};
ghost use Rattle.rs_catalog_pages.specs.Calls.{LeavesCatalogue};
ghost use Rattle.rs_file.specs.Calls.{Creates};

use rs_catalog_pages::{StoredCatalogue, store};
use rs_page::PageNumber;
use rs_pages::Pages;
use rs_refusal::Refusal;
use std::alloc::Global;

/// Stores that there are no definitions, in a file of page 0 and an empty directory, and answers which page says so; the file has
/// three pages then. It is refused with 90, with 91, and with 92 where the file is full, but not with 94; the working pages are
/// to be abandoned then. In any other file 94 comes only where there are definitions already, or pages that are not each one
/// owner's.
pub fn create<P: Pages>(alloc: Global, pages: &mut P) -> Result<Vec<PageNumber>, Refusal>
    requires begun { (P.store pages.old).is_begun ≡ true }
    ensures leaves { LeavesCatalogue P.Pages [] result pages.old pages.new }
    ensures creates { Creates P.Pages result pages.old pages.new }
{
    let none = StoredCatalogue {
        routes: Vec::new(alloc),
        tables: Vec::new(alloc),
        indexes: Vec::new(alloc),
        views: Vec::new(alloc),
        alignments: Vec::new(alloc),
    };
    store(alloc, pages, &[], &none)
}

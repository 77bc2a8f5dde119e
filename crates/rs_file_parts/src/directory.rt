//! This module writes the directory of what is open.

ghost use Rattle.std.specs.Prelude.{◌≡◌, ◌≢◌, true, Err};
ghost use Rattle.rs_catalog_pages.specs.Calls.{StaysRefused};
ghost use Rattle.rs_file_parts.specs.Calls.{HoldsNoDirectory, Writes};
ghost use Rattle.rs_file_parts.specs.Parts.{IsReady};
ghost use Rattle.rs_page_owners.specs.Calls.{Leaves};

use rs_catalog_pages::store_directory;
use rs_file::{OpenedFile, directory_of};
use rs_pages::Pages;
use rs_refusal::Refusal;
use std::alloc::Global;

/// Writes the directory of what is open, with this version as the one that was accepted last: the file holds all that lies there
/// then. It is refused with 90, with 91, and with 94 only where no contents lie there beside a directory; nothing has changed then.
pub fn write_directory<P: Pages>(
    alloc: Global,
    pages: &mut P,
    file: &OpenedFile,
    version: u64,
) -> Result<(), Refusal>
    requires begun { (P.store pages.old).is_begun ≡ true }
    requires ready { IsReady file.now }
    ensures leaves { Leaves P.Pages (HoldsNoDirectory (P.store pages.old).map) result pages.old pages.new }
    ensures writes { Writes P.Pages file.now version result pages.old pages.new }
    ensures stays { StaysRefused P.Pages result pages.old pages.new }
    ensures room { result ≢ Err Refusal.FileFull }
{
    let tables = file.tables.as_slice();
    let directory = directory_of(alloc, &file.definitions, tables, &file.referents, version)?;
    store_directory(alloc, pages, &directory)
}

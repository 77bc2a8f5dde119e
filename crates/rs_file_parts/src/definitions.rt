//! This module writes other definitions in the place of those that a file has.

ghost use Rattle.std.specs.Prelude.{◌≡◌, true, IfOk, OnErr};
ghost use Rattle.rs_catalog_pages.specs.Fitting.{FitsCatalogue, IsShort};
ghost use Rattle.rs_catalog_pages.specs.Said.{said_catalogue};
ghost use Rattle.rs_file_parts.specs.Calls.{Defines, GivesFormer, LeavesDefinitions};

use rs_catalog_pages::{StoredCatalogue, store};
use rs_file::OpenedFile;
use rs_page::PageNumber;
use rs_pages::Pages;
use rs_refusal::Refusal;
use std::alloc::Global;
use std::mem::replace;

/// The definitions that a file had before others, and the pages that they lay in.
#[derive(Drop)]
pub struct Former {
    /// The definitions.
    pub definitions: StoredCatalogue,
    /// Their pages, in their order.
    pub pages: Vec<PageNumber>,
}

/// Writes these definitions in the place of those that the file has, and answers what it had before, for
/// `restore_definitions`; tables, indexes and referents stay as they are. It is refused with 90, with 91, with 92 where the file is
/// full, and with 94 only where no contents lie there with what is open; the working pages are to be abandoned then, and what is
/// open is as it was.
pub fn write_definitions<P: Pages>(
    alloc: Global,
    pages: &mut P,
    file: &mut OpenedFile,
    definitions: StoredCatalogue,
) -> Result<Former, Refusal>
    requires begun { (P.store pages.old).is_begun ≡ true }
    requires fits { FitsCatalogue (said_catalogue definitions) }
    requires short { IsShort (said_catalogue definitions) }
    ensures leaves { LeavesDefinitions P.Pages file.old result pages.old pages.new }
    ensures defines { Defines P.Pages file.old file.new (said_catalogue definitions) result pages.old pages.new }
    ensures former { IfOk result (GivesFormer definitions file.old file.new) }
    ensures stays { OnErr result (file.new ≡ file.old) }
{
    let numbers = store(alloc, pages, file.pages.as_slice(), &definitions)?;
    let definitions = replace(&mut file.definitions, definitions);
    let pages = replace(&mut file.pages, numbers);
    Ok(Former { definitions, pages })
}

/// Gives the file the definitions that it had before, with their pages; nothing else changes. Takes no memory.
pub fn restore_definitions(file: &mut OpenedFile, former: Former)
    ensures { file.new ≡ record file.old { definitions = former.definitions; pages = former.pages } }
{
    file.definitions = former.definitions;
    file.pages = former.pages;
}

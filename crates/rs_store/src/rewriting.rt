//! This module writes other definitions of the same tables into a file, once it has checked that a file has room for them.

ghost use Rattle.std.specs.Prelude.{◌≡◌, ◌≤◌, ◌<◌, ◌+◌, IsOkUnless, OnErr, OnOk, true};
ghost use Rattle.std.specs.List.{AllByRecursion};
ghost use Rattle.rs_catalog_pages.specs.Fitting.{FitsCatalogue, IsShort};
ghost use Rattle.rs_catalog_pages.specs.Said.{said_catalogue};
ghost use Rattle.rs_changes.specs.Calls.{MayChange};
ghost use Rattle.rs_facts.specs.Insert.{same_name};
ghost use Rattle.rs_file_parts.specs.Calls.{ChangesDefinitions};
ghost use Rattle.rs_file_parts.specs.Parts.{IsCommitted};
ghost use Rattle.rs_machine.specs.declared.limits.TheConstants.{CHANGES};
ghost use Rattle.rs_store.specs.Rewriting.{AreNumbersSmall, CanBeKept, HasTablesOf, Rewrites};
ghost use Rattle.rs_stored_catalog.specs.Listing.{listing_of};

use crate::fitting::{are_few, fit_fields};
use rs_catalog::Catalog;
use rs_catalog_meaning::laws::meant_definitions_fit;
use rs_catalog_pages::StoredCatalogue;
use rs_changes::redefine;
use rs_file::OpenedFile;
use rs_methods::Name;
use rs_pages::Pages;
use rs_refusal::Refusal;
use rs_stored_catalog::stored_of;
use std::alloc::Global;

/// Writes the definitions of this catalogue into the file, which has the same tables and indexes. It is refused with 90, with 91, with 92
/// where the file is full, and with 94 only where the definitions can't be kept or the disk does not give back what was written.
pub(crate) fn write_definitions_of<P: Pages>(
    alloc: Global,
    pages: &mut P,
    file: &mut OpenedFile,
    oldest: u64,
    catalog: &Catalog,
) -> Result<(), Refusal>
    requires begun { (P.store pages.old).is_begun ≡ true }
    requires may { MayChange file.old }
    requires committed { IsCommitted file.old }
    requires room { file.old.accepted < CHANGES }
    requires tables { HasTablesOf (said_catalogue file.old.definitions) (listing_of catalog.now) }
    requires births { AllByRecursion (λ route. route.born ≤ file.old.accepted + 1) (listing_of catalog.now).routes }
    ensures { Rewrites P.is_tied P.store P.keeps oldest (ChangesDefinitions (listing_of catalog.now)) (listing_of catalog.now) result pages.old pages.new file.old file.new }
{
    let definitions = stored_of(alloc, &file.definitions, catalog)?;
    rewrite(alloc, pages, file, oldest, definitions)
}

/// Writes these definitions into the file, which has the same tables and indexes. It is refused as `write_definitions_of` is.
pub(crate) fn rewrite<P: Pages>(
    alloc: Global,
    pages: &mut P,
    file: &mut OpenedFile,
    oldest: u64,
    definitions: StoredCatalogue,
) -> Result<(), Refusal>
    requires begun { (P.store pages.old).is_begun ≡ true }
    requires may { MayChange file.old }
    requires committed { IsCommitted file.old }
    requires room { file.old.accepted < CHANGES }
    requires tables { HasTablesOf (said_catalogue file.old.definitions) (said_catalogue definitions) }
    requires births { AllByRecursion (λ route. route.born ≤ file.old.accepted + 1) (said_catalogue definitions).routes }
    ensures { Rewrites P.is_tied P.store P.keeps oldest (ChangesDefinitions (said_catalogue definitions)) (said_catalogue definitions) result pages.old pages.new file.old file.new }
{
    check_definitions(&definitions)?;
    redefine(alloc, pages, file, oldest, definitions)
}

/// Whether a name is this text.
pub(crate) fn is_name(name: &Name, text: &str) -> bool
    ensures { result ≡ same_name name.now.bytes text.now }
{
    text == name.as_str()
}

// decision: measured-not-checked-again
/// Checks that a file has room for these definitions; 94 where not. Whether each passes the checks of its line isn't asked again. It
/// takes no memory.
pub(crate) fn check_definitions(definitions: &StoredCatalogue) -> Result<(), Refusal>
    requires small { AreNumbersSmall (said_catalogue definitions.now) }
    ensures fits { OnOk result (FitsCatalogue (said_catalogue definitions.now)) }
    ensures short { OnOk result (IsShort (said_catalogue definitions.now)) }
    ensures none { OnErr result (CanBeKept (said_catalogue definitions.now) → ⊥) }
    ensures refused { IsOkUnless result Refusal.DamagedFile }
{
    meant_definitions_fit();
    if !are_few(definitions) {
        return Err(Refusal::DamagedFile);
    }
    if !fit_fields(definitions) {
        return Err(Refusal::DamagedFile);
    }
    Ok(())
}

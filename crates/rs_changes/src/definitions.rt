//! Other definitions of the same tables and indexes, and a route that goes with its referents.

ghost use Rattle.std.specs.Prelude.{◌≡◌, ◌<◌, ◌+◌, ◌^◌, true, length};
ghost use Rattle.rs_catalog_pages.specs.Said.{said_catalogue};
ghost use Rattle.rs_cell_versions.specs.Version.{HaveDiedBy};
ghost use Rattle.rs_cell_versions.specs.declared.cell.TheConstants.{LIVING};
ghost use Rattle.rs_file_parts.specs.Calls.{ChangesDefinitions};
ghost use Rattle.rs_file_parts.specs.Parts.{IsCommitted};
ghost use Rattle.rs_page_owners.specs.Calls.{Leaves};
ghost use Rattle.rs_changes.specs.Calls.{Changes, ComesNext, HasTablesOf, LeavesFile, MayDefine};
ghost use Rattle.rs_changes.specs.Ending.{EndsCell, EndsRoute, HoldsNoReferents, SaysNoLiving};
ghost use Rattle.rs_change_laws.specs.Parts.{DropsRoute};
ghost use Rattle.rs_versioned.specs.Referents.{referent_width};

use crate::completing::complete;
use crate::counting::{ended_since, garbage};
use rs_catalog_pages::StoredCatalogue;
use rs_cell_versions::is_living;
use rs_file::OpenedFile;
use rs_file_parts::{restore_definitions, write_definitions};
use rs_pages::Pages;
use rs_refusal::Refusal;
use rs_versioned::ReferentTable;
use std::alloc::Global;

/// Writes other definitions, which have the same tables and indexes. Versions from `oldest` on see what they saw of the records. It is
/// refused with 90, with 91, with 92 where the file is full, and with 94 only where the file holds no contents with what is open.
pub fn redefine<P: Pages>(
    alloc: Global,
    pages: &mut P,
    file: &mut OpenedFile,
    oldest: u64,
    definitions: StoredCatalogue,
) -> Result<(), Refusal>
    requires may { MayDefine P.Pages file.old definitions pages.old }
    requires committed { IsCommitted file.old }
    requires same { HasTablesOf (said_catalogue file.old.definitions) (said_catalogue definitions) }
    ensures leaves { LeavesFile P.Pages file.old result pages.old pages.new }
    ensures defines { Changes P.Pages oldest file.old file.new (ChangesDefinitions (said_catalogue definitions)) result pages.old pages.new }
    ensures opened { ComesNext definitions result file.old file.new }
{
    let before = garbage(file);
    let former = write_definitions(alloc, pages, file, definitions)?;
    let ended = ended_since(file, before);
    match complete(alloc, pages, file, oldest, ended) {
        Ok(()) => Ok(()),
        Err(refused) => {
            restore_definitions(file, former);
            Err(refused)
        }
    }
}

/// Ends the referents of the route with this number, and writes other definitions, which have the same tables and indexes. It is refused
/// as `redefine` is.
pub fn drop_route<P: Pages>(
    alloc: Global,
    pages: &mut P,
    file: &mut OpenedFile,
    oldest: u64,
    definitions: StoredCatalogue,
    route: u32,
) -> Result<(), Refusal>
    requires may { MayDefine P.Pages file.old definitions pages.old }
    requires committed { IsCommitted file.old }
    requires same { HasTablesOf (said_catalogue file.old.definitions) (said_catalogue definitions) }
    requires route { route + 1 < 2 ^ 32 }
    ensures leaves { LeavesFile P.Pages file.old result pages.old pages.new }
    ensures drops { Changes P.Pages oldest file.old file.new (DropsRoute route (said_catalogue definitions)) result pages.old pages.new }
    ensures opened { ComesNext definitions result file.old file.new }
{
    let before = garbage(file);
    let version = file.accepted + 1;
    end_referents_on(alloc, pages, &mut file.referents, version, route)?;
    let former = write_definitions(alloc, pages, file, definitions)?;
    let ended = ended_since(file, before);
    match complete(alloc, pages, file, oldest, ended) {
        Ok(()) => Ok(()),
        Err(refused) => {
            restore_definitions(file, former);
            Err(refused)
        }
    }
}

/// Ends the living referents of the route at a version: versions before this one see them as they did, and no other does. It is refused
/// with 90, with 91, with 92 where the file is full, and with 94 only where no referents up to the version lie there.
fn end_referents_on<P: Pages>(
    alloc: Global,
    pages: &mut P,
    referents: &mut ReferentTable,
    version: u64,
    route: u32,
) -> Result<(), Refusal>
    requires begun { (P.store pages.old).is_begun ≡ true }
    requires route { route + 1 < 2 ^ 32 }
    requires version { version < LIVING }
    requires order { HaveDiedBy version referents.old.working.dead }
    ensures leaves { Leaves P.Pages (HoldsNoReferents (P.store pages.old).map referents.old.working version) result pages.old pages.new }
    ensures ends { EndsRoute P.Pages referents.old.working referents.new.working version route result pages.old pages.new }
    ensures committed { referents.new.committed ≡ referents.old.committed }
    ensures order { HaveDiedBy version referents.new.working.dead }
{
    let cells = referents.visible(alloc, pages, version, route)?;
    for place in 0..cells.len() {
        end_living(pages, referents, version, cells.get(place))?;
    }
    Ok(())
}

/// Ends the living referent that a cell says at a version. It is refused as `end_referents_on` is, and with 94 only where the cell says no
/// living referent of those that lie there.
fn end_living<P: Pages>(
    pages: &mut P,
    referents: &mut ReferentTable,
    version: u64,
    cell: &[u8],
) -> Result<(), Refusal>
    requires begun { (P.store pages.old).is_begun ≡ true }
    requires width { length cell.now ≡ referent_width }
    requires version { version < LIVING }
    requires order { HaveDiedBy version referents.old.working.dead }
    ensures leaves { Leaves P.Pages (SaysNoLiving (P.store pages.old).map referents.old.working cell.now) result pages.old pages.new }
    ensures ends { EndsCell P.Pages referents.old.working referents.new.working version cell.now result pages.old pages.new }
    ensures committed { referents.new.committed ≡ referents.old.committed }
    ensures order { HaveDiedBy version referents.new.working.dead }
{
    if !is_living(cell) {
        return Err(Refusal::DamagedFile);
    }
    let ended = referents.kill(pages, version, cell)?;
    if !ended {
        return Err(Refusal::DamagedFile);
    }
    Ok(())
}

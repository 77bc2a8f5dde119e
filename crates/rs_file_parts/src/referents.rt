//! This module puts a referent among those of a file, and ends one.

ghost use Rattle.std.specs.Prelude.{◌≡◌, ◌<◌, ◌≤◌, ◌+◌, ◌^◌, ℕ, true, length, IfNone, IfSome, IsTrue, Some, slice_get};
ghost use Rattle.std.specs.List.{AllByRecursion};
ghost use Rattle.rs_cell_versions.specs.Version.{is_living};
ghost use Rattle.rs_cell_versions.specs.declared.cell.TheConstants.{LIVING};
ghost use Rattle.rs_file_parts.specs.Calls.{Ends, Leaves, Puts};
ghost use Rattle.rs_file_parts.specs.Inner.{IsCellNamed, NoCellNamed};
ghost use Rattle.rs_file_parts.specs.Parts.{HaveAllDiedBy, KeepsCommitted};
ghost use Rattle.rs_records.specs.Listed.{listed, record_width};
ghost use Rattle.rs_versioned.specs.Referents.{record_of, referent_width};

use rs_cell_versions::is_living;
use rs_file::OpenedFile;
use rs_methods::{Name, Referent};
use rs_pages::Pages;
use rs_records::Cells;
use rs_refusal::Refusal;
use rs_versioned::referent::name_of;
use std::alloc::Global;

/// Puts the referent on its route, as versions from this one on see it; where it was there, nothing changes. It is refused with 90,
/// with 91, with 92 where the file is full, and with 94 only where no contents lie there with what is open; the working pages are
/// to be abandoned then, and what is open is to be taken back.
pub fn put_referent<P: Pages>(
    alloc: Global,
    pages: &mut P,
    file: &mut OpenedFile,
    version: u64,
    referent: &Referent,
) -> Result<(), Refusal>
    requires begun { (P.store pages.old).is_begun ≡ true }
    requires name { AllByRecursion (λ byte. 0 < byte) referent.now.name.bytes }
    ensures leaves { Leaves P.Pages file.old result pages.old pages.new }
    ensures puts { Puts P.Pages file.old file.new version (record_of referent.now version) result pages.old pages.new }
    ensures keeps { KeepsCommitted file.old file.new }
    ensures order { (version : ℕ) → HaveAllDiedBy version file.old → HaveAllDiedBy version file.new }
{
    file.referents.add(alloc, pages, version, referent)?;
    Ok(())
}

/// Ends the living referent of this name on the route at a version, and answers whether there was one: versions before this one see
/// it as they did, and no other does. Where there is none, nothing changes. It is refused with 90, with 91, with 92 where the file
/// is full, and with 94 only where no contents lie there with what is open; the working pages are to be abandoned then, and what is
/// open is to be taken back.
pub fn end_referent<P: Pages>(
    alloc: Global,
    pages: &mut P,
    file: &mut OpenedFile,
    version: u64,
    route: u32,
    name: &Name,
) -> Result<bool, Refusal>
    requires begun { (P.store pages.old).is_begun ≡ true }
    requires route { route + 1 < 2 ^ 32 }
    requires version { version < LIVING }
    requires order { HaveAllDiedBy version file.old }
    ensures leaves { Leaves P.Pages file.old result pages.old pages.new }
    ensures ends { Ends P.Pages file.old file.new version route name.now.bytes result pages.old pages.new }
    ensures keeps { KeepsCommitted file.old file.new }
    ensures order { HaveAllDiedBy version file.new }
{
    let cells = file.referents.visible(alloc, pages, version, route)?;
    let Some(place) = place_of(&cells, name) else {
        return Ok(false);
    };
    let ended = file.referents.kill(pages, version, cells.get(place))?;
    if !ended {
        return Err(Refusal::DamagedFile);
    }
    Ok(true)
}

/// Where the living cell with this name is; nothing where there is none.
fn place_of(cells: &Cells, name: &Name) -> Option<usize>
    requires width { record_width cells.now ≡ referent_width }
    ensures found { IfSome result (λ place. IsCellNamed (listed cells.now) name.now.bytes place) }
    ensures none { IfNone result (NoCellNamed (listed cells.now) name.now.bytes) }
{
    for place in 0..cells.len() {
        let cell = cells.get(place);
        if is_living(cell) && name_of(cell) == name.as_bytes() {
            return Some(place);
        }
    }
    None
}

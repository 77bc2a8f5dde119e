//! A referent that comes, moves or goes.

ghost use Rattle.std.specs.Prelude.{◌<◌, ◌+◌, ◌^◌};
ghost use Rattle.std.specs.List.{AllByRecursion};
ghost use Rattle.rs_changes.specs.Calls.{Changes, ComesNext, LeavesFile, MayAccept};
ghost use Rattle.rs_change_laws.specs.Parts.{EndsReferent, MovesReferent, PutsReferent};

use crate::completing::complete;
use crate::counting::{ended_since, garbage};
use rs_file::OpenedFile;
use rs_file_parts::{end_referent, put_referent};
use rs_methods::{Name, Referent};
use rs_pages::Pages;
use rs_refusal::Refusal;
use std::alloc::Global;

/// Puts a referent on its route: the next version sees it. Versions from `oldest` on see what they saw. It is refused with 90, with 91,
/// with 92 where the file is full, and with 94 only where the file holds no contents with what is open.
pub fn define_referent<P: Pages>(
    alloc: Global,
    pages: &mut P,
    file: &mut OpenedFile,
    oldest: u64,
    referent: &Referent,
) -> Result<(), Refusal>
    requires may { MayAccept P.Pages file.old pages.old }
    requires name { AllByRecursion (λ byte. 0 < byte) referent.now.name.bytes }
    ensures leaves { LeavesFile P.Pages file.old result pages.old pages.new }
    ensures puts { Changes P.Pages oldest file.old file.new (PutsReferent referent.now.route referent.now.name.bytes referent.now.measure) result pages.old pages.new }
    ensures opened { ComesNext file.old.definitions result file.old file.new }
{
    let before = garbage(file);
    let version = file.accepted + 1;
    put_referent(alloc, pages, file, version, referent)?;
    let ended = ended_since(file, before);
    complete(alloc, pages, file, oldest, ended)?;
    Ok(())
}

/// Puts a referent in the place of the one of its name on its route. It is refused as `define_referent` is.
pub fn move_referent<P: Pages>(
    alloc: Global,
    pages: &mut P,
    file: &mut OpenedFile,
    oldest: u64,
    referent: &Referent,
) -> Result<(), Refusal>
    requires may { MayAccept P.Pages file.old pages.old }
    requires name { AllByRecursion (λ byte. 0 < byte) referent.now.name.bytes }
    requires route { referent.now.route + 1 < 2 ^ 32 }
    ensures leaves { LeavesFile P.Pages file.old result pages.old pages.new }
    ensures moves { Changes P.Pages oldest file.old file.new (MovesReferent referent.now.route referent.now.name.bytes referent.now.measure) result pages.old pages.new }
    ensures opened { ComesNext file.old.definitions result file.old file.new }
{
    let before = garbage(file);
    let version = file.accepted + 1;
    end_referent(alloc, pages, file, version, referent.route, &referent.name)?;
    put_referent(alloc, pages, file, version, referent)?;
    let ended = ended_since(file, before);
    complete(alloc, pages, file, oldest, ended)?;
    Ok(())
}

/// Ends the referent of this name on the route. It is refused as `define_referent` is.
pub fn drop_referent<P: Pages>(
    alloc: Global,
    pages: &mut P,
    file: &mut OpenedFile,
    oldest: u64,
    route: u32,
    name: &Name,
) -> Result<(), Refusal>
    requires may { MayAccept P.Pages file.old pages.old }
    requires route { route + 1 < 2 ^ 32 }
    ensures leaves { LeavesFile P.Pages file.old result pages.old pages.new }
    ensures ends { Changes P.Pages oldest file.old file.new (EndsReferent route name.now.bytes) result pages.old pages.new }
    ensures opened { ComesNext file.old.definitions result file.old file.new }
{
    let before = garbage(file);
    let version = file.accepted + 1;
    end_referent(alloc, pages, file, version, route, name)?;
    let ended = ended_since(file, before);
    complete(alloc, pages, file, oldest, ended)?;
    Ok(())
}

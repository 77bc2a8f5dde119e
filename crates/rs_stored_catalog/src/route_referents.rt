//! This module brings the referents of one route that a version of a file sees into memory.
//!
//! The route has just those, where the file's referents are meant, and no other route has any.

ghost use Rattle.rs_file_meaning.specs.Calls.{RefusesToLoad};
ghost use Rattle.rs_stored_catalog.specs.RouteReferents.{BringsRoute, FindsRouteDamaged};
ghost use Rattle.rs_pages.specs.Calls.{OnlyReads};

use crate::referents::bring_route;
use rs_catalog::RouteReferents;
use rs_pages::Pages;
use rs_refusal::Refusal;
use rs_versioned::ReferentTable;
use std::alloc::Global;

/// The referents that the version sees on the route of this number. It is refused with 90, with 91, and with 94 only where the table
/// does not lie there or its referents are not meant beside routes such as a file may have. No page changes.
pub fn referents_of_route<P: Pages>(
    alloc: Global,
    pages: &mut P,
    table: &ReferentTable,
    number: u32,
    version: u64,
) -> Result<RouteReferents, Refusal>
    ensures rests { OnlyReads P.Pages result pages.old pages.new }
    ensures brings { BringsRoute P.Pages table.now number version result pages.old }
    ensures refused { RefusesToLoad result }
    ensures damaged { FindsRouteDamaged P.Pages table.now number version result pages.old }
{
    let mut made = RouteReferents::new(alloc);
    if number == u32::MAX {
        return Ok(made);
    }
    bring_route(alloc, pages, table, number, version, &mut made)?;
    Ok(made)
}

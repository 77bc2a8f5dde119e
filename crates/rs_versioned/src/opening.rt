//! This module checks referents that lie in a file already against what the file says of them, and against its routes.
//!
//! The cells are read part by part, so that no more than one part is in memory at a time: a part ends where the next of the
//! routes begins, and so the referents of one route are in one part.

ghost use Rattle.std.specs.Prelude.{◌≡◌, ◌<◌, ◌^◌, IfOk, length};
ghost use Rattle.std.specs.Int.{w32, to_be_bytes};
ghost use Rattle.rs_page_marks.specs.Marks.{taken};
ghost use Rattle.rs_pages.specs.Calls.{OnlyReads};
ghost use Rattle.rs_versioned.specs.Meant.{AreRising};
ghost use Rattle.rs_versioned.specs.ReferentCalls.{IsOpened, Opens, RefusesToOpen};

use crate::meant::are_part_meant;
use crate::record_table::RecordTable;
use crate::referent::{REFERENT_BYTES, beginning};
use crate::referent_table::{ReferentTable, Referents};
use crate::route_span::RouteSpan;
use rs_cell_versions::{Opening, ToldRecords};
use rs_page_marks::Reached;
use rs_pages::Pages;
use rs_refusal::Refusal;
use rs_tree::NoSummary;
use std::alloc::Global;

impl RecordTable<Referents> {
    /// The referents that lie in a file already, whose pages it marks. The routes of the last version rise by their numbers. Ok
    /// exactly where the referents lie there as they were told, in pages none of which was reached before, and those that the
    /// last version sees are meant beside these routes; 94 where not; 90 and 91. No page changes. Which pages are marked after a
    /// refusal is unspecified.
    pub fn open<P: Pages>(
        alloc: Global,
        pages: &mut P,
        told: ToldRecords,
        routes: &[RouteSpan],
        reached: &mut Reached,
    ) -> Result<ReferentTable, Refusal>
        requires rising { AreRising routes.now }
        ensures rests { OnlyReads P.Pages result pages.old pages.new }
        ensures size { length reached.new ≡ length reached.old }
        ensures table { IfOk result (IsOpened told) }
        ensures opens { Opens P.Pages told routes.now (taken reached.old) (taken reached.new) result pages.old }
        ensures refused { RefusesToOpen P.Pages told routes.now (taken reached.old) result pages.old }
    {
        let mut opening = Opening::<NoSummary>::begin(
            alloc,
            pages,
            REFERENT_BYTES,
            &told,
            reached,
        )?;
        let mut on = None;
        for route in routes {
            let cells = opening.part(alloc, pages, &start_of(route.number))?;
            if !are_part_meant(&cells, on, told.accepted) {
                return Err(Refusal::DamagedFile);
            }
            on = Some(*route);
        }
        let (versions, left) = opening.finish(alloc, pages)?;
        if !are_part_meant(&left, on, told.accepted) {
            return Err(Refusal::DamagedFile);
        }
        Ok(ReferentTable::with(versions))
    }
}

/// The bytes that no cell is below whose referent is on the route of this number or on a later one.
fn start_of(number: u32) -> [u8; 4]
    ensures bytes { result ≡ to_be_bytes w32 number }
    ensures fits { number < 2 ^ 32 }
{
    beginning(number)
}

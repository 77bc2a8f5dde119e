//! This module keeps the referent records of a file by version.

ghost use Rattle.std.specs.Prelude.{◌≡◌, ◌<◌, ◌+◌, ◌^◌, ℕ, [], IfOk, true};
ghost use Rattle.std.specs.List.{AllByRecursion};
ghost use Rattle.rs_page_owners.specs.Counts.{no_pages};
ghost use Rattle.rs_pages.specs.Calls.{OnlyReads};
ghost use Rattle.rs_pages.specs.PageMap.{PageMap};
ghost use Rattle.rs_records.specs.Listed.{record_width};
ghost use Rattle.rs_cell_versions.specs.Versioned.{nothing_stands};
ghost use Rattle.rs_versioned.specs.Calls.{Adds, KeepsTable, Leaves, RefusesReading, Sees};
ghost use Rattle.rs_versioned.specs.Records.{HoldsRecords};
ghost use Rattle.rs_versioned.specs.Referents.{is_referent_of, kept_referents, record_of, referent_width};

use crate::kind::RecordKind;
use crate::record_table::RecordTable;
use crate::referent::{REFERENT_BYTES, beginning, cell_of};
use crate::seeing::seen_by;
use rs_cell_versions::Versions;
use rs_methods::Referent;
use rs_pages::Pages;
use rs_records::Cells;
use rs_refusal::Refusal;
use rs_tree::{Layout, NoSummary, range};
use std::alloc::Global;

/// Referent records.
#[derive(Drop)]
pub struct Referents;

impl RecordKind for Referents {
    ghost use Rattle.rs_versioned.specs.Referents.{ReferentRecord, SaysReferent, ended_referent, referent_width};

    type Summary = NoSummary;

    ghost Record = { ReferentRecord };

    ghost width = { λ _. referent_width };

    ghost says = { λ _. SaysReferent };

    ghost born = { λ referent. referent.born };

    ghost died = { λ referent. referent.died };

    ghost ended = { ended_referent };
}

/// The referent records of a file.
pub type ReferentTable = RecordTable<Referents>;

impl RecordTable<Referents> {
    /// No referents.
    pub fn new(alloc: Global) -> ReferentTable
        ensures working { result.working ≡ nothing_stands }
        ensures committed { result.committed ≡ nothing_stands }
        ensures empty { (pages : PageMap) (accepted : ℕ) → HoldsRecords kept_referents pages result.working accepted [] no_pages }
    {
        RecordTable {
            kind: Referents,
            versions: Versions::new(alloc, REFERENT_BYTES),
        }
    }

    /// The referents of these cells.
    pub fn with(versions: Versions<NoSummary>) -> ReferentTable
        requires width { versions.width ≡ referent_width }
        ensures working { result.working ≡ versions.working }
        ensures committed { result.committed ≡ versions.committed }
    {
        RecordTable {
            kind: Referents,
            versions,
        }
    }

    /// Puts the referent on its route, as versions from this one on see it, and answers whether the record was not there
    /// before; where it was, nothing changes. It is refused with 90, with 91, with 92 where the file is full, and with
    /// 94 only where no such records lie there with pages of their own; after a refusal the table is as it was, and the working
    /// pages are to be abandoned.
    pub fn add<P: Pages>(
        &mut self,
        alloc: Global,
        pages: &mut P,
        version: u64,
        referent: &Referent,
    ) -> Result<bool, Refusal>
        requires begun { (P.store pages.old).is_begun ≡ true }
        requires name { AllByRecursion (λ byte. 0 < byte) referent.now.name.bytes }
        ensures leaves { Leaves P.Pages (λ _. kept_referents) self.old result pages.old pages.new }
        ensures adds { Adds P.Pages (λ _. kept_referents) self.old self.new (record_of referent.now version) result pages.old pages.new }
        ensures table { KeepsTable result self.old self.new }
        ensures dead { self.new.working.dead ≡ self.old.working.dead }
    {
        let cell = cell_of(alloc, referent, version).map_err(|_| Refusal::OutOfMemory)?;
        self.add_cell(pages, &cell)
    }

    /// The cells of the route's referents that the version sees, in the order of their names, byte by byte
    /// (`laws::referents_are_in_name_order`). It is refused with 90, with 91, and with 94 only where there is no tree. No page
    /// changes.
    pub fn visible<P: Pages>(
        &self,
        alloc: Global,
        pages: &mut P,
        version: u64,
        route: u32,
    ) -> Result<Cells, Refusal>
        requires route { route + 1 < 2 ^ 32 }
        ensures rests { OnlyReads P.Pages result pages.old pages.new }
        ensures width { IfOk result (λ found. record_width found ≡ referent_width) }
        ensures found { Sees P.Pages (λ _. kept_referents) self.now (is_referent_of version route) result pages.old }
        ensures refused { RefusesReading P.Pages (λ _. kept_referents) self.now result pages.old pages.new }
    {
        let layout = Layout::new(self.width(), 0);
        let low = beginning(route);
        let high = beginning(route + 1);
        let found = range::<P, NoSummary>(alloc, pages, layout, self.root(), &low, &high)?;
        match seen_by(alloc, version, &found) {
            Ok(seen) => Ok(seen),
            Err(_) => Err(Refusal::OutOfMemory),
        }
    }
}

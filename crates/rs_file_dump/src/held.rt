//! The file that is dumped: its definitions and its referents in memory, and the spans that its pages say of each route.

ghost use Rattle.std.specs.Prelude.{◌≡◌};
ghost use Rattle.rs_file_dump.specs.Files.{whole_route};

use rs_catalog::{Catalog, NamedRoute, RouteReferents};
use rs_disk::Disk;
use rs_dump::{Held, NamedTable};
use rs_refusal::Refusal;
use rs_store_source::rs_store::Store;
use rs_table_reads::{FoundEvents, RouteWindow};
use rs_value::Kind;
use std::alloc::Global;

/// The store of a file that is only read.
#[derive(Drop)]
pub struct HeldFile<D: Disk> {
    pub(crate) store: Store<D>,
}

impl<D: Disk> Held for HeldFile<D> {
    ghost use Rattle.rs_file_dump.specs.Files.{ShowsFile};
    ghost use Rattle.rs_store_source.specs.Reading.{ReadsStore};
    ghost use Rattle.rs_store_source.proofs.Passing.{wants_later};
    ghost use Rattle.rs_store_source.specs.Reads.{WantsReading};

    ghost catalog = { λ held. held.store.catalog };

    ghost referents = { λ held. held.store.referents };

    ghost shows = { λ held shown. ShowsFile D.Disk held.store shown };

    ghost passes = { λ old new. ReadsStore D.Disk old.store new.store };

    ghost wants = { λ why old new. WantsReading D.Disk why old.store new.store };

    fn catalog(&self) -> &Catalog {
        self.store.catalog()
    }

    fn referents(&self) -> &RouteReferents {
        self.store.referents()
    }

    fn found_events(
        &mut self,
        alloc: Global,
        table: &NamedTable,
        route: &NamedRoute,
    ) -> Result<FoundEvents, Refusal> {
        let window = whole_route(table.kind, self.store.accepted(), route.route.number());
        self.store.found_events(alloc, table.number, window)
    }

    ghost wants_later = { λ why a b c passed wanted. wants_later _ why a.store b.store c.store passed wanted };
}

/// All of a route at a version.
fn whole_route(kind: Kind, version: u64, route: u32) -> RouteWindow
    ensures { result ≡ whole_route kind version route }
{
    RouteWindow {
        kind,
        version,
        route,
        from: 0,
        to: u32::MAX,
    }
}

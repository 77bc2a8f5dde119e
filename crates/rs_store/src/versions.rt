//! This module reads the routes and the referents that a version sees.

ghost use Rattle.std.specs.Prelude.{◌≡◌, ◌≢◌, ◌≤◌, ℕ, Err, IfOk, MatchResult};
ghost use Rattle.rs_catalog.specs.Referents.{referents_on};
ghost use Rattle.rs_file.specs.Calls.{RefusesToLoad};
ghost use Rattle.rs_stored_catalog.specs.RouteReferents.{HasAlone};
ghost use Rattle.rs_machine.specs.State.{State};
ghost use Rattle.rs_pager.specs.Opened.{CountsFault};
ghost use Rattle.rs_file_meaning.specs.Seen.{referents_seen};
ghost use Rattle.rs_store.specs.Kept.{StandsIn};
ghost use Rattle.rs_store.specs.Reading.{ReadsStore};
ghost use Rattle.rs_store.specs.Versions.{AreRoutesAt, routes_by};

use crate::store::Store;
use rs_catalog::RouteReferents;
use rs_disk::Disk;
use rs_refusal::Refusal;
use rs_stored_catalog::referents_of_route;
use std::alloc::Global;

impl<D: Disk> Store<D> {
    /// The routes that a version sees are those of the catalogue that were born by it.
    pub fn routes_born_by_are_seen(&self, version: u64)
        ensures { (oldest : ℕ) (state : State) (stands : StandsIn D.Disk oldest self.now state)
            → AreRoutesAt version stands.contents (routes_by version self.now.catalog) }
    {}

    /// The referents that a live version sees on the route of this number, as a position of the route is printed by them; no other
    /// route has any. It is refused with 90, with 91, and with 94, which never comes at a live version of a store that stands in a
    /// state. Nothing that is kept changes, whatever is answered.
    pub fn referents_at(
        &mut self,
        alloc: Global,
        route: u32,
        version: u64,
    ) -> Result<RouteReferents, Refusal>
        ensures reads { ReadsStore D.Disk self.old self.new }
        ensures count { MatchResult result (λ _. D.failures self.new.pager.disk ≡ D.failures self.old.pager.disk)
            (λ why. CountsFault why (D.failures self.old.pager.disk) (D.failures self.new.pager.disk)) }
        ensures sees { (oldest : ℕ) (state : State) (stands : StandsIn D.Disk oldest self.old state) → oldest ≤ version → version ≤ self.old.file.accepted
            → IfOk result (λ referents. HasAlone route (referents_seen stands.contents version route) (referents_on referents)) }
        ensures sound { (oldest : ℕ) (state : State) → StandsIn D.Disk oldest self.old state → oldest ≤ version → version ≤ self.old.file.accepted
            → result ≢ Err Refusal.DamagedFile }
        ensures refused { RefusesToLoad result }
    {
        referents_of_route(alloc, &mut self.pager, &self.file.referents, route, version)
    }
}

//! This module changes the referents of a store's routes: each call is one change of the state, whole or not at all.

ghost use Rattle.std.specs.Prelude.{◌≡◌, ◌≢◌, ◌≤◌, ◌<◌, ◌+◌, ◌^◌, ℕ, true, false, OnErr, OnOk, Some};
ghost use Rattle.std.specs.FinMap as names;
ghost use Rattle.std.specs.List.{AllByRecursion};
ghost use Rattle.rs_catalog.specs.Definitions.{RouteItem};
ghost use Rattle.rs_catalog.specs.Referents.{at_number, referents_on};
ghost use Rattle.rs_facts.specs.Fact.{Name as ListName};
ghost use Rattle.rs_machine.specs.Lawful.{IsLawful};
ghost use Rattle.rs_machine.specs.State.{State, has};
ghost use Rattle.rs_machine.specs.Step.{with_referents};
ghost use Rattle.rs_machine.specs.declared.limits.TheConstants.{CHANGES};
ghost use Rattle.rs_methods.specs.Position.{start_name};
ghost use Rattle.rs_changes.specs.Calls.{Changes, ComesNext, LeavesFile, MayAccept};
ghost use Rattle.rs_changes.specs.Parts.{EndsReferent, MovesReferent, PutsReferent};
ghost use Rattle.rs_store.specs.Bracket.{StandsNext};
ghost use Rattle.rs_store.specs.Changing.{Always, LeavesStore};

use crate::bracket::{begin_change, kept_change_gives_its_state, settle};
use crate::laws::store_stands_in_one_state;
use crate::store::Store;
use rs_catalog::RouteReferents;
use rs_changes::rs_change_laws::referents::{
    referent_ended_gives_its_state, referent_moved_gives_its_state, referent_put_gives_its_state,
};
use rs_disk::Disk;
use rs_file::OpenedFile;
use rs_file_parts::laws::changed_file_can_be_changed;
use rs_measure::Measure;
use rs_methods::{Name, Referent};
use rs_pages::Pages;
use rs_refusal::Refusal;
use std::alloc::Global;

impl<D: Disk> Store<D> {
    /// Ends the referent of this name on a route. Versions from `oldest` on see what they saw. It is refused with 90, with 91, and with
    /// 92 where the file is full; with 94 only where the disk does not give back what was written. A refusal changes nothing.
    pub fn drop_referent(
        &mut self,
        alloc: Global,
        oldest: u64,
        route: &Name,
        name: &Name,
    ) -> Result<(), Refusal>
        requires route { has self.old.catalog.routes route.now.bytes ≡ true }
        requires room { self.old.file.accepted < CHANGES }
        ensures leaves { LeavesStore D.Disk Always result self.old self.new }
        ensures drops { StandsNext D.Disk oldest (λ (state : State). (has (state.referents route.now.bytes) name.now.bytes ≡ true)
            × IsLawful (with_referents state route.now.bytes (names.remove (state.referents route.now.bytes) name.now.bytes)))
            (λ state. with_referents state route.now.bytes (names.remove (state.referents route.now.bytes) name.now.bytes)) result self.old self.new }
    {
        kept_change_gives_its_state::<D>();
        referent_ended_gives_its_state();
        self.catalog.stand();
        let number = self.catalog.route(route).unwrap().number();
        begin_change(&mut self.pager)?;
        let made = drop_from_both(
            alloc,
            &mut self.pager,
            &mut self.file,
            &mut self.referents,
            oldest,
            number,
            name,
        );
        settle(&mut self.pager, &mut self.file, made)
    }
    /// Puts a referent on a route at a measure: it is a new one, or the one of its name moves there. It is refused as `drop_referent` is.
    pub fn put_referent(
        &mut self,
        alloc: Global,
        oldest: u64,
        route: &Name,
        name: Name,
        measure: Measure,
    ) -> Result<(), Refusal>
        requires route { has self.old.catalog.routes route.now.bytes ≡ true }
        requires not_start { name.bytes ≢ start_name }
        requires name { AllByRecursion (λ byte. 0 < byte) name.bytes }
        requires room { self.old.file.accepted < CHANGES }
        ensures leaves { LeavesStore D.Disk Always result self.old self.new }
        ensures puts { StandsNext D.Disk oldest (λ (state : State). IsLawful (with_referents state route.now.bytes (names.insert (state.referents route.now.bytes) name.bytes measure)))
            (λ state. with_referents state route.now.bytes (names.insert (state.referents route.now.bytes) name.bytes measure)) result self.old self.new }
    {
        store_stands_in_one_state::<D>();
        self.catalog.stand();
        let number = self.catalog.route(route).unwrap().number();
        let referent = Referent {
            route: number,
            name,
            measure,
        };
        if self.referents.has(number, &name) {
            self.move_referent(alloc, oldest, &referent)
        } else {
            self.define_referent(alloc, oldest, &referent)
        }
    }

    /// Puts a referent that its route does not have.
    fn define_referent(
        &mut self,
        alloc: Global,
        oldest: u64,
        referent: &Referent,
    ) -> Result<(), Refusal>
        requires not_start { referent.now.name.bytes ≢ start_name }
        requires name { AllByRecursion (λ byte. 0 < byte) referent.now.name.bytes }
        requires new { has (referents_on self.old.referents referent.now.route) referent.now.name.bytes ≡ false }
        requires room { self.old.file.accepted < CHANGES }
        ensures leaves { LeavesStore D.Disk Always result self.old self.new }
        ensures puts { (route : ListName) (on : RouteItem) → names.get self.old.catalog.routes route ≡ Some on → on.number ≡ referent.now.route
            → StandsNext D.Disk oldest (λ (state : State). (has (state.referents route) referent.now.name.bytes ≡ false)
            × IsLawful (with_referents state route (names.insert (state.referents route) referent.now.name.bytes referent.now.measure)))
            (λ state. with_referents state route (names.insert (state.referents route) referent.now.name.bytes referent.now.measure)) result self.old self.new }
    {
        kept_change_gives_its_state::<D>();
        referent_put_gives_its_state();
        begin_change(&mut self.pager)?;
        let made = define_in_both(
            alloc,
            &mut self.pager,
            &mut self.file,
            &mut self.referents,
            oldest,
            referent,
        );
        settle(&mut self.pager, &mut self.file, made)
    }

    /// Moves a referent that its route has.
    fn move_referent(
        &mut self,
        alloc: Global,
        oldest: u64,
        referent: &Referent,
    ) -> Result<(), Refusal>
        requires not_start { referent.now.name.bytes ≢ start_name }
        requires name { AllByRecursion (λ byte. 0 < byte) referent.now.name.bytes }
        requires there { has (referents_on self.old.referents referent.now.route) referent.now.name.bytes ≡ true }
        requires number { referent.now.route + 1 < 2 ^ 32 }
        requires room { self.old.file.accepted < CHANGES }
        ensures leaves { LeavesStore D.Disk Always result self.old self.new }
        ensures moves { (route : ListName) (on : RouteItem) → names.get self.old.catalog.routes route ≡ Some on → on.number ≡ referent.now.route
            → StandsNext D.Disk oldest (λ (state : State). (has (state.referents route) referent.now.name.bytes ≡ true)
            × IsLawful (with_referents state route (names.insert (state.referents route) referent.now.name.bytes referent.now.measure)))
            (λ state. with_referents state route (names.insert (state.referents route) referent.now.name.bytes referent.now.measure)) result self.old self.new }
    {
        kept_change_gives_its_state::<D>();
        referent_moved_gives_its_state();
        begin_change(&mut self.pager)?;
        let made = move_in_both(
            alloc,
            &mut self.pager,
            &mut self.file,
            &mut self.referents,
            oldest,
            referent,
        );
        settle(&mut self.pager, &mut self.file, made)
    }
}

// decision: memory-put-back
/// Puts a new referent into memory and then into the file; where the file refuses it, it goes out of memory again.
fn define_in_both<P: Pages>(
    alloc: Global,
    pages: &mut P,
    file: &mut OpenedFile,
    referents: &mut RouteReferents,
    oldest: u64,
    referent: &Referent,
) -> Result<(), Refusal>
    requires may { MayAccept P.Pages file.old pages.old }
    requires not_start { referent.now.name.bytes ≢ start_name }
    requires name { AllByRecursion (λ byte. 0 < byte) referent.now.name.bytes }
    requires new { has (referents_on referents.old referent.now.route) referent.now.name.bytes ≡ false }
    ensures leaves { LeavesFile P.Pages file.old result pages.old pages.new }
    ensures puts { Changes P.Pages oldest file.old file.new (PutsReferent referent.now.route referent.now.name.bytes referent.now.measure) result pages.old pages.new }
    ensures opened { ComesNext file.old.definitions result file.old file.new }
    ensures held { OnOk result (referents_on referents.new ≡ at_number referent.now.route
        (names.insert (referents_on referents.old referent.now.route) referent.now.name.bytes referent.now.measure) (referents_on referents.old)) }
    ensures back { OnErr result ((route : ℕ) → referents_on referents.new route ≡ referents_on referents.old route) }
{
    changed_file_can_be_changed();
    referents.put(referent.route, referent.name, referent.measure)?;
    let made = rs_changes::define_referent(alloc, pages, file, oldest, referent);
    if made.is_err() {
        referents.remove(referent.route, &referent.name);
    }
    made
}

/// Moves a referent in the file and then in memory; where the file refuses it, it stays where it was in both.
fn move_in_both<P: Pages>(
    alloc: Global,
    pages: &mut P,
    file: &mut OpenedFile,
    referents: &mut RouteReferents,
    oldest: u64,
    referent: &Referent,
) -> Result<(), Refusal>
    requires may { MayAccept P.Pages file.old pages.old }
    requires not_start { referent.now.name.bytes ≢ start_name }
    requires name { AllByRecursion (λ byte. 0 < byte) referent.now.name.bytes }
    requires there { has (referents_on referents.old referent.now.route) referent.now.name.bytes ≡ true }
    requires number { referent.now.route + 1 < 2 ^ 32 }
    ensures leaves { LeavesFile P.Pages file.old result pages.old pages.new }
    ensures moves { Changes P.Pages oldest file.old file.new (MovesReferent referent.now.route referent.now.name.bytes referent.now.measure) result pages.old pages.new }
    ensures opened { ComesNext file.old.definitions result file.old file.new }
    ensures held { OnOk result (referents_on referents.new ≡ at_number referent.now.route
        (names.insert (referents_on referents.old referent.now.route) referent.now.name.bytes referent.now.measure) (referents_on referents.old)) }
    ensures back { OnErr result ((route : ℕ) → referents_on referents.new route ≡ referents_on referents.old route) }
{
    rs_changes::move_referent(alloc, pages, file, oldest, referent)?;
    referents
        .put(referent.route, referent.name, referent.measure)
        .unwrap();
    Ok(())
}

/// Ends a referent in the file and takes it out of memory; where the file refuses that, it stays in both.
fn drop_from_both<P: Pages>(
    alloc: Global,
    pages: &mut P,
    file: &mut OpenedFile,
    referents: &mut RouteReferents,
    oldest: u64,
    route: u32,
    name: &Name,
) -> Result<(), Refusal>
    requires may { MayAccept P.Pages file.old pages.old }
    requires number { route + 1 < 2 ^ 32 }
    ensures leaves { LeavesFile P.Pages file.old result pages.old pages.new }
    ensures ends { Changes P.Pages oldest file.old file.new (EndsReferent route name.now.bytes) result pages.old pages.new }
    ensures opened { ComesNext file.old.definitions result file.old file.new }
    ensures held { OnOk result (referents_on referents.new ≡ at_number route (names.remove (referents_on referents.old route) name.now.bytes) (referents_on referents.old)) }
    ensures back { OnErr result ((number : ℕ) → referents_on referents.new number ≡ referents_on referents.old number) }
{
    rs_changes::drop_referent(alloc, pages, file, oldest, route, name)?;
    referents.remove(route, name);
    Ok(())
}

//! This module defines and drops the routes of a store: each call is one change of the state, whole or not at all.

ghost use Rattle.std.specs.Prelude.{◌≡◌, ◌≤◌, ◌<◌, ◌+◌, ◌^◌, ℕ, true, false, IfOk, OnErr, OnOk, Some};
ghost use Rattle.std.specs.FinMap as names;
ghost use Rattle.std.specs.List.{AllByRecursion};
ghost use Rattle.rs_catalog.specs.Changes as changes;
ghost use Rattle.rs_catalog.specs.Definitions.{AreDefinitions, IsFree, RouteItem};
ghost use Rattle.rs_catalog.specs.Referents.{at_number, referents_on};
ghost use Rattle.rs_catalog.specs.Uses.{some_piece_on};
ghost use Rattle.rs_catalog_pages.specs.Said.{said_catalogue};
ghost use Rattle.rs_stored_catalog.specs.Listing.{listing_of};
ghost use Rattle.rs_file_parts.specs.Calls.{ChangesDefinitions};
ghost use Rattle.rs_file_parts.specs.Parts.{IsCommitted};
ghost use Rattle.rs_machine.specs.Lawful.{IsLawful};
ghost use Rattle.rs_machine.specs.State.{State, has};
ghost use Rattle.rs_machine.specs.Step.{with_route, without_route};
ghost use Rattle.rs_machine.specs.declared.limits.TheConstants.{CHANGES, ROUTES};
ghost use Rattle.rs_changes.specs.Calls.{MayChange};
ghost use Rattle.rs_changes.specs.Parts.{DropsRoute};
ghost use Rattle.rs_store.specs.Bracket.{StandsNext};
ghost use Rattle.rs_store.specs.Changing.{LeavesStore};
ghost use Rattle.rs_store.specs.Kept.{IsAtRest};
ghost use Rattle.rs_store.specs.Rewriting.{HasTablesOf, Redefines, RedefinesNumbered, Rewrites};
ghost use Rattle.rs_store.specs.Routing.{HasNoFactOn};

use crate::bracket::{begin_change, kept_change_gives_its_state, settle};
use crate::laws::store_stands_in_one_state;
use crate::rewriting::{check_definitions, is_name, write_definitions_of};
use crate::store::Store;
use rs_catalog::{Catalog, RouteReferents};
use rs_catalog_laws::definitions::state_has_one_route_more_or_less;
use rs_catalog_pages::StoredCatalogue;
use rs_changes::rs_change_laws::definitions::{
    route_defined_gives_its_state, route_dropped_gives_its_state,
};
use rs_disk::Disk;
use rs_file::OpenedFile;
use rs_machine_laws::view_lines::shortest_line_defines_the_view;
use rs_measure::Measure;
use rs_methods::Name;
use rs_pages::Pages;
use rs_refusal::Refusal;
use rs_stored_catalog::listing_laws::{
    listed_definitions_of_a_lawful_catalogue_are_meant, one_route_is_listed_more_or_less,
};
use rs_stored_catalog::stored_of;
use std::alloc::{AllocError, Global};

impl<D: Disk> Store<D> {
    /// Defines a route between two measures, without referents, under the least number that no route has. Versions from `oldest` on see
    /// what they saw. It is refused with 90, with 91, and with 92 where the file is full; with 94 only where the disk does not give back
    /// what was written. A refusal changes nothing.
    pub fn define_route(
        &mut self,
        alloc: Global,
        oldest: u64,
        name: Name,
        start: Measure,
        finish: Measure,
    ) -> Result<(), Refusal>
        requires new { has self.old.catalog.routes name.bytes ≡ false }
        requires ordered { start < finish }
        requires few { names.len self.old.catalog.routes < ROUTES }
        requires room { self.old.file.accepted < CHANGES }
        ensures leaves { LeavesStore D.Disk (λ (state : State). IsLawful (with_route state name.bytes start finish)) result self.old self.new }
        ensures defines { StandsNext D.Disk oldest (λ (state : State). IsLawful (with_route state name.bytes start finish)) (λ state. with_route state name.bytes start finish) result self.old self.new }
    {
        kept_change_gives_its_state::<D>();
        route_defined_gives_its_state();
        shortest_line_defines_the_view();
        self.catalog.stand();
        begin_change(&mut self.pager)?;
        let made = define_route_in_both(
            alloc,
            &mut self.pager,
            &mut self.file,
            &mut self.catalog,
            oldest,
            RouteDefinition {
                name,
                start,
                finish,
            },
        );
        settle(&mut self.pager, &mut self.file, made)
    }

    /// Drops a route with its referents, where no version before the next one is live. It is refused as `define_route` is.
    pub fn drop_route(&mut self, alloc: Global, oldest: u64, name: &Name) -> Result<(), Refusal>
        requires there { has self.old.catalog.routes name.now.bytes ≡ true }
        requires unused { some_piece_on self.old.catalog name.now.bytes ≡ false }
        requires room { self.old.file.accepted < CHANGES }
        ensures leaves { LeavesStore D.Disk (λ (state : State). HasNoFactOn name.now.bytes state × IsLawful (without_route state name.now.bytes)) result self.old self.new }
        ensures drops { oldest ≡ self.old.file.accepted + 1 → StandsNext D.Disk oldest (λ (state : State). HasNoFactOn name.now.bytes state × IsLawful (without_route state name.now.bytes))
            (λ state. without_route state name.now.bytes) result self.old self.new }
    {
        kept_change_gives_its_state::<D>();
        route_dropped_gives_its_state();
        state_has_one_route_more_or_less();
        listed_definitions_of_a_lawful_catalogue_are_meant();
        shortest_line_defines_the_view();
        store_stands_in_one_state::<D>();
        self.catalog.stand();
        begin_change(&mut self.pager)?;
        let made = drop_route_from_all(
            alloc,
            &mut self.pager,
            &mut self.file,
            &mut self.catalog,
            &mut self.referents,
            oldest,
            name,
        );
        settle(&mut self.pager, &mut self.file, made)
    }
}

/// A route as a line defines it.
struct RouteDefinition {
    name: Name,
    start: Measure,
    finish: Measure,
}

/// Puts a new route into memory, under the least number that none has, and then into the file; where the file refuses it, it goes out of
/// memory again.
fn define_route_in_both<P: Pages>(
    alloc: Global,
    pages: &mut P,
    file: &mut OpenedFile,
    catalog: &mut Catalog,
    oldest: u64,
    route: RouteDefinition,
) -> Result<(), Refusal>
    requires begun { (P.store pages.old).is_begun ≡ true }
    requires rests { IsAtRest file.old catalog.old }
    requires room { file.old.accepted < CHANGES }
    requires new { has catalog.old.routes route.name.bytes ≡ false }
    requires ordered { route.start < route.finish }
    requires few { names.len catalog.old.routes < ROUTES }
    ensures { let next = λ (number : ℕ). changes.with_route catalog.old route.name.bytes (record { number = number; born = file.old.accepted + 1; ends = record { start = route.start; finish = route.finish } }) in
        RedefinesNumbered P.is_tied P.store P.keeps oldest (λ number. AreDefinitions (next number) × IsFree (λ (item : RouteItem). item.number) catalog.old.routes number)
        (λ number. ChangesDefinitions (listing_of (next number))) next result pages.old pages.new file.old file.new catalog.old catalog.new }
{
    one_route_is_listed_more_or_less();
    let RouteDefinition {
        name,
        start,
        finish,
    } = route;
    let born = file.accepted + 1;
    catalog.stand();
    let _number = catalog.define_route(name, born, start, finish)?;
    catalog.stand();
    let made = write_definitions_of(alloc, pages, file, oldest, catalog);
    if made.is_err() {
        catalog.drop_route(&name);
    }
    made
}

/// Takes a route out of the file and then out of memory, with its referents; where the file refuses that, it stays in both.
fn drop_route_from_all<P: Pages>(
    alloc: Global,
    pages: &mut P,
    file: &mut OpenedFile,
    catalog: &mut Catalog,
    referents: &mut RouteReferents,
    oldest: u64,
    name: &Name,
) -> Result<(), Refusal>
    requires begun { (P.store pages.old).is_begun ≡ true }
    requires rests { IsAtRest file.old catalog.old }
    requires room { file.old.accepted < CHANGES }
    requires there { has catalog.old.routes name.now.bytes ≡ true }
    requires unused { some_piece_on catalog.old name.now.bytes ≡ false }
    ensures redefines { (item : RouteItem) → names.get catalog.old.routes name.now.bytes ≡ Some item → let next = changes.without_route catalog.old name.now.bytes in
        Redefines P.is_tied P.store P.keeps oldest (DropsRoute item.number (listing_of next)) next result pages.old pages.new file.old file.new catalog.old catalog.new }
    ensures ended { (item : RouteItem) → names.get catalog.old.routes name.now.bytes ≡ Some item
        → OnOk result (referents_on referents.new ≡ at_number item.number names.empty (referents_on referents.old)) }
    ensures back { OnErr result (referents.new ≡ referents.old) }
{
    one_route_is_listed_more_or_less();
    catalog.stand();
    let number = catalog.route(name).unwrap().number();
    let definitions = definitions_without_route(alloc, &file.definitions, catalog, name)?;
    erase_route(alloc, pages, file, oldest, definitions, number)?;
    catalog.drop_route(name);
    referents.drop_route(number);
    Ok(())
}

/// Ends the referents of the route of this number and writes these definitions into the file, which has the same tables and indexes. It
/// is refused as `write_definitions_of` is.
fn erase_route<P: Pages>(
    alloc: Global,
    pages: &mut P,
    file: &mut OpenedFile,
    oldest: u64,
    definitions: StoredCatalogue,
    number: u32,
) -> Result<(), Refusal>
    requires begun { (P.store pages.old).is_begun ≡ true }
    requires may { MayChange file.old }
    requires committed { IsCommitted file.old }
    requires room { file.old.accepted < CHANGES }
    requires tables { HasTablesOf (said_catalogue file.old.definitions) (said_catalogue definitions) }
    requires births { AllByRecursion (λ route. route.born ≤ file.old.accepted + 1) (said_catalogue definitions).routes }
    requires number { number + 1 < 2 ^ 32 }
    ensures { Rewrites P.is_tied P.store P.keeps oldest (DropsRoute number (said_catalogue definitions)) (said_catalogue definitions) result pages.old pages.new file.old file.new }
{
    check_definitions(&definitions)?;
    rs_changes::drop_route(alloc, pages, file, oldest, definitions, number)
}

/// The definitions of the catalogue as a file keeps them, without this route, which no alignment names. The only refusal is for want of
/// memory.
fn definitions_without_route(
    alloc: Global,
    former: &StoredCatalogue,
    catalog: &Catalog,
    name: &Name,
) -> Result<StoredCatalogue, AllocError>
    requires there { has catalog.now.routes name.now.bytes ≡ true }
    requires unused { some_piece_on catalog.now name.now.bytes ≡ false }
    ensures { IfOk result (λ stored. said_catalogue stored ≡ listing_of (changes.without_route catalog.now name.now.bytes)) }
{
    one_route_is_listed_more_or_less();
    let mut definitions = stored_of(alloc, former, catalog)?;
    definitions
        .routes
        .retain(|route| !is_name(name, route.name.as_str()));
    Ok(definitions)
}

//! This module defines and drops the views of a store: each call is one change of the state, whole or not at all.

ghost use Rattle.std.specs.Prelude.{◌≡◌, ◌≤◌, ◌<◌, ◌+◌, ℕ, true, false, IfOk, OnOk, string_bytes};
ghost use Rattle.rs_catalog.specs.Changes as changes;
ghost use Rattle.rs_catalog_pages.specs.Said.{said_catalogue};
ghost use Rattle.rs_stored_catalog.specs.Listing.{listing_of};
ghost use Rattle.rs_file_parts.specs.Calls.{ChangesDefinitions};
ghost use Rattle.rs_machine.specs.Lawful.{IsLawful};
ghost use Rattle.rs_machine.specs.State.{State, has};
ghost use Rattle.rs_machine.specs.Step.{with_view, without_view};
ghost use Rattle.rs_machine.specs.declared.limits.TheConstants.{CHANGES};
ghost use Rattle.rs_file_meaning.specs.States.{HasLine};
ghost use Rattle.rs_store.specs.Bracket.{StandsNext};
ghost use Rattle.rs_store.specs.Changing.{LeavesStore};
ghost use Rattle.rs_store.specs.Kept.{IsAtRest};
ghost use Rattle.rs_store.specs.Rewriting.{Redefines};
ghost use Rattle.rs_syntax.specs.QueryView.{query_tree};

use crate::bracket::{begin_change, kept_change_gives_its_state, settle};
use crate::rewriting::{is_name, rewrite, write_definitions_of};
use crate::store::Store;
use rs_catalog::Catalog;
use rs_catalog_pages::StoredCatalogue;
use rs_changes::rs_change_laws::definitions::view_listed_gives_its_state;
use rs_disk::Disk;
use rs_file::OpenedFile;
use rs_machine_laws::view_lines::shortest_line_defines_the_view;
use rs_methods::Name;
use rs_pages::Pages;
use rs_refusal::Refusal;
use rs_stored_catalog::stored_of;
use rs_syntax::Query;
use std::alloc::{AllocError, Global};

impl<D: Disk> Store<D> {
    /// Defines a view by its query and the query's text. Versions from `oldest` on see what they saw. It is refused with 90, with 91, and
    /// with 92 where the file is full; with 94 only where the definitions can't be kept or the disk does not give back what was written.
    /// A refusal changes nothing.
    pub fn define_view(
        &mut self,
        alloc: Global,
        oldest: u64,
        name: Name,
        query: Query,
        text: String,
    ) -> Result<(), Refusal>
        requires new { has self.old.catalog.views name.bytes ≡ false }
        requires room { self.old.file.accepted < CHANGES }
        ensures leaves { LeavesStore D.Disk (λ (state : State). HasLine name.bytes (query_tree query) (string_bytes text) × IsLawful (with_view state name.bytes (query_tree query)))
            result self.old self.new }
        ensures defines { StandsNext D.Disk oldest (λ (state : State). HasLine name.bytes (query_tree query) (string_bytes text) × IsLawful (with_view state name.bytes (query_tree query)))
            (λ state. with_view state name.bytes (query_tree query)) result self.old self.new }
    {
        kept_change_gives_its_state::<D>();
        shortest_line_defines_the_view();
        view_listed_gives_its_state();
        begin_change(&mut self.pager)?;
        let made = define_view_in_both(
            alloc,
            &mut self.pager,
            &mut self.file,
            &mut self.catalog,
            oldest,
            ViewDefinition { name, query, text },
        );
        settle(&mut self.pager, &mut self.file, made)
    }

    /// Drops a view. It is refused as `define_view` is.
    pub fn drop_view(&mut self, alloc: Global, oldest: u64, name: &Name) -> Result<(), Refusal>
        requires there { has self.old.catalog.views name.now.bytes ≡ true }
        requires room { self.old.file.accepted < CHANGES }
        ensures leaves { LeavesStore D.Disk (λ (state : State). IsLawful (without_view state name.now.bytes)) result self.old self.new }
        ensures drops { StandsNext D.Disk oldest (λ (state : State). IsLawful (without_view state name.now.bytes)) (λ state. without_view state name.now.bytes) result self.old self.new }
    {
        kept_change_gives_its_state::<D>();
        shortest_line_defines_the_view();
        view_listed_gives_its_state();
        begin_change(&mut self.pager)?;
        let made = drop_view_from_both(
            alloc,
            &mut self.pager,
            &mut self.file,
            &mut self.catalog,
            oldest,
            name,
        );
        settle(&mut self.pager, &mut self.file, made)
    }
}

/// A view as a line defines it: its name, its query, and the query's text.
#[derive(Drop)]
struct ViewDefinition {
    name: Name,
    query: Query,
    text: String,
}

/// Puts a new view into memory and then into the file; where the file refuses it, it goes out of memory again.
fn define_view_in_both<P: Pages>(
    alloc: Global,
    pages: &mut P,
    file: &mut OpenedFile,
    catalog: &mut Catalog,
    oldest: u64,
    view: ViewDefinition,
) -> Result<(), Refusal>
    requires begun { (P.store pages.old).is_begun ≡ true }
    requires rests { IsAtRest file.old catalog.old }
    requires room { file.old.accepted < CHANGES }
    requires new { has catalog.old.views view.name.bytes ≡ false }
    ensures { let next = changes.with_view catalog.old view.name.bytes (record { query = view.query; text = string_bytes view.text }) in
        Redefines P.is_tied P.store P.keeps oldest (ChangesDefinitions (listing_of next)) next result pages.old pages.new file.old file.new catalog.old catalog.new }
{
    let ViewDefinition { name, query, text } = view;
    catalog.define_view(name, query, text)?;
    let made = write_definitions_of(alloc, pages, file, oldest, catalog);
    if made.is_err() {
        catalog.drop_view(&name);
    }
    made
}

/// Takes a view out of the file and then out of memory; where the file refuses that, it stays in both.
fn drop_view_from_both<P: Pages>(
    alloc: Global,
    pages: &mut P,
    file: &mut OpenedFile,
    catalog: &mut Catalog,
    oldest: u64,
    name: &Name,
) -> Result<(), Refusal>
    requires begun { (P.store pages.old).is_begun ≡ true }
    requires rests { IsAtRest file.old catalog.old }
    requires room { file.old.accepted < CHANGES }
    ensures { let next = changes.without_view catalog.old name.now.bytes in
        Redefines P.is_tied P.store P.keeps oldest (ChangesDefinitions (listing_of next)) next result pages.old pages.new file.old file.new catalog.old catalog.new }
{
    let definitions = definitions_without_view(alloc, &file.definitions, catalog, name)?;
    rewrite(alloc, pages, file, oldest, definitions)?;
    catalog.drop_view(name);
    Ok(())
}

/// The definitions of the catalogue as a file keeps them, without this view. The only refusal is for want of memory.
fn definitions_without_view(
    alloc: Global,
    former: &StoredCatalogue,
    catalog: &Catalog,
    name: &Name,
) -> Result<StoredCatalogue, AllocError>
    ensures { IfOk result (λ stored. said_catalogue stored ≡ listing_of (changes.without_view catalog.now name.now.bytes)) }
{
    let mut definitions = stored_of(alloc, former, catalog)?;
    definitions
        .views
        .retain(|view| !is_name(name, view.name.as_str()));
    Ok(definitions)
}

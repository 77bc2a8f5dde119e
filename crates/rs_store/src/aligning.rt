//! This module defines and drops the alignments of a store: each call is one change of the state, whole or not at all.

ghost use Rattle.std.specs.Prelude.{◌≡◌, ◌≤◌, ◌<◌, ◌+◌, ℕ, true, false, IfOk, OnOk};
ghost use Rattle.rs_catalog.specs.Changes as changes;
ghost use Rattle.rs_catalog.specs.Definitions.{pieces_of, routes_of};
ghost use Rattle.rs_catalog_pages.specs.Said.{said_catalogue};
ghost use Rattle.rs_stored_catalog.specs.Listing.{listing_of};
ghost use Rattle.rs_facts.specs.WellFormed.{ArePiecesOn};
ghost use Rattle.rs_file_parts.specs.Calls.{ChangesDefinitions};
ghost use Rattle.rs_machine.specs.Lawful.{IsLawful};
ghost use Rattle.rs_machine.specs.State.{State, has};
ghost use Rattle.rs_machine.specs.Step.{with_alignment, without_alignment};
ghost use Rattle.rs_machine.specs.declared.limits.TheConstants.{CHANGES};
ghost use Rattle.rs_store.specs.Bracket.{StandsNext};
ghost use Rattle.rs_store.specs.Changing.{LeavesStore};
ghost use Rattle.rs_store.specs.Kept.{IsAtRest};
ghost use Rattle.rs_store.specs.Rewriting.{Redefines};

use crate::bracket::{begin_change, kept_change_gives_its_state, settle};
use crate::rewriting::{is_name, rewrite, write_definitions_of};
use crate::store::Store;
use rs_catalog::Catalog;
use rs_catalog_pages::StoredCatalogue;
use rs_changes::rs_change_laws::definitions::alignment_listed_gives_its_state;
use rs_disk::Disk;
use rs_file::OpenedFile;
use rs_machine_laws::view_lines::shortest_line_defines_the_view;
use rs_methods::Name;
use rs_pages::Pages;
use rs_refusal::Refusal;
use rs_stored_catalog::stored_of;
use rs_syntax::Piece;
use std::alloc::{AllocError, Global};

impl<D: Disk> Store<D> {
    /// Defines an alignment by its pieces. Versions from `oldest` on see what they saw. It is refused with 90, with 91, and with 92 where
    /// the file is full; with 94 only where the definitions can't be kept or the disk does not give back what was written. A refusal
    /// changes nothing.
    pub fn define_alignment(
        &mut self,
        alloc: Global,
        oldest: u64,
        name: Name,
        pieces: Vec<Piece>,
    ) -> Result<(), Refusal>
        requires new { has self.old.catalog.alignments name.bytes ≡ false }
        requires lie { ArePiecesOn (routes_of self.old.catalog) (pieces_of pieces.items) }
        requires room { self.old.file.accepted < CHANGES }
        ensures leaves { LeavesStore D.Disk (λ (state : State). IsLawful (with_alignment state name.bytes (pieces_of pieces.items))) result self.old self.new }
        ensures defines { StandsNext D.Disk oldest (λ (state : State). IsLawful (with_alignment state name.bytes (pieces_of pieces.items)))
            (λ state. with_alignment state name.bytes (pieces_of pieces.items)) result self.old self.new }
    {
        kept_change_gives_its_state::<D>();
        shortest_line_defines_the_view();
        alignment_listed_gives_its_state();
        self.catalog.stand();
        begin_change(&mut self.pager)?;
        let made = define_alignment_in_both(
            alloc,
            &mut self.pager,
            &mut self.file,
            &mut self.catalog,
            oldest,
            name,
            pieces,
        );
        settle(&mut self.pager, &mut self.file, made)
    }

    /// Drops an alignment. It is refused as `define_alignment` is.
    pub fn drop_alignment(&mut self, alloc: Global, oldest: u64, name: &Name) -> Result<(), Refusal>
        requires there { has self.old.catalog.alignments name.now.bytes ≡ true }
        requires room { self.old.file.accepted < CHANGES }
        ensures leaves { LeavesStore D.Disk (λ (state : State). IsLawful (without_alignment state name.now.bytes)) result self.old self.new }
        ensures drops { StandsNext D.Disk oldest (λ (state : State). IsLawful (without_alignment state name.now.bytes)) (λ state. without_alignment state name.now.bytes) result self.old self.new }
    {
        kept_change_gives_its_state::<D>();
        shortest_line_defines_the_view();
        alignment_listed_gives_its_state();
        begin_change(&mut self.pager)?;
        let made = drop_alignment_from_both(
            alloc,
            &mut self.pager,
            &mut self.file,
            &mut self.catalog,
            oldest,
            name,
        );
        settle(&mut self.pager, &mut self.file, made)
    }
}

/// Puts a new alignment into memory and then into the file; where the file refuses it, it goes out of memory again.
fn define_alignment_in_both<P: Pages>(
    alloc: Global,
    pages: &mut P,
    file: &mut OpenedFile,
    catalog: &mut Catalog,
    oldest: u64,
    name: Name,
    pieces: Vec<Piece>,
) -> Result<(), Refusal>
    requires begun { (P.store pages.old).is_begun ≡ true }
    requires rests { IsAtRest file.old catalog.old }
    requires room { file.old.accepted < CHANGES }
    requires new { has catalog.old.alignments name.bytes ≡ false }
    requires lie { ArePiecesOn (routes_of catalog.old) (pieces_of pieces.items) }
    ensures { let next = changes.with_alignment catalog.old name.bytes (pieces_of pieces.items) in
        Redefines P.is_tied P.store P.keeps oldest (ChangesDefinitions (listing_of next)) next result pages.old pages.new file.old file.new catalog.old catalog.new }
{
    catalog.define_alignment(name, pieces)?;
    let made = write_definitions_of(alloc, pages, file, oldest, catalog);
    if made.is_err() {
        catalog.drop_alignment(&name);
    }
    made
}

/// Takes an alignment out of the file and then out of memory; where the file refuses that, it stays in both.
fn drop_alignment_from_both<P: Pages>(
    alloc: Global,
    pages: &mut P,
    file: &mut OpenedFile,
    catalog: &mut Catalog,
    oldest: u64,
    name: &Name,
) -> Result<(), Refusal>
    requires begun { (P.store pages.old).is_begun ≡ true }
    requires rests { IsAtRest file.old catalog.old }
    requires room { file.old.accepted < CHANGES }
    ensures { let next = changes.without_alignment catalog.old name.now.bytes in
        Redefines P.is_tied P.store P.keeps oldest (ChangesDefinitions (listing_of next)) next result pages.old pages.new file.old file.new catalog.old catalog.new }
{
    let definitions = definitions_without_alignment(alloc, &file.definitions, catalog, name)?;
    rewrite(alloc, pages, file, oldest, definitions)?;
    catalog.drop_alignment(name);
    Ok(())
}

/// The definitions of the catalogue as a file keeps them, without this alignment. The only refusal is for want of memory.
fn definitions_without_alignment(
    alloc: Global,
    former: &StoredCatalogue,
    catalog: &Catalog,
    name: &Name,
) -> Result<StoredCatalogue, AllocError>
    ensures { IfOk result (λ stored. said_catalogue stored ≡ listing_of (changes.without_alignment catalog.now name.now.bytes)) }
{
    let mut definitions = stored_of(alloc, former, catalog)?;
    definitions
        .alignments
        .retain(|alignment| !is_name(name, alignment.name.as_str()));
    Ok(definitions)
}

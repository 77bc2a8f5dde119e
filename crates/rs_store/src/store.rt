//! The store: the state of the machine in the pages of a file over a disk.
//!
//! Its definitions and its referents are in memory too. What it keeps is what its committed pages hold.

ghost use Rattle.std.specs.Prelude.{◌≡◌, ◌≤◌, ◌-◌, ◌^◌, length, min};
ghost use Rattle.rs_page_cache.specs.Changes.{ListsHeld};
ghost use Rattle.rs_page_cache.specs.declared.clean.TheConstants.{MOST_CLEAN};
ghost use Rattle.rs_store.specs.Kept.{garbage_of};

use rs_catalog::{Catalog, RouteReferents};
use rs_disk::Disk;
use rs_file::opened::OpenedFile;
use rs_pager::Pager;
use std::marker::Model;

/// The state of the machine in the pages of a file over a disk.
#[derive(Drop)]
pub struct Store<D: Disk> {
    pub(crate) pager: Pager<D>,
    pub(crate) file: OpenedFile,
    pub(crate) catalog: Catalog,
    pub(crate) referents: RouteReferents,
}

impl<D: Disk> Model for Store<D> {
    ghost use Rattle.std.specs.Coded.{codes};
    ghost use Rattle.rs_catalog.specs.Codes.{definitions_code, numbered_code};
    ghost use Rattle.rs_catalog.specs.Referents.{held_referents_code};
    ghost use Rattle.rs_store.specs.Kept.{IsSound, StoreState};

    ghost Value = { StoreState D };

    ghost coded = { Prim.hlevel (codes, definitions_code, numbered_code held_referents_code) };

    ghost view = { λ s. record { pager = s.pager; file = s.file; catalog = s.catalog; referents = s.referents } };

    ghost invariant = { λ s. IsSound s.pager.is_begun s.file s.catalog };
}

impl<D: Disk> Store<D> {
    /// The definitions.
    pub fn catalog(&self) -> &Catalog
        ensures { result.now ≡ self.now.catalog }
    {
        &self.catalog
    }

    /// The referents of each route in the version that was accepted last.
    pub fn referents(&self) -> &RouteReferents
        ensures { result.now ≡ self.now.referents }
    {
        &self.referents
    }

    /// The version that was accepted last: how many changes were accepted.
    pub fn accepted(&self) -> u64
        ensures { result ≡ self.now.file.accepted }
    {
        self.file.accepted
    }

    /// The greatest number of pages. No more are kept.
    pub fn limit(&self) -> u32
        ensures limit { result ≡ self.now.pager.limit }
        ensures within { self.now.pager.committed_fields.pages ≤ self.now.pager.limit }
    {
        self.pager.limit()
    }

    /// How many changed pages (2^32 - 1 at the most) and how many clean ones are held in memory.
    pub fn held(&self) -> (u32, u32)
        ensures changed { result.0 ≡ min (length self.now.pager.changes) (2 ^ 32 - 1) }
        ensures pages { ListsHeld self.now.pager.changes }
        ensures clean { result.1 ≡ length self.now.pager.clean }
        ensures bound { result.1 ≤ MOST_CLEAN }
    {
        self.pager.held()
    }

    /// How many records of all tables and of the referents are dead and not cleared (2^64 - 1 at the most).
    pub fn garbage(&self) -> u64
        ensures { result ≡ min (garbage_of self.now.file) (2 ^ 64 - 1) }
    {
        rs_changes::garbage(&self.file)
    }
}

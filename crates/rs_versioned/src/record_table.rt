//! This module keeps the records of a table by version.
//!
//! Changes are made together or not at all: `commit` keeps them, `abandon` takes them back, and neither takes memory. The
//! pages are to be committed or abandoned with them.

ghost use Rattle.std.specs.Prelude.{◌≡◌, ◌≢◌, ◌<◌, ◌≤◌, ◌*◌, ◌+◌, ℕ, IsTrue, IfOk, OnOk, length, true, false, Err};
ghost use Rattle.rs_page.specs.declared.header.TheConstants.{PAGE_ROOM};
ghost use Rattle.rs_cell_versions.specs.Version.{HaveDiedBy, born_of, is_living};
ghost use Rattle.rs_cell_versions.specs.Versioned.{nothing_stands};
ghost use Rattle.rs_cell_versions.specs.declared.cell.TheConstants.{LIVING};
ghost use Rattle.rs_versioned.specs.Calls.{AddsCell, Clears, KeepsTable, Kills, Leaves, TakesFirst, Vacuums};
ghost use Rattle.rs_versioned.specs.Kinds.{kept_as};

use crate::kind::RecordKind;
use rs_cell_versions::Versions;
use rs_page::PageNumber;
use rs_pages::Pages;
use rs_records::Cells;
use rs_refusal::Refusal;
use std::alloc::Global;
use std::marker::Model;

/// The records of a table, which are all of one kind.
#[derive(Drop)]
pub struct RecordTable<K: RecordKind> {
    pub(crate) kind: K,
    pub(crate) versions: Versions<K::Summary>,
}

impl<K: RecordKind> Model for RecordTable<K> {
    ghost use Rattle.std.specs.Prelude.{◌≡◌};
    ghost use Rattle.rs_versioned.specs.Kinds.{kept_as};
    ghost use Rattle.rs_versioned.specs.Records.{IsKept};
    ghost use Rattle.rs_versioned.specs.Tables.{TableState};

    ghost Value = { TableState K };

    ghost view = { λ table. record {
      types = table.kind;
      working = table.versions.working;
      committed = table.versions.committed;
    } };

    ghost invariant = { λ table. (table.versions.width ≡ K.width table.kind) × IsKept (kept_as K.Summary.Summary K.RecordKind table.kind) };
}

impl<K: RecordKind> RecordTable<K> {
    /// The page at the top of the tree; 0 where there are no records.
    pub fn root(&self) -> PageNumber
        ensures { result ≡ self.now.working.root }
    {
        self.versions.root()
    }

    /// How many bytes a cell has. Three entries of an inner page fit it at least.
    pub fn width(&self) -> usize
        ensures width { result ≡ K.width self.now.types }
        ensures fits { 3 * (4 + K.Summary.WIDTH + result) ≤ PAGE_ROOM }
    {
        self.versions.width()
    }

    /// How many records live.
    pub fn living(&self) -> u64
        ensures { result ≡ self.now.working.living }
    {
        self.versions.living()
    }

    /// How many records are dead and not cleared yet.
    pub fn garbage(&self) -> u64
        ensures { result ≡ length self.now.working.dead }
    {
        self.versions.garbage()
    }

    /// Whether anything may have changed since the last commit: where it answers false, nothing has.
    pub fn is_changed(&self) -> bool
        ensures { result ≡ false → self.now.committed ≡ self.now.working }
    {
        self.versions.is_changed()
    }

    /// Puts the record of a living cell among the others, and answers whether it was not there before; where it was, nothing
    /// changes. It is refused with 90, with 91, with 92 where the file is full, and with 94 only where no such records lie there
    /// with pages of their own; after a refusal the table is as it was, and the working pages are to be abandoned.
    pub fn add_cell<P: Pages>(&mut self, pages: &mut P, cell: &[u8]) -> Result<bool, Refusal>
        requires begun { (P.store pages.old).is_begun ≡ true }
        requires width { length cell.now ≡ K.width self.old.types }
        requires living { IsTrue (is_living cell.now) }
        ensures leaves { Leaves P.Pages (kept_as K.Summary.Summary K.RecordKind) self.old result pages.old pages.new }
        ensures adds { AddsCell P.Pages (kept_as K.Summary.Summary K.RecordKind) self.old self.new cell.now result pages.old pages.new }
        ensures table { KeepsTable result self.old self.new }
        ensures dead { self.new.working.dead ≡ self.old.working.dead }
    {
        self.versions.add(pages, cell)
    }

    /// Ends a living record at a version, and answers whether it was there: versions before this one see it as they did, and
    /// no other does. A record that no version saw before this one is taken out; at version 0 any is. It is refused with 90, with 91, with
    /// 92 where the file is full, and with 94 only where no such records lie there with pages of their own; after a refusal the table
    /// is as it was, and the working pages are to be abandoned.
    pub fn kill<P: Pages>(
        &mut self,
        pages: &mut P,
        version: u64,
        cell: &[u8],
    ) -> Result<bool, Refusal>
        requires begun { (P.store pages.old).is_begun ≡ true }
        requires width { length cell.now ≡ K.width self.old.types }
        requires living { IsTrue (is_living cell.now) }
        requires version { version < LIVING }
        requires order { born_of cell.now < version → HaveDiedBy version self.old.working.dead }
        ensures leaves { Leaves P.Pages (kept_as K.Summary.Summary K.RecordKind) self.old result pages.old pages.new }
        ensures kills { Kills P.Pages (kept_as K.Summary.Summary K.RecordKind) self.old self.new version cell.now result pages.old pages.new }
        ensures table { KeepsTable result self.old self.new }
        ensures order { (last : ℕ) → version ≤ last → HaveDiedBy last self.old.working.dead → HaveDiedBy last self.new.working.dead }
        ensures more { length self.old.working.dead ≤ length self.new.working.dead }
    {
        self.versions.kill(pages, version, cell)
    }

    /// Takes out records that no version from `oldest` on sees, those that died first before the others, at most so many, and
    /// answers their cells. No page is needed. It is refused with 90, with 91, and with 94 only where no such records lie there
    /// with pages of their own; after a refusal the table is as it was, and the working pages are to be abandoned.
    pub fn vacuum<P: Pages>(
        &mut self,
        alloc: Global,
        pages: &mut P,
        oldest: u64,
        most: usize,
    ) -> Result<Cells, Refusal>
        requires begun { (P.store pages.old).is_begun ≡ true }
        ensures leaves { Leaves P.Pages (kept_as K.Summary.Summary K.RecordKind) self.old result pages.old pages.new }
        ensures vacuums { Vacuums P.Pages (kept_as K.Summary.Summary K.RecordKind) self.old self.new oldest most result pages.old pages.new }
        ensures takes { IfOk result (TakesFirst (K.width self.old.types) oldest most self.old.working) }
        ensures table { KeepsTable result self.old self.new }
        ensures order { (version : ℕ) → HaveDiedBy version self.old.working.dead → HaveDiedBy version self.new.working.dead }
        ensures room { result ≢ Err Refusal.FileFull }
    {
        self.versions.vacuum(alloc, pages, oldest, most)
    }

    /// Takes out all records and frees their pages. It is refused with 90, with 91, and with 94 only where no such records lie
    /// there with pages of their own; after a refusal the table is as it was, and the working pages are to be abandoned.
    pub fn clear<P: Pages>(&mut self, pages: &mut P) -> Result<(), Refusal>
        requires begun { (P.store pages.old).is_begun ≡ true }
        ensures leaves { Leaves P.Pages (kept_as K.Summary.Summary K.RecordKind) self.old result pages.old pages.new }
        ensures clears { Clears P.Pages (kept_as K.Summary.Summary K.RecordKind) self.old self.new result pages.old pages.new }
        ensures working { OnOk result (self.new.working ≡ nothing_stands) }
        ensures table { KeepsTable result self.old self.new }
        ensures room { result ≢ Err Refusal.FileFull }
    {
        self.versions.clear(pages)
    }

    /// Keeps what was changed. Takes no memory.
    pub fn commit(&mut self)
        ensures working { self.new.working ≡ self.old.working }
        ensures committed { self.new.committed ≡ self.old.working }
        ensures types { self.new.types ≡ self.old.types }
    {
        self.versions.commit();
    }

    /// Takes back what was changed since the last commit. Takes no memory.
    pub fn abandon(&mut self)
        ensures working { self.new.working ≡ self.old.committed }
        ensures committed { self.new.committed ≡ self.old.committed }
        ensures types { self.new.types ≡ self.old.types }
    {
        self.versions.abandon();
    }
}

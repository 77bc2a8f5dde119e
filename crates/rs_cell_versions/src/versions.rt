//! This module keeps cells with versions in a tree.
//!
//! Changes are made together or not at all: `commit` keeps them, `abandon` takes them back, and neither takes memory. The
//! pages are to be committed or abandoned with them.

ghost use Rattle.std.specs.Prelude.{◌≡◌, ◌≢◌, ◌<◌, ◌≤◌, ◌*◌, ◌+◌, ℕ, [], IsTrue, IfOk, OnOk, true, false, length, Err};
ghost use Rattle.rs_page.specs.declared.header.TheConstants.{PAGE_ROOM};
ghost use Rattle.rs_page_owners.specs.Counts.{no_pages};
ghost use Rattle.rs_pages.specs.PageMap.{PageMap};
ghost use Rattle.rs_tree.specs.Forms.{form};
ghost use Rattle.rs_cell_versions.specs.Calls.{Adds, Clears, KeepsCells, Kills, Leaves, TakesFirst, Vacuums};
ghost use Rattle.rs_cell_versions.specs.Inner.{FitsPages, standing};
ghost use Rattle.rs_cell_versions.specs.Version.{HaveDiedBy, born_of, is_living};
ghost use Rattle.rs_cell_versions.specs.declared.cell.TheConstants.{LIVING};
ghost use Rattle.rs_cell_versions.specs.Versioned.{HoldsCells, Versioned, nothing_stands};

use crate::changing::{copy_of, end, put, take_out};
use crate::dead::Dead;
use rs_btree::Tree;
use rs_page::PageNumber;
use rs_pages::Pages;
use rs_records::Cells;
use rs_refusal::Refusal;
use rs_tree::Summary;
use std::alloc::Global;
use std::marker::Model;

/// Cells of one width, each with the versions that see it.
#[derive(Drop)]
pub struct Versions<S: Summary> {
    tree: Tree<S>,
    living: u64,
    dead: Dead,
    kept_root: PageNumber,
    kept_living: u64,
    /// Whether anything may have changed since the last commit.
    changed: bool,
}

impl<S: Summary> Model for Versions<S> {
    ghost use Rattle.std.specs.Prelude.{◌≡◌, false};
    ghost use Rattle.rs_cell_versions.specs.Inner.{FitsPages, standing};
    ghost use Rattle.rs_cell_versions.specs.Versioned.{Versioned};

    ghost Value = { Versioned };

    ghost view = { λ versions. record {
      width = versions.tree.width;
      working = standing versions.tree.root versions.living versions.dead.working;
      committed = standing versions.kept_root versions.kept_living versions.dead.committed;
    } };

    ghost invariant = { λ versions. (versions.dead.width ≡ versions.tree.width) × (FitsPages S.WIDTH versions.tree.width
        × (versions.changed ≡ false → standing versions.kept_root versions.kept_living versions.dead.committed ≡ standing versions.tree.root versions.living versions.dead.working)) };
}

impl<S: Summary> Versions<S> {
    /// No cells, of this width. Three entries of an inner page fit it at least.
    pub fn new(alloc: Global, width: usize) -> Versions<S>
        requires some { 20 ≤ width }
        requires fits { 3 * (4 + S.WIDTH + width) ≤ PAGE_ROOM }
        ensures width { result.width ≡ width }
        ensures working { result.working ≡ nothing_stands }
        ensures committed { result.committed ≡ nothing_stands }
        ensures empty { (pages : PageMap)
            → HoldsCells (form S.Summary width) pages result.working [] no_pages }
    {
        Versions {
            tree: Tree::at(width, PageNumber::new(0)),
            living: 0,
            dead: Dead::new(alloc, width),
            kept_root: PageNumber::new(0),
            kept_living: 0,
            changed: false,
        }
    }

    /// The cells of a tree, so many of which live, with the dead ones among them.
    pub(crate) fn over(tree: Tree<S>, living: u64, dead: Dead) -> Versions<S>
        requires fits { FitsPages S.WIDTH tree.width }
        requires width { dead.width ≡ tree.width }
        ensures width { result.width ≡ tree.width }
        ensures working { result.working ≡ standing tree.root living dead.working }
        ensures committed { result.committed ≡ standing tree.root living dead.committed }
    {
        let kept_root = tree.root();
        Versions {
            tree,
            living,
            dead,
            kept_root,
            kept_living: living,
            changed: true,
        }
    }

    /// The page at the top of the tree; 0: there are no cells.
    pub fn root(&self) -> PageNumber
        ensures { result ≡ self.now.working.root }
    {
        self.tree.root()
    }

    /// How many bytes a cell has.
    pub fn width(&self) -> usize
        ensures width { result ≡ self.now.width }
        ensures some { 20 ≤ result }
        ensures fits { 3 * (4 + S.WIDTH + result) ≤ PAGE_ROOM }
    {
        self.dead.width()
    }

    /// How many cells live.
    pub fn living(&self) -> u64
        ensures { result ≡ self.now.working.living }
    {
        self.living
    }

    /// How many cells are dead and not cleared yet.
    pub fn garbage(&self) -> u64
        ensures { result ≡ length self.now.working.dead }
    {
        self.dead.len() as u64
    }

    /// Whether anything may have changed since the last commit: where it answers false, nothing has.
    pub fn is_changed(&self) -> bool
        ensures { result ≡ false → self.now.committed ≡ self.now.working }
    {
        self.changed
    }

    /// Puts a living cell among the others, and answers whether it was not there before; where it was, nothing changes. It is
    /// refused with 90, with 91, with 92 where the file is full, and with 94 only where no such cells stand there with pages
    /// of their own; after a refusal the cells are as they were, and the working pages are to be abandoned.
    pub fn add<P: Pages>(&mut self, pages: &mut P, cell: &[u8]) -> Result<bool, Refusal>
        requires begun { (P.store pages.old).is_begun ≡ true }
        requires width { length cell.now ≡ self.old.width }
        requires living { IsTrue (is_living cell.now) }
        ensures leaves { Leaves P.Pages S.Summary self.old result pages.old pages.new }
        ensures adds { Adds P.Pages S.Summary self.old self.new cell.now result pages.old pages.new }
        ensures cells { KeepsCells result self.old self.new }
        ensures dead { self.new.working.dead ≡ self.old.working.dead }
    {
        let mut tree = copy_of(&self.tree, self.dead.width());
        let (new, living) = put::<P, S>(pages, &mut tree, self.living, cell)?;
        if new {
            self.tree = tree;
            self.living = living;
            self.changed = true;
        }
        Ok(new)
    }

    /// Ends a living cell at a version, and answers whether it was there: versions before this one see it as they did, and
    /// no other does. A cell that no version saw before this one is taken out: where `version <= born_of(cell)`, the caller
    /// knows that it was taken out, and otherwise that it was ended. At version 0 any cell is taken out. It is refused as `add` is;
    /// after a refusal the cells are as they were, and the working pages are to be abandoned.
    pub fn kill<P: Pages>(
        &mut self,
        pages: &mut P,
        version: u64,
        cell: &[u8],
    ) -> Result<bool, Refusal>
        requires begun { (P.store pages.old).is_begun ≡ true }
        requires width { length cell.now ≡ self.old.width }
        requires living { IsTrue (is_living cell.now) }
        requires version { version < LIVING }
        requires order { born_of cell.now < version → HaveDiedBy version self.old.working.dead }
        ensures leaves { Leaves P.Pages S.Summary self.old result pages.old pages.new }
        ensures kills { Kills P.Pages S.Summary self.old self.new version cell.now result pages.old pages.new }
        ensures cells { KeepsCells result self.old self.new }
        ensures order { (last : ℕ) → version ≤ last → HaveDiedBy last self.old.working.dead → HaveDiedBy last self.new.working.dead }
        ensures more { length self.old.working.dead ≤ length self.new.working.dead }
    {
        self.dead
            .write(cell, version)
            .map_err(|_| Refusal::OutOfMemory)?;
        let mut tree = copy_of(&self.tree, self.dead.width());
        let written = self.dead.written();
        let ended = end::<P, S>(pages, &mut tree, self.living, version, cell, written)?;
        self.tree = tree;
        self.living = ended.living;
        self.changed = true;
        if ended.listed {
            self.dead.list_written();
        }
        Ok(ended.found)
    }

    /// Takes out cells that no version from `oldest` on sees, those that died first before the others, at most so many, and
    /// answers them. No page is needed: it is refused as `add` is, but for 92; after a refusal the cells are as they were, and the
    /// working pages are to be abandoned.
    pub fn vacuum<P: Pages>(
        &mut self,
        alloc: Global,
        pages: &mut P,
        oldest: u64,
        most: usize,
    ) -> Result<Cells, Refusal>
        requires begun { (P.store pages.old).is_begun ≡ true }
        ensures leaves { Leaves P.Pages S.Summary self.old result pages.old pages.new }
        ensures vacuums { Vacuums P.Pages S.Summary self.old self.new oldest most result pages.old pages.new }
        ensures takes { IfOk result (TakesFirst oldest most self.old self.new) }
        ensures cells { KeepsCells result self.old self.new }
        ensures room { result ≢ Err Refusal.FileFull }
    {
        let taken = self
            .dead
            .clearable(alloc, oldest, most)
            .map_err(|_| Refusal::OutOfMemory)?;
        let mut tree = copy_of(&self.tree, self.dead.width());
        take_out::<P, S>(pages, &mut tree, &taken)?;
        self.tree = tree;
        self.changed = true;
        self.dead.take_front(taken.len());
        Ok(taken)
    }

    /// Takes out all cells and frees their pages. It is refused as `add` is, but for 92; after a refusal the cells are as they
    /// were, and the working pages are to be abandoned.
    pub fn clear<P: Pages>(&mut self, pages: &mut P) -> Result<(), Refusal>
        requires begun { (P.store pages.old).is_begun ≡ true }
        ensures leaves { Leaves P.Pages S.Summary self.old result pages.old pages.new }
        ensures clears { Clears P.Pages S.Summary self.old self.new result pages.old pages.new }
        ensures working { OnOk result (self.new.working ≡ nothing_stands) }
        ensures cells { KeepsCells result self.old self.new }
        ensures room { result ≢ Err Refusal.FileFull }
    {
        self.tree.clear(pages)?;
        self.tree = Tree::at(self.dead.width(), PageNumber::new(0));
        self.living = 0;
        self.changed = true;
        self.dead.clear();
        Ok(())
    }

    /// Keeps what was changed. Takes no memory.
    pub fn commit(&mut self)
        ensures working { self.new.working ≡ self.old.working }
        ensures committed { self.new.committed ≡ self.old.working }
        ensures width { self.new.width ≡ self.old.width }
    {
        self.kept_root = self.tree.root();
        self.kept_living = self.living;
        self.dead.commit();
        self.changed = false;
    }

    /// Takes back what was changed since the last commit. Takes no memory.
    pub fn abandon(&mut self)
        ensures working { self.new.working ≡ self.old.committed }
        ensures committed { self.new.committed ≡ self.old.committed }
        ensures width { self.new.width ≡ self.old.width }
    {
        self.tree = Tree::at(self.dead.width(), self.kept_root);
        self.living = self.kept_living;
        self.dead.abandon();
        self.changed = false;
    }
}

//! This module takes the steps of a change of cells with versions, in their tree, whatever cells are dead.
//!
//! A step that is refused may have changed pages, and the tree.

ghost use Rattle.std.specs.Prelude.{◌≡◌, ◌≢◌, ◌<◌, [], ◌∷◌, IsTrue, IfOk, OnErr, true, length, Err};
ghost use Rattle.rs_page_owners.specs.Calls.{Makes, WorksOn};
ghost use Rattle.rs_records.specs.Listed.{listed};
ghost use Rattle.rs_tree.specs.Calls.{IsNotShared};
ghost use Rattle.rs_tree.specs.Forms.{form};
ghost use Rattle.rs_cell_versions.specs.Inner.{FitsPages, HoldsNoneFirst, PutsOne, TakesOut, TellsEnd};
ghost use Rattle.rs_cell_versions.specs.Version.{born_of, ended, is_living};

use crate::cell::{LIVING, born_of};
use rs_btree::Tree;
use rs_pages::Pages;
use rs_records::Cells;
use rs_refusal::Refusal;
use rs_tree::Summary;

/// What became of a living cell that was to be ended.
#[derive(Clone, Copy)]
pub(crate) struct Ended {
    /// How many cells live now.
    pub living: u64,
    /// It was there.
    pub found: bool,
    /// It is dead now and to be listed: the same dead cell was not there before.
    pub listed: bool,
}

/// The same tree.
pub(crate) fn copy_of<S: Summary>(tree: &Tree<S>, width: usize) -> Tree<S>
    requires width { width ≡ tree.now.width }
    requires fits { FitsPages S.WIDTH width }
    ensures { result ≡ tree.now }
{
    Tree::at(width, tree.root())
}

/// Puts a living cell among the others. It answers whether it was not there before, and how many cells live.
pub(crate) fn put<P: Pages, S: Summary>(
    pages: &mut P,
    tree: &mut Tree<S>,
    living: u64,
    cell: &[u8],
) -> Result<(bool, u64), Refusal>
    requires begun { (P.store pages.old).is_begun ≡ true }
    requires fits { FitsPages S.WIDTH tree.old.width }
    requires width { length cell.now ≡ tree.old.width }
    requires living { IsTrue (is_living cell.now) }
    ensures keeps { P.keeps pages.old pages.new }
    ensures works { WorksOn P.Pages (IsNotShared
        (form S.Summary tree.old.width) (P.store pages.old).map tree.old.root) result pages.old pages.new }
    ensures puts { Makes P.Pages (λ old new. PutsOne (form S.Summary tree.old.width) old new
        tree.old.root living tree.new.root cell.now) result pages.old pages.new }
    ensures width { tree.new.width ≡ tree.old.width }
    ensures stays { OnErr result (tree.new ≡ tree.old) }
{
    // For the proof: there are fewer than 2^32 pages, and so fewer cells than a count can say.
    let _count = pages.count();
    let new = tree.insert(pages, cell)?;
    if new {
        Ok((new, living.saturating_add(1)))
    } else {
        Ok((new, living))
    }
}

/// Ends a living cell at a version. The same cell with that end is given beside it.
pub(crate) fn end<P: Pages, S: Summary>(
    pages: &mut P,
    tree: &mut Tree<S>,
    living: u64,
    version: u64,
    cell: &[u8],
    last: &[u8],
) -> Result<Ended, Refusal>
    requires begun { (P.store pages.old).is_begun ≡ true }
    requires fits { FitsPages S.WIDTH tree.old.width }
    requires width { length cell.now ≡ tree.old.width }
    requires living { IsTrue (is_living cell.now) }
    requires version { version < LIVING }
    requires last { last.now ≡ ended version cell.now }
    ensures keeps { P.keeps pages.old pages.new }
    ensures works { WorksOn P.Pages (IsNotShared
        (form S.Summary tree.old.width) (P.store pages.old).map tree.old.root) result pages.old pages.new }
    ensures ends { Makes P.Pages (λ old new. TellsEnd (form S.Summary tree.old.width) old new
        tree.old.root living tree.new.root version cell.now) result pages.old pages.new }
    ensures late { IfOk result (λ answer. answer.listed ≡ true → born_of cell.now < version) }
    ensures width { tree.new.width ≡ tree.old.width }
{
    let found = tree.remove(pages, cell)?;
    if !found {
        return Ok(Ended {
            living,
            found,
            listed: false,
        });
    }
    let living = living.saturating_sub(1);
    if version <= born_of(cell) {
        return Ok(Ended {
            living,
            found,
            listed: false,
        });
    }
    let new = tree.insert(pages, last)?;
    Ok(Ended {
        living,
        found,
        listed: new,
    })
}

/// Takes out cells, which are the first of the dead. It is refused with 94 too where one of them isn't there.
pub(crate) fn take_out<P: Pages, S: Summary>(
    pages: &mut P,
    tree: &mut Tree<S>,
    cells: &Cells,
) -> Result<(), Refusal>
    requires begun { (P.store pages.old).is_begun ≡ true }
    ensures keeps { P.keeps pages.old pages.new }
    ensures works { WorksOn P.Pages (HoldsNoneFirst
        (form S.Summary tree.old.width) (P.store pages.old).map tree.old.root (listed cells.now)) result pages.old pages.new }
    ensures room { result ≢ Err Refusal.FileFull }
    ensures taken { Makes P.Pages (λ old new _. TakesOut (form S.Summary tree.old.width) old new
        tree.old.root tree.new.root (listed cells.now)) result pages.old pages.new }
    ensures width { tree.new.width ≡ tree.old.width }
{
    for index in 0..cells.len() {
        take_one(pages, tree, cells.get(index))?;
    }
    Ok(())
}

/// Takes out a cell, which is the first of the dead. It is refused with 94 too where it isn't there.
fn take_one<P: Pages, S: Summary>(
    pages: &mut P,
    tree: &mut Tree<S>,
    cell: &[u8],
) -> Result<(), Refusal>
    requires begun { (P.store pages.old).is_begun ≡ true }
    ensures keeps { P.keeps pages.old pages.new }
    ensures works { WorksOn P.Pages (HoldsNoneFirst
        (form S.Summary tree.old.width) (P.store pages.old).map tree.old.root (cell.now ∷ [])) result pages.old pages.new }
    ensures room { result ≢ Err Refusal.FileFull }
    ensures taken { Makes P.Pages (λ old new _. TakesOut (form S.Summary tree.old.width) old new
        tree.old.root tree.new.root (cell.now ∷ [])) result pages.old pages.new }
    ensures width { tree.new.width ≡ tree.old.width }
{
    let found = tree.remove(pages, cell)?;
    if found {
        Ok(())
    } else {
        Err(Refusal::DamagedFile)
    }
}

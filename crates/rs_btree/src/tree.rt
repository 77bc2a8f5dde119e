//! A tree of cells of one width, with summaries of them in its inner pages.
//!
//! The calls that only read leave all pages as they are.

ghost use Rattle.std.specs.Prelude.{◌≡◌, ◌≢◌, ◌<◌, ◌≤◌, ◌+◌, ◌*◌, ◌++◌, [], ◌∷◌, IfOk, Err, true, length};
ghost use Rattle.std.specs.Fn.{FnReturnsAt};
ghost use Rattle.rs_page.specs.declared.header.TheConstants.{PAGE_ROOM};
ghost use Rattle.rs_page_owners.specs.Counts.{no_pages};
ghost use Rattle.rs_pages.specs.Calls.{OnlyReads};
ghost use Rattle.rs_pages.specs.PageMap.{PageMap};
ghost use Rattle.rs_page_marks.specs.Marks.{taken};
ghost use Rattle.rs_records.specs.Listed.{listed, record_width};
ghost use Rattle.rs_tree.specs.Forms.{form};
ghost use Rattle.rs_tree.specs.Tree.{IsTree};
ghost use Rattle.rs_tree_whole.specs.Calls.{RefusesToCheck};
ghost use Rattle.rs_btree.specs.Calls.{Checks, Clears, Descends, HoldsEach, Inserts, KeepsTree, Leaves, Ranges, RefusesReading, Removes, ReplacesOne};
ghost use Rattle.rs_btree.specs.Rooted.{Rooted};

use crate::lookup::has_each;
use crate::replacing::replace;
use rs_page::PageNumber;
use rs_page_marks::Reached;
use rs_pages::Pages;
use rs_records::Cells;
use rs_refusal::Refusal;
use rs_tree::{Layout, Summary, descend, range};
use rs_tree_insert::insert;
use rs_tree_remove::remove;
use rs_tree_whole::{clear, validate};
use std::alloc::Global;
use std::marker::{Model, PhantomData};

/// A tree of cells of one width, whose inner pages keep summaries of the cells below them.
#[derive(Drop)]
pub struct Tree<S: Summary> {
    layout: Layout,
    root: PageNumber,
    summaries: PhantomData<S>,
}

impl<S: Summary> Model for Tree<S> {
    ghost Value = { Rooted };

    ghost view = { λ tree. record { width = tree.layout.width; root = tree.root } };

    ghost invariant = { λ tree. tree.layout.summary ≡ S.WIDTH };
}

impl<S: Summary> Tree<S> {
    /// The empty tree of cells of this width. Three entries of an inner page fit it at least.
    pub fn new(width: usize) -> Tree<S>
        requires some { 0 < width }
        requires fits { 3 * (4 + S.WIDTH + width) ≤ PAGE_ROOM }
        ensures width { result.width ≡ width }
        ensures empty { (pages : PageMap)
            → IsTree (form S.Summary width) pages result.root [] no_pages }
    {
        Tree::at(width, PageNumber::new(0))
    }

    /// The tree of cells of this width with this root.
    pub fn at(width: usize, root: PageNumber) -> Tree<S>
        requires some { 0 < width }
        requires fits { 3 * (4 + S.WIDTH + width) ≤ PAGE_ROOM }
        ensures width { result.width ≡ width }
        ensures root { result.root ≡ root }
    {
        Tree {
            layout: Layout::new(width, S::WIDTH),
            root,
            summaries: PhantomData,
        }
    }

    /// The page at the top; 0: the tree is empty.
    pub fn root(&self) -> PageNumber
        ensures { result ≡ self.now.root }
    {
        self.root
    }

    /// The cells from `low` on, below `high`. It is refused with 90, with 91, and with 94 only where no tree stands there.
    pub fn range<P: Pages>(
        &self,
        alloc: Global,
        pages: &mut P,
        low: &[u8],
        high: &[u8],
    ) -> Result<Cells, Refusal>
        ensures rests { OnlyReads P.Pages result pages.old pages.new }
        ensures width { IfOk result (λ found. record_width found ≡ self.now.width) }
        ensures found { Ranges P.Pages S.Summary self.now low.now high.now result pages.old }
        ensures refused { RefusesReading P.Pages S.Summary self.now result pages.old pages.new }
    {
        range::<P, S>(alloc, pages, self.layout, self.root, low, high)
    }

    /// The cells of `range` whose own summary `keep` accepts, and how many pages were read: the root and each page that leads to
    /// one of the cells at least, two for each level of the tree and as many more for each cell at the most, where `keep`
    /// accepts a join exactly where it accepts one of its parts. It is refused as `range` is.
    pub fn descend<P: Pages, F: Fn(&S) -> bool>(
        &self,
        alloc: Global,
        pages: &mut P,
        low: &[u8],
        high: &[u8],
        keep: &F,
    ) -> Result<(Cells, u32), Refusal>
        requires callable { F.IsAlwaysCallable keep.now }
        ensures rests { OnlyReads P.Pages result pages.old pages.new }
        ensures width { IfOk result (λ found. record_width found.0 ≡ self.now.width) }
        ensures found { Descends P.Pages S.Summary self.now low.now high.now (FnReturnsAt F.Fn keep.now) result pages.old }
        ensures refused { RefusesReading P.Pages S.Summary self.now result pages.old pages.new }
    {
        descend::<P, S, F>(alloc, pages, self.layout, self.root, low, high, keep)
    }

    /// Whether the tree has each of the cells. It is refused with 91, and with 94 only where no tree stands there. No page changes, and
    /// no memory is taken. With cells in ascending order each page is read once.
    pub fn has_each<P: Pages>(&self, pages: &mut P, cells: &Cells) -> Result<bool, Refusal>
        requires width { record_width cells.now ≡ self.now.width }
        ensures rests { OnlyReads P.Pages result pages.old pages.new }
        ensures found { HoldsEach P.Pages S.Summary self.now (listed cells.now) result pages.old }
        ensures refused { RefusesReading P.Pages S.Summary self.now result pages.old pages.new }
        ensures memory { result ≢ Err Refusal.OutOfMemory }
    {
        has_each::<P, S>(pages, self.layout, self.root, cells)
    }

    /// Marks the tree's pages, and answers how many cells it has, exactly where a well formed tree stands there none of whose
    /// pages was reached before; 94 where none does; 91 where a page couldn't be read. What is marked after a refusal is unspecified.
    pub fn validate<P: Pages>(&self, pages: &mut P, reached: &mut Reached) -> Result<u64, Refusal>
        ensures rests { OnlyReads P.Pages result pages.old pages.new }
        ensures size { length reached.new ≡ length reached.old }
        ensures checks { Checks P.Pages S.Summary self.now (taken reached.old) (taken reached.new) result pages.old }
        ensures refused { RefusesToCheck result }
    {
        validate::<P, S>(pages, self.layout, self.root, reached)
    }

    /// Puts a cell into the tree, and answers whether it was not there before; where it was, nothing changes. It is refused
    /// with 90, with 91, with 92 where the file is full, and with 94 only where no tree stands there with pages of its own; the
    /// tree is as it was then, and the working pages are to be abandoned.
    pub fn insert<P: Pages>(&mut self, pages: &mut P, cell: &[u8]) -> Result<bool, Refusal>
        requires begun { (P.store pages.old).is_begun ≡ true }
        requires cell { length cell.now ≡ self.old.width }
        ensures leaves { Leaves P.Pages S.Summary self.old result pages.old pages.new }
        ensures inserts { Inserts P.Pages S.Summary self.old self.new cell.now result pages.old pages.new }
        ensures tree { KeepsTree result self.old self.new }
    {
        let inserted = insert::<P, S>(pages, self.layout, self.root, cell)?;
        self.root = inserted.root;
        Ok(inserted.new)
    }

    /// Takes a cell out of the tree, and answers whether it was there; where it wasn't, the same cells stay. It is refused with 90,
    /// with 91, and with 94 only where no tree stands there with pages of its own; the tree is as it was then, and the working
    /// pages are to be abandoned.
    pub fn remove<P: Pages>(&mut self, pages: &mut P, cell: &[u8]) -> Result<bool, Refusal>
        requires begun { (P.store pages.old).is_begun ≡ true }
        ensures leaves { Leaves P.Pages S.Summary self.old result pages.old pages.new }
        ensures removes { Removes P.Pages S.Summary self.old self.new cell.now result pages.old pages.new }
        ensures tree { KeepsTree result self.old self.new }
        ensures room { result ≢ Err Refusal.FileFull }
    {
        let (root, found) = remove::<P, S>(pages, self.layout, self.root, cell)?;
        self.root = root;
        Ok(found)
    }

    /// Puts another cell in the place of a cell, and answers whether that was there; where it wasn't, the same cells stay. It is
    /// refused with 90, with 91, with 92 where the file is full, and with 94 only where no tree stands there with pages of its
    /// own; the tree is as it was then, and the working pages are to be abandoned.
    pub fn replace<P: Pages>(
        &mut self,
        pages: &mut P,
        cell: &[u8],
        other: &[u8],
    ) -> Result<bool, Refusal>
        requires begun { (P.store pages.old).is_begun ≡ true }
        requires cell { length other.now ≡ self.old.width }
        ensures leaves { Leaves P.Pages S.Summary self.old result pages.old pages.new }
        ensures replaces { ReplacesOne P.Pages S.Summary self.old self.new cell.now other.now result pages.old pages.new }
        ensures tree { KeepsTree result self.old self.new }
    {
        let (root, found) = replace::<P, S>(pages, self.layout, self.root, cell, other)?;
        self.root = root;
        Ok(found)
    }

    /// Frees all pages of the tree, which is the empty one then. It is refused with 90, with 91, and with 94 only where no
    /// tree stands there with pages of its own; the tree is as it was then, and the working pages are to be abandoned.
    pub fn clear<P: Pages>(&mut self, pages: &mut P) -> Result<(), Refusal>
        requires begun { (P.store pages.old).is_begun ≡ true }
        ensures leaves { Leaves P.Pages S.Summary self.old result pages.old pages.new }
        ensures clears { Clears P.Pages S.Summary self.old self.new result pages.old pages.new }
        ensures tree { KeepsTree result self.old self.new }
        ensures room { result ≢ Err Refusal.FileFull }
    {
        clear::<P, S>(pages, self.layout, self.root)?;
        self.root = PageNumber::new(0);
        Ok(())
    }
}

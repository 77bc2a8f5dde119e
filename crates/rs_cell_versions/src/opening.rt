//! This module looks at cells with versions that lie in a tree already, part by part: they are dated and counted.
//!
//! The tree is checked first and its pages are marked. The parts are given to the caller, who may have more to ask of them, so
//! that no more than one part is in memory at a time.

ghost use Rattle.std.specs.Prelude.{◌≡◌, ◌⊎◌, ◌≤◌, ◌*◌, ◌+◌, IfOk, IfErr, OnOk, false, length};
ghost use Rattle.rs_page.specs.declared.header.TheConstants.{PAGE_ROOM};
ghost use Rattle.rs_pages.specs.Calls.{OnlyReads};
ghost use Rattle.rs_page_marks.specs.Marks.{taken};
ghost use Rattle.rs_records.specs.Order.{is_below};
ghost use Rattle.rs_tree.specs.Forms.{form};
ghost use Rattle.rs_cell_versions.specs.Looking.{GoesToEnd};
ghost use Rattle.rs_cell_versions.specs.OpeningCalls.{AreDatedCells, AreTold, Begins, Finishes, IsBegun, Parts, RefusesLook};

use crate::bounding::bound_above;
use crate::dying::by_death;
use crate::tally::Tally;
use crate::told::ToldRecords;
use crate::versions::Versions;
use rs_btree::Tree;
use rs_page_marks::Reached;
use rs_pages::Pages;
use rs_records::{Cells, is_below};
use rs_refusal::Refusal;
use rs_tree::{Layout, Summary};
use std::alloc::{AllocError, Global};
use std::marker::Model;

/// A look at the cells of a tree, from the least on, against what is told of them.
#[derive(Drop)]
pub struct Opening<S: Summary> {
    tree: Tree<S>,
    living: u64,
    garbage: u64,
    low: Vec<u8>,
    tally: Tally,
}

impl<S: Summary> Model for Opening<S> {
    ghost use Rattle.std.specs.Prelude.{◌≡◌};
    ghost use Rattle.rs_records.specs.Listed.{listed, record_width};
    ghost use Rattle.rs_cell_versions.specs.Inner.{FitsPages};
    ghost use Rattle.rs_cell_versions.specs.Looking.{HoldsTally};
    ghost use Rattle.rs_cell_versions.specs.Opening.{Looked};
    ghost use Rattle.rs_cell_versions.specs.Tallies.{tallied};

    ghost Value = { Looked };

    ghost view = { λ opening. record {
      told = record {
        width = opening.tree.width;
        root = opening.tree.root;
        living = opening.living;
        garbage = opening.garbage;
        accepted = opening.tally.accepted;
      };
      low = opening.low.items;
      living_left = opening.tally.living_left;
      garbage_left = opening.tally.garbage_left;
      dead = listed opening.tally.dead;
    } };

    ghost invariant = { λ opening. (record_width opening.tally.dead ≡ opening.tree.width)
        × FitsPages S.WIDTH opening.tree.width × HoldsTally (tallied opening.tally) opening.garbage };
}

impl<S: Summary> Opening<S> {
    /// Checks the tree that it is told of, of cells of this width, and marks its pages. It is refused with 91, and with 94 where
    /// no well formed tree stands there none of whose pages was reached before.
    pub fn begin<P: Pages>(
        alloc: Global,
        pages: &mut P,
        width: usize,
        told: &ToldRecords,
        reached: &mut Reached,
    ) -> Result<Opening<S>, Refusal>
        requires some { 20 ≤ width }
        requires fits { 3 * (4 + S.WIDTH + width) ≤ PAGE_ROOM }
        ensures rests { OnlyReads P.Pages result pages.old pages.new }
        ensures size { length reached.new ≡ length reached.old }
        ensures begun { IfOk result (IsBegun (form S.Summary width) width told.now) }
        ensures begins { Begins P.Pages S.Summary width told.now (taken reached.old) (taken reached.new) result pages.old }
        ensures refused { IfErr result (λ why. (why ≡ Refusal.Disk) ⊎ (why ≡ Refusal.DamagedFile)) }
    {
        let tree = Tree::at(width, told.root);
        let _cells = tree.validate(pages, reached)?;
        Ok(Opening {
            tree,
            living: told.living,
            garbage: told.garbage,
            low: Vec::new(alloc),
            tally: Tally::new(alloc, width, told.accepted, told.living, told.garbage),
        })
    }

    /// Whether cells were looked at that are not below the bound.
    pub fn is_past(&self, bound: &[u8]) -> bool
        ensures { result ≡ is_below bound.now self.now.low }
    {
        is_below(bound, &self.low)
    }

    /// The next cells, from those looked at on, below the bound. They are dated. It is refused with 90, with 91, and with 94
    /// where the cells that stand there are not as they were told; what was looked at after a refusal is unspecified.
    pub fn part<P: Pages>(
        &mut self,
        alloc: Global,
        pages: &mut P,
        high: &[u8],
    ) -> Result<Cells, Refusal>
        requires order { is_below high.now self.old.low ≡ false }
        ensures rests { OnlyReads P.Pages result pages.old pages.new }
        ensures told { self.new.told ≡ self.old.told }
        ensures low { OnOk result (self.new.low ≡ high.now) }
        ensures part { IfOk result (AreDatedCells self.old.told) }
        ensures parts { Parts P.Pages S.Summary self.old self.new high.now result pages.old }
        ensures refused { RefusesLook result }
    {
        let low = copied(alloc, high).map_err(|_| Refusal::OutOfMemory)?;
        let found = self.tree.range(alloc, pages, &self.low, high)?;
        self.tally.count(&found)?;
        self.low = low;
        Ok(found)
    }

    /// Ends the look, once it has gone over the cells that are left, from those looked at on: the cells with their versions, and
    /// those that were left. It is refused with 90, with 91, and with 94 where the cells that stand there are not as they were
    /// told.
    pub fn finish<P: Pages>(
        mut self,
        alloc: Global,
        pages: &mut P,
    ) -> Result<(Versions<S>, Cells), Refusal>
        ensures rests { OnlyReads P.Pages result pages.old pages.new }
        ensures cells { IfOk result (λ answer. AreTold self.told answer.0) }
        ensures left { IfOk result (λ answer. AreDatedCells self.told answer.1) }
        ensures finishes { Finishes P.Pages S.Summary self result pages.old }
        ensures refused { RefusesLook result }
    {
        let left = self.rest(alloc, pages)?;
        if !self.tally.is_whole() {
            return Err(Refusal::DamagedFile);
        }
        let dead = by_death(alloc, &self.tally.dead).map_err(|_| Refusal::OutOfMemory)?;
        Ok((Versions::over(self.tree, self.living, dead), left))
    }

    /// The cells that are left, from those looked at on. It is refused as `part` is.
    fn rest<P: Pages>(&mut self, alloc: Global, pages: &mut P) -> Result<Cells, Refusal>
        ensures rests { OnlyReads P.Pages result pages.old pages.new }
        ensures told { self.new.told ≡ self.old.told }
        ensures left { IfOk result (AreDatedCells self.old.told) }
        ensures ends { GoesToEnd P.Pages S.Summary self.old self.new result pages.old }
        ensures refused { RefusesLook result }
    {
        let width = self.tally.dead.width();
        let layout = Layout::new(width, S::WIDTH);
        let high = bound_above::<P, S>(alloc, pages, layout, self.tree.root())?;
        if !is_below(&self.low, &high) {
            return Ok(Cells::new(alloc, width));
        }
        self.part(alloc, pages, &high)
    }
}

/// The same bytes.
fn copied(alloc: Global, bytes: &[u8]) -> Result<Vec<u8>, AllocError>
    ensures { IfOk result (λ copy. copy.items ≡ bytes.now) }
{
    let mut copy = Vec::new(alloc);
    copy.extend_from_slice(bytes)?;
    Ok(copy)
}

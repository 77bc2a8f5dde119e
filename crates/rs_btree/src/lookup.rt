//! The search for cells, from the root down to the leaves that alone may have them.
//!
//! Cells that ascend and lead to one page are looked for together, so that it is read once for all of them. A page is only lent: nothing of it is copied but the number of the next page, and no memory is taken.

ghost use Rattle.std.specs.Prelude.{◌≡◌, ◌≢◌, ◌<◌, ◌≤◌, ◌↔◌, ℕ, List, Contains, Err, IfErr, IfOk, IsTrue, length};
ghost use Rattle.std.specs.List.{AllByRecursion};
ghost use Rattle.rs_pages.specs.Calls.{DamagedOnlyIf, OnlyReads, Reads};
ghost use Rattle.rs_records.specs.Listed.{listed, record_width};
ghost use Rattle.rs_tree.specs.Calls.{RefusesReading};
ghost use Rattle.rs_tree.specs.Forms.{form_in};
ghost use Rattle.rs_tree.specs.Tree.{IsTree};
ghost use Rattle.rs_tree.specs.declared.search.TheConstants.{LEVELS};
ghost use Rattle.rs_btree.specs.Looking.{AreRising, HasNoTop, IsReadRefusal, TellsFirst};

use crate::stepping::{Step, look};
use rs_page::PageNumber;
use rs_pages::Pages;
use rs_records::{Cells, is_below};
use rs_refusal::Refusal;
use rs_tree::{LEVELS, Layout, Summary};

/// Whether the tree with this root has each of the cells. It is refused with 91, and with 94 only where no tree stands there. No
/// page changes, and no memory is taken.
pub fn has_each<P: Pages, S: Summary>(
    pages: &mut P,
    layout: Layout,
    root: PageNumber,
    cells: &Cells,
) -> Result<bool, Refusal>
    requires summary { layout.summary ≡ S.WIDTH }
    requires width { record_width cells.now ≡ layout.width }
    ensures rests { OnlyReads P.Pages result pages.old pages.new }
    ensures found { Reads P.Pages (λ map found. (all : List (List ℕ)) (used : ℕ → ℕ)
        → IsTree (form_in S.Summary layout) map root all used → (IsTrue found ↔ AllByRecursion (Contains all) (listed cells.now)))
        result pages.old }
    ensures refused { RefusesReading P.Pages (form_in S.Summary layout) root result pages.old pages.new }
    ensures memory { result ≢ Err Refusal.OutOfMemory }
{
    // For the proof: there are no more pages than a number can tell.
    let _count = pages.count();
    if root.number() == 0 {
        return Ok(cells.len() == 0);
    }
    let place = first_of_all::<P, S>(pages, layout, root, cells)?;
    Ok(place == cells.len())
}

/// The place of the first of the cells that the part of a tree with this page at its top lacks; as many as they are where it has
/// each. They are looked for in runs of such as ascend.
fn first_of_all<P: Pages, S: Summary>(
    pages: &mut P,
    layout: Layout,
    root: PageNumber,
    cells: &Cells,
) -> Result<usize, Refusal>
    ensures rests { OnlyReads P.Pages result pages.old pages.new }
    ensures within { IfOk result (λ place. place ≤ length (listed cells.now)) }
    ensures found { Reads P.Pages (λ map. TellsFirst (form_in S.Summary layout) map root (listed cells.now) 0 (length (listed cells.now)))
        result pages.old }
    ensures refused { IfErr result IsReadRefusal }
    ensures damaged { DamagedOnlyIf P.Pages (λ map. HasNoTop (form_in S.Summary layout) map root LEVELS) result pages.old }
{
    let mut at = 0;
    while at < cells.len() {
        let end = rising_end(cells, at);
        let place = first_missing::<P, S>(pages, layout, root, LEVELS, cells, at, end)?;
        if place < end {
            return Ok(place);
        }
        at = end;
    }
    Ok(at)
}

/// The end of the cells from `from` on that ascend.
fn rising_end(cells: &Cells, from: usize) -> usize
    requires some { from < length (listed cells.now) }
    ensures within { (from < result) × (result ≤ length (listed cells.now)) }
    ensures rising { AreRising (listed cells.now) from result }
{
    let count = cells.len();
    let mut end = from + 1;
    while end < count && is_below(cells.get(end - 1), cells.get(end)) {
        end += 1;
    }
    end
}

/// The place of the first of the cells from `from` on and before `to` that the part of a tree with this page at its top lacks;
/// `to` where it has each. It is refused with 91, and with 94 where no part of so few levels stands there.
fn first_missing<P: Pages, S: Summary>(
    pages: &mut P,
    layout: Layout,
    number: PageNumber,
    levels: u32,
    cells: &Cells,
    from: usize,
    to: usize,
) -> Result<usize, Refusal>
    requires inside { to ≤ length (listed cells.now) }
    requires rising { AreRising (listed cells.now) from to }
    ensures rests { OnlyReads P.Pages result pages.old pages.new }
    ensures within { from ≤ to → IfOk result (λ place. (from ≤ place) × (place ≤ to)) }
    ensures found { Reads P.Pages (λ map. TellsFirst (form_in S.Summary layout) map number (listed cells.now) from to) result pages.old }
    ensures refused { IfErr result IsReadRefusal }
    ensures damaged { DamagedOnlyIf P.Pages (λ map. HasNoTop (form_in S.Summary layout) map number levels) result pages.old }
{
    let mut at = from;
    while at < to {
        match look::<P, S>(pages, layout, number, cells, at, to)? {
            Step::End(place) => return Ok(place),
            Step::Below(child, end) => {
                if levels == 0 {
                    return Err(Refusal::DamagedFile);
                }
                let place = first_missing::<P, S>(
                    pages,
                    layout,
                    child,
                    levels - 1,
                    cells,
                    at,
                    end,
                )?;
                if place < end {
                    return Ok(place);
                }
                at = end;
            }
        }
    }
    Ok(to)
}

//! Searches in a whole tree, from its root.

ghost use Rattle.std.specs.Prelude.{◌≡◌, IfOk};
ghost use Rattle.std.specs.Fn.{FnReturnsAt};
ghost use Rattle.rs_records.specs.Listed.{record_width};
ghost use Rattle.rs_tree.specs.Calls.{Descends, Ranges, RefusesReading};
ghost use Rattle.rs_tree.specs.Forms.{form_in};
ghost use Rattle.rs_pages.specs.Calls.{OnlyReads};

use crate::walk::walk;
use crate::wanted::Wanted;
use crate::{Layout, Summary};
use rs_page::PageNumber;
use rs_pages::Pages;
use rs_records::Cells;
use rs_refusal::Refusal;
use std::alloc::Global;

/// The most levels of inner pages that a tree can have: with one more it would have more pages than there are numbers.
pub const LEVELS: u32 = 31;

/// The cells of the tree from `low` on, below `high`, whose own summary `keep` accepts, and how many pages were read: the
/// root and each page that leads to one of the cells at least, two for each level of the tree and as many more for each cell
/// at the most. That is so of a `keep` that accepts a join exactly where it accepts one of its parts. It is refused with 90, with 91, and with 94 only where no tree stands there.
pub fn descend<P: Pages, S: Summary, F: Fn(&S) -> bool>(
    alloc: Global,
    pages: &mut P,
    layout: Layout,
    root: PageNumber,
    low: &[u8],
    high: &[u8],
    keep: &F,
) -> Result<(Cells, u32), Refusal>
    requires callable { F.IsAlwaysCallable keep.now }
    requires summary { layout.summary ≡ S.WIDTH }
    ensures rests { OnlyReads P.Pages result pages.old pages.new }
    ensures width { IfOk result (λ found. record_width found.0 ≡ layout.width) }
    ensures found { Descends P.Pages S.Summary (form_in S.Summary layout) root low.now high.now
        (FnReturnsAt F.Fn keep.now) result pages.old }
    ensures refused { RefusesReading P.Pages (form_in S.Summary layout) root result pages.old pages.new }
{
    let mut cells = Cells::new(alloc, layout.width);
    if root.number() == 0 {
        return Ok((cells, 0));
    }
    let count = pages.count();
    let mut left = count;
    let wanted = Wanted {
        layout,
        low,
        high,
        keep,
    };
    walk::<P, S, F>(alloc, pages, root, LEVELS, &wanted, &mut left, &mut cells)?;
    Ok((cells, count - left))
}

/// The cells of the tree from `low` on, below `high`. It is refused as `descend` is.
pub fn range<P: Pages, S: Summary>(
    alloc: Global,
    pages: &mut P,
    layout: Layout,
    root: PageNumber,
    low: &[u8],
    high: &[u8],
) -> Result<Cells, Refusal>
    requires summary { layout.summary ≡ S.WIDTH }
    ensures rests { OnlyReads P.Pages result pages.old pages.new }
    ensures width { IfOk result (λ found. record_width found ≡ layout.width) }
    ensures found { Ranges P.Pages (form_in S.Summary layout) root low.now high.now result pages.old }
    ensures refused { RefusesReading P.Pages (form_in S.Summary layout) root result pages.old pages.new }
{
    let all = |_: &S| true;
    let (cells, _) = descend::<P, S, _>(alloc, pages, layout, root, low, high, &all)?;
    Ok(cells)
}

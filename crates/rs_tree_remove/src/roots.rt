//! A cell taken out of a whole tree, from its root.

ghost use Rattle.std.specs.Prelude.{◌≡◌, ◌≢◌, true, Err};
ghost use Rattle.rs_tree.specs.Calls.{LeavesTree};
ghost use Rattle.rs_tree.specs.Forms.{form_in};
ghost use Rattle.rs_tree_remove.specs.Calls.{Removes};

use crate::Removed;
use crate::path::remove_below;
use rs_page::PageNumber;
use rs_pages::Pages;
use rs_refusal::Refusal;
use rs_tree::{LEVELS, Layout, Summary};

/// Takes a cell out of the tree with this root (0: the empty one), and answers the root of what is left and whether the cell was
/// there. No page is needed. It is refused with 90, with 91, and with 94 only where no tree stands there whose pages are its
/// own; some pages may have been changed then.
pub fn remove<P: Pages, S: Summary>(
    pages: &mut P,
    layout: Layout,
    root: PageNumber,
    cell: &[u8],
) -> Result<(PageNumber, bool), Refusal>
    requires begun { (P.store pages.old).is_begun ≡ true }
    requires summary { layout.summary ≡ S.WIDTH }
    ensures leaves { LeavesTree P.Pages (form_in S.Summary layout) root result pages.old pages.new }
    ensures removes { Removes P.Pages (form_in S.Summary layout) root cell.now result pages.old pages.new }
    ensures room { result ≢ Err Refusal.FileFull }
{
    if root.number() == 0 {
        return Ok((root, false));
    }
    // For the proof: there are fewer pages than a tree of more levels would have.
    let _count = pages.count();
    match remove_below::<P, S>(pages, layout, root, LEVELS, cell)? {
        Removed::Missing => Ok((root, false)),
        Removed::Kept => Ok((root, true)),
        Removed::Gone => Ok((PageNumber::new(0), true)),
        Removed::Single(top) => {
            pages.release(root)?;
            Ok((top, true))
        }
    }
}

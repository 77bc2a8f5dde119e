//! A cell put in the place of another, in a tree told by its root.
//!
//! The first is taken out, and the other is put in where the first was there.

ghost use Rattle.rs_page_owners.specs.Calls.{Makes};
ghost use Rattle.std.specs.Prelude.{◌≡◌, true, IfOk, length};
ghost use Rattle.rs_tree.specs.Calls.{LeavesTree};
ghost use Rattle.rs_tree.specs.Forms.{form_in};
ghost use Rattle.rs_btree.specs.Calls.{IsReplaced};

use rs_page::PageNumber;
use rs_pages::Pages;
use rs_refusal::Refusal;
use rs_tree::{Layout, Summary};
use rs_tree_insert::insert;
use rs_tree_remove::remove;

/// Puts the other cell in the place of the first, and answers the root of what is left and whether the first was there; where it
/// wasn't, the same cells stay. It is refused with 90, with 91, with 92 where the file is full, and with 94 only where no tree
/// stands there whose pages are its own; some pages may have been changed then.
pub fn replace<P: Pages, S: Summary>(
    pages: &mut P,
    layout: Layout,
    root: PageNumber,
    cell: &[u8],
    other: &[u8],
) -> Result<(PageNumber, bool), Refusal>
    requires begun { (P.store pages.old).is_begun ≡ true }
    requires summary { layout.summary ≡ S.WIDTH }
    requires width { length other.now ≡ layout.width }
    ensures leaves { LeavesTree P.Pages (form_in S.Summary layout) root result pages.old pages.new }
    ensures replaces { Makes P.Pages (λ old new answer. IsReplaced
        (form_in S.Summary layout) old new root answer.0 cell.now other.now answer.1) result pages.old pages.new }
{
    let (below, found) = remove::<P, S>(pages, layout, root, cell)?;
    if found {
        let inserted = insert::<P, S>(pages, layout, below, other)?;
        Ok((inserted.root, found))
    } else {
        Ok((below, found))
    }
}

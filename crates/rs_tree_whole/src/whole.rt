//! The check of a whole tree, from its root.

ghost use Rattle.std.specs.Prelude.{◌≡◌, length};
ghost use Rattle.rs_pages.specs.Calls.{OnlyReads};
ghost use Rattle.rs_page_marks.specs.Marks.{taken};
ghost use Rattle.rs_tree.specs.Forms.{form_in};
ghost use Rattle.rs_tree_whole.specs.Calls.{Checks, RefusesToCheck};

use crate::check::check_part;
use rs_page::PageNumber;
use rs_page_marks::Reached;
use rs_pages::Pages;
use rs_refusal::Refusal;
use rs_tree::{LEVELS, Layout, Summary};

/// Marks the pages of the tree with this root, and answers how many cells it has, exactly where a well formed tree stands
/// there none of whose pages was reached before; 94 where none does; 91 where a page couldn't be read. No page changes. What
/// is marked after a refusal is unspecified. No page is read twice.
pub fn validate<P: Pages, S: Summary>(
    pages: &mut P,
    layout: Layout,
    root: PageNumber,
    reached: &mut Reached,
) -> Result<u64, Refusal>
    requires summary { layout.summary ≡ S.WIDTH }
    ensures rests { OnlyReads P.Pages result pages.old pages.new }
    ensures size { length reached.new ≡ length reached.old }
    ensures checks { Checks P.Pages (form_in S.Summary layout) root (taken reached.old) (taken reached.new) result pages.old }
    ensures refused { RefusesToCheck result }
{
    if root.number() == 0 {
        return Ok(0);
    }
    let part = check_part::<P, S>(pages, layout, root, LEVELS, None, None, reached)?;
    Ok(part.total)
}

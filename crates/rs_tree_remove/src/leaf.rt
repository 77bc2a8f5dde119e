//! A cell taken out of a leaf.

ghost use Rattle.std.specs.Prelude.{◌≡◌, ◌≢◌, ℕ, true, Some, Err};
ghost use Rattle.rs_tree.specs.Node.{IsNode};
ghost use Rattle.rs_tree.specs.Forms.{form_in};
ghost use Rattle.rs_tree_remove.specs.Leaving.{RemovesFrom, HasNoOwnPart};
ghost use Rattle.rs_page_owners.specs.Calls.{WorksOn};

use crate::answer::Removed;
use rs_page::{ContentKind, Page, PageNumber};
use rs_pages::Pages;
use rs_records::place;
use rs_refusal::Refusal;
use rs_tree::{Layout, Node, Summary, content};
use rs_tree_edit::choosing::has_key;
use rs_tree_edit::{Edit, EditedPage, edit_page};

/// Takes a cell out of a leaf, whose bytes are told. The last cell goes with the page.
pub fn remove_from_leaf<P: Pages, S: Summary>(
    pages: &mut P,
    layout: Layout,
    number: PageNumber,
    page: &Page,
    count: usize,
    cell: &[u8],
) -> Result<Removed, Refusal>
    requires begun { (P.store pages.old).is_begun ≡ true }
    requires node { IsNode page.now.bytes number layout (Node.Leaf count) }
    ensures keeps { P.keeps pages.old pages.new }
    ensures works { WorksOn P.Pages ((P.store pages.old).map.page number ≡ Some page.now.bytes → (levels : ℕ)
        → HasNoOwnPart (form_in S.Summary layout) (P.store pages.old).map number levels) result pages.old pages.new }
    ensures room { result ≢ Err Refusal.FileFull }
    ensures removed { RemovesFrom P.Pages (form_in S.Summary layout) number page.now.bytes cell.now result pages.old pages.new }
{
    let bytes = content(page);
    let at = place(bytes, layout.width, count, 0, cell);
    if !has_key(bytes, layout.width, count, 0, at, cell) {
        return Ok(Removed::Missing);
    }
    if count == 1 {
        pages.release(number)?;
        return Ok(Removed::Gone);
    }
    let edited = EditedPage {
        number,
        kind: ContentKind::Leaf,
        width: layout.width,
        count,
    };
    let edit = Edit {
        at,
        removed: 1,
        more: 0,
    };
    edit_page(pages, edited, edit, &[])?;
    Ok(Removed::Kept)
}

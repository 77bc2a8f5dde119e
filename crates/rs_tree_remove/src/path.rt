//! The path of a cell: down to its leaf, and up again.

ghost use Rattle.std.specs.Prelude.{◌≡◌, ◌≢◌, ◌<◌, Some, true, Err};
ghost use Rattle.rs_tree.specs.Node.{IsNode};
ghost use Rattle.rs_tree.specs.declared.node.Node.{Node};
ghost use Rattle.rs_tree.specs.Forms.{form_in};
ghost use Rattle.rs_tree_remove.specs.Leaving.{RemovesFrom, RemovesPart, HasNoOwnPart};
ghost use Rattle.rs_page_owners.specs.Calls.{Makes, WorksOn};

use crate::finishing::{InnerPage, Stretch, drop_entry, renew_entry};
use crate::leaf::remove_from_leaf;
use crate::pairing::Lonely;
use crate::{Removed, mend};
use rs_page::{Page, PageNumber};
use rs_pages::Pages;
use rs_records::record_at;
use rs_refusal::Refusal;
use rs_tree::entry::child;
use rs_tree::{Layout, Node, Summary, content};
use rs_tree_edit::{entry_for, read_part};

/// Takes a cell out of the part of a tree with this page at its top.
#[cycle(removing)]
pub fn remove_below<P: Pages, S: Summary>(
    pages: &mut P,
    layout: Layout,
    number: PageNumber,
    levels: u32,
    cell: &[u8],
) -> Result<Removed, Refusal>
    requires begun { (P.store pages.old).is_begun ≡ true }
    requires summary { layout.summary ≡ S.WIDTH }
    ensures keeps { P.keeps pages.old pages.new }
    ensures works { WorksOn P.Pages (HasNoOwnPart (form_in S.Summary layout)
        (P.store pages.old).map number levels) result pages.old pages.new }
    ensures room { result ≢ Err Refusal.FileFull }
    ensures removed { Makes P.Pages (λ old new. RemovesPart (form_in S.Summary layout) old new number cell.now) result
        pages.old pages.new }
{
    let mut page = Page::new();
    let node = read_part(pages, number, layout, &mut page)?;
    match node {
        Node::Leaf(count) => { remove_from_leaf::<P, S>(pages, layout, number, &page, count, cell) }
        Node::Inner(count) => {
            if levels == 0 {
                return Err(Refusal::DamagedFile);
            }
            let inner = InnerPage { number, count };
            remove_under::<P, S>(pages, layout, inner, &page, levels, cell)
        }
    }
}

/// Takes a cell out of what is below an inner page, whose bytes are told.
#[cycle(removing)]
fn remove_under<P: Pages, S: Summary>(
    pages: &mut P,
    layout: Layout,
    inner: InnerPage,
    page: &Page,
    levels: u32,
    cell: &[u8],
) -> Result<Removed, Refusal>
    requires begun { (P.store pages.old).is_begun ≡ true }
    requires summary { layout.summary ≡ S.WIDTH }
    requires levels { 0 < levels }
    requires node { IsNode page.now.bytes inner.number layout (Node.Inner inner.count) }
    ensures keeps { P.keeps pages.old pages.new }
    ensures works { WorksOn P.Pages ((P.store pages.old).map.page inner.number ≡ Some page.now.bytes
        → HasNoOwnPart (form_in S.Summary layout) (P.store pages.old).map inner.number levels) result pages.old pages.new }
    ensures room { result ≢ Err Refusal.FileFull }
    ensures removed { RemovesFrom P.Pages (form_in S.Summary layout) inner.number page.now.bytes cell.now result
        pages.old pages.new }
{
    let bytes = content(page);
    let at = entry_for(bytes, layout, inner.count, cell);
    let below = child(record_at(bytes, layout.entry_width(), at), layout);
    match remove_below::<P, S>(pages, layout, below, levels - 1, cell)? {
        Removed::Missing => Ok(Removed::Missing),
        Removed::Kept => {
            let one = Stretch { at, removed: 1 };
            renew_entry::<P, S>(pages, layout, inner, page, one, below)
        }
        Removed::Gone => drop_entry::<P, S>(pages, layout, inner, page, at),
        Removed::Single(only) => {
            let lonely = Lonely {
                number: below,
                only,
            };
            mend::<P, S>(pages, layout, inner, page, at, lonely)
        }
    }
}

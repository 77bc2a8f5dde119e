//! Where a cell belongs in a page of a tree.
//!
//! The page is only lent: of an inner page the one entry that the cell belongs under is copied, and of a leaf nothing.

ghost use Rattle.std.specs.Prelude.{◌≡◌, ◌≤◌, ◌*◌, ℕ, List, IfOk, OnErr, IsOkUnless, length};
ghost use Rattle.rs_page.specs.declared.header.TheConstants.{PAGE_ROOM};
ghost use Rattle.rs_tree.specs.Layouts.{entry_bytes};
ghost use Rattle.rs_tree.specs.Node.{IsNode};
ghost use Rattle.rs_tree.specs.declared.node.Node.{Node};
ghost use Rattle.rs_tree.specs.Reading.{HasNoNode};

use rs_page::{Page, PageNumber};
use rs_pages::Pages;
use rs_records::{place, record_at};
use rs_refusal::Refusal;
use rs_tree::{Layout, Node, content, read_node};
use rs_tree_edit::{entry_for, has_key};

/// A cell is in a leaf; or it belongs in a leaf of so many cells, at a place; or under one of so many entries, by its place.
#[derive(Clone, Copy)]
pub enum Spot {
    Found,
    Leaf(usize, usize),
    Inner(usize, usize),
}

ghost use Rattle.rs_tree_insert.specs.Finding.{FindsSpot, IsSpot};
ghost use Rattle.rs_pages.specs.Calls.{OnlyReads};
ghost use Rattle.rs_page_owners.specs.Calls.{WorksOn};

/// Where the cell belongs in the page with this number. The entry that it belongs under is copied. It is refused with 91,
/// and with 94 where it is no page of a tree.
pub fn find_spot<P: Pages>(
    pages: &mut P,
    number: PageNumber,
    layout: Layout,
    cell: &[u8],
    entry: &mut [u8],
) -> Result<Spot, Refusal>
    requires entry { length entry.old ≡ entry_bytes layout }
    ensures rests { OnlyReads P.Pages result pages.old pages.new }
    ensures works { WorksOn P.Pages (HasNoNode (P.store pages.old).map number layout) result pages.old pages.new }
    ensures found { IfOk result (FindsSpot (P.is_tied pages.old) (P.store pages.old).map number layout cell.now entry.new) }
{
    match pages.page(number) {
        Ok(page) => spot_in(page, number, layout, cell, entry),
        Err(refusal) => Err(refusal),
    }
}

/// Where the cell belongs in this page. It is refused with 94 where it is no page of a tree.
fn spot_in(
    page: &Page,
    number: PageNumber,
    layout: Layout,
    cell: &[u8],
    entry: &mut [u8],
) -> Result<Spot, Refusal>
    requires entry { length entry.old ≡ entry_bytes layout }
    ensures found { IfOk result (IsSpot page.now.bytes number layout cell.now entry.new) }
    ensures none { OnErr result ((node : Node) → IsNode page.now.bytes number layout node → ⊥) }
    ensures refused { IsOkUnless result Refusal.DamagedFile }
{
    match read_node(page, number, layout) {
        Some(Node::Leaf(count)) => Ok(leaf_spot(page, layout, count, cell)),
        Some(Node::Inner(count)) => Ok(inner_spot(page, layout, count, cell, entry)),
        None => Err(Refusal::DamagedFile),
    }
}

/// Where the cell belongs in a leaf.
fn leaf_spot(page: &Page, layout: Layout, count: usize, cell: &[u8]) -> Spot
    requires { count * layout.width ≤ PAGE_ROOM }
    ensures { (number : ℕ) (entry : List ℕ) → IsNode page.now.bytes number layout (Node.Leaf count)
        → IsSpot page.now.bytes number layout cell.now entry result }
{
    let bytes = content(page);
    let at = place(bytes, layout.width, count, 0, cell);
    if has_key(bytes, layout.width, count, 0, at, cell) {
        Spot::Found
    } else {
        Spot::Leaf(count, at)
    }
}

/// Where the cell belongs in an inner page. The entry that it belongs under is copied.
fn inner_spot(page: &Page, layout: Layout, count: usize, cell: &[u8], entry: &mut [u8]) -> Spot
    requires some { 1 ≤ count }
    requires fit { count * entry_bytes layout ≤ PAGE_ROOM }
    requires entry { length entry.old ≡ entry_bytes layout }
    ensures { (number : ℕ) → IsNode page.now.bytes number layout (Node.Inner count)
        → IsSpot page.now.bytes number layout cell.now entry.new result }
{
    let bytes = content(page);
    let at = entry_for(bytes, layout, count, cell);
    entry.copy_from_slice(record_at(bytes, layout.entry_width(), at));
    Spot::Inner(count, at)
}

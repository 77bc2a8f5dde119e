//! This module finds a bound above all cells of a tree: the greatest of them and one byte more.
//!
//! The way to it goes by the last entry of each inner page, so that one page of each level is read.

ghost use Rattle.std.specs.Prelude.{◌≡◌, ◌<◌, ◌≤◌, ◌*◌, ◌-◌, ◌++◌, ℕ, List, [], ◌∷◌, Some, IfOk, IsOkUnless, slice_get};
ghost use Rattle.rs_page.specs.Number.{number_at};
ghost use Rattle.rs_page.specs.declared.header.TheConstants.{PAGE_ROOM};
ghost use Rattle.rs_records.specs.Records.{records};
ghost use Rattle.rs_tree.specs.Content.{content};
ghost use Rattle.rs_tree.specs.Layouts.{entry_bytes};
ghost use Rattle.rs_tree.specs.Forms.{form_in};
ghost use Rattle.rs_cell_versions.specs.Looking.{Bounds};
ghost use Rattle.rs_cell_versions.specs.OpeningCalls.{RefusesLook};
ghost use Rattle.rs_pages.specs.Calls.{OnlyReads};

use rs_page::{Page, PageNumber};
use rs_pages::Pages;
use rs_records::record_at;
use rs_refusal::Refusal;
use rs_tree::entry::child;
use rs_tree::load::load;
use rs_tree::{Layout, Node, Summary, content};
use std::alloc::Global;

/// A bound above all cells of the tree with this root. It is refused with 90, with 91, and with 94 only where no tree stands
/// there.
pub(crate) fn bound_above<P: Pages, S: Summary>(
    alloc: Global,
    pages: &mut P,
    layout: Layout,
    root: PageNumber,
) -> Result<Vec<u8>, Refusal>
    ensures rests { OnlyReads P.Pages result pages.old pages.new }
    ensures bounds { Bounds P.Pages (form_in S.Summary layout) root result pages.old }
    ensures refused { RefusesLook result }
{
    if root.number() == 0 {
        return Ok(Vec::new(alloc));
    }
    let mut left = pages.count();
    let mut number = root;
    let mut page = Page::new();
    'down: loop {
        let node = load(pages, number, layout, &mut left, &mut page)?;
        match node {
            Node::Leaf(count) => return after_last(alloc, &page, layout, count),
            Node::Inner(count) => number = last_child(&page, layout, count),
        }
    }
}

/// The last cell of a leaf and one byte more. It is refused for want of memory alone.
fn after_last(alloc: Global, page: &Page, layout: Layout, count: usize) -> Result<Vec<u8>, Refusal>
    requires some { 0 < count }
    requires fit { count * layout.width ≤ PAGE_ROOM }
    ensures after { IfOk result (λ bound. (cell : List ℕ)
        → slice_get (records count layout.width (content page.now.bytes)) (count - 1) ≡ Some cell
        → bound.items ≡ cell ++ 0 ∷ []) }
    ensures refused { IsOkUnless result Refusal.OutOfMemory }
{
    let cell = record_at(content(page), layout.width, count - 1);
    let mut bound = Vec::new(alloc);
    bound
        .extend_from_slice(cell)
        .map_err(|_| Refusal::OutOfMemory)?;
    bound.push(0).map_err(|_| Refusal::OutOfMemory)?;
    Ok(bound)
}

/// The page that the last entry of an inner page says.
fn last_child(page: &Page, layout: Layout, count: usize) -> PageNumber
    requires some { 0 < count }
    requires fit { count * entry_bytes layout ≤ PAGE_ROOM }
    ensures { (entry : List ℕ)
        → slice_get (records count (entry_bytes layout) (content page.now.bytes)) (count - 1) ≡ Some entry
        → result ≡ number_at 0 4 entry }
{
    let entry = record_at(content(page), layout.entry_width(), count - 1);
    child(entry, layout)
}

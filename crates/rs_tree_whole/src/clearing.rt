//! Clearing a tree: what is below a page goes first, then the page.
//!
//! It goes down so many levels at the most and reads so many pages, so that it ends on pages that are no tree.

ghost use Rattle.std.specs.Prelude.{◌≡◌, ◌≢◌, ◌<◌, ◌≤◌, ◌*◌, true, Err};
ghost use Rattle.rs_page.specs.declared.header.TheConstants.{PAGE_ROOM};
ghost use Rattle.rs_page_owners.specs.Calls.{Makes, WorksOn};
ghost use Rattle.rs_tree.specs.Calls.{LeavesTree};
ghost use Rattle.rs_tree.specs.Forms.{form_in};
ghost use Rattle.rs_tree.specs.Layouts.{entry_bytes};
ghost use Rattle.rs_tree_whole.specs.Calls.{Clears};
ghost use Rattle.rs_tree_whole.specs.Clearing.{ClearsPart, ClearsEntries, HasNoOwnPart, HasNoOwnParts};

use rs_page::{Page, PageNumber};
use rs_pages::Pages;
use rs_records::record_at;
use rs_refusal::Refusal;
use rs_tree::entry::child;
use rs_tree::load::load;
use rs_tree::{LEVELS, Layout, Node, Summary, content};

/// Frees all pages of a tree; of the empty one, at root 0, there are none. It is refused with 90, with 91, and with 94 only
/// where no tree stands there with pages of its own.
pub fn clear<P: Pages, S: Summary>(
    pages: &mut P,
    layout: Layout,
    root: PageNumber,
) -> Result<(), Refusal>
    requires begun { (P.store pages.old).is_begun ≡ true }
    ensures leaves { LeavesTree P.Pages (form_in S.Summary layout) root result pages.old pages.new }
    ensures clears { Clears P.Pages (form_in S.Summary layout) root result pages.old pages.new }
    ensures room { result ≢ Err Refusal.FileFull }
{
    if root.number() == 0 {
        return Ok(());
    }
    let mut left = pages.count();
    clear_part::<P, S>(pages, layout, root, LEVELS, &mut left)
}

/// Frees the pages of the part of a tree with this page at its top.
#[cycle(clearing)]
fn clear_part<P: Pages, S: Summary>(
    pages: &mut P,
    layout: Layout,
    number: PageNumber,
    levels: u32,
    left: &mut u32,
) -> Result<(), Refusal>
    requires begun { (P.store pages.old).is_begun ≡ true }
    ensures keeps { P.keeps pages.old pages.new }
    ensures works { WorksOn P.Pages (HasNoOwnPart (form_in S.Summary layout)
        (P.store pages.old).map number levels left.old) result pages.old pages.new }
    ensures room { result ≢ Err Refusal.FileFull }
    ensures clears { Makes P.Pages (λ old new _. ClearsPart (form_in S.Summary layout) old new number left.old left.new) result
        pages.old pages.new }
{
    let mut page = Page::new();
    let node = load(pages, number, layout, left, &mut page)?;
    match node {
        Node::Leaf(_) => pages.release(number),
        Node::Inner(count) => {
            if levels == 0 {
                return Err(Refusal::DamagedFile);
            }
            clear_entries::<P, S>(pages, layout, &page, count, levels, left)?;
            pages.release(number)
        }
    }
}

/// Frees the pages of the parts that the entries of an inner page say.
#[cycle(clearing)]
fn clear_entries<P: Pages, S: Summary>(
    pages: &mut P,
    layout: Layout,
    page: &Page,
    count: usize,
    levels: u32,
    left: &mut u32,
) -> Result<(), Refusal>
    requires begun { (P.store pages.old).is_begun ≡ true }
    requires fit { count * entry_bytes layout ≤ PAGE_ROOM }
    requires levels { 0 < levels }
    ensures keeps { P.keeps pages.old pages.new }
    ensures works { WorksOn P.Pages (HasNoOwnParts (form_in S.Summary layout)
        (P.store pages.old).map page.now.bytes count levels left.old) result pages.old pages.new }
    ensures room { result ≢ Err Refusal.FileFull }
    ensures clears { Makes P.Pages (λ old new _. ClearsEntries (form_in S.Summary layout) old new page.now.bytes count
        left.old left.new) result pages.old pages.new }
{
    let bytes = content(page);
    for index in 0..count {
        let entry = record_at(bytes, layout.entry_width(), index);
        clear_part::<P, S>(pages, layout, child(entry, layout), levels - 1, left)?;
    }
    Ok(())
}

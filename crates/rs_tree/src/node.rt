//! What a page of a tree holds: cells or entries, and how many.

ghost use Rattle.std.specs.Prelude.{◌≡◌, ◌≤◌, ◌<◌, ◌+◌, ◌*◌, ◌↔◌, IsTrue, IfSome, IfNone, length};
ghost use Rattle.rs_page.specs.declared.header.TheConstants.{PAGE_ROOM};

use crate::layout::Layout;
use rs_page::{HEADER_SIZE, PAGE_SIZE, Page, PageKind, PageNumber};

/// A page of a tree: so many cells, or so many entries.
#[derive(Clone, Copy)]
pub enum Node {
    Leaf(usize),
    Inner(usize),
}

ghost use Rattle.rs_tree.specs.Content.{content};
ghost use Rattle.rs_tree.specs.Node.{IsNode};
ghost use Rattle.rs_tree.specs.declared.node.Node.{Node};

/// What follows the header of a page.
pub fn content(page: &Page) -> &[u8]
    ensures bytes { result.now ≡ content page.now.bytes }
    ensures size { length result.now ≡ PAGE_ROOM }
    ensures page { length page.now.bytes ≡ PAGE_SIZE }
{
    after_header(&page.bytes)
}

fn after_header(bytes: &[u8]) -> &[u8]
    requires { HEADER_SIZE ≤ length bytes.now }
    ensures bytes { result.now ≡ content bytes.now }
    ensures size { length result.now + HEADER_SIZE ≡ length bytes.now }
{
    &bytes[HEADER_SIZE..]
}

/// What a page with this number holds; none where it is no page of a tree: its header is another or doesn't fit,
/// or more is counted than there is room for.
pub fn read_node(page: &Page, number: PageNumber, layout: Layout) -> Option<Node>
    ensures found { IfSome result (IsNode page.now.bytes number layout) }
    ensures none { IfNone result ((node : Node) → IsNode page.now.bytes number layout node → ⊥) }
{
    let header = page.header()?;
    let count = usize::from(header.count);
    if header.number != number || header.next.number() != 0 {
        return None;
    }
    match header.kind {
        PageKind::Leaf if count >= 1 && fits(page, count, layout.width) => Some(Node::Leaf(count)),
        PageKind::Inner if count >= 2 && fits(page, count, layout.entry_width()) => {
            Some(Node::Inner(count))
        }
        _ => None,
    }
}

/// Whether so many records fit a page.
fn fits(page: &Page, count: usize, width: usize) -> bool
    requires small { count < 65536 }
    requires narrow { width ≤ PAGE_ROOM }
    ensures fit { IsTrue result ↔ (count * width ≤ length (content page.now.bytes)) }
    ensures size { length page.now.bytes ≡ PAGE_SIZE }
{
    count * width <= content(page).len()
}

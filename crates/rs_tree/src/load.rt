//! Pages of trees, read one by one and counted.

ghost use Rattle.std.specs.Prelude.{◌≡◌, ◌≤◌, ◌+◌, IfOk, IfErr, OnOk, OnErr, IsOkUnless};
ghost use Rattle.rs_pages.specs.Calls.{OnlyReads};
ghost use Rattle.rs_tree.specs.Node.{IsNode};
ghost use Rattle.rs_tree.specs.Reading.{IsLoaded, RefusesToLoad};
ghost use Rattle.rs_tree.specs.declared.node.Node.{Node};

use crate::{Layout, Node, read_node};
use rs_page::{Page, PageNumber};
use rs_pages::Pages;
use rs_refusal::Refusal;

/// Copies the page with this number, which is one of a tree's, tells what it holds, and counts it: there is one read less left. It is
/// refused with 91, and with 94 where it is no page of a tree, or no read is left. After a refusal, what the copy holds is
/// unspecified.
pub fn load<P: Pages>(
    pages: &mut P,
    number: PageNumber,
    layout: Layout,
    left: &mut u32,
    copy: &mut Page,
) -> Result<Node, Refusal>
    ensures rests { OnlyReads P.Pages result pages.old pages.new }
    ensures loaded { IfOk result (IsLoaded (P.is_tied pages.old) (P.store pages.old).map number layout copy.new.bytes) }
    ensures counted { OnOk result (left.old ≡ left.new + 1) }
    ensures fewer { left.new ≤ left.old }
    ensures refused { IfErr result (RefusesToLoad (P.is_tied pages.old) (P.store pages.old).map number layout left.old) }
{
    if *left == 0 {
        return Err(Refusal::DamagedFile);
    }
    *left -= 1;
    match pages.page(number) {
        Ok(page) => copy_into(page, number, layout, copy),
        Err(refusal) => Err(refusal),
    }
}

/// The same of this page.
fn copy_into(
    page: &Page,
    number: PageNumber,
    layout: Layout,
    copy: &mut Page,
) -> Result<Node, Refusal>
    ensures bytes { OnOk result (copy.new.bytes ≡ page.now.bytes) }
    ensures node { IfOk result (IsNode copy.new.bytes number layout) }
    ensures none { OnErr result ((node : Node) → IsNode page.now.bytes number layout node → ⊥) }
    ensures refused { IsOkUnless result Refusal.DamagedFile }
{
    match read_node(page, number, layout) {
        Some(node) => {
            *copy = *page;
            Ok(node)
        }
        None => Err(Refusal::DamagedFile),
    }
}

//! One page of a tree, read by itself.

ghost use Rattle.std.specs.Prelude.{◌≢◌, IfOk, Err};
ghost use Rattle.rs_tree.specs.Reading.{HasNoNode, IsLoaded};
ghost use Rattle.rs_pages.specs.Calls.{OnlyReads};
ghost use Rattle.rs_page_owners.specs.Calls.{WorksOn};

use rs_page::{Page, PageNumber};
use rs_pages::Pages;
use rs_refusal::Refusal;
use rs_tree::load::load;
use rs_tree::{Layout, Node};

/// Copies the page with this number, which is one of a tree's, and tells what it holds. It is refused with 91, and with 94 where it is
/// no page of a tree. After a refusal, what the copy holds is unspecified.
pub fn read_part<P: Pages>(
    pages: &mut P,
    number: PageNumber,
    layout: Layout,
    copy: &mut Page,
) -> Result<Node, Refusal>
    ensures rests { OnlyReads P.Pages result pages.old pages.new }
    ensures works { WorksOn P.Pages (HasNoNode (P.store pages.old).map number layout) result pages.old pages.new }
    ensures room { result ≢ Err Refusal.FileFull }
    ensures loaded { IfOk result (IsLoaded (P.is_tied pages.old) (P.store pages.old).map number layout copy.new.bytes) }
{
    let mut left = 1;
    load(pages, number, layout, &mut left, copy)
}

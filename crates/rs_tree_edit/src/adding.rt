//! Pages of records brought into use.

ghost use Rattle.std.specs.Prelude.{◌≡◌, ◌≤◌, ◌<◌, ◌*◌, true, IfOk, length};
ghost use Rattle.rs_page.specs.Header.{page_kind};
ghost use Rattle.rs_page.specs.declared.header.TheConstants.{PAGE_ROOM};
ghost use Rattle.rs_records.specs.Records.{records};
ghost use Rattle.rs_tree_edit.specs.Editing.{AddsPage, HasNoFreeList};
ghost use Rattle.rs_page_owners.specs.Calls.{Makes, WorksOn};

use crate::editing::{Edit, EditedPage, edit_page};
use rs_page::{ContentKind, PageNumber};
use rs_pages::Pages;
use rs_refusal::Refusal;

/// Brings a page into use that holds these records. It is refused as `allocate` is, and for want of memory.
pub fn add_page<P: Pages>(
    pages: &mut P,
    kind: ContentKind,
    width: usize,
    count: usize,
    bytes: &[u8],
) -> Result<PageNumber, Refusal>
    requires begun { (P.store pages.old).is_begun ≡ true }
    requires wide { 0 < width }
    requires whole { length bytes.now ≡ count * width }
    requires fit { count * width ≤ PAGE_ROOM }
    ensures keeps { P.keeps pages.old pages.new }
    ensures works { WorksOn P.Pages (HasNoFreeList (P.store pages.old).map) result pages.old pages.new }
    ensures added { Makes P.Pages (λ old new number. AddsPage old new number (page_kind kind) width
        (records count width bytes.now)) result pages.old pages.new }
{
    let number = pages.allocate(kind)?;
    let edited = EditedPage {
        number,
        kind,
        width,
        count: 0,
    };
    let edit = Edit {
        at: 0,
        removed: 0,
        more: count,
    };
    edit_page(pages, edited, edit, bytes)?;
    Ok(number)
}

//! Records of a page put in the place of others, in one page or two.

ghost use Rattle.std.specs.Prelude.{◌≡◌, ◌≤◌, ◌<◌, ◌+◌, ◌*◌, true, false, IfOk, length};
ghost use Rattle.rs_page.specs.Header.{page_kind};
ghost use Rattle.rs_page.specs.declared.header.TheConstants.{PAGE_ROOM};
ghost use Rattle.rs_records.specs.Records.{records};
ghost use Rattle.rs_tree_insert.specs.Writing.{IsBroken, PutsRecords, is_found};
ghost use Rattle.rs_page_owners.specs.Calls.{WithPage, WorksOn};

use crate::answer::Put;
use crate::splitting::split_page;
use rs_page::PAGE_ROOM;
use rs_pages::Pages;
use rs_refusal::Refusal;
use rs_tree_edit::{Edit, EditedPage, edit_page};

/// Puts records in the place of some of a page, one more than before at the most. Where they fit it no more, the last ones go
/// into a new page, which is answered: half of them, unless the page is the last of its level.
pub fn put_records<P: Pages>(
    pages: &mut P,
    edited: EditedPage,
    edit: Edit,
    added: &[u8],
    is_last: bool,
) -> Result<Put, Refusal>
    requires begun { (P.store pages.old).is_begun ≡ true }
    requires wide { 0 < edited.width }
    requires narrow { 3 * edited.width ≤ PAGE_ROOM }
    requires fit { edited.count * edited.width ≤ PAGE_ROOM }
    requires part { edit.at + edit.removed ≤ edited.count }
    requires one_more { edit.more ≤ edit.removed + 1 }
    requires whole { length added.now ≡ edit.more * edited.width }
    ensures keeps { P.keeps pages.old pages.new }
    ensures works { WorksOn P.Pages (IsBroken (P.store pages.old).map edited.number) result pages.old pages.new }
    ensures placed { IfOk result (λ put. is_found put ≡ false) }
    ensures puts { WithPage P.Pages edited.number (λ old new page. IfOk result (λ put. PutsRecords old new edited.number page
        (page_kind edited.kind) edited.width edited.count edit.at edit.removed (records edit.more edited.width added.now) put))
        pages.old pages.new }
{
    if (edited.count - edit.removed + edit.more) * edited.width <= PAGE_ROOM {
        edit_page(pages, edited, edit, added)?;
        return Ok(Put::Placed);
    }
    let other = split_page(pages, edited, edit, added, is_last)?;
    Ok(Put::Split(other))
}

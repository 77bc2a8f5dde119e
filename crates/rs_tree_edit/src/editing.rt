//! Records of a working page put in the place of others.

ghost use Rattle.std.specs.Prelude.{◌≡◌, ◌≢◌, ◌≤◌, ◌<◌, ◌+◌, ◌-◌, ◌*◌, None, true, IfErr, length, Err};
ghost use Rattle.rs_page.specs.Header.{page_kind};
ghost use Rattle.rs_page.specs.declared.header.TheConstants.{PAGE_ROOM};
ghost use Rattle.rs_pages.specs.PageMap.{HasNoFit};
ghost use Rattle.rs_pages.specs.Uses.{HoldsUsed};
ghost use Rattle.rs_records.specs.Records.{records};
ghost use Rattle.rs_tree.specs.Content.{tree_header};
ghost use Rattle.rs_tree_edit.specs.Editing.{Splices};
ghost use Rattle.rs_page_owners.specs.Calls.{Makes, WorksOn};

use rs_page::{ContentKind, PageHeader, PageNumber};
use rs_pages::Pages;
use rs_refusal::Refusal;
use rs_tree::splice_page;

/// A page of records that is edited: its number and its kind, the bytes of a record, and how many records it has.
#[derive(Clone, Copy)]
pub struct EditedPage {
    pub number: PageNumber,
    pub kind: ContentKind,
    pub width: usize,
    pub count: usize,
}

/// The records that give way: those from `at` on, as many as `removed` says, to `more` others.
#[derive(Clone, Copy)]
pub struct Edit {
    pub at: usize,
    pub removed: usize,
    pub more: usize,
}

/// Puts whole records in the place of some of a page, and counts them. It is refused as `page_mut` is; nothing has changed
/// then.
pub fn edit_page<P: Pages>(
    pages: &mut P,
    edited: EditedPage,
    edit: Edit,
    added: &[u8],
) -> Result<(), Refusal>
    requires begun { (P.store pages.old).is_begun ≡ true }
    requires wide { 0 < edited.width }
    requires fit { edited.count * edited.width ≤ PAGE_ROOM }
    requires part { edit.at + edit.removed ≤ edited.count }
    requires whole { length added.now ≡ edit.more * edited.width }
    requires room { (edited.count - edit.removed + edit.more) * edited.width ≤ PAGE_ROOM }
    ensures keeps { P.keeps pages.old pages.new }
    ensures works { WorksOn P.Pages (HasNoFit (P.store pages.old).map edited.number) result pages.old pages.new }
    ensures room { result ≢ Err Refusal.FileFull }
    ensures edited { Makes P.Pages (λ old new _. Splices old new edited.number (page_kind edited.kind) edited.width edited.count
        edit.at edit.removed (records edit.more edited.width added.now)) result pages.old pages.new }
    ensures copied { IfErr result (λ _. HoldsUsed (P.store pages.old) edited.number
        → ((P.store pages.old).held edited.number).copy ≡ None) }
{
    let total = edited.count - edit.removed + edit.more;
    let header = header_of(edited.kind, edited.number, total, edited.width);
    let page = pages.page_mut(edited.number)?;
    splice_page(
        page,
        header,
        edited.width,
        edited.count,
        edit.at,
        edit.removed,
        added,
    );
    Ok(())
}

/// The header of a page of so many records.
pub fn header_of(kind: ContentKind, number: PageNumber, count: usize, width: usize) -> PageHeader
    requires wide { 0 < width }
    requires room { count * width ≤ PAGE_ROOM }
    ensures { result ≡ tree_header (page_kind kind) count number }
{
    PageHeader {
        kind: kind.kind(),
        count: count as u16,
        number,
        next: PageNumber::new(0),
    }
}

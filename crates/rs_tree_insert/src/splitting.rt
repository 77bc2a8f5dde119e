//! Records that fit no page, put into two.

ghost use Rattle.std.specs.Prelude.{◌≡◌, ◌≤◌, ◌<◌, ◌+◌, ◌-◌, ◌*◌, ◌/◌, true, IfOk, OnOk, length, take};
ghost use Rattle.rs_page.specs.Header.{page_kind};
ghost use Rattle.rs_page.specs.declared.header.TheConstants.{PAGE_ROOM};
ghost use Rattle.rs_pages.specs.PageMap.{HasNoFit};
ghost use Rattle.rs_records.specs.Records.{records};
ghost use Rattle.rs_tree.specs.Content.{content};
ghost use Rattle.rs_tree_edit.specs.Editing.{Splices};
ghost use Rattle.rs_tree_insert.specs.Writing.{IsBroken, SplitsPage, spliced};
ghost use Rattle.rs_page_owners.specs.Calls.{Makes, WithPage, WorksOn};

use rs_page::{PAGE_ROOM, Page, PageNumber};
use rs_pages::Pages;
use rs_records::splice;
use rs_refusal::Refusal;
use rs_tree::{content, splice_page};
use rs_tree_edit::{Edit, EditedPage, add_page, header_of};

/// The bytes that two pages have for records.
const TWO_PAGES: usize = 2 * PAGE_ROOM;

/// Puts records in the place of some of a page, where they fit it no more: the first ones stay, and the others go into a new
/// page: half of them, unless the page is the last of its level.
pub fn split_page<P: Pages>(
    pages: &mut P,
    edited: EditedPage,
    edit: Edit,
    added: &[u8],
    is_last: bool,
) -> Result<PageNumber, Refusal>
    requires begun { (P.store pages.old).is_begun ≡ true }
    requires wide { 0 < edited.width }
    requires narrow { 3 * edited.width ≤ PAGE_ROOM }
    requires fit { edited.count * edited.width ≤ PAGE_ROOM }
    requires part { edit.at + edit.removed ≤ edited.count }
    requires one_more { edit.more ≤ edit.removed + 1 }
    requires whole { length added.now ≡ edit.more * edited.width }
    requires full { PAGE_ROOM < (edited.count - edit.removed + edit.more) * edited.width }
    ensures keeps { P.keeps pages.old pages.new }
    ensures works { WorksOn P.Pages (IsBroken (P.store pages.old).map edited.number) result pages.old pages.new }
    ensures splits { WithPage P.Pages edited.number (λ old new page. IfOk result (λ other. SplitsPage old new edited.number other
        (page_kind edited.kind) edited.width (spliced (records edited.count edited.width (content page)) edit.at edit.removed
        (records edit.more edited.width added.now)))) pages.old pages.new }
{
    let mut both = [0; TWO_PAGES];
    let (kind, width) = (edited.kind, edited.width);
    let total = edited.count - edit.removed + edit.more;
    let first = staying(is_last, edit.at + edit.more, total);
    keep_first(pages, edited, edit, added, first, &mut both)?;
    let end = first * width;
    add_page(pages, kind, width, total - first, &both[end..total * width])
}

/// How many of so many records stay in a page that is split, where those that were added end here: half of them. In the last
/// page of a level all but two stay where the added ones are the last, so that what is added in order leaves full pages. In any
/// other page that would leave two records in each where pairs of cells come in falling order.
fn staying(is_last: bool, end: usize, total: usize) -> usize
    requires { 4 ≤ total }
    ensures all_but_two { is_last ≡ true → end ≡ total → result + 2 ≡ total }
    ensures half { (is_last ≡ true → end ≡ total → ⊥) → result ≡ total / 2 }
    ensures some { 2 ≤ result }
    ensures some_more { result + 2 ≤ total }
{
    if is_last && end == total {
        total - 2
    } else {
        total / 2
    }
}

/// Puts records in the place of some of the page with this number, where so many of the first stay. All of them come to the
/// beginning of other bytes. It is refused as `page_mut` is; nothing has changed then.
fn keep_first<P: Pages>(
    pages: &mut P,
    edited: EditedPage,
    edit: Edit,
    added: &[u8],
    first: usize,
    both: &mut [u8],
) -> Result<(), Refusal>
    requires begun { (P.store pages.old).is_begun ≡ true }
    requires wide { 0 < edited.width }
    requires fit { edited.count * edited.width ≤ PAGE_ROOM }
    requires part { edit.at + edit.removed ≤ edited.count }
    requires whole { length added.now ≡ edit.more * edited.width }
    requires room { (edited.count - edit.removed + edit.more) * edited.width ≤ 8160 }
    requires first { first * edited.width ≤ PAGE_ROOM }
    requires size { length both.old ≡ 8160 }
    ensures keeps { P.keeps pages.old pages.new }
    ensures works { WorksOn P.Pages (HasNoFit (P.store pages.old).map edited.number) result pages.old pages.new }
    ensures edited { Makes P.Pages (λ old new _. Splices old new edited.number (page_kind edited.kind) edited.width edited.count
        0 edited.count (records first edited.width (take (first * edited.width) both.new))) result pages.old pages.new }
    ensures both { WithPage P.Pages edited.number (λ _ _ page. OnOk result (
        records (edited.count - edit.removed + edit.more) edited.width both.new
        ≡ spliced (records edited.count edited.width (content page)) edit.at edit.removed
        (records edit.more edited.width added.now))) pages.old pages.new }
{
    let (width, count) = (edited.width, edited.count);
    let header = header_of(edited.kind, edited.number, first, width);
    let page = pages.page_mut(edited.number)?;
    splice_beside(page, both, width, count, edit, added);
    splice_page(page, header, width, count, 0, count, &both[..first * width]);
    Ok(())
}

/// Copies the records of a page to the beginning of other bytes, and puts records in the place of some there.
fn splice_beside(page: &Page, both: &mut [u8], width: usize, count: usize, edit: Edit, added: &[u8])
    requires size { length both.old ≡ 8160 }
    requires fit { count * width ≤ PAGE_ROOM }
    requires part { edit.at + edit.removed ≤ count }
    requires whole { length added.now ≡ edit.more * width }
    requires room { (count - edit.removed + edit.more) * width ≤ 8160 }
    ensures { records (count - edit.removed + edit.more) width both.new
        ≡ spliced (records count width (content page.now.bytes)) edit.at edit.removed (records edit.more width added.now) }
{
    let bytes = content(page);
    both[..bytes.len()].copy_from_slice(bytes);
    splice(both, width, count, edit.at, edit.removed, added);
}

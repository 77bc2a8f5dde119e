//! An inner page whose parts gave way to fewer, or to others.

ghost use Rattle.std.specs.Prelude.{◌≡◌, ◌≢◌, ◌≤◌, ◌<◌, ◌+◌, ◌-◌, ◌*◌, true, [], ◌∷◌, IfOk, length, Err};
ghost use Rattle.rs_page.specs.declared.header.TheConstants.{PAGE_ROOM};
ghost use Rattle.rs_tree.specs.Layouts.{entry_bytes};
ghost use Rattle.rs_tree.specs.Forms.{form_in};
ghost use Rattle.rs_tree_remove.specs.Finishing.{CantRenew, Finishes, NoneGaveWay, Renews};
ghost use Rattle.rs_page_owners.specs.Calls.{Makes, WorksOn};

use crate::answer::Removed;
use crate::sides::Two;
use rs_page::{ContentKind, Page, PageNumber};
use rs_pages::Pages;
use rs_records::record_at;
use rs_refusal::Refusal;
use rs_tree::entry::child;
use rs_tree::{GREATEST_ENTRY, Layout, Summary, content};
use rs_tree_edit::{Edit, EditedPage, edit_page, write_entry_of};

/// An inner page by its number, and how many entries it has.
#[derive(Clone, Copy)]
pub struct InnerPage {
    pub number: PageNumber,
    pub count: usize,
}

/// Entries of a page that give way: those from `at` on, as many as `removed` says.
#[derive(Clone, Copy)]
pub struct Stretch {
    pub at: usize,
    pub removed: usize,
}

/// Takes the entry of a part that is gone out of an inner page, whose bytes are told. Of two parts the other one is told,
/// and the page doesn't change.
pub fn drop_entry<P: Pages, S: Summary>(
    pages: &mut P,
    layout: Layout,
    inner: InnerPage,
    page: &Page,
    at: usize,
) -> Result<Removed, Refusal>
    requires begun { (P.store pages.old).is_begun ≡ true }
    requires fit { inner.count * entry_bytes layout ≤ PAGE_ROOM }
    requires two { 2 ≤ inner.count }
    requires inside { at < inner.count }
    ensures keeps { P.keeps pages.old pages.new }
    ensures works { WorksOn P.Pages (NoneGaveWay (form_in S.Summary layout)
        (P.store pages.old).map inner.number page.now.bytes inner.count at 1 []) result pages.old pages.new }
    ensures room { result ≢ Err Refusal.FileFull }
    ensures finishes { Makes P.Pages (λ old new. Finishes (form_in S.Summary layout) old new inner.number page.now.bytes
        inner.count at 1 []) result pages.old pages.new }
    ensures kept { 2 < inner.count → IfOk result (λ answer. answer ≡ Removed.Kept) }
{
    let width = layout.entry_width();
    let count = inner.count;
    if count == 2 {
        let other = record_at(content(page), width, 1 - at);
        return Ok(Removed::Single(child(other, layout)));
    }
    let edited = EditedPage {
        number: inner.number,
        kind: ContentKind::Inner,
        width,
        count: inner.count,
    };
    let edit = Edit {
        at,
        removed: 1,
        more: 0,
    };
    edit_page(pages, edited, edit, &[])?;
    Ok(Removed::Kept)
}

/// Writes the entry of a part anew in an inner page, in the place of one entry, of two or of none. If it is the only one then,
/// it is told, and the page doesn't change.
pub fn renew_entry<P: Pages, S: Summary>(
    pages: &mut P,
    layout: Layout,
    inner: InnerPage,
    page: &Page,
    stretch: Stretch,
    top: PageNumber,
) -> Result<Removed, Refusal>
    requires begun { (P.store pages.old).is_begun ≡ true }
    requires summary { layout.summary ≡ S.WIDTH }
    requires fit { inner.count * entry_bytes layout ≤ PAGE_ROOM }
    requires few { stretch.removed ≤ 2 }
    requires inside { stretch.at + stretch.removed ≤ inner.count }
    requires room { (inner.count - stretch.removed + 1) * entry_bytes layout ≤ PAGE_ROOM }
    ensures keeps { P.keeps pages.old pages.new }
    ensures works { WorksOn P.Pages (NoneGaveWay (form_in S.Summary layout)
        (P.store pages.old).map inner.number page.now.bytes inner.count stretch.at stretch.removed
        (top ∷ [])) result pages.old pages.new }
    ensures room { result ≢ Err Refusal.FileFull }
    ensures finishes { Makes P.Pages (λ old new. Finishes (form_in S.Summary layout) old new inner.number page.now.bytes
        inner.count stretch.at stretch.removed (top ∷ [])) result pages.old pages.new }
    ensures kept { stretch.removed < inner.count → IfOk result (λ answer. answer ≡ Removed.Kept) }
{
    let (count, removed) = (inner.count, stretch.removed);
    if count == removed {
        return Ok(Removed::Single(top));
    }
    let mut buffer = [0; GREATEST_ENTRY];
    let width = layout.entry_width();
    renew::<P, S>(pages, layout, inner, stretch, top, &mut buffer[..width])?;
    Ok(Removed::Kept)
}

/// Writes the entries of two neighbours anew in an inner page.
pub fn renew_two<P: Pages, S: Summary>(
    pages: &mut P,
    layout: Layout,
    inner: InnerPage,
    page: &Page,
    at: usize,
    tops: Two,
) -> Result<(), Refusal>
    requires begun { (P.store pages.old).is_begun ≡ true }
    requires summary { layout.summary ≡ S.WIDTH }
    requires fit { inner.count * entry_bytes layout ≤ PAGE_ROOM }
    requires inside { at + 2 ≤ inner.count }
    ensures keeps { P.keeps pages.old pages.new }
    ensures works { WorksOn P.Pages (NoneGaveWay (form_in S.Summary layout)
        (P.store pages.old).map inner.number page.now.bytes inner.count at 2
        (tops.first ∷ tops.second ∷ [])) result pages.old pages.new }
    ensures room { result ≢ Err Refusal.FileFull }
    ensures finishes { Makes P.Pages (λ old new _. Finishes (form_in S.Summary layout) old new inner.number page.now.bytes
        inner.count at 2 (tops.first ∷ tops.second ∷ []) Removed.Kept) result pages.old pages.new }
{
    let mut buffer = [0; GREATEST_ENTRY];
    let width = layout.entry_width();
    let (first, second) = (tops.first, tops.second);
    let (number, count) = (inner.number, inner.count);
    let one = Stretch { at, removed: 1 };
    renew::<P, S>(pages, layout, inner, one, first, &mut buffer[..width])?;
    let same = InnerPage { number, count };
    let next = Stretch {
        at: at + 1,
        removed: 1,
    };
    renew::<P, S>(pages, layout, same, next, second, &mut buffer[..width])
}

/// The same of one entry, where others are left; it is written into these bytes first.
fn renew<P: Pages, S: Summary>(
    pages: &mut P,
    layout: Layout,
    inner: InnerPage,
    stretch: Stretch,
    top: PageNumber,
    entry: &mut [u8],
) -> Result<(), Refusal>
    requires begun { (P.store pages.old).is_begun ≡ true }
    requires summary { layout.summary ≡ S.WIDTH }
    requires entry { length entry.old ≡ entry_bytes layout }
    requires fit { inner.count * entry_bytes layout ≤ PAGE_ROOM }
    requires inside { stretch.at + stretch.removed ≤ inner.count }
    requires room { (inner.count - stretch.removed + 1) * entry_bytes layout ≤ PAGE_ROOM }
    ensures keeps { P.keeps pages.old pages.new }
    ensures works { WorksOn P.Pages (CantRenew (P.store pages.old).map inner.number top layout) result pages.old pages.new }
    ensures room { result ≢ Err Refusal.FileFull }
    ensures renews { Makes P.Pages (λ old new _. Renews (form_in S.Summary layout) old new inner.number inner.count
        stretch.at stretch.removed top) result pages.old pages.new }
{
    write_entry_of::<P, S>(pages, layout, top, entry)?;
    let edited = EditedPage {
        number: inner.number,
        kind: ContentKind::Inner,
        width: layout.entry_width(),
        count: inner.count,
    };
    let edit = Edit {
        at: stretch.at,
        removed: stretch.removed,
        more: 1,
    };
    edit_page(pages, edited, edit, entry)
}

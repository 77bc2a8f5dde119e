//! The path of a cell: down to its leaf, and up again.

ghost use Rattle.std.specs.Prelude.{◌≡◌, ◌⊎◌, ◌<◌, ◌≤◌, ◌+◌, ◌*◌, ℕ, List, Some, true, false, [], ◌∷◌, IfOk, IsTrue, length, take, drop, slice_get};
ghost use Rattle.rs_page.specs.declared.header.TheConstants.{PAGE_ROOM};
ghost use Rattle.rs_pages.specs.PageMap.{SamePages};
ghost use Rattle.rs_records.specs.Records.{records};
ghost use Rattle.rs_tree.specs.Content.{content};
ghost use Rattle.rs_tree.specs.Form.{child_bytes};
ghost use Rattle.rs_tree.specs.Layouts.{entry_bytes};
ghost use Rattle.rs_tree.specs.declared.limits.TheConstants.{GREATEST_ENTRY};
ghost use Rattle.rs_tree.specs.Forms.{form_in};
ghost use Rattle.rs_tree_insert.specs.Finding.{BelongsAt, BelongsUnder};
ghost use Rattle.rs_tree_insert.specs.Inserting.{HasNoShared, HasNoTops, PutsBelow, TellsBelow, WritesAbove, tops};
ghost use Rattle.rs_tree_insert.specs.Writing.{IsBroken, is_found};
ghost use Rattle.rs_page_owners.specs.Calls.{Makes, WithPage, WorksOn};
ghost use Rattle.rs_pages.specs.Calls.{Reads};

use crate::answer::Put;
use crate::entries::write_entries;
use crate::finding::{Spot, find_spot};
use crate::writing::put_records;
use rs_page::{ContentKind, PageNumber};
use rs_pages::Pages;
use rs_refusal::Refusal;
use rs_tree::entry::{child, summary};
use rs_tree::{Layout, Summary};
use rs_tree_edit::{Edit, EditedPage};

/// A place in a page of a tree: the page, how many records it has, which of them, and whether the page is the last of its level.
#[derive(Clone, Copy)]
pub struct Place {
    pub number: PageNumber,
    pub count: usize,
    pub at: usize,
    pub is_last: bool,
}

/// Puts a cell into the part of a tree with this page at its top, which is the last of its level or not. The entry that it goes
/// under is copied into `N` bytes on the way down, and entries are written into `entries` on the way up.
#[cycle(inserting)]
pub fn insert_below<P: Pages, S: Summary, const N: usize>(
    pages: &mut P,
    layout: Layout,
    number: PageNumber,
    levels: u32,
    cell: &[u8],
    entries: &mut [u8],
    is_last: bool,
) -> Result<Put, Refusal>
    requires begun { (P.store pages.old).is_begun ≡ true }
    requires summary { layout.summary ≡ S.WIDTH }
    requires width { length cell.now ≡ layout.width }
    requires room { entry_bytes layout ≤ N }
    requires few { N ≤ GREATEST_ENTRY }
    requires entries { length entries.old ≡ 2 * entry_bytes layout }
    ensures keeps { P.keeps pages.old pages.new }
    ensures works { WorksOn P.Pages (HasNoShared (form_in S.Summary layout)
        (P.store pages.old).map number levels) result pages.old pages.new }
    ensures puts { Makes P.Pages (λ old new put. PutsBelow (form_in S.Summary layout) old new number cell.now put) result
        pages.old pages.new }
    ensures found { Reads P.Pages (λ map put. TellsBelow (form_in S.Summary layout) map number cell.now put) result pages.old }
    ensures same { Makes P.Pages (λ old new put. is_found put ≡ true → SamePages new old) result pages.old pages.new }
{
    let mut bytes = [0; N];
    let entry = &mut bytes[..layout.entry_width()];
    let spot = find_spot(pages, number, layout, cell, entry)?;
    match spot {
        Spot::Found => Ok(Put::Found),
        Spot::Leaf(count, at) => {
            let place = Place {
                number,
                count,
                at,
                is_last,
            };
            insert_here::<P, S>(pages, layout, place, cell)
        }
        Spot::Inner(count, at) => {
            if levels == 0 {
                return Err(Refusal::DamagedFile);
            }
            let place = Place {
                number,
                count,
                at,
                is_last,
            };
            insert_under::<P, S, N>(pages, layout, place, entry, levels, cell, entries)
        }
    }
}

/// Puts a cell into a leaf of so many cells, at the place where it belongs.
fn insert_here<P: Pages, S: Summary>(
    pages: &mut P,
    layout: Layout,
    place: Place,
    cell: &[u8],
) -> Result<Put, Refusal>
    requires begun { (P.store pages.old).is_begun ≡ true }
    requires width { length cell.now ≡ layout.width }
    requires fit { place.count * layout.width ≤ PAGE_ROOM }
    requires at { place.at ≤ place.count }
    ensures keeps { P.keeps pages.old pages.new }
    ensures works { WorksOn P.Pages (IsBroken (P.store pages.old).map place.number) result pages.old pages.new }
    ensures puts { WithPage P.Pages place.number (λ old new page.
        BelongsAt page place.number layout cell.now place.count place.at → IfOk result (λ put.
        PutsBelow (form_in S.Summary layout) old new place.number cell.now put)) pages.old pages.new }
    ensures placed { IfOk result (λ put. is_found put ≡ false) }
{
    let edited = EditedPage {
        number: place.number,
        kind: ContentKind::Leaf,
        width: layout.width,
        count: place.count,
    };
    let edit = Edit {
        at: place.at,
        removed: 0,
        more: 1,
    };
    put_records(pages, edited, edit, cell, place.is_last)
}

/// Puts a cell below an inner page of so many entries, under this one, which is at this place.
#[cycle(inserting)]
fn insert_under<P: Pages, S: Summary, const N: usize>(
    pages: &mut P,
    layout: Layout,
    place: Place,
    entry: &[u8],
    levels: u32,
    cell: &[u8],
    entries: &mut [u8],
) -> Result<Put, Refusal>
    requires begun { (P.store pages.old).is_begun ≡ true }
    requires summary { layout.summary ≡ S.WIDTH }
    requires width { length cell.now ≡ layout.width }
    requires levels { 0 < levels }
    requires fit { place.count * entry_bytes layout ≤ PAGE_ROOM }
    requires at { place.at < place.count }
    requires entry { length entry.now ≡ entry_bytes layout }
    requires room { entry_bytes layout ≤ N }
    requires few { N ≤ GREATEST_ENTRY }
    requires entries { length entries.old ≡ 2 * entry_bytes layout }
    ensures keeps { P.keeps pages.old pages.new }
    ensures works { WorksOn P.Pages ((page : List ℕ) → (P.store pages.old).map.page place.number ≡ Some page
        → BelongsUnder page place.number layout cell.now entry.now place.count place.at
        → HasNoShared (form_in S.Summary layout) (P.store pages.old).map place.number levels) result pages.old pages.new }
    ensures puts { WithPage P.Pages place.number (λ old new page.
        BelongsUnder page place.number layout cell.now entry.now place.count place.at → IfOk result (λ put.
        PutsBelow (form_in S.Summary layout) old new place.number cell.now put)) pages.old pages.new }
    ensures found { WithPage P.Pages place.number (λ old _ page.
        BelongsUnder page place.number layout cell.now entry.now place.count place.at → IfOk result (λ put.
        TellsBelow (form_in S.Summary layout) old place.number cell.now put)) pages.old pages.new }
    ensures same { Makes P.Pages (λ old new put. is_found put ≡ true → SamePages new old) result pages.old pages.new }
{
    let below = child(entry, layout);
    let below_last = is_last_below(place.is_last, place.count, place.at);
    let put = insert_below::<P, S, N>(pages, layout, below, levels - 1, cell, entries, below_last)?;
    match put {
        Put::Found => Ok(Put::Found),
        Put::Kept => Ok(Put::Kept),
        _ => write_above::<P, S>(pages, layout, place, entry, below, put, entries),
    }
}

/// Whether the page below the entry at this place of so many is the last of its level, where this one is or isn't.
fn is_last_below(is_last: bool, count: usize, at: usize) -> bool
    requires { at < count }
    ensures last { is_last ≡ true → at + 1 ≡ count → result ≡ true }
    ensures other { (is_last ≡ true → at + 1 ≡ count → ⊥) → result ≡ false }
{
    is_last && at + 1 == count
}

/// Writes the entry of a page that a cell was put below into the page above, in the place of this one, and that of the page
/// that was split off it. Where it is the entry that is there, nothing is written.
fn write_above<P: Pages, S: Summary>(
    pages: &mut P,
    layout: Layout,
    place: Place,
    entry: &[u8],
    below: PageNumber,
    put: Put,
    entries: &mut [u8],
) -> Result<Put, Refusal>
    requires begun { (P.store pages.old).is_begun ≡ true }
    requires summary { layout.summary ≡ S.WIDTH }
    requires fit { place.count * entry_bytes layout ≤ PAGE_ROOM }
    requires at { place.at < place.count }
    requires entry { length entry.now ≡ entry_bytes layout }
    requires entries { length entries.old ≡ 2 * entry_bytes layout }
    ensures keeps { P.keeps pages.old pages.new }
    ensures works { WorksOn P.Pages (HasNoTops (form_in S.Summary layout) (P.store pages.old).map (tops below put)
        ⊎ IsBroken (P.store pages.old).map place.number) result pages.old pages.new }
    ensures placed { IfOk result (λ above. is_found above ≡ false) }
    ensures above { WithPage P.Pages place.number (λ old new page.
        slice_get (records place.count (entry_bytes layout) (content page)) place.at ≡ Some entry.now → IfOk result (λ above.
        WritesAbove (form_in S.Summary layout) old new place.number page place.count place.at (tops below put) above))
        pages.old pages.new }
{
    let width = layout.entry_width();
    let more = write_entries::<P, S>(pages, layout, below, put, entries)?;
    if says_same::<S>(layout, entry, more, entries) {
        return Ok(Put::Kept);
    }
    let edited = EditedPage {
        number: place.number,
        kind: ContentKind::Inner,
        width,
        count: place.count,
    };
    let edit = Edit {
        at: place.at,
        removed: 1,
        more,
    };
    put_records(pages, edited, edit, &entries[..more * width], place.is_last)
}

/// Whether there is one entry, and it is this one.
fn says_same<S: Summary>(layout: Layout, entry: &[u8], more: usize, entries: &[u8]) -> bool
    requires entry { length entry.now ≡ entry_bytes layout }
    requires summary { layout.summary ≡ S.WIDTH }
    requires room { length entries.now ≡ 2 * entry_bytes layout }
    ensures same { IsTrue result → records more (entry_bytes layout) entries.now ≡ entry.now ∷ [] }
    ensures one { (one other : S) → S.says (take layout.summary (drop child_bytes entry.now)) one
        → S.says (take layout.summary (drop child_bytes entry.now)) other → one ≡ other }
{
    // For the proof: bytes that are read say one summary at the most, which is the clause `one`.
    let _whole = S::read(summary(entry, layout));
    if more != 1 {
        return false;
    }
    let width = layout.entry_width();
    entry == &entries[..width]
}

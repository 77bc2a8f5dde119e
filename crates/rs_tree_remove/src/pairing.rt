//! The page with one part left and its neighbour: one takes in what is below the other, or both have two parts at least.

ghost use Rattle.std.specs.Prelude.{◌≡◌, ◌≢◌, ◌≤◌, ◌<◌, ◌+◌, ◌*◌, true, IfOk, Err};
ghost use Rattle.rs_page.specs.declared.header.TheConstants.{PAGE_ROOM};
ghost use Rattle.rs_tree.specs.Layouts.{entry_bytes};
ghost use Rattle.rs_tree.specs.Node.{IsNode};
ghost use Rattle.rs_tree.specs.Forms.{form_in};
ghost use Rattle.rs_tree_remove.specs.Mending.{Mends, NoneLonely, Pairs, NonePairs};
ghost use Rattle.rs_page_owners.specs.Calls.{Makes, WorksOn};

use crate::Removed;
use crate::finishing::{InnerPage, Stretch, drop_entry, renew_entry, renew_two};
use crate::sides::{end, neighbour, ordered};
use rs_page::{Page, PageNumber};
use rs_pages::Pages;
use rs_records::record_at;
use rs_refusal::Refusal;
use rs_tree::entry::child;
use rs_tree::{Layout, Node, Summary, content};
use rs_tree_edit::read_part;

/// A page that has one part left below it, and that part.
#[derive(Clone, Copy)]
pub struct Lonely {
    pub number: PageNumber,
    pub only: PageNumber,
}

/// Two neighbours below an inner page: the place of the first of them, whether the lonely one is the first, that one and the one
/// part below it, and the other one and how many parts it has.
#[derive(Clone, Copy)]
pub struct Pair {
    pub at: usize,
    pub is_first: bool,
    pub lonely: PageNumber,
    pub only: PageNumber,
    pub other: PageNumber,
    pub size: usize,
}

/// Puts in order what is below an inner page, whose bytes are told, where of one part below it one part alone is left.
pub fn mend<P: Pages, S: Summary>(
    pages: &mut P,
    layout: Layout,
    inner: InnerPage,
    page: &Page,
    index: usize,
    lonely: Lonely,
) -> Result<Removed, Refusal>
    requires begun { (P.store pages.old).is_begun ≡ true }
    requires summary { layout.summary ≡ S.WIDTH }
    requires node { IsNode page.now.bytes inner.number layout (Node.Inner inner.count) }
    requires inside { index < inner.count }
    ensures keeps { P.keeps pages.old pages.new }
    ensures works { WorksOn P.Pages (NoneLonely (form_in S.Summary layout)
        (P.store pages.old).map inner.number page.now.bytes index lonely.number lonely.only) result pages.old pages.new }
    ensures room { result ≢ Err Refusal.FileFull }
    ensures mends { Makes P.Pages (λ old new. Mends (form_in S.Summary layout) old new inner.number page.now.bytes index
        lonely.number lonely.only) result pages.old pages.new }
{
    let beside = neighbour(index, inner.count);
    let entry = record_at(content(page), layout.entry_width(), beside.near);
    let other = child(entry, layout);
    let mut near = Page::new();
    let node = read_part(pages, other, layout, &mut near)?;
    match node {
        Node::Leaf(_) => Err(Refusal::DamagedFile),
        Node::Inner(size) => {
            let pair = Pair {
                at: beside.at,
                is_first: beside.is_first,
                lonely: lonely.number,
                only: lonely.only,
                other,
                size,
            };
            even::<P, S>(pages, layout, inner, page, pair, &near)
        }
    }
}

/// The two pages become one, or have two parts at least each.
fn even<P: Pages, S: Summary>(
    pages: &mut P,
    layout: Layout,
    inner: InnerPage,
    page: &Page,
    pair: Pair,
    near: &Page,
) -> Result<Removed, Refusal>
    requires begun { (P.store pages.old).is_begun ≡ true }
    requires summary { layout.summary ≡ S.WIDTH }
    requires fit { inner.count * entry_bytes layout ≤ PAGE_ROOM }
    requires inside { pair.at + 2 ≤ inner.count }
    requires near_fit { pair.size * entry_bytes layout ≤ PAGE_ROOM }
    requires two { 2 ≤ pair.size }
    ensures keeps { P.keeps pages.old pages.new }
    ensures works { WorksOn P.Pages (NonePairs (form_in S.Summary layout)
        (P.store pages.old).map inner.number page.now.bytes inner.count pair.at pair.is_first pair.lonely pair.only
        pair.other near.now.bytes pair.size) result pages.old pages.new }
    ensures room { result ≢ Err Refusal.FileFull }
    ensures pairs { Makes P.Pages (λ old new. Pairs (form_in S.Summary layout) old new inner.number page.now.bytes
        inner.count pair.at pair.is_first pair.lonely pair.only pair.other near.now.bytes pair.size) result pages.old
        pages.new }
{
    if pair.size == 2 {
        join::<P, S>(pages, layout, inner, page, pair, near)
    } else {
        share::<P, S>(pages, layout, inner, page, pair, near)
    }
}

/// The neighbour, which has two parts, takes the only part in, and the page goes.
fn join<P: Pages, S: Summary>(
    pages: &mut P,
    layout: Layout,
    inner: InnerPage,
    page: &Page,
    pair: Pair,
    near: &Page,
) -> Result<Removed, Refusal>
    requires begun { (P.store pages.old).is_begun ≡ true }
    requires summary { layout.summary ≡ S.WIDTH }
    requires fit { inner.count * entry_bytes layout ≤ PAGE_ROOM }
    requires inside { pair.at + 2 ≤ inner.count }
    ensures keeps { P.keeps pages.old pages.new }
    ensures works { WorksOn P.Pages (NonePairs (form_in S.Summary layout)
        (P.store pages.old).map inner.number page.now.bytes inner.count pair.at pair.is_first pair.lonely pair.only
        pair.other near.now.bytes 2) result pages.old pages.new }
    ensures room { result ≢ Err Refusal.FileFull }
    ensures pairs { Makes P.Pages (λ old new. Pairs (form_in S.Summary layout) old new inner.number page.now.bytes
        inner.count pair.at pair.is_first pair.lonely pair.only pair.other near.now.bytes 2) result pages.old pages.new }
{
    // For the proof: three entries fit a page.
    let _fits = layout.entry_width();
    let (at, lonely, only, other) = (pair.at, pair.lonely, pair.only, pair.other);
    let taker = InnerPage {
        number: other,
        count: 2,
    };
    let place = end(pair.is_first, 2);
    let none = Stretch {
        at: place,
        removed: 0,
    };
    let _kept = renew_entry::<P, S>(pages, layout, taker, near, none, only)?;
    pages.release(lonely)?;
    let two = Stretch { at, removed: 2 };
    renew_entry::<P, S>(pages, layout, inner, page, two, other)
}

/// The neighbour, which has more than two parts, gives the one that is next away.
fn share<P: Pages, S: Summary>(
    pages: &mut P,
    layout: Layout,
    inner: InnerPage,
    page: &Page,
    pair: Pair,
    near: &Page,
) -> Result<Removed, Refusal>
    requires begun { (P.store pages.old).is_begun ≡ true }
    requires summary { layout.summary ≡ S.WIDTH }
    requires fit { inner.count * entry_bytes layout ≤ PAGE_ROOM }
    requires inside { pair.at + 2 ≤ inner.count }
    requires near_fit { pair.size * entry_bytes layout ≤ PAGE_ROOM }
    requires more { 2 < pair.size }
    ensures keeps { P.keeps pages.old pages.new }
    ensures works { WorksOn P.Pages (NonePairs (form_in S.Summary layout)
        (P.store pages.old).map inner.number page.now.bytes inner.count pair.at pair.is_first pair.lonely pair.only
        pair.other near.now.bytes pair.size) result pages.old pages.new }
    ensures room { result ≢ Err Refusal.FileFull }
    ensures pairs { Makes P.Pages (λ old new. Pairs (form_in S.Summary layout) old new inner.number page.now.bytes
        inner.count pair.at pair.is_first pair.lonely pair.only pair.other near.now.bytes pair.size) result pages.old
        pages.new }
{
    let (at, is_first, size) = (pair.at, pair.is_first, pair.size);
    let (lonely, only, other) = (pair.lonely, pair.only, pair.other);
    let place = end(is_first, size - 1);
    let given = child(
        record_at(content(near), layout.entry_width(), place),
        layout,
    );
    let mut held = Page::new();
    let _node = read_part(pages, lonely, layout, &mut held)?;
    let taker = InnerPage {
        number: lonely,
        count: 2,
    };
    let parts = ordered(is_first, only, given);
    renew_two::<P, S>(pages, layout, taker, &held, 0, parts)?;
    let giver = InnerPage {
        number: other,
        count: size,
    };
    let _kept = drop_entry::<P, S>(pages, layout, giver, near, place)?;
    let both = ordered(is_first, lonely, other);
    renew_two::<P, S>(pages, layout, inner, page, at, both)?;
    Ok(Removed::Kept)
}

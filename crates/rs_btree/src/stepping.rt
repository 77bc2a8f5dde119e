//! What one page of a tree tells of cells: whether they are there, or which page leads to them.

ghost use Rattle.std.specs.Prelude.{◌≡◌, ◌<◌, ◌≤◌, ◌*◌, ◌+◌, Some, Contains, IfOk, IfErr, IfNone, IfSome, IsOkUnless, IsTrue, OnErr, length, slice_get};
ghost use Rattle.std.specs.Int.{w64, to_be_bytes};
ghost use Rattle.rs_page.specs.declared.header.TheConstants.{PAGE_ROOM};
ghost use Rattle.rs_pages.specs.Calls.{OnlyReads, Reads};
ghost use Rattle.rs_pages.specs.PageMap.{PageMap};
ghost use Rattle.rs_records.specs.Listed.{listed};
ghost use Rattle.rs_records.specs.Order.{Ascends, is_below};
ghost use Rattle.rs_records.specs.Records.{keys, records};
ghost use Rattle.rs_tree.specs.Forms.{form_in};
ghost use Rattle.rs_tree.specs.Layouts.{entry_bytes};
ghost use Rattle.rs_tree.specs.Node.{IsNode};
ghost use Rattle.rs_tree.specs.declared.node.Node.{Node};

use rs_page::{Page, PageNumber};
use rs_pages::Pages;
use rs_records::{Cells, is_below, place, record_at};
use rs_refusal::Refusal;
use rs_tree::entry::child;
use rs_tree::{Layout, Node, Summary, content, read_node};

/// Where the search for cells stands after a page.
#[derive(Clone, Copy)]
pub enum Step {
    /// It ends: this is the place of the first cell that isn't there, or else the one after the last.
    End(usize),
    /// It goes on from the page with this number, since below no other the cells before this place can be.
    Below(PageNumber, usize),
}

ghost use Rattle.rs_btree.specs.Looking.{AreRising, EndsWithin, IsFirst, Leads, LeadsFrom, LiesBetween, OfEach, RefusesStep};

/// Where the search for the cells from `from` on and before `to` stands after the page with this number. It is refused with 91,
/// and with 94 where that is no page of a tree.
pub fn look<P: Pages, S: Summary>(
    pages: &mut P,
    layout: Layout,
    number: PageNumber,
    cells: &Cells,
    from: usize,
    to: usize,
) -> Result<Step, Refusal>
    requires some { from < to }
    requires inside { to ≤ length (listed cells.now) }
    requires rising { AreRising (listed cells.now) from to }
    ensures rests { OnlyReads P.Pages result pages.old pages.new }
    ensures within { IfOk result (EndsWithin from to) }
    ensures leads { Reads P.Pages (λ map. Leads (form_in S.Summary layout) map number (listed cells.now) from to) result pages.old }
    ensures refused { IfErr result (RefusesStep (P.is_tied pages.old) (P.store pages.old).map number layout) }
{
    match pages.page(number) {
        Ok(page) => look_in::<S>(page, layout, number, cells, from, to),
        Err(refusal) => Err(refusal),
    }
}

/// The same of this page. It is refused with 94 where it is no page of a tree.
fn look_in<S: Summary>(
    page: &Page,
    layout: Layout,
    number: PageNumber,
    cells: &Cells,
    from: usize,
    to: usize,
) -> Result<Step, Refusal>
    requires some { from < to }
    requires inside { to ≤ length (listed cells.now) }
    requires rising { AreRising (listed cells.now) from to }
    ensures within { IfOk result (EndsWithin from to) }
    ensures leads { (map : PageMap) → map.page number ≡ Some page.now.bytes
        → IfOk result (Leads (form_in S.Summary layout) map number (listed cells.now) from to) }
    ensures none { OnErr result ((node : Node) → IsNode page.now.bytes number layout node → ⊥) }
    ensures refused { IsOkUnless result Refusal.DamagedFile }
{
    match read_node(page, number, layout) {
        Some(Node::Leaf(count)) => {
            let place = missing_in_leaf(content(page), layout.width, count, cells, from, to);
            Ok(Step::End(place))
        }
        Some(Node::Inner(count)) => Ok(step_below::<S>(page, layout, count, cells, from, to)),
        None => Err(Refusal::DamagedFile),
    }
}

/// The place of the first of the cells that is none of a leaf's; `to` where each is one.
fn missing_in_leaf(
    bytes: &[u8],
    width: usize,
    count: usize,
    cells: &Cells,
    from: usize,
    to: usize,
) -> usize
    requires fit { count * width ≤ length bytes.now }
    requires inside { to ≤ length (listed cells.now) }
    requires some { from < to }
    ensures within { (from ≤ result) × (result ≤ to) }
    ensures first { Ascends (records count width bytes.now) → IsFirst (records count width bytes.now) (listed cells.now) from to result }
{
    let mut near = 0;
    for place in from..to {
        match place_in_leaf(bytes, width, count, near, cells.get(place)) {
            Some(at) => near = at + 1,
            None => return place,
        }
    }
    to
}

/// Where the cell is among a leaf's: at the place that is told as likely, or at another.
fn place_in_leaf(
    bytes: &[u8],
    width: usize,
    count: usize,
    likely: usize,
    cell: &[u8],
) -> Option<usize>
    requires fit { count * width ≤ length bytes.now }
    ensures within { IfSome result (λ at. at < count) }
    ensures there { Ascends (records count width bytes.now) → IfSome result (λ _. Contains (records count width bytes.now) cell.now) }
    ensures none { Ascends (records count width bytes.now) → IfNone result (Contains (records count width bytes.now) cell.now → ⊥) }
{
    if is_at(bytes, width, count, likely, cell) {
        return Some(likely);
    }
    let at = place(bytes, width, count, 0, cell);
    if at == count {
        return None;
    }
    if is_below(cell, record_at(bytes, width, at)) {
        return None;
    }
    Some(at)
}

/// Whether the cell is the record with this index.
fn is_at(bytes: &[u8], width: usize, count: usize, index: usize, cell: &[u8]) -> bool
    requires fit { count * width ≤ length bytes.now }
    ensures { IsTrue result → (index < count) × (slice_get (records count width bytes.now) index ≡ Some cell.now) }
{
    index < count && are_same(record_at(bytes, width, index), cell)
}

/// Whether two records are the same, eight bytes at a time.
fn are_same(one: &[u8], other: &[u8]) -> bool
    ensures { IsTrue result → one.now ≡ other.now }
{
    let mut left = one;
    let mut right = other;
    while let (Some((first, more)), Some((second, others))) = (
        left.split_first_chunk::<8>(),
        right.split_first_chunk::<8>(),
    ) {
        if number_in(first) != number_in(second) {
            return false;
        }
        left = more;
        right = others;
    }
    are_same_bytes(left, right)
}

/// The same, byte by byte.
fn are_same_bytes(one: &[u8], other: &[u8]) -> bool
    ensures { IsTrue result → one.now ≡ other.now }
{
    let mut left = one;
    let mut right = other;
    while let (Some((first, more)), Some((second, others))) = (
        left.split_first(),
        right.split_first(),
    ) {
        if *first != *second {
            return false;
        }
        left = more;
        right = others;
    }
    left.is_empty() && right.is_empty()
}

/// The number that eight bytes are, the highest first.
fn number_in(bytes: &[u8; 8]) -> u64
    ensures { to_be_bytes w64 result ≡ bytes.now }
{
    u64::from_be_bytes(*bytes)
}

/// Where the search stands after an inner page: below the last entry whose least cell the first of the cells is not below, for
/// that and those after it that are below the next entry's; where there is no such entry, the first cell isn't there.
fn step_below<S: Summary>(
    page: &Page,
    layout: Layout,
    count: usize,
    cells: &Cells,
    from: usize,
    to: usize,
) -> Step
    requires fit { count * entry_bytes layout ≤ PAGE_ROOM }
    requires some { from < to }
    requires inside { to ≤ length (listed cells.now) }
    requires rising { AreRising (listed cells.now) from to }
    ensures within { EndsWithin from to result }
    ensures leads { LeadsFrom (form_in S.Summary layout) page.now.bytes count (listed cells.now) from result }
{
    let bytes = content(page);
    let width = layout.entry_width();
    let least = layout.least_from();
    let at = place_after(bytes, width, count, least, cells.get(from));
    if at == 0 {
        return Step::End(from);
    }
    let below = child(record_at(bytes, width, at - 1), layout);
    if at == count {
        return Step::Below(below, to);
    }
    let next = &record_at(bytes, width, at)[least..];
    Step::Below(below, run_end(cells, from, to, next))
}

/// The end of those of the cells after place `from` and before `to` that are below the key.
fn run_end(cells: &Cells, from: usize, to: usize, key: &[u8]) -> usize
    requires some { from < to }
    requires inside { to ≤ length (listed cells.now) }
    requires rising { AreRising (listed cells.now) from to }
    ensures within { (from < result) × (result ≤ to) }
    ensures below { OfEach (λ cell. IsTrue (is_below cell key.now)) (listed cells.now) (from + 1) result }
{
    let mut low = from + 1;
    let mut high = to;
    while low < high {
        let middle = low + (high - low) / 2;
        if is_below(cells.get(middle), key) {
            low = middle + 1;
        } else {
            high = middle;
        }
    }
    low
}

/// Where a key belongs behind the records by what each has from byte `from` on: the key is not below what is before, and below
/// what is there.
fn place_after(bytes: &[u8], width: usize, count: usize, from: usize, key: &[u8]) -> usize
    requires fit { count * width ≤ length bytes.now }
    requires inside { from ≤ width }
    ensures within { result ≤ count }
    ensures between { LiesBetween (keys from (records count width bytes.now)) key.now result }
{
    let mut low = 0;
    let mut high = count;
    while low < high {
        let middle = low + (high - low) / 2;
        let found = record_at(bytes, width, middle);
        if is_below(key, &found[from..]) {
            high = middle;
        } else {
            low = middle + 1;
        }
    }
    low
}

//! The order of the cells of a leaf, and their bounds.

ghost use Rattle.std.specs.Prelude.{◌≡◌, ◌≤◌, ◌<◌, ◌*◌, ◌↔◌, IsTrue, length};
ghost use Rattle.std.specs.Option.{option_copied};
ghost use Rattle.rs_page.specs.declared.header.TheConstants.{PAGE_ROOM};
ghost use Rattle.rs_records.specs.Order.{Ascends};
ghost use Rattle.rs_records.specs.Records.{records, keys};
ghost use Rattle.rs_tree.specs.Content.{content};
ghost use Rattle.rs_tree.specs.Form.{least_from};
ghost use Rattle.rs_tree.specs.Layouts.{entry_bytes};
ghost use Rattle.rs_tree_whole.specs.Bounds.{IsLeast, BeginsWith, IsUnder, IsInOrder};

use crate::keys::least;
use rs_page::Page;
use rs_records::{is_below, record_at};
use rs_tree::{Layout, content};

/// Whether the cell is the least one that is asked for; any is where none is.
pub fn is_least(cell: &[u8], least: Option<&[u8]>) -> bool
    ensures { IsTrue result ↔ IsLeast (option_copied least.entry) cell.now }
{
    match least {
        Some(least) => cell == least,
        None => true,
    }
}

/// Whether the cell is below the bound; any is where there is none.
pub fn is_under(cell: &[u8], bound: Option<&[u8]>) -> bool
    ensures { IsTrue result ↔ IsUnder (option_copied bound.entry) cell.now }
{
    match bound {
        Some(bound) => is_below(cell, bound),
        None => true,
    }
}

/// Whether each record is below the next.
pub fn ascends(bytes: &[u8], width: usize, count: usize) -> bool
    requires { count * width ≤ length bytes.now }
    ensures { IsTrue result ↔ Ascends (records count width bytes.now) }
{
    for index in 1..count {
        let before = record_at(bytes, width, index - 1);
        if !is_below(before, record_at(bytes, width, index)) {
            return false;
        }
    }
    true
}

/// Whether the cells of a leaf ascend from the least one up to the bound.
pub fn is_in_order(
    page: &Page,
    count: usize,
    layout: Layout,
    least: Option<&[u8]>,
    bound: Option<&[u8]>,
) -> bool
    requires fit { count * layout.width ≤ PAGE_ROOM }
    requires some { 0 < count }
    ensures { IsTrue result ↔ IsInOrder (option_copied least.entry) (option_copied bound.entry)
        (records count layout.width (content page.now.bytes)) }
{
    let bytes = content(page);
    let first = record_at(bytes, layout.width, 0);
    let last = record_at(bytes, layout.width, count - 1);
    ascends(bytes, layout.width, count) && is_least(first, least) && is_under(last, bound)
}

/// Whether the first entry of an inner page begins with the least cell that is asked for.
pub fn begins_with(page: &Page, count: usize, layout: Layout, first: Option<&[u8]>) -> bool
    requires fit { count * entry_bytes layout ≤ PAGE_ROOM }
    requires some { 0 < count }
    ensures { IsTrue result ↔ BeginsWith (option_copied first.entry) (keys (least_from layout.summary)
        (records count (entry_bytes layout) (content page.now.bytes))) }
{
    let entry = record_at(content(page), layout.entry_width(), 0);
    is_least(least(entry, layout), first)
}

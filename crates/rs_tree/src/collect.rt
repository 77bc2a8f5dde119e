//! The cells of a leaf that are wanted.
//!
//! Those within the bounds lie side by side, and are found by binary search; each is asked for alone.

ghost use Rattle.std.specs.Prelude.{◌≡◌, ◌≤◌, ◌*◌, ◌++◌, [], ◌∷◌, Bool, OnOk, IsOkUnless, filter, length};
ghost use Rattle.std.specs.Fn.{FnReturnsAt};
ghost use Rattle.rs_page.specs.declared.header.TheConstants.{PAGE_ROOM};
ghost use Rattle.rs_records.specs.Order.{Ascends};
ghost use Rattle.rs_records.specs.Records.{records};
ghost use Rattle.rs_records.specs.Listed.{listed, record_width};
ghost use Rattle.rs_tree.specs.Content.{content};
ghost use Rattle.rs_tree.specs.Searches.{wanted};
ghost use Rattle.rs_tree.specs.Asking.{Computes};

use crate::asking::accepts;
use crate::{Layout, Summary, content};
use rs_page::Page;
use rs_records::{Cells, place, record_at};
use rs_refusal::Refusal;

/// Puts the cells of a leaf that are within the bounds, and whose summary is accepted, after those that were found. It is
/// refused for want of memory alone.
pub fn collect<S: Summary, F: Fn(&S) -> bool>(
    page: &Page,
    count: usize,
    layout: Layout,
    low: &[u8],
    high: &[u8],
    keep: &F,
    cells: &mut Cells,
) -> Result<(), Refusal>
    requires callable { F.IsAlwaysCallable keep.now }
    requires fit { count * layout.width ≤ PAGE_ROOM }
    requires width { record_width cells.old ≡ layout.width }
    ensures width { record_width cells.new ≡ layout.width }
    ensures refused { IsOkUnless result Refusal.OutOfMemory }
    ensures found { OnOk result ((test : S → Bool) → Computes (FnReturnsAt F.Fn keep.now) test
        → Ascends (records count layout.width (content page.now.bytes))
        → listed cells.new ≡ listed cells.old
        ++ wanted low.now high.now (λ cell. test (S.of cell)) (records count layout.width (content page.now.bytes))) }
{
    let bytes = content(page);
    let from = place(bytes, layout.width, count, 0, low);
    let to = place(bytes, layout.width, count, 0, high);
    for index in from..to {
        let cell = record_at(bytes, layout.width, index);
        push_if(cell, keep, cells)?;
    }
    Ok(())
}

/// Puts a cell after those that were found, where its summary is accepted.
fn push_if<S: Summary, F: Fn(&S) -> bool>(
    cell: &[u8],
    keep: &F,
    cells: &mut Cells,
) -> Result<(), Refusal>
    requires callable { F.IsAlwaysCallable keep.now }
    requires width { length cell.now ≡ record_width cells.old }
    ensures width { record_width cells.new ≡ record_width cells.old }
    ensures refused { IsOkUnless result Refusal.OutOfMemory }
    ensures pushed { OnOk result ((test : S → Bool) → Computes (FnReturnsAt F.Fn keep.now) test
        → listed cells.new ≡ listed cells.old ++ filter (λ other. test (S.of other)) (cell.now ∷ [])) }
{
    if accepts(keep, &S::of(cell)) {
        cells.push(cell).map_err(|_| Refusal::OutOfMemory)?;
    }
    Ok(())
}

//! A look at a page on the walk through a tree.
//!
//! The wanted cells of a leaf and the entries of an inner page that may say one are copied from the page that is lent.

ghost use Rattle.std.specs.Prelude.{◌≡◌, ◌⊎◌, ◌<◌, ◌≤◌, ◌+◌, ◌*◌, Bool, IfErr, IfNone, IfOk, IfSome, OnOk, IsOkUnless, Err, length};
ghost use Rattle.std.specs.Fn.{FnReturnsAt};
ghost use Rattle.rs_page.specs.declared.header.TheConstants.{PAGE_ROOM};
ghost use Rattle.rs_pages.specs.Calls.{DamagedOnlyIf, OnlyReads};
ghost use Rattle.rs_records.specs.Listed.{listed, record_width};
ghost use Rattle.rs_records.specs.Records.{records, keys};
ghost use Rattle.rs_tree.specs.Asking.{Computes};
ghost use Rattle.rs_tree.specs.Form.{least_from};
ghost use Rattle.rs_tree.specs.Layouts.{entry_bytes};
ghost use Rattle.rs_tree.specs.Looking.{FindsInner, FindsLeaf, HasInner, HasLeaf, HoldsEntries};
ghost use Rattle.rs_tree.specs.Node.{IsNode};
ghost use Rattle.rs_tree.specs.Reading.{HasNoNode};
ghost use Rattle.rs_tree.specs.Walking.{IsRange, IsWalkRefusal};
ghost use Rattle.rs_tree.specs.declared.node.Node.{Node};

use crate::collect::collect;
use crate::wanted::Wanted;
use crate::{Layout, Node, Summary, content, read_node};
use rs_page::{Page, PageNumber};
use rs_pages::Pages;
use rs_records::{Cells, place};
use rs_refusal::Refusal;
use std::alloc::Global;

/// Reads the page with this number, which is one of a tree's, and counts it: there is one read less left. The wanted cells of a
/// leaf are put after those that were found; of an inner page the entries are answered that may say one. It is refused with 90,
/// with 91, and with 94 where it is no page of a tree, or no read is left.
pub fn look<P: Pages, S: Summary, F: Fn(&S) -> bool>(
    alloc: Global,
    pages: &mut P,
    number: PageNumber,
    wanted: &Wanted<'_, F>,
    left: &mut u32,
    cells: &mut Cells,
) -> Result<Option<Cells>, Refusal>
    requires callable { F.IsAlwaysCallable wanted.now.keep.now }
    requires width { record_width cells.old ≡ wanted.now.layout.width }
    ensures rests { OnlyReads P.Pages result pages.old pages.new }
    ensures width { record_width cells.new ≡ wanted.now.layout.width }
    ensures leaf { IfOk result (λ looked. IfNone looked ((test : S → Bool) → Computes (FnReturnsAt F.Fn wanted.now.keep.now) test
        → FindsLeaf (P.is_tied pages.old) (P.store pages.old).map number wanted.now.layout
        wanted.now.low.now wanted.now.high.now (λ cell. test (S.of cell)) (listed cells.old) (listed cells.new))) }
    ensures inner { IfOk result (λ looked. IfSome looked (λ entries.
        FindsInner (P.is_tied pages.old) (P.store pages.old).map number wanted.now.layout
        wanted.now.low.now wanted.now.high.now (listed entries))) }
    ensures entries { IfOk result (λ looked. IfSome looked (λ entries. record_width entries ≡ entry_bytes wanted.now.layout)) }
    ensures none { IfOk result (λ looked. IfSome looked (λ _. listed cells.new ≡ listed cells.old)) }
    ensures counted { OnOk result (left.old ≡ left.new + 1) }
    ensures fewer { left.new ≤ left.old }
    ensures refused { IfErr result IsWalkRefusal }
    ensures damaged { DamagedOnlyIf P.Pages (λ map. 0 < left.old → HasNoNode map number wanted.now.layout) result pages.old }
{
    if *left == 0 {
        return Err(Refusal::DamagedFile);
    }
    *left -= 1;
    match pages.page(number) {
        Ok(page) => look_at(alloc, page, number, wanted, cells),
        Err(refusal) => Err(refusal),
    }
}

/// The same of this page.
fn look_at<S: Summary, F: Fn(&S) -> bool>(
    alloc: Global,
    page: &Page,
    number: PageNumber,
    wanted: &Wanted<'_, F>,
    cells: &mut Cells,
) -> Result<Option<Cells>, Refusal>
    requires callable { F.IsAlwaysCallable wanted.now.keep.now }
    requires width { record_width cells.old ≡ wanted.now.layout.width }
    ensures width { record_width cells.new ≡ wanted.now.layout.width }
    ensures leaf { IfOk result (λ looked. IfNone looked ((test : S → Bool) → Computes (FnReturnsAt F.Fn wanted.now.keep.now) test
        → HasLeaf page.now.bytes number wanted.now.layout wanted.now.low.now wanted.now.high.now (λ cell. test (S.of cell)) (listed cells.old) (listed cells.new))) }
    ensures inner { IfOk result (λ looked. IfSome looked (λ entries.
        HasInner page.now.bytes number wanted.now.layout wanted.now.low.now wanted.now.high.now (listed entries))) }
    ensures entries { IfOk result (λ looked. IfSome looked (λ entries. record_width entries ≡ entry_bytes wanted.now.layout)) }
    ensures none { IfOk result (λ looked. IfSome looked (λ _. listed cells.new ≡ listed cells.old)) }
    ensures refused { IfErr result (λ why. (why ≡ Refusal.OutOfMemory) ⊎ (why ≡ Refusal.DamagedFile)) }
    ensures damaged { result ≡ Err Refusal.DamagedFile → (node : Node) → IsNode page.now.bytes number wanted.now.layout node → ⊥ }
{
    match read_node(page, number, wanted.layout) {
        Some(Node::Leaf(count)) => {
            collect(
                page,
                count,
                wanted.layout,
                wanted.low,
                wanted.high,
                wanted.keep,
                cells,
            )?;
            Ok(None)
        }
        Some(Node::Inner(count)) => {
            let entries = take_entries(alloc, page, count, wanted.layout, wanted.low, wanted.high)?;
            Ok(Some(entries))
        }
        None => Err(Refusal::DamagedFile),
    }
}

/// The entries of an inner page that may say a cell within the bounds. It is refused for want of memory alone.
fn take_entries(
    alloc: Global,
    page: &Page,
    count: usize,
    layout: Layout,
    low: &[u8],
    high: &[u8],
) -> Result<Cells, Refusal>
    requires fit { count * entry_bytes layout ≤ PAGE_ROOM }
    ensures width { IfOk result (λ entries. record_width entries ≡ entry_bytes layout) }
    ensures refused { IsOkUnless result Refusal.OutOfMemory }
    ensures held { IfOk result (λ entries. HoldsEntries page.now.bytes count layout low.now high.now (listed entries)) }
{
    let bytes = content(page);
    let width = layout.entry_width();
    let (from, to) = entries_within(bytes, layout, count, low, high);
    let entries = Cells::copied(
        alloc,
        &bytes[from * width..],
        width,
        to.saturating_sub(from),
    )?;
    Ok(entries)
}

/// The first entry that may say a cell within the bounds, and the one after the last.
fn entries_within(
    bytes: &[u8],
    layout: Layout,
    count: usize,
    low: &[u8],
    high: &[u8],
) -> (usize, usize)
    requires { count * entry_bytes layout ≤ length bytes.now }
    ensures { IsRange (keys (least_from layout.summary) (records count (entry_bytes layout) bytes.now)) low.now high.now
        result.0 result.1 }
{
    let width = layout.entry_width();
    let least = layout.least_from();
    let from = place(bytes, width, count, least, low).saturating_sub(1);
    let to = place(bytes, width, count, least, high);
    (from, to)
}

//! Which entry of an inner page a cell belongs under.

ghost use Rattle.std.specs.Prelude.{◌≡◌, ◌≤◌, ◌<◌, ◌*◌, ◌↔◌, IsTrue, Some, length, slice_get};
ghost use Rattle.rs_records.specs.Order.{Ascends};
ghost use Rattle.rs_records.specs.Records.{records, keys};
ghost use Rattle.rs_tree.specs.Form.{least_from};
ghost use Rattle.rs_tree.specs.Layouts.{entry_bytes};
ghost use Rattle.rs_tree_edit.specs.Choosing.{IsEntryFor};

use rs_records::{place, record_at};
use rs_tree::Layout;

/// Whether there is a record at this place that has this key from byte `from` on.
pub fn has_key(bytes: &[u8], width: usize, count: usize, from: usize, at: usize, key: &[u8]) -> bool
    requires fit { count * width ≤ length bytes.now }
    requires inside { from ≤ width }
    ensures { IsTrue result ↔ (slice_get (keys from (records count width bytes.now)) at ≡ Some key.now) }
{
    if at >= count {
        return false;
    }
    let record = record_at(bytes, width, at);
    &record[from..] == key
}

/// The last entry whose least cell is not above the cell, else the first.
pub fn entry_for(bytes: &[u8], layout: Layout, count: usize, cell: &[u8]) -> usize
    requires fit { count * entry_bytes layout ≤ length bytes.now }
    requires some { 0 < count }
    ensures within { result < count }
    ensures chosen { Ascends (keys (least_from layout.summary) (records count (entry_bytes layout) bytes.now))
        → IsEntryFor (keys (least_from layout.summary) (records count (entry_bytes layout) bytes.now)) cell.now result }
{
    let width = layout.entry_width();
    let least = layout.least_from();
    let found = place(bytes, width, count, least, cell);
    if has_key(bytes, width, count, least, found, cell) {
        found
    } else {
        found.saturating_sub(1)
    }
}

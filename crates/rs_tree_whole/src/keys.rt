//! The least cells that entries of an inner page say.

ghost use Rattle.std.specs.Prelude.{◌≡◌, ◌≤◌, ◌<◌, ◌+◌, ◌*◌, ℕ, Some, length, drop, slice_get};
ghost use Rattle.std.specs.Option.{option_copied, option_or};
ghost use Rattle.rs_records.specs.Records.{records, keys};
ghost use Rattle.rs_tree.specs.Form.{least_from};
ghost use Rattle.rs_tree.specs.Layouts.{entry_bytes};

use rs_records::record_at;
use rs_tree::Layout;

/// The least cell that an entry says.
pub fn least(entry: &[u8], layout: Layout) -> &[u8]
    requires { length entry.now ≡ entry_bytes layout }
    ensures { result.now ≡ drop (least_from layout.summary) entry.now }
{
    &entry[layout.least_from()..]
}

/// The least cell of the entry with this index; past the last what is given.
pub fn bound_at<'a>(
    bytes: &'a [u8],
    layout: Layout,
    count: usize,
    index: usize,
    bound: Option<&'a [u8]>,
) -> Option<&'a [u8]>
    requires { count * entry_bytes layout ≤ length bytes.now }
    ensures { option_copied result ≡ option_or (slice_get (keys (least_from layout.summary)
        (records count (entry_bytes layout) bytes.now)) index) (option_copied bound.entry) }
{
    if index >= count {
        return bound;
    }
    Some(least(record_at(bytes, layout.entry_width(), index), layout))
}

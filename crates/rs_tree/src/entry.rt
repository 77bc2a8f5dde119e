//! The parts of an entry of an inner page: the number of a child, its summary, its least cell.

ghost use Rattle.std.specs.Prelude.{◌≡◌, ◌≤◌, length, take, drop};
ghost use Rattle.rs_page.specs.Number.{number_at};
ghost use Rattle.rs_tree.specs.Form.{child_bytes, least_from};
ghost use Rattle.rs_tree.specs.Layouts.{entry_bytes};

use crate::Summary;
use crate::layout::Layout;
use rs_page::PageNumber;
use rs_page::bytes::{number_of_four, put_four};

/// The number of the child.
pub fn child(entry: &[u8], layout: Layout) -> PageNumber
    requires { length entry.now ≡ entry_bytes layout }
    ensures { result ≡ number_at 0 4 entry.now }
{
    // For the proof: the bytes of the number are within the entry.
    let _fits = layout.least_from();
    PageNumber::new(number_of_four(entry, 0))
}

/// The bytes of the summary.
pub fn summary(entry: &[u8], layout: Layout) -> &[u8]
    requires { length entry.now ≡ entry_bytes layout }
    ensures bytes { result.now ≡ take layout.summary (drop child_bytes entry.now) }
    ensures width { length result.now ≡ layout.summary }
{
    let end = layout.least_from();
    &entry[4..end]
}

/// Writes an entry: the number of a child, the summary of its cells and the least of them.
pub fn write_entry<S: Summary>(
    entry: &mut [u8],
    layout: Layout,
    number: PageNumber,
    whole: S,
    least: &[u8],
)
    requires entry { length entry.old ≡ entry_bytes layout }
    requires summary { layout.summary ≡ S.WIDTH }
    requires least { length least.now ≡ layout.width }
    ensures child { number_at 0 4 entry.new ≡ number }
    ensures summary { S.says (take layout.summary (drop child_bytes entry.new)) whole }
    ensures least { drop (least_from layout.summary) entry.new ≡ least.now }
{
    let end = layout.least_from();
    put_four(entry, 0, number.number());
    whole.write(&mut entry[4..end]);
    entry[end..].copy_from_slice(least);
}

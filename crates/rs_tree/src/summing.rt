//! Summaries of what pages of trees hold, and entries that say them.

ghost use Rattle.std.specs.Prelude.{◌≡◌, ◌≤◌, ◌*◌, List, length, take, drop};
ghost use Rattle.std.specs.List.{AllZip, flat_map};
ghost use Rattle.rs_page.specs.Number.{number_at};
ghost use Rattle.rs_page.specs.declared.header.TheConstants.{PAGE_ROOM};
ghost use Rattle.rs_records.specs.Records.{records};
ghost use Rattle.rs_tree.specs.Content.{Child, SaysChild, content};
ghost use Rattle.rs_tree.specs.Form.{child_bytes, joined, least_from};
ghost use Rattle.rs_tree.specs.Layouts.{entry_bytes};
ghost use Rattle.rs_tree.specs.Forms.{form_in};

use crate::Summary;
use crate::entry::summary;
use crate::layout::Layout;
use crate::node::content;
use rs_page::bytes::put_four;
use rs_page::{Page, PageNumber};
use rs_records::record_at;

/// The summary of the cells of a leaf.
pub fn leaf_summary<S: Summary>(page: &Page, count: usize, layout: Layout) -> S
    requires { count * layout.width ≤ PAGE_ROOM }
    ensures { result ≡ joined S.unit S.join S.of (records count layout.width (content page.now.bytes)) }
{
    let bytes = content(page);
    let mut whole = S::unit();
    for index in 0..count {
        whole = whole.join(S::of(record_at(bytes, layout.width, index)));
    }
    whole
}

/// The summary of all cells below an inner page, from its entries.
pub fn inner_summary<S: Summary>(page: &Page, count: usize, layout: Layout) -> S
    requires fit { count * entry_bytes layout ≤ PAGE_ROOM }
    requires summary { layout.summary ≡ S.WIDTH }
    ensures { (children : List Child)
        → AllZip (SaysChild (form_in S.Summary layout))
        (records count (entry_bytes layout) (content page.now.bytes)) children
        → result ≡ joined S.unit S.join S.of (flat_map (λ child. child.cells) children) }
{
    let bytes = content(page);
    let width = layout.entry_width();
    let mut whole = S::unit();
    for index in 0..count {
        whole = whole.join(S::read(summary(record_at(bytes, width, index), layout)));
    }
    whole
}

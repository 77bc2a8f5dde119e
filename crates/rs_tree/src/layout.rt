//! The widths in the pages of a tree.

ghost use Rattle.std.specs.Prelude.{◌≡◌, ◌<◌, ◌≤◌, ◌*◌, ◌+◌};
ghost use Rattle.rs_page.specs.declared.header.TheConstants.{PAGE_ROOM};
ghost use Rattle.rs_tree.specs.Form.{least_from};

/// The bytes of a cell and of a summary. Three entries fit an inner page at least.
#[derive(Clone, Copy)]
pub struct Layout {
    pub width: usize,
    pub summary: usize,
    ghost some: { 0 < width },
    ghost fits: { 3 * (4 + summary + width) ≤ PAGE_ROOM },
}

impl Layout {
    ghost use Rattle.rs_tree.specs.Layouts.{entry_bytes};

    /// Cells of this width, and summaries of that one.
    pub fn new(width: usize, summary: usize) -> Layout
        requires some { 0 < width }
        requires fits { 3 * (4 + summary + width) ≤ PAGE_ROOM }
        ensures width { result.width ≡ width }
        ensures summary { result.summary ≡ summary }
    {
        Layout { width, summary }
    }

    /// Where the least cell begins in an entry.
    #[tactic(auto, unfolding(crate::specs::Form::least_from))]
    pub fn least_from(self) -> usize
        ensures least { result ≡ least_from self.summary }
        ensures after { result ≡ 4 + self.summary }
    {
        4 + self.summary
    }

    /// The bytes of an entry.
    pub fn entry_width(self) -> usize
        ensures width { result ≡ entry_bytes self }
        ensures fits { 3 * result ≤ PAGE_ROOM }
    {
        self.least_from() + self.width
    }
}

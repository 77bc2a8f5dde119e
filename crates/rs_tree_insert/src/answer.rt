//! What became of a cell below a page.

use rs_page::PageNumber;

/// The cell was there; or it was put there; or it was, and the entry of the page above says so as it is; or it was, and this
/// page was split off.
#[derive(Clone, Copy)]
pub enum Put {
    Found,
    Placed,
    Kept,
    Split(PageNumber),
}

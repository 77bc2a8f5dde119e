//! The cursors that are open, and what is kept of some of them.

use crate::engine::ahead::LinesAhead;
use rs_cursor::Cursors;

/// The cursors of sessions, and what is kept of those that were fetched from last.
#[derive(Drop)]
pub struct OpenCursors {
    pub(crate) held: Cursors,
    pub(crate) ahead: LinesAhead,
}

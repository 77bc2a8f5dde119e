//! What a change does to the events of a route.

use rs_facts::Span;
use rs_records::Cells;

/// The cells of the events that end, and the spans that come.
#[derive(Drop)]
pub(crate) struct Edit {
    pub gone: Cells,
    pub come: Vec<Span>,
}

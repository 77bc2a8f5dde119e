//! A file says of each table of events what it has, and a table is opened only as it is told.

use rs_value::{Kind, Schema};
use rs_versioned::ToldRecords;

/// What a file says of a table of events.
#[derive(Drop)]
pub struct ToldTable {
    /// Whether its events are points or lines.
    pub kind: Kind,
    /// The types of its columns, in order.
    pub schema: Schema,
    /// Where its records are, how many there are, and the version that was accepted last.
    pub records: ToldRecords,
}

//! What follows of cells that say event records: a cell says one record, and a record has one cell.

ghost use Rattle.std.specs.Prelude.{◌≡◌, ℕ, List};
ghost use Rattle.rs_interval.specs.EventRecords.{EventRecord, SaysRecord};

/// A cell says one record at the most.
pub fn cell_says_one_record()
    ensures { (cell : List ℕ) (one other : EventRecord) → SaysRecord cell one → SaysRecord cell other → one ≡ other }
{}

/// A record has one cell at the most, so that records say which cells were found.
pub fn record_has_one_cell()
    ensures { (cell other : List ℕ) (event : EventRecord) → SaysRecord cell event → SaysRecord other event → cell ≡ other }
{}

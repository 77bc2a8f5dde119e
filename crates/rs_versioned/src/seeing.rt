//! This module picks those of the cells that were found that a version sees.

ghost use Rattle.std.specs.Prelude.{◌≡◌, ◌≤◌, IfOk, filter};
ghost use Rattle.rs_records.specs.Listed.{listed, record_width};
ghost use Rattle.rs_cell_versions.specs.Version.{sees};

use rs_cell_versions::sees;
use rs_records::Cells;
use std::alloc::{AllocError, Global};

/// Those of the cells that the version sees, in the same order.
pub(crate) fn seen_by(alloc: Global, version: u64, cells: &Cells) -> Result<Cells, AllocError>
    requires width { 20 ≤ record_width cells.now }
    ensures seen { IfOk result (λ seen. listed seen ≡ filter (sees version) (listed cells.now)) }
    ensures width { IfOk result (λ seen. record_width seen ≡ record_width cells.now) }
{
    let mut seen = Cells::new(alloc, cells.width());
    for index in 0..cells.len() {
        let cell = cells.get(index);
        if sees(version, cell) {
            seen.push(cell)?;
        }
    }
    Ok(seen)
}

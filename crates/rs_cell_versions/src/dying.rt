//! This module puts dead cells in the order in which they died.

ghost use Rattle.std.specs.Prelude.{◌≡◌, ◌≤◌, IfOk, IsPermutation};
ghost use Rattle.rs_records.specs.Listed.{listed, record_width};
ghost use Rattle.rs_cell_versions.specs.Dying.{AreDeaths};

use crate::cell::died_of;
use crate::dead::Dead;
use rs_records::Cells;
use std::alloc::{AllocError, Global};

/// The cells listed as dead ones, those that died first before the others, and kept.
pub(crate) fn by_death(alloc: Global, cells: &Cells) -> Result<Dead, AllocError>
    requires { 20 ≤ record_width cells.now }
    ensures width { IfOk result (λ dead. dead.width ≡ record_width cells.now) }
    ensures working { IfOk result (λ dead. IsPermutation (listed cells.now) dead.working) }
    ensures committed { IfOk result (λ dead. dead.committed ≡ dead.working) }
{
    let deaths = deaths_of(alloc, cells)?;
    let mut dead = Dead::new(alloc, cells.width());
    for death in &deaths {
        dead.push(cells.get(death.1))?;
    }
    dead.commit();
    Ok(dead)
}

/// When each of the cells died, and its place among them, those that died first before the others.
fn deaths_of(alloc: Global, cells: &Cells) -> Result<Vec<(u64, usize)>, AllocError>
    requires { 20 ≤ record_width cells.now }
    ensures { IfOk result (λ deaths. AreDeaths (listed cells.now) deaths.items) }
{
    let mut deaths = Vec::new(alloc);
    for place in 0..cells.len() {
        deaths.push((died_of(cells.get(place)), place))?;
    }
    deaths.sort_unstable();
    Ok(deaths)
}

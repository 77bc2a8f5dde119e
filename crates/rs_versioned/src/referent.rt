//! This module writes and reads the cell of a referent record.
//!
//! The cell is the route in four bytes, the name in 32 with zeros at its end, the version of its birth in eight, the measure in four,
//! and the version of its end in eight.

ghost use Rattle.std.specs.Prelude.{◌≡◌, ◌<◌, ◌==◌, ◌↔◌, IfOk, IsTrue, length, replicate};
ghost use Rattle.std.specs.Int.{w32, to_be_bytes};
ghost use Rattle.std.specs.List.{AllByRecursion, position_or_len};
ghost use Rattle.rs_versioned.specs.Referents.{ReferentRecord, SaysReferent, record_of, referent_width};

use rs_cell_versions::LIVING;
use rs_interval::number_of_four;
use rs_methods::Referent;
use std::alloc::{AllocError, Global};

/// The bytes of a referent's cell.
pub const REFERENT_BYTES: usize = 56;

/// The bytes before the name.
const ROUTE_BYTES: usize = 4;

/// The bytes of a name in a cell.
const NAME_PLACE: usize = 32;

/// Where the measure is.
const MEASURE_AT: usize = 44;

/// The cell of a living referent.
pub fn cell_of(alloc: Global, referent: &Referent, born: u64) -> Result<Vec<u8>, AllocError>
    requires name { AllByRecursion (λ byte. 0 < byte) referent.now.name.bytes }
    ensures says { IfOk result (λ cell. SaysReferent cell.items (record_of referent.now born)) }
{
    let mut cell = Vec::new(alloc);
    cell.extend_from_slice(&referent.route.to_be_bytes())?;
    cell.extend_from_slice(referent.name.as_bytes())?;
    cell.resize(ROUTE_BYTES + NAME_PLACE, 0)?;
    cell.extend_from_slice(&born.to_be_bytes())?;
    cell.extend_from_slice(&referent.measure.thousandths().to_be_bytes())?;
    cell.extend_from_slice(&LIVING.to_be_bytes())?;
    Ok(cell)
}

/// What the cells of a route's referents begin with.
pub(crate) fn beginning(route: u32) -> [u8; 4]
    ensures { result ≡ to_be_bytes w32 route }
{
    route.to_be_bytes()
}

/// The number of the route that a referent is on.
pub fn route_of(cell: &[u8]) -> u32
    requires width { length cell.now ≡ referent_width }
    ensures { (referent : ReferentRecord) → SaysReferent cell.now referent → result ≡ referent.route }
{
    number_of_four(&cell[..ROUTE_BYTES])
}

/// The name of a referent.
pub fn name_of(cell: &[u8]) -> &[u8]
    requires width { length cell.now ≡ referent_width }
    ensures { (referent : ReferentRecord) → SaysReferent cell.now referent → result.now ≡ referent.name }
{
    let place = &cell[ROUTE_BYTES..ROUTE_BYTES + NAME_PLACE];
    &place[..length_before_zero(place)]
}

/// The measure of a referent, in thousandths.
pub fn measure_of(cell: &[u8]) -> u32
    requires width { length cell.now ≡ referent_width }
    ensures { (referent : ReferentRecord) → SaysReferent cell.now referent → result ≡ referent.measure }
{
    number_of_four(&cell[MEASURE_AT..MEASURE_AT + 4])
}

/// Whether the cell says a referent: no byte other than 0 is after a 0 among those of the name.
pub fn says_referent(cell: &[u8]) -> bool
    requires width { length cell.now ≡ referent_width }
    ensures { IsTrue result ↔ ((referent : ReferentRecord) × SaysReferent cell.now referent) }
{
    let place = &cell[ROUTE_BYTES..ROUTE_BYTES + NAME_PLACE];
    let (_, rest) = place.split_at(length_before_zero(place));
    are_zeros(rest)
}

// How many bytes there are before the first zero.
fn length_before_zero(bytes: &[u8]) -> usize
    ensures { result ≡ position_or_len (λ byte. byte == 0) bytes.now }
{
    bytes.iter().take_while(|byte| **byte != 0).count()
}

// Whether all bytes are zeros.
fn are_zeros(bytes: &[u8]) -> bool
    ensures { IsTrue result ↔ (bytes.now ≡ replicate (length bytes.now) 0) }
{
    bytes.iter().all(|byte| *byte == 0)
}

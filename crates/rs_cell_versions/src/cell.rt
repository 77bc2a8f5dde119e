//! This module reads and writes the versions in a cell's bytes.
//!
//! The last 20 bytes of a cell are the first version that sees it, in eight bytes, four bytes of its own, and the first version
//! that no longer sees it, in eight. The highest byte of a number comes first.

ghost use Rattle.std.specs.Prelude.{◌≡◌, ◌≤◌, ◌↔◌, IsTrue, length};
ghost use Rattle.byteorder.specs.Endian.{big_number};
ghost use Rattle.rs_cell_versions.specs.Version.{IsDated, born_of, died_of, ended, is_clearable, is_living, sees};

use byteorder::{BigEndian, ByteOrder};

/// The bytes of a cell's versions, and of what is between them.
pub const VERSION_BYTES: usize = 20;

/// The bytes of the version of a cell's end.
pub const END_BYTES: usize = 8;

/// What a living cell has in place of the version of its end.
pub const LIVING: u64 = u64::MAX;

/// The first version that sees the cell.
#[tactic(auto, unfolding(crate::specs::Version::born_of))]
pub fn born_of(cell: &[u8]) -> u64
    requires width { VERSION_BYTES ≤ length cell.now }
    ensures { result ≡ born_of cell.now }
{
    let at = cell.len() - VERSION_BYTES;
    number_of_eight(&cell[at..at + 8])
}

/// The first version that no longer sees the cell; `LIVING` where there is none.
#[tactic(auto, unfolding(crate::specs::Version::died_of))]
pub fn died_of(cell: &[u8]) -> u64
    requires width { VERSION_BYTES ≤ length cell.now }
    ensures { result ≡ died_of cell.now }
{
    number_of_eight(&cell[cell.len() - END_BYTES..])
}

/// The number of eight bytes, the highest first.
fn number_of_eight(bytes: &[u8]) -> u64
    requires { length bytes.now ≡ 8 }
    ensures { result ≡ big_number 8 bytes.now }
{
    u64::from_be_bytes(bytes.try_into().unwrap())
}

/// Whether no version has ended the cell.
pub fn is_living(cell: &[u8]) -> bool
    requires width { VERSION_BYTES ≤ length cell.now }
    ensures { result ≡ is_living cell.now }
{
    died_of(cell) == LIVING
}

/// Whether the version sees the cell.
pub fn sees(version: u64, cell: &[u8]) -> bool
    requires width { VERSION_BYTES ≤ length cell.now }
    ensures { result ≡ sees version cell.now }
{
    born_of(cell) <= version && version < died_of(cell)
}

/// Whether the cell is dead and no version from `oldest` on sees it.
pub(crate) fn is_clearable(oldest: u64, cell: &[u8]) -> bool
    requires width { VERSION_BYTES ≤ length cell.now }
    ensures { result ≡ is_clearable oldest cell.now }
{
    !is_living(cell) && died_of(cell) <= oldest
}

/// Whether the cell was born at this version or before it, and lives, or died after its birth at this version or before it.
pub(crate) fn is_dated(accepted: u64, cell: &[u8]) -> bool
    requires width { VERSION_BYTES ≤ length cell.now }
    ensures { IsTrue result ↔ IsDated accepted cell.now }
{
    let born = born_of(cell);
    let died = died_of(cell);
    born <= accepted && (died == LIVING || (born < died && died <= accepted))
}

/// Writes the version of its end into a cell: `Versions::kill` leaves the cell so, and an index over it writes the same.
pub fn end_at(cell: &mut [u8], version: u64)
    requires width { VERSION_BYTES ≤ length cell.old }
    ensures ended { cell.new ≡ ended version cell.old }
{
    let at = cell.len() - END_BYTES;
    BigEndian::write_u64(&mut cell[at..], version);
}

//! How many records the tables of a store have.

ghost use Rattle.std.specs.Prelude.{◌≡◌, ◌<◌, ◌^◌};
ghost use Rattle.rs_store.specs.Reading.{living_of};

use rs_disk::Disk;
use rs_store::Store;

/// How many records of the table with this number live, fewer than 2^96; 0 where no table has it. Where the store stands in a state,
/// that is the number of the maximal runs of the table that has the number in the catalogue, which a law says.
pub fn records_of<D: Disk>(store: &Store<D>, table: u32) -> u128
    ensures counted { result ≡ living_of store.now.file table }
    ensures few { result < 2 ^ 96 }
{
    u128::from(store.records(table))
}

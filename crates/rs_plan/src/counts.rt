//! What a plan is chosen by: how many records tables have, and the indexes.

ghost use Rattle.std.specs.Prelude.{◌≡◌, ◌<◌, ◌^◌};
ghost use Rattle.rs_plan.specs.Counted.{Counted};

use rs_methods::Name;

/// An index of a table, by the place of its column.
#[derive(Clone, Copy)]
pub struct Index {
    /// The index's name.
    pub name: Name,
    /// The index's number.
    pub number: u32,
    /// The table's number.
    pub table: u32,
    /// The column's place, the leftmost 0.
    pub column: u8,
}

/// The numbers of records and the indexes that a plan is chosen by.
pub trait Counts {
    ghost counted: { Self → Counted };

    /// How many records the table of this number has, fewer than 2^96.
    fn records(&self, table: u32) -> u128
        ensures records { result ≡ (counted self.now).records table }
        ensures few { result < 2 ^ 96 };

    /// All indexes, in the order of their names.
    fn indexes(&self) -> &[Index]
        ensures { result.now ≡ (counted self.now).indexes };
}

//! This module says what a kind of records is: which cells say its records, and which versions see them.

ghost use Rattle.std.specs.Prelude.{ℕ, List};

use rs_tree::Summary;

/// A kind of records that lie in a tree, each in a cell of its own.
pub trait RecordKind: Drop {
    /// What the inner pages of the tree keep of the cells below them.
    type Summary: Summary;

    /// Its records.
    ghost Record: { Type 0 };

    /// How many bytes a cell has.
    ghost width: { Self → ℕ };

    /// The cell says the record.
    ghost says: { Self → List ℕ → Record → Type 0 };

    /// The version of a record's birth.
    ghost born: { Record → ℕ };

    /// The version of its end.
    ghost died: { Record → ℕ };

    /// The record, once it has ended at a version.
    ghost ended: { ℕ → Record → Record };
}

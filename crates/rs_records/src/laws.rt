//! What follows of lists of records and of their order.

ghost use Rattle.std.specs.Prelude.{◌≡◌, ◌⊎◌, ◌<◌, ◌≤◌, ◌*◌, ℕ, IsTrue, Some, true, false, List, length, take, drop, slice_get};
ghost use Rattle.rs_records.specs.Order.{is_below};
ghost use Rattle.rs_records.specs.Records.{records};

/// There are as many records as are asked for.
pub fn records_are_so_many()
    ensures { (count width : ℕ) (bytes : List ℕ) → length (records count width bytes) ≡ count }
{}

/// Each record is the bytes at its place.
pub fn record_is_its_bytes()
    ensures { (count width : ℕ) (bytes : List ℕ) (index : ℕ) → index < count
        → slice_get (records count width bytes) index ≡ Some (take width (drop (index * width) bytes)) }
{}

/// No record is below itself.
pub fn no_record_is_below_itself()
    ensures { (one : List ℕ) → is_below one one ≡ false }
{}

/// What is below another is below all that the other is below.
pub fn below_goes_on()
    ensures { (one two three : List ℕ) → IsTrue (is_below one two) → IsTrue (is_below two three) → IsTrue (is_below one three) }
{}

/// Of two records one is below the other, or they are the same.
pub fn records_are_ordered()
    ensures { (one other : List ℕ) → is_below one other ≡ true ⊎ (one ≡ other) ⊎ is_below other one ≡ true }
{}

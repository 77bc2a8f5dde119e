//! Laws of the bytes that keep rows: who keeps and compares bytes keeps and compares rows.

ghost use Rattle.std.specs.Prelude.{◌≡◌, ◌++◌, ℕ, List};
ghost use Rattle.std.specs.List.{AllByRecursion};
ghost use Rattle.std.specs.Ordering.{nat_cmp};
ghost use Rattle.std.specs.Cmp.Lexicographic.{slice_cmp};
ghost use Rattle.rs_value.specs.Row.{Row, row_cmp};
ghost use Rattle.rs_value.specs.Kept.{Keeps, MayBeKept};

/// Bytes compare as the rows that they keep.
pub fn kept_bytes_compare_as_rows()
    ensures { (a b : List ℕ) (x y : Row) → Keeps a x → Keeps b y → slice_cmp nat_cmp a b ≡ row_cmp x y }
{}

/// Bytes keep one row at the most.
pub fn kept_bytes_keep_one_row()
    ensures { (bytes : List ℕ) (x y : Row) → Keeps bytes x → Keeps bytes y → x ≡ y }
{}

/// One row is kept by the same bytes each time.
pub fn row_is_kept_one_way()
    ensures { (a b : List ℕ) (row : Row) → Keeps a row → Keeps b row → a ≡ b }
{}

/// Each row of values is kept by some bytes.
pub fn each_row_is_kept()
    ensures { (row : Row) → AllByRecursion MayBeKept row → (bytes : List ℕ) × Keeps bytes row }
{}

/// Bytes one after another keep their rows one after another.
pub fn kept_bytes_keep_rows_together()
    ensures { (a b : List ℕ) (x y : Row) → Keeps a x → Keeps b y → Keeps (a ++ b) (x ++ y) }
{}

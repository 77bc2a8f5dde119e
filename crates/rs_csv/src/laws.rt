//! Laws of the input, each the contract of a function that does nothing: it is cut into records in one way, and how many bytes one has.

ghost use Rattle.std.specs.Prelude.{◌≡◌, ℕ, List};
ghost use Rattle.rs_csv.specs.Laws.{HasOneCut};
ghost use Rattle.rs_csv.specs.declared.batch.TheConstants.{RECORD_BYTES};

/// Bytes are cut where records end into these and a rest in one way, whichever byte stands between two fields.
pub fn input_has_one_cut()
    ensures { (separator : ℕ) (input : List ℕ) → HasOneCut separator input }
{}

/// The limit is this number.
pub fn limits_are_those()
    ensures record_bytes { RECORD_BYTES ≡ 65536 }
{}

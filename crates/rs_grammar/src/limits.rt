//! The limits of names, brackets and fetched rows, as numbers.

ghost use Rattle.std.specs.Prelude.{◌≡◌};
ghost use Rattle.rs_grammar.specs.declared.kind.TheConstants.{NAME_BYTES, BRACKETS, FETCHED_ROWS};

/// The limits are these numbers.
pub fn limits_are_those()
    ensures name_bytes { NAME_BYTES ≡ 32 }
    ensures brackets { BRACKETS ≡ 32 }
    ensures fetched_rows { FETCHED_ROWS ≡ 1000 }
{}

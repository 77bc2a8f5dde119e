//! The greatest number of clean pages, as a number.

ghost use Rattle.std.specs.Prelude.{◌≡◌};
ghost use Rattle.rs_page_cache.specs.declared.clean.TheConstants.{MOST_CLEAN};

/// The limit is this number.
pub fn limits_are_those()
    ensures { MOST_CLEAN ≡ 256 }
{}

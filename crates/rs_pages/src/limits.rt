//! The least and the greatest limit of a store of pages, as numbers.

ghost use Rattle.std.specs.Prelude.{◌≡◌};
ghost use Rattle.rs_pages.specs.declared.pages.TheConstants.{LEAST_LIMIT, GREATEST_LIMIT};

/// The limits are these numbers.
pub fn limits_are_those()
    ensures least_limit { LEAST_LIMIT ≡ 3 }
    ensures greatest_limit { GREATEST_LIMIT ≡ 1048576 }
{}

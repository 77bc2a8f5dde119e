//! A law states the limits of the catalogue and the directory as numbers.

ghost use Rattle.std.specs.Prelude.{◌≡◌};
ghost use Rattle.rs_catalog_pages.specs.declared.directory.TheConstants.{DIRECTORY_SIZE};
ghost use Rattle.rs_catalog_pages.specs.declared.directory_items.TheConstants.{INDEXES, TABLES};

/// The limits are these numbers.
pub fn limits_are_those()
    ensures tables { TABLES ≡ 128 }
    ensures indexes { INDEXES ≡ 64 }
    ensures directory_size { DIRECTORY_SIZE ≡ 2844 }
{}

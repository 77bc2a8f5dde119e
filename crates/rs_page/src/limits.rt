//! The size of a page and the places and marks in it, as numbers.

ghost use Rattle.std.specs.Prelude.{◌≡◌, codes};
ghost use Rattle.rs_page.specs.Number.{number_at};
ghost use Rattle.rs_page.specs.declared.header.TheConstants.{HEADER_SIZE, PAGE_ROOM};
ghost use Rattle.rs_page.specs.declared.page.TheConstants.{PAGE_SIZE};
ghost use Rattle.rs_page.specs.declared.file_header.TheConstants.{MAGIC, MAGIC_END, FORMAT, FLAG_OFFSET, FIELDS_END};

/// The places are these numbers, and the marks are the bytes of `ROADSEG1` and 1.
#[tactic(auto, unfolding(crate::specs::Number::number_at))]
pub fn limits_are_those()
    ensures page_size { PAGE_SIZE ≡ 4096 }
    ensures header_size { HEADER_SIZE ≡ 16 }
    ensures page_room { PAGE_ROOM ≡ 4080 }
    ensures flag_offset { FLAG_OFFSET ≡ 28 }
    ensures fields_end { FIELDS_END ≡ 52 }
    ensures magic { number_at 0 4 (codes "ROADSEG1") ≡ MAGIC }
    ensures magic_end { number_at 4 4 (codes "ROADSEG1") ≡ MAGIC_END }
    ensures format { FORMAT ≡ 1 }
{}

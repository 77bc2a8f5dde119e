//! The greatest widths of an entry and of a cell and the most levels of a tree, as numbers.

ghost use Rattle.std.specs.Prelude.{◌≡◌, ◌≤◌, ◌+◌, ◌*◌};
ghost use Rattle.rs_page.specs.declared.header.TheConstants.{PAGE_ROOM};
ghost use Rattle.rs_tree.specs.declared.limits.TheConstants.{GREATEST_ENTRY, GREATEST_WIDTH};
ghost use Rattle.rs_tree.specs.declared.search.TheConstants.{LEVELS};

use rs_page::PAGE_ROOM;

/// The greatest number of bytes of an entry, of which three fit a page.
pub const GREATEST_ENTRY: usize = PAGE_ROOM / 3;

/// The greatest number of bytes of a cell. An inner page holds three entries of such cells at least.
pub const GREATEST_WIDTH: usize = 1_109;

/// The limits are these numbers, and three entries of such cells with a summary of four bytes fit a page.
pub fn limits_are_those()
    ensures greatest_entry { GREATEST_ENTRY ≡ 1360 }
    ensures greatest_width { GREATEST_WIDTH ≡ 1109 }
    ensures three_entries { 3 * (4 + 4 + GREATEST_WIDTH) ≤ PAGE_ROOM }
    ensures levels { LEVELS ≡ 31 }
{}

//! The greatest end of some event records, as the summary that their tree keeps.

ghost use Rattle.std.specs.Prelude.{◌≡◌, length};

use crate::number::number_of_four;
use byteorder::{BigEndian, ByteOrder};
use rs_tree::Summary;

/// The bytes of a cell after the version of its birth: where its record ends, and the version of its end.
pub const AFTER_BIRTH_BYTES: usize = 12;

/// The greatest end of some event records, in thousandths; 0 of none.
#[derive(Clone, Copy)]
pub struct GreatestEnd {
    pub end: u32,
}

impl Summary for GreatestEnd {
    ghost use Rattle.rs_interval.specs.Ends.{SaysEnd, ends_at, later, end_of, later_assoc, none_first, none_last, end_width, same_end};

    const WIDTH: usize = 4;

    ghost WIDTH = { 4 };

    ghost unit = { ends_at 0 };

    ghost join = { later };

    ghost of = { end_of };

    ghost says = { SaysEnd };

    ghost join_assoc = { later_assoc };

    ghost unit_first = { none_first };

    ghost unit_last = { none_last };

    ghost says_width = { end_width };

    ghost says_same = { same_end };

    fn unit() -> GreatestEnd {
        GreatestEnd { end: 0 }
    }

    fn join(self, other: GreatestEnd) -> GreatestEnd {
        GreatestEnd {
            end: self.end.max(other.end),
        }
    }

    fn of(cell: &[u8]) -> GreatestEnd {
        if cell.len() < AFTER_BIRTH_BYTES {
            return GreatestEnd { end: 0 };
        }
        let at = cell.len() - AFTER_BIRTH_BYTES;
        GreatestEnd {
            end: number_of_four(&cell[at..at + 4]),
        }
    }

    fn write(self, bytes: &mut [u8]) {
        BigEndian::write_u32(bytes, self.end);
    }

    fn read(bytes: &[u8]) -> GreatestEnd {
        GreatestEnd {
            end: number_of_four(bytes),
        }
    }
}

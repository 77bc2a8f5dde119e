//! What is kept of some cursors: the routes of their versions, and lines that were formed ahead.
//!
//! Nothing rests on it: without it routes are listed and the cursor's route is evaluated again.

ghost use Rattle.std.specs.Prelude.{◌≡◌, ◌≤◌, ◌+◌, ◌^◌, Contains, length, string_capacity, sum_by, vec_len};
ghost use Rattle.rs_cursor.specs.Ahead.{lines_of};
ghost use Rattle.rs_engine.specs.declared.engine.ahead.Ahead.{Ahead};
ghost use Rattle.rs_engine.specs.declared.engine.ahead.TheConstants.{SLOTS};

use rs_cursor::kept::KeptAhead;
use rs_methods::Name;
use rs_serve::Session;

/// Of how many cursors lines may be kept ahead. Those of each take at most 4 megabytes (`rs_cursor::kept::KEPT_BYTES`), and all 16. Beside
/// them the routes of each one's version are kept.
pub(crate) const SLOTS: usize = 4;

/// Lines that some cursors give next, and of others a mark from which their lines may be evaluated; those that were put last at the end.
#[derive(Drop)]
pub struct LinesAhead {
    pub(crate) slots: Vec<Ahead>,
    pub(crate) marks: Vec<Ahead>,
    ghost few: { vec_len slots ≤ SLOTS },
    ghost bare: { (one : Ahead) → Contains marks.items one → length (lines_of one.kept) ≡ 0 },
}

/// What is kept of the cursor of this name of this session, the lines among it that it gives next.
#[derive(Drop)]
pub struct Ahead {
    pub(crate) session: Session,
    pub(crate) name: Name,
    pub(crate) kept: KeptAhead,
}

/// Lines that are kept ahead take no more than 16 megabytes in all: the room of each text, and 48 bytes beside it. Of the cursors of which a
/// mark alone is kept there are none.
pub fn lines_ahead_take_at_most_16_megabytes(ahead: &LinesAhead)
    ensures lines { sum_by (λ one. sum_by (λ line. string_capacity line + 48) (lines_of one.kept)) ahead.now.slots.items ≤ 2 ^ 24 }
    ensures none { (one : Ahead) → Contains ahead.now.marks.items one → length (lines_of one.kept) ≡ 0 }
{}

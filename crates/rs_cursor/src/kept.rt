//! What is kept of a cursor between one FETCH and the next: the routes that its version sees, and lines of one of them.
//!
//! Nothing rests on it: without it the routes are listed and the lines formed again.

ghost use Rattle.std.specs.Prelude.{◌≤◌, ◌+◌, ◌^◌, string_capacity, sum_by, vec_len};
ghost use Rattle.std.specs.Option.{ForSome};
ghost use Rattle.rs_answers.specs.Portions.{room_of};
ghost use Rattle.rs_cursor.specs.declared.kept.TheConstants.{KEPT_BYTES};
ghost use Rattle.rs_machine.specs.declared.limits.TheConstants.{ROUTES};

use rs_answers::Mark;
use rs_catalog::NamedRoute;

/// How many bytes the lines that are formed ahead of one cursor may take. An engine keeps those of four cursors.
pub const KEPT_BYTES: usize = 4_194_304;

/// Lines of one route of a cursor that were formed and are still to be given. Nothing rests on them: without them they are formed again.
#[derive(Drop)]
pub struct KeptLines {
    /// The route, counted from 0 among those that the cursor's version sees, by name.
    pub route: u32,
    /// How many lines of the route come before them.
    pub first: u64,
    /// How many lines the route has.
    pub all: u64,
    /// The lines.
    pub lines: Vec<String>,
    /// A mark at the line before them, from which they may be evaluated again.
    pub mark: Mark,
    /// A mark at the last of them, from which those after them may be evaluated.
    pub next: Mark,
    ghost fits: { room_of lines.items ≤ KEPT_BYTES },
}

/// What is kept of a cursor: the routes of its version, which stay as long as it is open, and lines of one of them.
#[derive(Drop)]
pub struct KeptAhead {
    /// The routes that the cursor's version sees, in the order of their names, where they are kept.
    pub routes: Option<Vec<NamedRoute>>,
    /// Lines of one of them that are given next, where some were formed.
    pub lines: Option<KeptLines>,
    ghost few: { ForSome routes (λ listed. vec_len listed ≤ ROUTES) },
}

/// Lines that are kept take no more than 4 megabytes: the room of each text, and 48 bytes beside it.
pub fn kept_lines_take_at_most_4_megabytes(kept: &KeptLines)
    ensures { sum_by (λ line. string_capacity line + 48) kept.now.lines.items ≤ 2 ^ 22 }
{}

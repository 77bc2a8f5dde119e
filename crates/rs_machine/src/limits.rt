//! The limits of the machine: how many routes, referents, tables, indexes, views, alignments, changes, sessions, cursors
//! and bytes of a line there may be, and how large a query may be.
//!
//! Each is written here once; code and definitions use the same constant, so they cannot differ. A law says which numbers
//! they are.

ghost use Rattle.std.specs.Prelude.{◌≡◌, ◌-◌, ◌^◌};
ghost use Rattle.rs_machine.specs.declared.limits.TheConstants.{ROUTES, REFERENTS, TABLES, INDEXES, VIEWS, ALIGNMENTS, PIECES, NODES, DEPTH, CHANGES, SESSIONS, CURSORS, LINE_BYTES};

/// How many routes there may be.
pub const ROUTES: usize = 4_096;

/// How many referents a route may have beside START.
pub const REFERENTS: usize = rs_methods::REFERENTS;

/// How many tables there may be.
pub const TABLES: usize = 128;

/// How many indexes there may be.
pub const INDEXES: usize = 64;

/// How many views there may be.
pub const VIEWS: usize = 128;

/// How many alignments there may be.
pub const ALIGNMENTS: usize = 64;

/// How many pieces an alignment may have.
pub const PIECES: usize = 64;

/// How many nodes a query may have once its views are opened: its operators and its tables.
pub const NODES: usize = 256;

/// How deep a query may be once its views are opened: a table has depth 1.
pub const DEPTH: usize = 32;

/// How many accepted changes a file's life has at the most: 2^63 - 1.
pub const CHANGES: u64 = 9_223_372_036_854_775_807;

/// Sessions are numbered from 0 and below this.
pub const SESSIONS: u8 = 64;

/// How many cursors a session may have.
pub const CURSORS: usize = 4;

/// How many bytes a line has before its LF at the most, a CR among them.
pub const LINE_BYTES: usize = 4_096;

/// The limits are these numbers.
pub fn limits_are_those()
    ensures routes { ROUTES ≡ 4096 }
    ensures referents { REFERENTS ≡ 1000 }
    ensures tables { TABLES ≡ 128 }
    ensures indexes { INDEXES ≡ 64 }
    ensures views { VIEWS ≡ 128 }
    ensures alignments { ALIGNMENTS ≡ 64 }
    ensures pieces { PIECES ≡ 64 }
    ensures nodes { NODES ≡ 256 }
    ensures depth { DEPTH ≡ 32 }
    ensures changes { CHANGES ≡ 2 ^ 63 - 1 }
    ensures sessions { SESSIONS ≡ 64 }
    ensures cursors { CURSORS ≡ 4 }
    ensures line_bytes { LINE_BYTES ≡ 4096 }
{}

//! Laws of the request stream, each the contract of a function that does nothing.
//!
//! A stream has one cut into lines, and a line asks one thing.

ghost use Rattle.std.specs.Prelude.{ℕ, List};
ghost use Rattle.rs_protocol.specs.Laws.{HasOneCut, AsksOneThing};

use rs_syntax::line_has_one_answer;

/// Bytes are cut at each LF into lines and a rest in one way.
pub fn stream_has_one_cut()
    ensures { (bytes : List ℕ) → HasOneCut bytes }
{}

/// A line asks one thing, since the language reads each text as one thing.
pub fn line_asks_one_thing()
    ensures { (line : List ℕ) → AsksOneThing line }
{
    line_has_one_answer();
}

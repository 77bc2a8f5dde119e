//! Laws of the language, each the contract of a function that does nothing.
//!
//! Each line has an answer, and one only; a command that a line says is sound.

ghost use Rattle.std.specs.Prelude.{◌≡◌, ℕ, List, Result, Ok, IsTrue};
ghost use Rattle.rs_refusal.specs.declared.refusal.Refusal.{Refusal};
ghost use Rattle.rs_value.specs.Values.{is_text};
ghost use Rattle.rs_syntax.specs.Tree.{CommandTree};
ghost use Rattle.rs_syntax.specs.Verdict.{Reads};
ghost use Rattle.rs_syntax.specs.Sound.{IsSound};

use rs_measure::{text_says_one_measure, text_says_one_part};

/// The text of a line has one answer at the most: a command, or a refusal.
pub fn line_has_one_answer()
    ensures { (line : List ℕ) (from : ℕ) (a b : Result CommandTree Refusal) → Reads line from a → Reads line from b → a ≡ b }
{
    text_says_one_measure();
    text_says_one_part();
}

/// The text of a line has an answer: a command, or a refusal.
pub fn line_has_an_answer()
    ensures { (line : List ℕ) (from : ℕ) → (answer : Result CommandTree Refusal) × Reads line from answer }
{}

/// A command that the text of a line says keeps to what `IsSound` says: its names are names, the lists of a
/// table's columns, of a row's values and of an alignment's pieces have items, its measures, its parts, the
/// numbers of its rows and the lengths of its columns are in their ranges, and its texts are UTF-8 without
/// control bytes, as the line's text is.
pub fn command_of_a_line_is_sound()
    ensures { (line : List ℕ) (from : ℕ) (tree : CommandTree) → IsTrue (is_text line) → Reads line from (Ok tree) → IsSound tree }
{
    text_says_one_measure();
    text_says_one_part();
}

//! What the text of a position says.
//!
//! It promises that the printed text of a position whose name is a word says that position, and that a text
//! says one position at the most. So what `express` prints is read back; by the relative method this holds where
//! the names of the route's referents are words.

ghost use Rattle.std.specs.Prelude.{◌≡◌, List, ℕ};
ghost use Rattle.rs_methods.specs.Position.{PositionExpression, expression_text};
ghost use Rattle.rs_methods.specs.PositionText.{TextSaysPosition, IsPrintable};

use rs_measure::{
    printed_part_is_read_back, printed_text_is_read_back, text_says_one_measure, text_says_one_part,
};

/// What is printed is read back: the text of a position says that position, where its name is a word,
/// its measure at most the greatest and its part at most all.
pub fn printed_position_is_read_back()
    ensures { (position : PositionExpression) → IsPrintable position → TextSaysPosition (expression_text position) position }
{
    printed_text_is_read_back();
    printed_part_is_read_back();
}

/// A text says one position at the most.
pub fn text_says_one_position()
    ensures { (text : List ℕ) (a b : PositionExpression) → TextSaysPosition text a → TextSaysPosition text b → a ≡ b }
{
    text_says_one_measure();
    text_says_one_part();
}

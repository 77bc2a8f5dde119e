//! The text that a view keeps says the view's query, without the line that it was cut out of.
//!
//! Its tokens are the line's, moved to the text's beginning. Each text says one query at the most.

ghost use Rattle.std.specs.Prelude.{◌≡◌, ℕ, List, ◌++◌, length, drop, codes, Ok};
ghost use Rattle.rs_methods.specs.declared.position.Method.TheVariants as methods;
ghost use Rattle.rs_lexer.specs.declared.token.Token.{Token};
ghost use Rattle.rs_lexer.specs.Lexis.{AreTokensFrom};
ghost use Rattle.rs_syntax.specs.Tree.{QueryTree, define_view, select};
ghost use Rattle.rs_syntax.specs.Written.{end_of, view_text};
ghost use Rattle.rs_syntax.specs.Verdict.{Reads};
ghost use Rattle.rs_syntax_laws.specs.ViewTexts.{from_the_first, TextSaysQuery};

use rs_syntax::line_has_one_answer;

/// The text of a view has the tokens that the line has after `DEFINE VIEW`, the name and `AS`, each moved left by
/// the number of bytes that the line has before the text. The first begins the text, and the last ends it.
pub fn text_of_a_view_has_its_tokens()
    ensures cut { (line : List ℕ) (from : ℕ) (tokens : List Token) → AreTokensFrom line from tokens
        → AreTokensFrom (view_text line tokens) 0 (from_the_first (drop 4 tokens)) }
    ensures ends { (line : List ℕ) (from : ℕ) (tokens : List Token) → AreTokensFrom line from tokens
        → end_of (from_the_first (drop 4 tokens)) ≡ length (view_text line tokens) }
{}

/// Where a line defines a view, the text that the view keeps says, by itself, the query that the line says.
pub fn text_of_a_view_says_its_query()
    ensures { (line : List ℕ) (from : ℕ) (name : List ℕ) (query : QueryTree) (text : List ℕ)
        → Reads line from (Ok (define_view name query text)) → TextSaysQuery text query }
{}

/// After `SELECT` a text says the query that it says by itself.
pub fn text_after_select_says_its_query()
    ensures { (text : List ℕ) (query : QueryTree) → TextSaysQuery text query
        → Reads (codes "SELECT " ++ text) 0 (Ok (select query methods.Absolute)) }
{}

/// A text says one query at the most, so that keeping the text of a view keeps its query.
pub fn text_says_one_query()
    ensures { (text : List ℕ) (a b : QueryTree) → TextSaysQuery text a → TextSaysQuery text b → a ≡ b }
{
    line_has_one_answer();
}

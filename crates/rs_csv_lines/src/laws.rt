//! Laws of the names that texts are made, the contracts of functions that do nothing: a text is made one name, and a name itself.

ghost use Rattle.std.specs.Prelude.{◌≡◌, ℕ, List};
ghost use Rattle.rs_lexer.specs.Names.{IsName};
ghost use Rattle.rs_csv_lines.specs.Names.{IsMadeName};

/// Of a text one name is made, at the most.
pub fn text_is_made_one_name()
    ensures { (text : List ℕ) (name : List ℕ) (other : List ℕ) → IsMadeName text name → IsMadeName text other → name ≡ other }
{}

/// A name is made itself.
pub fn name_is_made_itself()
    ensures { (name : List ℕ) → IsName name → IsMadeName name name }
{}

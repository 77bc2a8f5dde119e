//! The texts of which names of routes are made. Of two that would become one name the second is known from the first.

ghost use Rattle.std.specs.Prelude.{◌≡◌, ◌≢◌, List, ℕ, Some, IfOk, false, true};
ghost use Rattle.rs_csv.specs.Texts.{KeepsTexts, text_of_name};

use rs_catalog::ByName;
use rs_csv_lines::made_name;
use rs_methods::Name;
use std::alloc::{AllocError, Global};

/// The text of which each name is made.
pub type Texts = ByName<Vec<u8>>;

/// A name that is made of a text.
#[derive(Clone, Copy)]
pub struct TakenName<'a> {
    /// The name.
    pub name: Name,
    /// The text.
    pub text: &'a [u8],
}

/// Takes a text of which a name is made, and says whether it is the only one so far. Another one than before changes nothing.
pub fn take_text(
    alloc: Global,
    texts: &mut Texts,
    name: Name,
    text: &[u8],
) -> Result<bool, AllocError>
    ensures only { IfOk result (λ is_only. is_only ≡ true → text_of_name texts.new name.bytes ≡ Some text.now) }
    ensures other { IfOk result (λ is_only. is_only ≡ false → (other : List ℕ) × (other ≢ text.now) × (text_of_name texts.old name.bytes ≡ Some other) × (texts.new ≡ texts.old)) }
    ensures kept { KeepsTexts (text_of_name texts.old) (text_of_name texts.new) }
{
    if let Some(other) = texts.get(&name) {
        return Ok(other.as_slice() == text);
    }
    texts.define(name, Vec::from_slice(alloc, text)?)?;
    Ok(true)
}

/// The name that a text would be made, where it is made of another text.
pub fn taken_name<'a>(texts: &'a Texts, text: &[u8]) -> Option<TakenName<'a>> {
    let Some(name) = made_name(text) else {
        return None;
    };
    match texts.get(&name) {
        Some(other) if other.as_slice() != text => Some(TakenName {
            name,
            text: other.as_slice(),
        }),
        _ => None,
    }
}

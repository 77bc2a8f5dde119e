//! A look for a name in the header: which field has it.
//!
//! It promises that the field is the only one that has the name as it is written, or where none has it so, the only one that has it in
//! letters of another case. Where names are made, it has it too where those that the two are made are the same.

ghost use Rattle.std.specs.Prelude.{◌≡◌, ◌↔◌, IfOk, IfErr, MatchResult, OnOk, true};
ghost use Rattle.std.specs.Io.KnownBytes.{Keeps};
ghost use Rattle.csv.specs.Records.{fields_of};
ghost use Rattle.rs_csv.specs.Header.{AreMadeSame, AreOne, AreSame, Has, IsFound, IsLack, IsNamed, IsUnnamed};

use crate::filter::Stop;
use crate::tell::{Lack, tell_column};
use csv::ByteRecord;
use rs_csv_lines::fields::content;
use rs_csv_lines::made_name;
use std::io::Write;

/// Whether the case of letters of ASCII counts.
#[derive(Clone, Copy, PartialEq, Eq, Debug)]
pub enum Case {
    /// It does.
    Kept,
    /// It does not.
    Ignored,
}

/// What is found of a name in the header.
#[derive(Clone, Copy, PartialEq, Eq, Debug)]
pub enum Found {
    /// No field has it.
    Nowhere,
    /// The field of this place, from 0, and no other.
    At(usize),
    /// Two fields have it, or more.
    Twice,
}

// Whether two texts are the same.
fn are_same(text: &[u8], other: &[u8], case: Case) -> bool
    ensures { result ≡ true ↔ AreSame case text.now other.now }
{
    match case {
        Case::Kept => text == other,
        Case::Ignored => text.eq_ignore_ascii_case(other),
    }
}

// Whether the names that are made of two texts are the same.
fn are_made_same(text: &[u8], other: &[u8], case: Case) -> bool
    ensures { result ≡ true ↔ AreMadeSame case text.now other.now }
{
    match made_name(text) {
        Some(name) => match made_name(other) {
            Some(other) => are_same(name.as_str().as_bytes(), other.as_str().as_bytes(), case),
            None => false,
        },
        None => false,
    }
}

// Whether two texts are one name, where names are made or not.
fn are_one(text: &[u8], other: &[u8], makes_names: bool, case: Case) -> bool
    ensures { result ≡ true ↔ AreOne makes_names case text.now other.now }
{
    are_same(text, other, case) || makes_names && are_made_same(text, other, case)
}

// Whether a field of the header has this name.
fn is_named(header: &ByteRecord, place: usize, name: &str, makes_names: bool, case: Case) -> bool
    ensures { result ≡ true ↔ Has makes_names case (fields_of header.now) name.now place }
{
    match header.get(place) {
        Some(field) => are_one(content(field), name.as_bytes(), makes_names, case),
        None => false,
    }
}

// The place of the one field of the header that has this name.
fn find_field(header: &ByteRecord, name: &str, makes_names: bool, case: Case) -> Found
    ensures { IsFound (Has makes_names case (fields_of header.now) name.now) result }
{
    let mut found = None;
    for place in 0..header.len() {
        if is_named(header, place, name, makes_names, case) {
            if found.is_some() {
                return Found::Twice;
            }
            found = Some(place);
        }
    }
    match found {
        Some(place) => Found::At(place),
        None => Found::Nowhere,
    }
}

// The place of the one field of the header that has this name, or where none has it, that has it in letters of another case; or why none is taken.
fn look_for(header: &ByteRecord, name: &str, makes_names: bool) -> Result<usize, Lack>
    ensures { MatchResult result (λ place. IsNamed makes_names (fields_of header.now) name.now place) (λ lack. IsLack makes_names (fields_of header.now) name.now lack) }
{
    match find_field(header, name, makes_names, Case::Kept) {
        Found::At(place) => Ok(place),
        Found::Twice => Err(Lack::Twice),
        Found::Nowhere => match find_field(header, name, makes_names, Case::Ignored) {
            Found::At(place) => Ok(place),
            Found::Twice => Err(Lack::TwiceButForCase),
            Found::Nowhere => Err(Lack::Nowhere),
        },
    }
}

/// The place of the one field of the header that has this name, or where none has it, that has it in letters of another case. It is told
/// where there is none, or are two.
pub fn field_named<E: Write>(
    header: &ByteRecord,
    name: &str,
    makes_names: bool,
    errors: &mut E,
) -> Result<usize, Stop>
    ensures named { IfOk result (λ place. IsNamed makes_names (fields_of header.now) name.now place) }
    ensures refused { IfErr result (λ stop. (stop ≡ Stop.NoColumn) × IsUnnamed makes_names (fields_of header.now) name.now) }
    ensures quiet { OnOk result (Keeps (E.contents errors.old) (E.contents errors.new)) }
{
    match look_for(header, name, makes_names) {
        Ok(place) => Ok(place),
        Err(lack) => {
            tell_column(errors, header, name, makes_names, lack);
            Err(Stop::NoColumn)
        }
    }
}

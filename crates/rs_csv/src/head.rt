//! The head of the input: its first three bytes, which may be a byte order mark.

ghost use Rattle.std.specs.Prelude.{◌≡◌, ◌<◌, ◌∷◌, [], ◌↔◌, length, ℕ, List, IfErr, MatchResult, IsTrue};
ghost use Rattle.std.specs.Io.KnownBytes.{Consumes, IsAtEnd};
ghost use Rattle.rs_csv.specs.Stops.{IsFailure};

use crate::filter::Stop;
use arrayvec::ArrayVec;
use rs_protocol::Fault;
use std::io::Read;

/// What comes before a text of UTF-8 that says so.
const BYTE_ORDER_MARK: [u8; 3] = [0xef, 0xbb, 0xbf];

/// The first three bytes of the input, or all where there are fewer.
pub fn read_head<R: Read>(input: &mut R) -> Result<ArrayVec<u8, 3>, Stop>
    ensures stops { IfErr result IsFailure }
    ensures read { MatchResult result (λ head. Consumes (R.remaining input.old) (R.remaining input.new) head.items × (length head.items < 3 → IsAtEnd (R.remaining input.new)))
        (λ _. (told : List ℕ) × Consumes (R.remaining input.old) (R.remaining input.new) told) }
{
    let mut head = ArrayVec::new();
    'bytes: while !head.is_full() {
        let mut one = [0u8; 1];
        match input.read(&mut one) {
            Ok(0) => return Ok(head),
            Ok(_) => head.push(one[0]),
            Err(_) => return Err(Stop::Stream(Fault::Read)),
        }
    }
    Ok(head)
}

/// Whether this is a byte order mark.
pub fn is_mark(head: &[u8]) -> bool
    ensures { IsTrue result ↔ (head.now ≡ 239 ∷ 187 ∷ 191 ∷ []) }
{
    head == BYTE_ORDER_MARK.as_slice()
}

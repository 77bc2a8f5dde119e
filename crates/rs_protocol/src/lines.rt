//! Lines out of pieces: bytes are kept until their LF comes, and then the line is answered. The replies of a piece are written once it is
//! served.
//!
//! Of a line that is too long only its first bytes are kept, one more than a line may have.

ghost use Rattle.std.specs.Prelude.{◌≡◌, ℕ, List, Option, [], ◌∷◌, ◌++◌, OnOk, take};
ghost use Rattle.rs_machine.specs.Served.{Machine};
ghost use Rattle.rs_machine.specs.Stream.{LINE_FEED};
ghost use Rattle.rs_protocol.specs.Inner.{PutsAnswer, IsServed, GoesOn};

use crate::put::{Pending, put_pending};
use crate::replies::{put_refusal, put_reply};
use crate::requests::command_in;
use crate::stream::Fault;
use arrayvec::ArrayVec;
use memchr::memchr;
use rs_machine::limits::LINE_BYTES;
use rs_serve::Serve;
use std::alloc::Global;
use std::io::Write;

/// How many bytes of a line are kept: one more than a line may have.
pub(crate) const KEPT_BYTES: usize = LINE_BYTES + 1;

/// The first bytes of a line whose LF has not come.
pub(crate) type Kept = ArrayVec<u8, KEPT_BYTES>;

/// What ends a line.
pub(crate) const LINE_FEED: u8 = b'\n';

/// Answers one line, given without its LF. The reply is held back as far as there is room.
pub(crate) fn answer_line<E: Serve, W: Write>(
    alloc: Global,
    engine: &mut E,
    line: &[u8],
    pending: &mut Pending,
    writer: &mut W,
) -> Result<(), Fault>
    ensures served { (old : Machine) → E.is engine.old old → (new : Machine) × E.is engine.new new
        × PutsAnswer result line.now old new pending.old.items pending.new.items (W.contents writer.old) (W.contents writer.new) }
    ensures becomes { E.becomes engine.old engine.new }
{
    match command_in(alloc, line) {
        Ok(requested) => {
            let session = requested.session.number();
            let reply = engine.step(requested.session, requested.command);
            put_reply(writer, pending, session, &reply)
        }
        Err((session, refusal)) => put_refusal(writer, pending, session, &refusal),
    }
}

/// Answers the line that is kept, whose LF has come.
fn end_line<E: Serve, W: Write>(
    alloc: Global,
    engine: &mut E,
    kept: &mut Kept,
    pending: &mut Pending,
    writer: &mut W,
) -> Result<(), Fault>
    ensures served { (told : List ℕ) (first old : Machine) (before : Option (List ℕ)) → E.is engine.old old →
        IsServed kept.old.items pending.old.items told first old before (W.contents writer.old) →
        (new : Machine) × E.is engine.new new
        × GoesOn result kept.new.items pending.new.items (told ++ LINE_FEED ∷ []) first new before (W.contents writer.new) }
    ensures becomes { E.becomes engine.old engine.new }
{
    let answered = answer_line(alloc, engine, kept.as_slice(), pending, writer);
    kept.clear();
    answered
}

/// Keeps as many of these bytes as there is room for.
fn keep(kept: &mut Kept, bytes: &[u8])
    ensures { kept.new.items ≡ take KEPT_BYTES (kept.old.items ++ bytes.now) }
{
    let room = KEPT_BYTES - kept.len();
    if bytes.len() <= room {
        let _ = kept.try_extend_from_slice(bytes);
    } else {
        let _ = kept.try_extend_from_slice(&bytes[..room]);
    }
}

/// Takes the bytes of a piece, up to each LF at once.
pub(crate) fn take_piece<E: Serve, W: Write>(
    alloc: Global,
    engine: &mut E,
    kept: &mut Kept,
    piece: &[u8],
    pending: &mut Pending,
    writer: &mut W,
) -> Result<(), Fault>
    ensures served { (told : List ℕ) (first old : Machine) (before : Option (List ℕ)) → E.is engine.old old →
        IsServed kept.old.items pending.old.items told first old before (W.contents writer.old) →
        (new : Machine) × E.is engine.new new
        × GoesOn result kept.new.items pending.new.items (told ++ piece.now) first new before (W.contents writer.new) }
    ensures becomes { E.becomes engine.old engine.new }
{
    let mut rest = piece;
    while let Some(place) = memchr(LINE_FEED, rest) {
        keep(kept, &rest[..place]);
        end_line(alloc, engine, kept, pending, writer)?;
        rest = &rest[place + 1..];
    }
    keep(kept, rest);
    Ok(())
}

/// Serves the lines that end in a piece, and writes their replies.
pub(crate) fn serve_piece<E: Serve, W: Write>(
    alloc: Global,
    engine: &mut E,
    kept: &mut Kept,
    piece: &[u8],
    pending: &mut Pending,
    writer: &mut W,
) -> Result<(), Fault>
    ensures none { OnOk result (pending.new.items ≡ []) }
    ensures served { (told : List ℕ) (first old : Machine) (before : Option (List ℕ)) → E.is engine.old old →
        IsServed kept.old.items pending.old.items told first old before (W.contents writer.old) →
        (new : Machine) × E.is engine.new new
        × GoesOn result kept.new.items [] (told ++ piece.now) first new before (W.contents writer.new) }
    ensures becomes { E.becomes engine.old engine.new }
{
    take_piece(alloc, engine, kept, piece, pending, writer)?;
    put_pending(writer, pending)
}

//! Bytes put into a writer: a loop over `write`, which tries no failed call again.
//!
//! What is put is written whole, or a front of it and then a fault.

ghost use Rattle.std.specs.Prelude.{◌≡◌, [], ◌++◌, true, false, flat_map, IfSome, OnOk};
ghost use Rattle.rs_protocol.specs.Puts.{Puts};
ghost use Rattle.rs_protocol.specs.Inner.{PutsLater};

use crate::stream::Fault;
use arrayvec::ArrayVec;
use std::io::Write;

/// How many bytes are gathered into one write, at the most.
const GATHERED_BYTES: usize = 256;

/// How many bytes of replies are held back and then written at once, at the most.
const PENDING_BYTES: usize = 16_384;

/// Bytes that are still to be written.
pub(crate) type Pending = ArrayVec<u8, PENDING_BYTES>;

/// Writes the bytes whole. A write that fails, or takes nothing, ends it.
pub(crate) fn put<W: Write>(writer: &mut W, bytes: &[u8]) -> Result<(), Fault>
    ensures { Puts result bytes.now (W.contents writer.old) (W.contents writer.new) }
{
    let mut rest = bytes;
    while !rest.is_empty() {
        match writer.write(rest) {
            Ok(0) | Err(_) => return Err(Fault::Write),
            Ok(taken) => rest = &rest[taken..],
        }
    }
    Ok(())
}

/// The parts in one piece, where they are short enough to be written at once.
fn gathered(parts: &[&[u8]]) -> Option<ArrayVec<u8, GATHERED_BYTES>>
    ensures { IfSome result (λ piece. piece.items ≡ flat_map (λ part. part.now) parts.now) }
{
    let mut piece = ArrayVec::new();
    for part in parts {
        if piece.try_extend_from_slice(part).is_err() {
            return None;
        }
    }
    Some(piece)
}

/// Writes each part by itself.
fn put_each<W: Write>(writer: &mut W, parts: &[&[u8]]) -> Result<(), Fault>
    ensures { Puts result (flat_map (λ part. part.now) parts.now) (W.contents writer.old) (W.contents writer.new) }
{
    for part in parts {
        put(writer, part)?;
    }
    Ok(())
}

/// Writes the parts, one after another, and short ones together. After a fault a front of them is out.
pub fn put_parts<W: Write>(writer: &mut W, parts: &[&[u8]]) -> Result<(), Fault>
    ensures { Puts result (flat_map (λ part. part.now) parts.now) (W.contents writer.old) (W.contents writer.new) }
{
    match gathered(parts) {
        Some(piece) => put(writer, piece.as_slice()),
        None => put_each(writer, parts),
    }
}

/// Adds the bytes to what is pending, if they fit; else it changes nothing.
fn holds_back(pending: &mut Pending, bytes: &[u8]) -> bool
    ensures held { result ≡ true → pending.new.items ≡ pending.old.items ++ bytes.now }
    ensures unchanged { result ≡ false → pending.new.items ≡ pending.old.items }
{
    pending.try_extend_from_slice(bytes).is_ok()
}

/// Holds the bytes back where there is room for them, once what is pending was written, and else writes them too. After a
/// fault a front of it all is out.
fn hold<W: Write>(writer: &mut W, pending: &mut Pending, bytes: &[u8]) -> Result<(), Fault>
    ensures { PutsLater result bytes.now pending.old.items pending.new.items (W.contents writer.old) (W.contents writer.new) }
{
    if holds_back(pending, bytes) {
        return Ok(());
    }
    put(writer, pending.as_slice())?;
    pending.clear();
    if holds_back(pending, bytes) {
        return Ok(());
    }
    put(writer, bytes)
}

/// The same of parts, one after another.
pub(crate) fn put_later<W: Write>(
    writer: &mut W,
    pending: &mut Pending,
    parts: &[&[u8]],
) -> Result<(), Fault>
    ensures { PutsLater result (flat_map (λ part. part.now) parts.now) pending.old.items pending.new.items
        (W.contents writer.old) (W.contents writer.new) }
{
    for part in parts {
        hold(writer, pending, part)?;
    }
    Ok(())
}

/// Writes what is pending. After a fault a front of it is out.
pub(crate) fn put_pending<W: Write>(writer: &mut W, pending: &mut Pending) -> Result<(), Fault>
    ensures puts { Puts result pending.old.items (W.contents writer.old) (W.contents writer.new) }
    ensures none { OnOk result (pending.new.items ≡ []) }
{
    put(writer, pending.as_slice())?;
    pending.clear();
    Ok(())
}

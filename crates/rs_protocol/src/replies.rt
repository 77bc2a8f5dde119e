//! The text of a reply: the rows of an answer and its count, or its refusal. It is held back, as far as there is room.
//!
//! Digits are made on the stack, so that a reply takes no memory.

ghost use Rattle.std.specs.Prelude.{◌≡◌, ℕ, codes, flat_map};
ghost use Rattle.rs_machine.specs.ReplyText.{head_of, row_text, ok_text, refusal_text, reply_text};
ghost use Rattle.rs_serve.specs.ReplyView.{reply_of, rows_of};
ghost use Rattle.rs_protocol.specs.Inner.{PutsLater};

use crate::put::{Pending, put_later};
use crate::stream::Fault;
use arrayvec::ArrayString;
use itoa::Buffer;
use rs_refusal::Refusal;
use rs_serve::{Finish, Reply};
use std::io::Write;

/// Room for what comes before a row: digits of a number, and ` ROW `.
const HEAD_BYTES: usize = 48;

/// What comes before each row of a session: `S ROW `.
fn row_head(session: u8) -> ArrayString<HEAD_BYTES>
    ensures { result.bytes ≡ head_of session (codes "ROW") }
{
    let mut head = ArrayString::new();
    head.push_str(Buffer::new().format(session));
    head.push_str(" ROW ");
    head
}

/// Puts a row after what comes before it.
fn put_row<W: Write>(
    writer: &mut W,
    pending: &mut Pending,
    head: &str,
    row: &str,
) -> Result<(), Fault>
    ensures { (session : ℕ) → head.now ≡ head_of session (codes "ROW") → PutsLater result (row_text session row.now) pending.old.items pending.new.items
        (W.contents writer.old) (W.contents writer.new) }
{
    put_later(writer, pending, &[head.as_bytes(), row.as_bytes(), b"\n"])
}

/// Puts `S OK n`.
pub(crate) fn put_count<W: Write>(
    writer: &mut W,
    pending: &mut Pending,
    session: u8,
    count: u128,
) -> Result<(), Fault>
    ensures { PutsLater result (ok_text session count) pending.old.items pending.new.items
        (W.contents writer.old) (W.contents writer.new) }
{
    let mut session_digits = Buffer::new();
    let mut count_digits = Buffer::new();
    let session_text = session_digits.format(session).as_bytes();
    let count_text = count_digits.format(count).as_bytes();
    put_later(writer, pending, &[session_text, b" OK ", count_text, b"\n"])
}

/// Puts `S ERR n words`.
pub(crate) fn put_refusal<W: Write>(
    writer: &mut W,
    pending: &mut Pending,
    session: u8,
    refusal: &Refusal,
) -> Result<(), Fault>
    ensures { PutsLater result (refusal_text session refusal.now) pending.old.items pending.new.items
        (W.contents writer.old) (W.contents writer.new) }
{
    let mut session_digits = Buffer::new();
    let mut number_digits = Buffer::new();
    let session_text = session_digits.format(session).as_bytes();
    let number_text = number_digits.format(refusal.number()).as_bytes();
    let words = refusal.words();
    let words_text = words.as_str().as_bytes();
    put_later(
        writer,
        pending,
        &[session_text, b" ERR ", number_text, b" ", words_text, b"\n"],
    )
}

/// Puts the ROW lines.
pub(crate) fn put_rows<W: Write>(
    writer: &mut W,
    pending: &mut Pending,
    session: u8,
    rows: &[String],
) -> Result<(), Fault>
    ensures { PutsLater result (flat_map (row_text session) (rows_of rows.now)) pending.old.items pending.new.items
        (W.contents writer.old) (W.contents writer.new) }
{
    let head = row_head(session);
    for row in rows {
        put_row(writer, pending, head.as_str(), row.as_str())?;
    }
    Ok(())
}

/// Puts a reply whole.
pub(crate) fn put_reply<W: Write>(
    writer: &mut W,
    pending: &mut Pending,
    session: u8,
    reply: &Reply,
) -> Result<(), Fault>
    ensures { PutsLater result (reply_text session (reply_of reply.now)) pending.old.items pending.new.items
        (W.contents writer.old) (W.contents writer.new) }
{
    match &reply.finish {
        Finish::Done(count) => {
            put_rows(writer, pending, session, reply.rows.as_slice())?;
            put_count(writer, pending, session, *count)
        }
        Finish::Refused(refusal) => put_refusal(writer, pending, session, refusal),
    }
}

//! What a line asks: its refusal as a line, or its session and where its command begins.
//!
//! A line too long is refused first, then one that is not text, then one without a session.

ghost use Rattle.std.specs.Prelude.{◌≡◌, ◌-◌, Some, None, if◌then◌else◌, IfErr, IfOk, MatchOption, MatchResult};
ghost use Rattle.std.specs.Char.{is_ascii_digit};
ghost use Rattle.rs_machine.specs.Answered.{AnswersLine, answer};
ghost use Rattle.rs_machine.specs.Request.{Asks, command, without_return as line_text, ends_number as may_end, session_digits, line_refusal};
ghost use Rattle.rs_machine.specs.Served.{Machine, refused};
ghost use Rattle.rs_syntax.specs.View.{tree_of};
ghost use Rattle.rs_protocol.specs.Inner.{HasSession, IsRequest};

use rs_machine::limits::{LINE_BYTES, SESSIONS};
use rs_parser::command_of;
use rs_refusal::Refusal;
use rs_serve::Session;
use rs_syntax::Command;
use rs_value::as_text;
use std::alloc::Global;

/// A carriage return, which may come once before the LF.
const CARRIAGE_RETURN: u8 = b'\r';

/// The text of a line, without its CR, and the session that it begins with.
#[derive(Clone, Copy)]
pub(crate) struct Request<'a> {
    /// The whole text, in which columns are counted.
    pub(crate) text: &'a str,
    /// The session.
    pub(crate) session: Session,
    /// How many digits the session has; the command's text begins after them.
    pub(crate) digits: usize,
}

/// A command, and the session that asks it.
#[derive(Drop)]
pub struct Requested {
    /// The session.
    pub session: Session,
    /// The command.
    pub command: Command,
}

/// The line without the one CR that may be at its end.
fn without_return(line: &[u8]) -> &[u8]
    ensures { result.now ≡ line_text line.now }
{
    let Some((last, front)) = line.split_last() else {
        return line;
    };
    if *last == CARRIAGE_RETURN {
        front
    } else {
        line
    }
}

/// The value of a byte that is a decimal digit.
fn digit_of(byte: u8) -> Option<u8>
    ensures { result ≡ (if is_ascii_digit byte then Some (byte - 48) else None) }
{
    if byte.is_ascii_digit() {
        Some(byte - b'0')
    } else {
        None
    }
}

/// Whether a number may end before these bytes: at the line's end, or before a space.
fn ends_number(rest: &[u8]) -> bool
    ensures { result ≡ may_end rest.now }
{
    match rest.first() {
        None => true,
        Some(byte) => *byte == b' ',
    }
}

/// The session that the text begins with, one or two digits, and how many they are.
fn session_of(text: &[u8]) -> Option<(u8, usize)>
    ensures { MatchOption result (session_digits text.now ≡ None) (λ found. HasSession text.now found.0 found.1) }
{
    let (first, others) = text.split_first()?;
    let tens = digit_of(*first)?;
    if ends_number(others) {
        return Some((tens, 1));
    }
    let (second, rest) = others.split_first()?;
    let session = 10 * tens + digit_of(*second)?;
    if session < SESSIONS && ends_number(rest) {
        Some((session, 2))
    } else {
        None
    }
}

/// What the line asks, or its refusal as a line.
pub(crate) fn request_of(line: &[u8]) -> Result<Request<'_>, Refusal>
    ensures { MatchResult result (λ request. IsRequest line.now request.text.now request.session request.digits)
        (λ refusal. line_refusal line.now ≡ Some refusal) }
{
    if line.len() > LINE_BYTES {
        return Err(Refusal::LineTooLong);
    }
    let Some(text) = as_text(without_return(line)) else {
        return Err(Refusal::LineIsNotText);
    };
    let Some((number, digits)) = session_of(text.as_bytes()) else {
        return Err(Refusal::SessionNumber);
    };
    Ok(Request {
        text,
        session: Session::from_number(number),
        digits,
    })
}

/// What a line, given without its LF, asks: its session and its command; or its refusal, and the session that this is answered under.
pub fn command_in(alloc: Global, line: &[u8]) -> Result<Requested, (u8, Refusal)>
    ensures asks { IfOk result (λ requested. Asks line.now (command requested.session (tree_of requested.command))) }
    ensures refused { (machine : Machine) → IfErr result (λ why. AnswersLine machine line.now (answer why.0 (refused why.1)) machine) }
{
    let request = match request_of(line) {
        Ok(request) => request,
        Err(refusal) => return Err((0, refusal)),
    };
    match command_of(alloc, request.text, request.digits) {
        Ok(command) => Ok(Requested {
            session: request.session,
            command,
        }),
        Err(refusal) => Err((request.session.number(), refusal)),
    }
}

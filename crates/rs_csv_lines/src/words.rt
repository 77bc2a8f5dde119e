//! A line of given words: a session and a command, read by the grammar that reads lines.

ghost use Rattle.std.specs.Prelude.{◌≡◌, ◌<◌, ◌≤◌, IfOk, OnOk, Ok, length, true, codes, ◌++◌, string_bytes};
ghost use Rattle.rs_syntax.specs.Verdict.{Reads};
ghost use Rattle.rs_value.specs.Values.{is_text};
ghost use Rattle.rs_csv_lines.specs.Texts.{session_text};
ghost use Rattle.rs_machine.specs.Request.{Asks, command};
ghost use Rattle.rs_syntax.specs.Sound.{IsSound};
ghost use Rattle.rs_syntax.specs.View.{tree_of};

use crate::put::put_session;
use rs_machine::limits::LINE_BYTES;
use rs_parser::command_of;
use rs_refusal::Refusal;
use rs_syntax::Command;
use rs_value::has_control;
use std::alloc::Global;

// The command that a line asks after its session's digits.
fn read_line(alloc: Global, line: &str, digits: usize) -> Result<Command, Refusal>
    ensures short { OnOk result (length line.now ≤ LINE_BYTES) }
    ensures text { OnOk result (is_text line.now ≡ true) }
    ensures reads { IfOk result (λ asked. Reads line.now digits (Ok (tree_of asked))) }
    ensures sound { IfOk result (λ asked. IsSound (tree_of asked)) }
{
    if line.len() > LINE_BYTES {
        return Err(Refusal::LineTooLong);
    }
    if has_control(line.as_bytes()) {
        return Err(Refusal::LineIsNotText);
    }
    command_of(alloc, line, digits)
}

/// Writes the line of a session that has these words, in place of what the line has, and gives the command that it asks.
///
/// Refused as `run` refuses the line. Then a part of it may have been written.
pub fn write_words(
    alloc: Global,
    session: u8,
    words: &str,
    line: &mut String,
) -> Result<Command, Refusal>
    requires { session < 64 }
    ensures line { OnOk result (string_bytes line.new ≡ session_text session ++ codes " " ++ words.now) }
    ensures asks { IfOk result (λ asked. Asks (string_bytes line.new) (command session (tree_of asked))) }
    ensures sound { IfOk result (λ asked. IsSound (tree_of asked)) }
{
    line.clear();
    put_session(line, session)?;
    let begun = line.as_str();
    let digits = begun.len();
    line.push_str(" ")?;
    line.push_str(words)?;
    let asked = read_line(alloc, line.as_str(), digits)?;
    Ok(asked)
}

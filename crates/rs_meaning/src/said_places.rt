//! What places and windows of a line say.
//!
//! The syntax has been read, so a number out of its range is all that can be wrong with them.

ghost use Rattle.std.specs.Prelude.{◌≡◌, IfOk, IfErr, OnErr};
ghost use Rattle.rs_syntax.specs.Tree.{EventLocationTree, WindowTree};
ghost use Rattle.rs_syntax.specs.View.{location_tree};
ghost use Rattle.rs_syntax.specs.QueryView.{window_tree};
ghost use Rattle.rs_syntax.specs.Written.{location_lexemes, window_lexemes, SaysLocation, SaysWindow, AreToldOf};

use crate::meaning::{name, position};
use rs_refusal::Refusal;
use rs_syntax::written::{WrittenLocation, WrittenWindow};
use rs_syntax::{EventLocation, Window};

/// Where an event is put.
///
/// Refused `NumberOutOfRange` where a number is out of its range.
pub fn location_said(line: &str, written: WrittenLocation) -> Result<EventLocation, Refusal>
    requires { AreToldOf line.now (location_lexemes written) }
    ensures ok { IfOk result (λ place. SaysLocation line.now written (location_tree place)) }
    ensures err { IfErr result (λ refusal. refusal ≡ Refusal.NumberOutOfRange) }
    ensures refused { OnErr result ((p : EventLocationTree) → SaysLocation line.now written p → ⊥) }
{
    match written {
        WrittenLocation::Along { from, to } => Ok(EventLocation::Along {
            from: position(line, from)?,
            to: position(line, to)?,
        }),
        WrittenLocation::At { position: at } => Ok(EventLocation::At {
            position: position(line, at)?,
        }),
    }
}

/// A whole route, or a part of it.
///
/// Refused `NumberOutOfRange` where a number is out of its range.
pub fn window_said(line: &str, written: WrittenWindow) -> Result<Window, Refusal>
    requires { AreToldOf line.now (window_lexemes written) }
    ensures ok { IfOk result (λ window. SaysWindow line.now written (window_tree window)) }
    ensures err { IfErr result (λ refusal. refusal ≡ Refusal.NumberOutOfRange) }
    ensures refused { OnErr result ((tree : WindowTree) → SaysWindow line.now written tree → ⊥) }
{
    match written {
        WrittenWindow::Whole { route } => Ok(Window::Whole {
            route: name(line, route),
        }),
        WrittenWindow::Part { route, from, to } => {
            let from = position(line, from)?;
            let to = position(line, to)?;
            Ok(Window::Part {
                route: name(line, route),
                from,
                to,
            })
        }
    }
}

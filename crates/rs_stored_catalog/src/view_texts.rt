//! The query that the text of a view says, read as the line that defines the view is read.

ghost use Rattle.std.specs.Prelude.{◌≡◌, ◌↔◌, Err, IfNone, IfOk, IfSome, IsTrue, Ok, string_bytes};
ghost use Rattle.rs_catalog_pages.specs.Said.{said_view};
ghost use Rattle.rs_stored_catalog.specs.EnteringViews.{IsQueryOf, RefusesViews};
ghost use Rattle.rs_machine_laws.specs.ViewLines.{IsReadable, shortest_view_line};
ghost use Rattle.rs_syntax.specs.QueryView.{query_tree};
ghost use Rattle.rs_syntax.specs.Sound.{IsName, IsQuery, IsSound};
ghost use Rattle.rs_syntax.specs.Tree.{CommandTree, QueryTree, define_view};
ghost use Rattle.rs_syntax.specs.Verdict.{Reads};
ghost use Rattle.rs_syntax.specs.View.{tree_of};
ghost use Rattle.rs_value.specs.Values.{is_text};

use rs_catalog_pages::StoredView;
use rs_machine::limits::LINE_BYTES;
use rs_machine_laws::view_lines::shortest_line_defines_the_view;
use rs_parser::command_of;
use rs_refusal::Refusal;
use rs_syntax::{Command, Query, line_has_one_answer};
use rs_value::has_control;
use std::alloc::{AllocError, Global};
use std::str;

/// The query of a view: what the shortest line of its name and its text says. It is refused with 90, and with 94 only where no line
/// defines the view.
pub(crate) fn view_query(alloc: Global, view: &StoredView) -> Result<Query, Refusal>
    requires { IsName (said_view view.now).name }
    ensures ok { IfOk result (λ query. IsQueryOf (said_view view.now) (query_tree query)) }
    ensures sound { IfOk result (λ query. IsQuery (query_tree query)) }
    ensures none { result ≡ Err Refusal.DamagedFile → (query : QueryTree) → IsQueryOf (said_view view.now) query → ⊥ }
    ensures refused { RefusesViews result }
{
    shortest_line_defines_the_view();
    let line = shortest_line(alloc, view.name.as_str(), view.text.text.as_str())?;
    if !is_readable(line.as_str()) {
        return Err(Refusal::DamagedFile);
    }
    let command = command_said(alloc, line.as_str())?;
    match query_defined(command, view.name.as_str(), view.text.text.as_str()) {
        Some(query) => Ok(query),
        None => Err(Refusal::DamagedFile),
    }
}

// The shortest line that defines a view of this name by this text.
fn shortest_line(alloc: Global, name: &str, text: &str) -> Result<String, AllocError>
    ensures { IfOk result (λ line. string_bytes line ≡ shortest_view_line name.now text.now) }
{
    format!(in alloc; "0 DEFINE VIEW {name} AS {text}")
}

// Whether the line is no longer than a line may be, and without a control character.
fn is_readable(line: &str) -> bool
    ensures { IsTrue result ↔ IsReadable line.now }
{
    line.len() <= LINE_BYTES && is_text(line.as_bytes())
}

// Whether the bytes are UTF-8 without a control character.
fn is_text(bytes: &[u8]) -> bool
    ensures { result ≡ is_text bytes.now }
{
    match str::from_utf8(bytes) {
        Ok(_) => !has_control(bytes),
        Err(_) => false,
    }
}

// The command that a line of a session of one digit says. It is refused with 90, and with 94 only where the line says none.
fn command_said(alloc: Global, line: &str) -> Result<Command, Refusal>
    requires { IsReadable line.now }
    ensures ok { IfOk result (λ command. Reads line.now 1 (Ok (tree_of command))) }
    ensures sound { IfOk result (λ command. IsSound (tree_of command)) }
    ensures one { IfOk result (λ command. (tree : CommandTree) → Reads line.now 1 (Ok tree) → tree_of command ≡ tree) }
    ensures none { result ≡ Err Refusal.DamagedFile → (tree : CommandTree) → Reads line.now 1 (Ok tree) → ⊥ }
    ensures refused { RefusesViews result }
{
    line_has_one_answer();
    match command_of(alloc, line, 1) {
        Ok(command) => Ok(command),
        Err(Refusal::OutOfMemory) => Err(Refusal::OutOfMemory),
        Err(_) => Err(Refusal::DamagedFile),
    }
}

// The query by which the command defines a view of this name by this text, if it does.
fn query_defined(command: Command, name: &str, text: &str) -> Option<Query>
    ensures some { IfSome result (λ query. tree_of command ≡ define_view name.now (query_tree query) text.now) }
    ensures none { IfNone result ((query : QueryTree) → tree_of command ≡ define_view name.now query text.now → ⊥) }
{
    match command {
        Command::DefineView {
            name: own,
            query,
            text: said,
        } => {
            if own.as_str() == name && said.as_str() == text {
                Some(query)
            } else {
                None
            }
        }
        _ => None,
    }
}

//! What DROP of a line says.
//!
//! The syntax has been read, and no number is in it, so nothing can be wrong with it.

ghost use Rattle.std.specs.Prelude.{◌≡◌, List, true};
ghost use Rattle.rs_lexer.specs.declared.token.Token.{Token};
ghost use Rattle.rs_syntax.specs.View.{tree_of, written_of};
ghost use Rattle.rs_syntax.specs.Written.{spelling, Says, AreToldOf};
ghost use Rattle.rs_meaning.specs.Schema.{is_drop};

use crate::meaning::name;
use rs_syntax::Command;
use rs_syntax::written::WrittenCommand;

/// What is dropped, by its name.
pub fn drop_said(line: &str, written: &WrittenCommand) -> Command
    requires told { AreToldOf line.now (spelling (written_of written.now)) }
    requires drops { is_drop (written_of written.now) ≡ true }
    ensures { (tokens : List Token) → Says line.now tokens (written_of written.now) (tree_of result) }
{
    match written {
        WrittenCommand::DropRoute { name: route } => Command::DropRoute {
            name: name(line, *route),
        },
        WrittenCommand::DropTable { name: table } => Command::DropTable {
            name: name(line, *table),
        },
        WrittenCommand::DropIndex { name: index } => Command::DropIndex {
            name: name(line, *index),
        },
        WrittenCommand::DropView { name: view } => Command::DropView {
            name: name(line, *view),
        },
        WrittenCommand::DropAlignment { name: alignment } => Command::DropAlignment {
            name: name(line, *alignment),
        },
        WrittenCommand::DropReferent {
            route,
            name: referent,
        } => Command::DropReferent {
            route: name(line, *route),
            name: name(line, *referent),
        },
        _ => unreachable!(),
    }
}

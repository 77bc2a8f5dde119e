//! What DEFINE ALIGNMENT of a line says.
//!
//! The syntax has been read, so a number out of its range is all that can be wrong with it.

ghost use Rattle.std.specs.Prelude.{[], map, IfOk, IfErr};
ghost use Rattle.rs_grammar.specs.declared.kind.TokenKind.TheVariants as kinds;
ghost use Rattle.rs_syntax.specs.View.{piece_tree, tree_of};
ghost use Rattle.rs_syntax.specs.Written.{written_alignment, piece_lexemes, list_lexemes, spelling, SaysPiece, SaysPieces, Says, AreToldOf};
ghost use Rattle.rs_meaning.specs.Saying.{NothingSaid};

use crate::meaning::{measure, name};
use rs_lexer::Token;
use rs_refusal::Refusal;
use rs_syntax::written::WrittenPiece;
use rs_syntax::{Command, Piece};
use std::alloc::Global;

// A part of a route, and where it is carried.
fn piece_said(line: &str, written: WrittenPiece) -> Result<Piece, Refusal>
    requires { AreToldOf line.now (piece_lexemes written) }
    ensures ok { IfOk result (λ piece. SaysPiece line.now written (piece_tree piece)) }
    ensures err { IfErr result (NothingSaid (SaysPiece line.now written)) }
{
    Ok(Piece {
        from_route: name(line, written.from_route),
        from: measure(line, written.from)?,
        to: measure(line, written.to)?,
        onto_route: name(line, written.onto_route),
        onto: measure(line, written.onto)?,
    })
}

// The pieces of an alignment.
fn pieces_said(alloc: Global, line: &str, written: &[WrittenPiece]) -> Result<Vec<Piece>, Refusal>
    requires { AreToldOf line.now (list_lexemes kinds.Comma piece_lexemes written.now) }
    ensures ok { IfOk result (λ pieces. SaysPieces line.now written.now (map piece_tree pieces.items)) }
    ensures err { IfErr result (NothingSaid (SaysPieces line.now written.now)) }
{
    let mut pieces = Vec::new(alloc);
    for part in written {
        let piece = piece_said(line, *part)?;
        pieces.push(piece)?;
    }
    Ok(pieces)
}

/// An alignment with its pieces.
pub fn alignment_said(
    alloc: Global,
    line: &str,
    alignment: Token,
    parts: &[WrittenPiece],
) -> Result<Command, Refusal>
    requires { AreToldOf line.now (spelling (written_alignment alignment parts.now)) }
    ensures ok { IfOk result (λ command. Says line.now [] (written_alignment alignment parts.now) (tree_of command)) }
    ensures err { IfErr result (NothingSaid (Says line.now [] (written_alignment alignment parts.now))) }
{
    Ok(Command::DefineAlignment {
        name: name(line, alignment),
        pieces: pieces_said(alloc, line, parts)?,
    })
}

//! An engine beside which it is kept in mind whether the last REOPEN found its file damaged.
//!
//! It answers as the engine does. Of one that is a machine no REOPEN finds that.

ghost use Rattle.std.specs.Prelude.{◌≡◌, false};
ghost use Rattle.rs_machine.specs.Served.{Machine, Served};
ghost use Rattle.rs_serve.specs.ReplyView.{StandsAlone, reply_of};
ghost use Rattle.rs_serve.specs.Said.{IsSaid};
ghost use Rattle.rs_server.specs.Damage.{IsSound, asks_to_reopen, failure_with, found_after};
ghost use Rattle.rs_syntax.specs.View.{tree_of};

use crate::report::Failure;
use rs_csv_answers::{Shape, Shapes};
use rs_refusal::Refusal;
use rs_serve::{Finish, Reply, Serve, Session};
use rs_syntax::{Command, Query};

// decision: found-damaged
/// An engine, and whether a REOPEN was refused 94 and none was accepted since.
#[derive(Drop)]
pub(crate) struct Reopened<E> {
    engine: E,
    is_damaged: bool,
}

impl<E> Reopened<E> {
    /// The engine, before any REOPEN.
    pub(crate) fn new(engine: E) -> Reopened<E>
        ensures engine { result.engine ≡ engine }
        ensures sound { result.is_damaged ≡ false }
    {
        Reopened {
            engine,
            is_damaged: false,
        }
    }

    /// The engine, and the first of a failure and of the damage that was found.
    pub(crate) fn end<'a>(self, failure: Option<Failure<'a>>) -> (E, Option<Failure<'a>>)
        ensures engine { result.0 ≡ self.engine }
        ensures failure { result.1 ≡ failure_with failure.entry self.is_damaged }
    {
        (self.engine, with_damage(failure, self.is_damaged))
    }
}

impl<E: Serve> Serve for Reopened<E> {
    ghost is = { IsSound E.is };

    ghost becomes = { λ old new. E.becomes old.engine new.engine };

    /// As the engine does.
    fn step(&mut self, session: Session, command: Command) -> Reply
        requires said { IsSaid session (tree_of command) }
        ensures served { (old : Machine) → IsSound E.is self.old old → (new : Machine) × IsSound E.is self.new new
            × Served old session (tree_of command) (reply_of result) new }
        ensures found { self.new.is_damaged ≡ found_after (asks_to_reopen (tree_of command)) result.finish self.old.is_damaged }
        ensures alone { StandsAlone result.rows.items result.finish }
        ensures becomes { E.becomes self.old.engine self.new.engine }
    {
        let reopens = is_reopen(&command);
        let reply = self.engine.step(session, command);
        self.is_damaged = is_found(reopens, &reply.finish, self.is_damaged);
        reply
    }

    ghost one = { λ it machine other is also. E.one it.engine machine other is.is also.is };

    ghost becomes_itself = { λ it. E.becomes_itself it.engine };

    ghost becomes_later = { λ first second third one other. E.becomes_later first.engine second.engine third.engine one other };
}

impl<E: Shapes> Shapes for Reopened<E> {
    /// As the engine says.
    fn shape(&self, query: &Query) -> Result<Shape, Refusal> {
        self.engine.shape(query)
    }
}

/// Whether a command is REOPEN.
fn is_reopen(command: &Command) -> bool
    ensures { result ≡ asks_to_reopen (tree_of command.now) }
{
    matches!(command, Command::Reopen)
}

/// Whether damage is found, where it was so before this end of a reply, which may be that of a REOPEN.
fn is_found(reopens: bool, finish: &Finish, before: bool) -> bool
    ensures { result ≡ found_after reopens finish.now before }
{
    match (reopens, finish) {
        (true, Finish::Done(_)) => false,
        (true, Finish::Refused(Refusal::DamagedFile)) => true,
        _ => before,
    }
}

/// The first of a failure and of damage that was found.
fn with_damage<'a>(failure: Option<Failure<'a>>, is_damaged: bool) -> Option<Failure<'a>>
    ensures { result ≡ failure_with failure.entry is_damaged }
{
    match failure {
        Some(failure) => Some(failure),
        None if is_damaged => Some(Failure::Refused(Refusal::DamagedFile)),
        None => None,
    }
}

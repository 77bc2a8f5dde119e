//! An engine seen from outside: it is a reference machine, and a step answers as the machine may.
//!
//! Which machine it is is a relation, since an engine may keep what no value of its own shows.

ghost use Rattle.std.specs.Prelude.{◌≡◌};
ghost use Rattle.rs_syntax.specs.View.{tree_of};
ghost use Rattle.rs_machine.specs.Served.{Machine, Served};
ghost use Rattle.rs_serve.specs.ReplyView.{reply_of, StandsAlone};
ghost use Rattle.rs_serve.specs.Said.{IsSaid};

use crate::reply::Reply;
use crate::session::Session;
use rs_syntax::Command;

/// What serves the commands of sessions.
pub trait Serve: Drop {
    /// The engine is this machine.
    ghost is: { Self → Machine → Type 0 };

    /// By steps alone the one engine became the other.
    ghost becomes: { Self → Self → Type 0 };

    /// Serves one command of one session, where some line of the session asks it. Whichever machine the engine was, it
    /// is then one that the reference machine may have become, and answered as that may. A refusal changes nothing and
    /// has no rows beside it: it is that of the first check that fails, or names a want: `Refusal::OutOfMemory` (90),
    /// `Refusal::Disk` (91) or `Refusal::FileFull` (92).
    fn step(&mut self, session: Session, command: Command) -> Reply
        requires said { IsSaid session (tree_of command) }
        ensures served { (old : Machine) → is self.old old → (new : Machine) × is self.new new
            × Served old session (tree_of command) (reply_of result) new }
        ensures alone { StandsAlone result.rows.items result.finish }
        ensures becomes { becomes self.old self.new };

    /// An engine is one machine at the most.
    ghost one: { (engine : Self) (machine other : Machine) → is engine machine → is engine other → machine ≡ other };

    /// It becomes what it is by no step.
    ghost becomes_itself: { (engine : Self) → becomes engine engine };

    /// Steps after steps are steps.
    ghost becomes_later: { (first second third : Self) → becomes first second → becomes second third → becomes first third };
}

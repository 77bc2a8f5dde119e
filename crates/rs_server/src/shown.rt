//! An engine over a file that is only shown. It answers as the engine does, and says what the lines of a query have.

use rs_csv_answers::{Shape, Shapes};
use rs_disk::Disk;
use rs_engine::Engine;
use rs_refusal::Refusal;
use rs_serve::{Reply, Serve, Session};
use rs_syntax::{Command, Query};

/// An engine of which the lines of queries are asked.
#[derive(Drop)]
pub(crate) struct Shown<D: Disk + Drop> {
    pub(crate) engine: Engine<D>,
}

impl<D: Disk + Drop> Serve for Shown<D> {
    ghost use Rattle.rs_engine.specs.Crashes.{BecomesBySteps, more_steps, no_steps};
    ghost use Rattle.rs_engine.specs.Single.{IsOneMachine, one_machine};

    ghost is = { λ it machine. IsOneMachine D.Disk it.engine machine };

    ghost becomes = { λ old new. BecomesBySteps D.Disk old.engine new.engine };

    /// As the engine does.
    fn step(&mut self, session: Session, command: Command) -> Reply {
        self.engine.step(session, command)
    }

    ghost one = { λ it machine other is also. one_machine _ it.engine machine other is also };

    ghost becomes_itself = { λ it. no_steps _ it.engine };

    ghost becomes_later = { λ first second third one other. more_steps _ first.engine second.engine third.engine one other };
}

impl<D: Disk + Drop> Shapes for Shown<D> {
    /// As the checker says.
    fn shape(&self, query: &Query) -> Result<Shape, Refusal> {
        let checked = self.engine.checked(query)?;
        Ok(Shape {
            kind: checked.kind,
            columns: checked.columns,
        })
    }
}

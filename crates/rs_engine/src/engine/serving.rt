//! One step of the engine: a command of a session is served.

ghost use Rattle.std.specs.Prelude.{◌≡◌};
ghost use Rattle.rs_engine.specs.Clearing.{ClearsWhereAsked};
ghost use Rattle.rs_engine.specs.Files.{SavesWhereAsked};
ghost use Rattle.rs_engine.specs.Kept.{IsMachine};
ghost use Rattle.rs_engine.specs.Replied.{count_reply_of, nothing_reply_of, rows_reply_of};
ghost use Rattle.rs_engine.specs.Serving.{IsServed};
ghost use Rattle.rs_engine.specs.Staying.{StaysOnAnyDisk};
ghost use Rattle.rs_machine.specs.Served.{Machine, Served};
ghost use Rattle.rs_machine.specs.Step.{outcome};
ghost use Rattle.rs_serve.specs.ReplyView.{StandsAlone, reply_of};
ghost use Rattle.rs_serve.specs.Said.{IsSaid};
ghost use Rattle.rs_syntax.specs.Sound.{IsSound};
ghost use Rattle.rs_syntax.specs.View.{tree_of};

use crate::engine::Engine;
use crate::engine::laws::stores_have_their_laws;
use rs_disk::Disk;
use rs_refusal::Refusal;
use rs_serve::{Finish, Reply, Serve, Session};
use rs_syntax::Command;
use rs_syntax::laws::command_of_a_line_is_sound;
use std::alloc::Global;

impl<D: Disk + Drop> Serve for Engine<D> {
    ghost use Rattle.rs_engine.specs.Crashes.{BecomesBySteps, more_steps, no_steps};
    ghost use Rattle.rs_engine.specs.Single.{IsOneMachine, one_machine};

    ghost is = { IsOneMachine D.Disk };

    ghost becomes = { BecomesBySteps D.Disk };

    /// As the trait says. Where SAVE or REOPEN is accepted, the disk stands for the state that the engine was in, and so does each image
    /// that a crash may leave. Where a change or a CLOSE is accepted, 64 of the records that no version sees any more that is looked at are
    /// gone, or all where they are fewer. On a disk that lies too a refusal leaves each cursor and its place, what is open of the file, and
    /// the held changes, or they are all written; and no command but OPEN, FETCH, CLOSE and REOPEN changes a cursor. Whatever is answered,
    /// a crash meanwhile leaves what was kept last or what the engine keeps (`laws::a_crash_leaves_a_state_that_was_kept`).
    fn step(&mut self, session: Session, command: Command) -> Reply
        requires said { IsSaid session (tree_of command) }
        ensures served { (old : Machine) → IsOneMachine D.Disk self.old old → (new : Machine) × IsOneMachine D.Disk self.new new
            × Served old session (tree_of command) (reply_of result) new }
        ensures saved { SavesWhereAsked D.Disk (tree_of command) (reply_of result) self.old self.new }
        ensures cleared { ClearsWhereAsked D.Disk (tree_of command) (reply_of result) self.old self.new }
        ensures stays { StaysOnAnyDisk D.Disk session (tree_of command) (reply_of result) self.old self.new }
        ensures alone { StandsAlone result.rows.items result.finish }
        ensures becomes { BecomesBySteps D.Disk self.old self.new }
    {
        // For the proof: that the committed pages are within the limit.
        let _ = self.limit();
        command_of_a_line_is_sound();
        stores_have_their_laws::<D>();
        self.reply_to(session, command)
    }

    ghost one = { λ engine machine other is also. one_machine _ engine machine other is also };

    ghost becomes_itself = { λ engine. no_steps _ engine };

    ghost becomes_later = { λ first second third one other. more_steps _ first second third one other };
}

impl<D: Disk> Engine<D> {
    /// What a command of a session is answered, which some line of it says. A refusal changes nothing: it is that of the first check that
    /// fails, or names a want.
    pub(crate) fn reply_to(&mut self, session: Session, command: Command) -> Reply
        requires said { IsSaid session (tree_of command) }
        requires sound { IsSound (tree_of command) }
        ensures served { (machine : Machine) → IsMachine D.Disk self.old machine
            → IsServed D.Disk (outcome machine.state session (tree_of command)) machine (reply_of result) self.new }
        ensures saved { SavesWhereAsked D.Disk (tree_of command) (reply_of result) self.old self.new }
        ensures cleared { ClearsWhereAsked D.Disk (tree_of command) (reply_of result) self.old self.new }
        ensures stays { StaysOnAnyDisk D.Disk session (tree_of command) (reply_of result) self.old self.new }
        ensures alone { StandsAlone result.rows.items result.finish }
    {
        let alloc = self.alloc;
        match command {
            Command::DefineRoute {
                name,
                start,
                finish,
            } => count_reply(alloc, self.define_route(name, start, finish)),
            Command::DefineTable {
                kind,
                name,
                columns,
            } => count_reply(alloc, self.define_table(kind, name, columns)),
            Command::DefineReferent {
                route,
                name,
                position,
            } => count_reply(alloc, self.define_referent(&route, name, &position)),
            Command::DefineIndex {
                name,
                table,
                column,
            } => count_reply(alloc, self.define_index(name, table, &column)),
            Command::DefineView { name, query, text } => count_reply(
                alloc,
                self.define_view(name, query, text),
            ),
            Command::DefineAlignment { name, pieces } => count_reply(
                alloc,
                self.define_alignment(name, pieces),
            ),
            Command::MoveReferent {
                route,
                name,
                position,
            } => count_reply(alloc, self.move_referent(&route, name, &position)),
            Command::DropRoute { name } => count_reply(alloc, self.drop_route(&name)),
            Command::DropTable { name } => count_reply(alloc, self.drop_table(&name)),
            Command::DropIndex { name } => count_reply(alloc, self.drop_index(&name)),
            Command::DropView { name } => count_reply(alloc, self.drop_view(&name)),
            Command::DropAlignment { name } => count_reply(alloc, self.drop_alignment(&name)),
            Command::DropReferent { route, name } => count_reply(
                alloc,
                self.drop_referent(&route, &name),
            ),
            Command::Insert {
                table,
                route,
                place,
                values,
            } => count_reply(alloc, self.insert(&table, &route, &place, &values)),
            Command::Remove {
                table,
                window,
                condition,
            } => count_reply(alloc, self.remove(&table, &window, &condition)),
            Command::Translate {
                route,
                position,
                method,
            } => rows_reply(alloc, self.translate(&route, &position, method)),
            Command::Select { query, method } => rows_reply(alloc, self.select(&query, method)),
            Command::Total { query, by, summed } => rows_reply(
                alloc,
                self.total(&query, by.as_slice(), &summed),
            ),
            Command::Explain { query } => rows_reply(alloc, self.explain(&query)),
            Command::Open {
                cursor,
                query,
                method,
            } => count_reply(alloc, self.open_cursor(session, cursor, &query, method)),
            Command::Fetch { cursor, rows } => rows_reply(
                alloc,
                self.fetch(session, &cursor, rows),
            ),
            Command::Close { cursor } => count_reply(alloc, self.close_cursor(session, &cursor)),
            Command::Save => count_reply(alloc, self.save()),
            Command::Reopen => nothing_reply(alloc, self.reopen()),
        }
    }
}

/// The reply with no rows and this count, or the refusal.
fn count_reply(alloc: Global, answer: Result<u128, Refusal>) -> Reply
    ensures reply { reply_of result ≡ count_reply_of answer }
    ensures alone { StandsAlone result.rows.items result.finish }
{
    let finish = match answer {
        Ok(count) => Finish::Done(count),
        Err(refusal) => Finish::Refused(refusal),
    };
    Reply {
        rows: Vec::new(alloc),
        finish,
    }
}

/// The reply with no rows and the count 0, or the refusal.
fn nothing_reply(alloc: Global, answer: Result<(), Refusal>) -> Reply
    ensures reply { reply_of result ≡ nothing_reply_of answer }
    ensures alone { StandsAlone result.rows.items result.finish }
{
    match answer {
        Ok(()) => count_reply(alloc, Ok(0)),
        Err(refusal) => count_reply(alloc, Err(refusal)),
    }
}

/// The reply with these rows and their number, or the refusal.
fn rows_reply(alloc: Global, answer: Result<Vec<String>, Refusal>) -> Reply
    ensures reply { reply_of result ≡ rows_reply_of answer }
    ensures alone { StandsAlone result.rows.items result.finish }
{
    match answer {
        Ok(rows) => {
            let count = rows.len() as u128;
            Reply {
                rows,
                finish: Finish::Done(count),
            }
        }
        Err(refusal) => Reply {
            rows: Vec::new(alloc),
            finish: Finish::Refused(refusal),
        },
    }
}

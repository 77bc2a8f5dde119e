//! The engine: the store of a file, and the cursors of sessions.
//!
//! It promises that a step makes the checks of its command in their order, that an accepted command changes what the reference machine
//! changes, and that a refused one changes nothing.

ghost use Rattle.std.specs.Prelude.{◌<◌, ◌+◌};
ghost use Rattle.rs_engine.specs.Kept.{AreChecksOf, IsOldestIn};
ghost use Rattle.rs_machine.specs.declared.limits.TheConstants.{CHANGES};

pub mod ahead;
mod cursors;
mod definitions;
mod drops;
mod events;
mod files;
pub mod laws;
mod live;
pub mod open;
mod queries;
mod referents;
mod serving;
mod slots;

use crate::engine::live::LiveStore;
use crate::engine::open::OpenCursors;
use rs_command_checks::Checks;
use rs_disk::Disk;
use std::alloc::Global;
use std::marker::Model;

/// Routes, tables, indexes, views and alignments, the referents of routes and the rows of tables in the pages of a file, and the cursors
/// of sessions beside it.
#[derive(Drop)]
pub struct Engine<D: Disk> {
    pub(crate) alloc: Global,
    pub(crate) live: LiveStore<D>,
    pub(crate) cursors: OpenCursors,
}

impl<D: Disk> Model for Engine<D> {
    ghost use Rattle.std.specs.Coded.{codes};
    ghost use Rattle.rs_catalog.specs.Codes.{definitions_code, numbered_code};
    ghost use Rattle.rs_catalog.specs.Referents.{held_referents_code};
    ghost use Rattle.rs_engine.specs.Kept.{EngineState, open_cursors_code};

    ghost Value = { EngineState D };

    ghost coded = { Prim.hlevel (codes, definitions_code, numbered_code held_referents_code, open_cursors_code) };

    ghost view = { λ e. record { store = e.live.store; oldest = e.live.oldest; cursors = e.cursors } };
}

impl<D: Disk> Engine<D> {
    /// What commands are checked against.
    pub(crate) fn checks(&self) -> Checks<'_>
        ensures { AreChecksOf self.now result }
    {
        Checks {
            alloc: self.alloc,
            catalog: self.live.store.catalog(),
            referents: self.live.store.referents(),
            cursors: &self.cursors.held,
            changes: self.live.store.accepted(),
        }
    }

    /// The oldest version that is looked at once one more change was made: that of a cursor, or of the change.
    pub(crate) fn oldest(&self) -> u64
        requires room { self.now.store.file.accepted < CHANGES }
        ensures { IsOldestIn self.now (self.now.store.file.accepted + 1) result }
    {
        self.cursors.held.oldest(self.live.store.accepted() + 1)
    }
}

//! The commands that define a route, a table, an index, a view and an alignment.

ghost use Rattle.std.specs.Prelude.{ℕ, map, string_bytes};
ghost use Rattle.rs_engine.specs.Replied.{count_reply_of};
ghost use Rattle.rs_engine.specs.Clearing.{ByChange, ServesClearing};
ghost use Rattle.rs_engine.specs.Staying.{LeavesCursors};
ghost use Rattle.rs_machine.specs.Step.{alignment_defined, index_defined, route_defined, table_defined, view_defined};
ghost use Rattle.rs_serve.specs.Said.{IsSaid};
ghost use Rattle.rs_syntax.specs.QueryView.{query_tree};
ghost use Rattle.rs_syntax.specs.Sound.{IsSound};
ghost use Rattle.rs_syntax.specs.Tree as tree;
ghost use Rattle.rs_syntax.specs.View.{column_tree, piece_tree};

use crate::engine::Engine;
use crate::engine::laws::stores_have_their_laws;
use rs_disk::Disk;
use rs_machine_laws::lawful::accepted_step_leaves_the_state_lawful;
use rs_measure::Measure;
use rs_methods::Name;
use rs_refusal::Refusal;
use rs_syntax::{ColumnDefinition, Piece, Query};
use rs_value::Kind;

impl<D: Disk> Engine<D> {
    /// Defines a route. Checks, in order: its name is taken (24), it is empty (31), limits (27).
    pub(crate) fn define_route(
        &mut self,
        name: Name,
        start: Measure,
        finish: Measure,
    ) -> Result<u128, Refusal>
        requires sound { IsSound (tree.define_route name.bytes start finish) }
        ensures serves { ServesClearing D.Disk ByChange (λ state. route_defined state name.bytes start finish) (count_reply_of result) self.old self.new }
        ensures leaves { LeavesCursors D.Disk result self.old self.new }
    {
        stores_have_their_laws::<D>();
        accepted_step_leaves_the_state_lawful();
        self.checks().check_new_route(&name, start, finish)?;
        let oldest = self.oldest();
        self.live
            .store
            .define_route(self.alloc, oldest, name, start, finish)?;
        self.live.oldest = oldest;
        Ok(0)
    }

    /// Defines a table. Checks, in order: its name is taken (24), two columns have one name (41), limits (27).
    pub(crate) fn define_table(
        &mut self,
        kind: Kind,
        name: Name,
        columns: Vec<ColumnDefinition>,
    ) -> Result<u128, Refusal>
        requires sound { IsSound (tree.define_table kind name.bytes (map column_tree columns.items)) }
        ensures serves { ServesClearing D.Disk ByChange (λ state. table_defined state kind name.bytes (map column_tree columns.items)) (count_reply_of result) self.old self.new }
        ensures leaves { LeavesCursors D.Disk result self.old self.new }
    {
        stores_have_their_laws::<D>();
        accepted_step_leaves_the_state_lawful();
        self.checks().check_new_table(kind, &name, &columns)?;
        let oldest = self.oldest();
        self.live
            .store
            .define_table(self.alloc, oldest, kind, name, columns)?;
        self.live.oldest = oldest;
        Ok(0)
    }

    /// Defines an index. Checks, in order: there is no such table (21); it has no such column (22); the index's name is taken (24);
    /// limits (27).
    pub(crate) fn define_index(
        &mut self,
        name: Name,
        table: Name,
        column: &Name,
    ) -> Result<u128, Refusal>
        requires sound { IsSound (tree.define_index name.bytes table.bytes column.now.bytes) }
        ensures serves { ServesClearing D.Disk ByChange (λ state. index_defined state name.bytes table.bytes column.now.bytes) (count_reply_of result) self.old self.new }
        ensures leaves { LeavesCursors D.Disk result self.old self.new }
    {
        stores_have_their_laws::<D>();
        accepted_step_leaves_the_state_lawful();
        let of = self.checks().check_new_index(&name, &table, column)?;
        let oldest = self.oldest();
        self.live
            .store
            .define_index(self.alloc, oldest, name, table, of.table, of.place)?;
        self.live.oldest = oldest;
        Ok(0)
    }

    /// Defines a view. Checks, in order: its query; its name is taken (24); limits (27).
    pub(crate) fn define_view(
        &mut self,
        name: Name,
        query: Query,
        text: String,
    ) -> Result<u128, Refusal>
        requires sound { IsSound (tree.define_view name.bytes (query_tree query) (string_bytes text)) }
        ensures serves { (session : ℕ) → IsSaid session (tree.define_view name.bytes (query_tree query) (string_bytes text))
            → ServesClearing D.Disk ByChange (λ state. view_defined state name.bytes (query_tree query)) (count_reply_of result) self.old self.new }
        ensures leaves { LeavesCursors D.Disk result self.old self.new }
    {
        stores_have_their_laws::<D>();
        accepted_step_leaves_the_state_lawful();
        self.checks().check_new_view(&name, &query)?;
        let oldest = self.oldest();
        self.live
            .store
            .define_view(self.alloc, oldest, name, query, text)?;
        self.live.oldest = oldest;
        Ok(0)
    }

    /// Defines an alignment. Checks, in order: its name is taken (24); limits (27); its pieces (20, 30, 31); 27.
    pub(crate) fn define_alignment(
        &mut self,
        name: Name,
        pieces: Vec<Piece>,
    ) -> Result<u128, Refusal>
        requires sound { IsSound (tree.define_alignment name.bytes (map piece_tree pieces.items)) }
        ensures serves { ServesClearing D.Disk ByChange (λ state. alignment_defined state name.bytes (map piece_tree pieces.items)) (count_reply_of result) self.old self.new }
        ensures leaves { LeavesCursors D.Disk result self.old self.new }
    {
        stores_have_their_laws::<D>();
        accepted_step_leaves_the_state_lawful();
        self.checks().check_new_alignment(&name, &pieces)?;
        let oldest = self.oldest();
        self.live
            .store
            .define_alignment(self.alloc, oldest, name, pieces)?;
        self.live.oldest = oldest;
        Ok(0)
    }
}

//! The catalogue: routes, tables, indexes, views and alignments by name, the first three with numbers of their own.
//!
//! It promises the finite maps that its definitions say, for each new route, table and index the least free number, and
//! that a table's indexes go with it.

ghost use Rattle.std.specs.Prelude.{◌≡◌, ◌<◌, ◌≤◌, ◌||◌, false, length, map, string_bytes, vec_len, IfOk, OnOk, OnErr};
ghost use Rattle.std.specs.Option.{option_copied};
ghost use Rattle.std.specs.Result.{result_map_both};
ghost use Rattle.std.specs.FinMap as names;
ghost use Rattle.rs_syntax.specs.View.{column_tree};
ghost use Rattle.rs_machine.specs.Checks.{found};
ghost use Rattle.rs_machine.specs.State.{has};
ghost use Rattle.rs_catalog.specs.Names.{entries_by_bytes};
ghost use Rattle.rs_facts.specs.WellFormed.{ArePiecesOn};
ghost use Rattle.rs_catalog.specs.Definitions.{AreDefinitions, IsColumnOf, IsFree, IsLeastFree, no_definitions, routes_of, pieces_of};
ghost use Rattle.rs_catalog.specs.Uses.{some_piece_on};
ghost use Rattle.rs_catalog.specs.Changes.{with_route, with_table, with_index, with_view, with_alignment, without_route, without_table, without_index, without_view, without_alignment};

use crate::by_name::ByName;
use crate::entries::{AlignmentEntry, Ends, IndexEntry, RouteEntry, TableEntry, ViewEntry};
use crate::numbers::none;
use rs_machine::limits::{INDEXES, ROUTES, TABLES};
use rs_measure::Measure;
use rs_methods::Name;
use rs_refusal::Refusal;
use rs_syntax::{ColumnDefinition, Piece, Query};
use rs_value::{COLUMNS, Kind};
use std::alloc::{AllocError, Global};
use std::collections::btree_map;
use std::marker::Model;

/// Routes, tables, indexes, views and alignments by name.
#[derive(Drop)]
pub struct Catalog {
    routes: ByName<RouteEntry>,
    tables: ByName<TableEntry>,
    indexes: ByName<IndexEntry>,
    views: ByName<ViewEntry>,
    alignments: ByName<AlignmentEntry>,
}

impl Model for Catalog {
    ghost use Rattle.rs_catalog.specs.Codes.{definitions_code};
    ghost use Rattle.rs_catalog.specs.Definitions.{AreDefinitions, Definitions};

    ghost Value = { Definitions };

    ghost coded = { definitions_code };

    ghost view = { λ c. record { routes = c.routes; tables = c.tables; indexes = c.indexes; views = c.views; alignments = c.alignments } };

    ghost invariant = { λ c. AreDefinitions (record { routes = c.routes; tables = c.tables; indexes = c.indexes; views = c.views; alignments = c.alignments }) };
}

impl Catalog {
    /// No route, no table, no index, no view and no alignment. It takes no memory.
    pub fn new(alloc: Global) -> Self
        ensures { result ≡ no_definitions }
    {
        Catalog {
            routes: ByName::new(alloc),
            tables: ByName::new(alloc),
            indexes: ByName::new(alloc),
            views: ByName::new(alloc),
            alignments: ByName::new(alloc),
        }
    }

    /// The route of this name.
    pub fn route(&self, name: &Name) -> Option<RouteEntry>
        ensures { result ≡ names.get self.now.routes name.now.bytes }
    {
        self.routes.get(name).copied()
    }

    /// The route of this name; 20 where there is none.
    pub fn named_route(&self, name: &Name) -> Result<RouteEntry, Refusal>
        ensures { result ≡ found (names.get self.now.routes name.now.bytes) Refusal.NoSuchRoute }
    {
        match self.route(name) {
            Some(route) => Ok(route),
            None => Err(Refusal::NoSuchRoute),
        }
    }

    /// The table of this name.
    pub fn table(&self, name: &Name) -> Option<&TableEntry>
        ensures { option_copied result ≡ names.get self.now.tables name.now.bytes }
    {
        self.tables.get(name)
    }

    /// The table of this name; 21 where there is none.
    pub fn named_table(&self, name: &Name) -> Result<&TableEntry, Refusal>
        ensures { result_map_both (λ table. table.now) (λ refusal. refusal) result ≡ found (names.get self.now.tables name.now.bytes) Refusal.NoSuchName }
    {
        match self.table(name) {
            Some(table) => Ok(table),
            None => Err(Refusal::NoSuchName),
        }
    }

    /// The index of this name.
    pub fn index(&self, name: &Name) -> Option<&IndexEntry>
        ensures { option_copied result ≡ names.get self.now.indexes name.now.bytes }
    {
        self.indexes.get(name)
    }

    /// The view of this name.
    pub fn view(&self, name: &Name) -> Option<&ViewEntry>
        ensures { option_copied result ≡ names.get self.now.views name.now.bytes }
    {
        self.views.get(name)
    }

    /// Whether a table or a view has this name: they share their names.
    pub fn has_table_or_view(&self, name: &Name) -> bool
        ensures { result ≡ (has self.now.tables name.now.bytes || has self.now.views name.now.bytes) }
    {
        self.table(name).is_some() || self.view(name).is_some()
    }

    /// The alignment of this name.
    pub fn alignment(&self, name: &Name) -> Option<&AlignmentEntry>
        ensures { option_copied result ≡ names.get self.now.alignments name.now.bytes }
    {
        self.alignments.get(name)
    }

    /// The alignment of this name; 21 where there is none.
    pub fn named_alignment(&self, name: &Name) -> Result<&AlignmentEntry, Refusal>
        ensures { result_map_both (λ alignment. alignment.now) (λ refusal. refusal) result ≡ found (names.get self.now.alignments name.now.bytes) Refusal.NoSuchName }
    {
        match self.alignment(name) {
            Some(alignment) => Ok(alignment),
            None => Err(Refusal::NoSuchName),
        }
    }

    /// How many routes there are.
    pub fn routes_len(&self) -> usize
        ensures { result ≡ names.len self.now.routes }
    {
        self.routes.len()
    }

    /// How many tables there are.
    pub fn tables_len(&self) -> usize
        ensures { result ≡ names.len self.now.tables }
    {
        self.tables.len()
    }

    /// How many indexes there are.
    pub fn indexes_len(&self) -> usize
        ensures { result ≡ names.len self.now.indexes }
    {
        self.indexes.len()
    }

    /// How many views there are.
    pub fn views_len(&self) -> usize
        ensures { result ≡ names.len self.now.views }
    {
        self.views.len()
    }

    /// How many alignments there are.
    pub fn alignments_len(&self) -> usize
        ensures { result ≡ names.len self.now.alignments }
    {
        self.alignments.len()
    }

    /// The routes, in the order of their names.
    pub fn routes(&self) -> btree_map::Iter<'_, Name, RouteEntry>
        ensures { entries_by_bytes (λ route. route) result ≡ names.entries self.now.routes }
    {
        self.routes.iter()
    }

    /// The tables, in the order of their names.
    pub fn tables(&self) -> btree_map::Iter<'_, Name, TableEntry>
        ensures { entries_by_bytes (λ table. table) result ≡ names.entries self.now.tables }
    {
        self.tables.iter()
    }

    /// The indexes, in the order of their names.
    pub fn indexes(&self) -> btree_map::Iter<'_, Name, IndexEntry>
        ensures { entries_by_bytes (λ index. index) result ≡ names.entries self.now.indexes }
    {
        self.indexes.iter()
    }

    /// The views, in the order of their names.
    pub fn views(&self) -> btree_map::Iter<'_, Name, ViewEntry>
        ensures { entries_by_bytes (λ view. view) result ≡ names.entries self.now.views }
    {
        self.views.iter()
    }

    /// The alignments, in the order of their names.
    pub fn alignments(&self) -> btree_map::Iter<'_, Name, AlignmentEntry>
        ensures { entries_by_bytes (λ alignment. alignment) result ≡ names.entries self.now.alignments }
    {
        self.alignments.iter()
    }

    /// Defines a route, seen from this version on, under the least number that no route has, which is the answer. For want
    /// of memory it changes nothing.
    pub fn define_route(
        &mut self,
        name: Name,
        born: u64,
        start: Measure,
        finish: Measure,
    ) -> Result<u32, AllocError>
        requires new { has self.old.routes name.bytes ≡ false }
        requires ordered { start < finish }
        requires room { names.len self.old.routes < ROUTES }
        ensures least { IfOk result (λ number. IsLeastFree (λ item. item.number) self.old.routes number) }
        ensures ok { IfOk result (λ number. self.new ≡ with_route self.old name.bytes (record { number = number; born = born; ends = record { start = start; finish = finish } })) }
        ensures err { OnErr result (self.new ≡ self.old) }
    {
        let number = self.free_route_number();
        self.enter_route(
            name,
            RouteEntry::new(number, born, Ends::new(start, finish)),
        )?;
        Ok(number)
    }

    /// Enters a route under its own number, which no route has. For want of memory it changes nothing.
    pub fn enter_route(&mut self, name: Name, route: RouteEntry) -> Result<(), AllocError>
        requires new { has self.old.routes name.bytes ≡ false }
        requires free { IsFree (λ item. item.number) self.old.routes route.number }
        requires below { route.number < ROUTES }
        ensures ok { OnOk result (self.new ≡ with_route self.old name.bytes route) }
        ensures err { OnErr result (self.new ≡ self.old) }
    {
        route.ends().stand();
        self.routes.define(name, route)
    }

    /// Defines a table under the least number that no table has, which is the answer. For want of memory it changes
    /// nothing.
    pub fn define_table(
        &mut self,
        name: Name,
        kind: Kind,
        columns: Vec<ColumnDefinition>,
    ) -> Result<u32, AllocError>
        requires new { has self.old.tables name.bytes ≡ false }
        requires columns { vec_len columns ≤ COLUMNS }
        requires room { names.len self.old.tables < TABLES }
        ensures least { IfOk result (λ number. IsLeastFree (λ item. item.number) self.old.tables number) }
        ensures ok { IfOk result (λ number. self.new ≡ with_table self.old name.bytes (record { number = number; kind = kind; columns = map column_tree columns.items })) }
        ensures err { OnErr result (self.new ≡ self.old) }
    {
        let number = self.free_table_number();
        self.enter_table(name, TableEntry::new(number, kind, columns))?;
        Ok(number)
    }

    /// Enters a table under its own number, which no table has. For want of memory it changes nothing.
    pub fn enter_table(&mut self, name: Name, table: TableEntry) -> Result<(), AllocError>
        requires new { has self.old.tables name.bytes ≡ false }
        requires free { IsFree (λ item. item.number) self.old.tables table.number }
        requires below { table.number < TABLES }
        requires columns { length table.columns ≤ COLUMNS }
        ensures ok { OnOk result (self.new ≡ with_table self.old name.bytes table) }
        ensures err { OnErr result (self.new ≡ self.old) }
    {
        self.tables.define(name, table)
    }

    /// Defines an index of a column of a table, by its name and its number, under the least number that no index has,
    /// which is the answer. For want of memory it changes nothing.
    pub fn define_index(
        &mut self,
        name: Name,
        table: Name,
        table_number: u32,
        column: u8,
    ) -> Result<u32, AllocError>
        requires of { IsColumnOf self.old.tables table.bytes table_number column }
        requires room { names.len self.old.indexes < INDEXES }
        ensures least { IfOk result (λ number. IsLeastFree (λ item. item.number) self.old.indexes number) }
        ensures ok { IfOk result (λ number. self.new ≡ with_index self.old name.bytes (record { number = number; table = table.bytes; table_number = table_number; column = column })) }
        ensures err { OnErr result (self.new ≡ self.old) }
    {
        let number = self.free_index_number();
        self.enter_index(name, IndexEntry::new(number, table, table_number, column))?;
        Ok(number)
    }

    /// Enters an index under its own number, which no index has. For want of memory it changes nothing.
    pub fn enter_index(&mut self, name: Name, index: IndexEntry) -> Result<(), AllocError>
        requires of { IsColumnOf self.old.tables index.table index.table_number index.column }
        requires free { IsFree (λ item. item.number) self.old.indexes index.number }
        requires below { index.number < INDEXES }
        ensures ok { OnOk result (self.new ≡ with_index self.old name.bytes index) }
        ensures err { OnErr result (self.new ≡ self.old) }
    {
        self.indexes.define(name, index)
    }

    /// Defines a view by its query and the query's text. For want of memory it changes nothing.
    pub fn define_view(&mut self, name: Name, query: Query, text: String) -> Result<(), AllocError>
        ensures ok { OnOk result (self.new ≡ with_view self.old name.bytes (record { query = query; text = string_bytes text })) }
        ensures err { OnErr result (self.new ≡ self.old) }
    {
        self.views.define(name, ViewEntry::new(query, text))
    }

    /// Defines an alignment by its pieces. For want of memory it changes nothing.
    pub fn define_alignment(&mut self, name: Name, pieces: Vec<Piece>) -> Result<(), AllocError>
        requires { ArePiecesOn (routes_of self.old) (pieces_of pieces.items) }
        ensures ok { OnOk result (self.new ≡ with_alignment self.old name.bytes (pieces_of pieces.items)) }
        ensures err { OnErr result (self.new ≡ self.old) }
    {
        self.alignments.define(name, AlignmentEntry::new(pieces))
    }

    /// Takes a route out, if it is there. It takes no memory.
    pub fn drop_route(&mut self, name: &Name)
        requires unused { some_piece_on self.old name.now.bytes ≡ false }
        ensures { self.new ≡ without_route self.old name.now.bytes }
    {
        self.routes.remove(name);
    }

    /// Takes a table out with its indexes, if it is there. It takes no memory.
    pub fn drop_table(&mut self, name: &Name)
        ensures { self.new ≡ without_table self.old name.now.bytes }
    {
        self.tables.remove(name);
        self.indexes.remove_of_table(name);
    }

    /// Takes an index out, if it is there. It takes no memory.
    pub fn drop_index(&mut self, name: &Name)
        ensures { self.new ≡ without_index self.old name.now.bytes }
    {
        self.indexes.remove(name);
    }

    /// Takes a view out, if it is there. It takes no memory.
    pub fn drop_view(&mut self, name: &Name)
        ensures { self.new ≡ without_view self.old name.now.bytes }
    {
        self.views.remove(name);
    }

    /// Takes an alignment out, if it is there. It takes no memory.
    pub fn drop_alignment(&mut self, name: &Name)
        ensures { self.new ≡ without_alignment self.old name.now.bytes }
    {
        self.alignments.remove(name);
    }

    /// The least number that no route has.
    fn free_route_number(&self) -> u32
        requires { names.len self.now.routes < ROUTES }
        ensures least { IsLeastFree (λ item. item.number) self.now.routes result }
        ensures below { result < ROUTES }
    {
        self.routes.free_number(&mut none::<ROUTES>())
    }

    /// The least number that no table has.
    fn free_table_number(&self) -> u32
        requires { names.len self.now.tables < TABLES }
        ensures least { IsLeastFree (λ item. item.number) self.now.tables result }
        ensures below { result < TABLES }
    {
        self.tables.free_number(&mut none::<TABLES>())
    }

    /// The least number that no index has.
    fn free_index_number(&self) -> u32
        requires { names.len self.now.indexes < INDEXES }
        ensures least { IsLeastFree (λ item. item.number) self.now.indexes result }
        ensures below { result < INDEXES }
    {
        self.indexes.free_number(&mut none::<INDEXES>())
    }

    /// They are numbered, and within their limits.
    pub fn stand(&self)
        ensures { AreDefinitions self.now }
    {
        // For the proof: what is kept is numbered, and within its limits.
        let _routes = &self.routes;
    }
}

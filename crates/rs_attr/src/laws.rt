//! These laws say what follows of indexes, and of tables with their indexes.

ghost use Rattle.std.specs.Prelude.{◌≡◌, ◌≤◌, ◌+◌, ◌++◌, ◌∷◌, [], ℕ, List, length};
ghost use Rattle.std.specs.List.{AllByRecursion};
ghost use Rattle.rs_attr.specs.Entries.{AreCells, Field, HoldsIndex, index_form};
ghost use Rattle.rs_attr.specs.Opening.{HasEntries, HasSoMany, LacksEntries};
ghost use Rattle.rs_attr.specs.Tables.{AreOn, HoldsTable, IndexState, all_of, kept_parts, working_parts};
ghost use Rattle.rs_page_owners.specs.Counts.{◌&◌};
ghost use Rattle.rs_page_owners.specs.Owners.{KeepsPages};
ghost use Rattle.rs_pages.specs.PageMap.{PageMap};
ghost use Rattle.rs_tree.specs.Tree.{IsTree};
ghost use Rattle.rs_value.specs.declared.column.ColumnType.{ColumnType};
ghost use Rattle.rs_versioned.specs.Events.{Event, kept_events};
ghost use Rattle.rs_versioned.specs.Records.{HoldsRecords};
ghost use Rattle.rs_cell_versions.specs.Versioned.{Standing};

/// A table without indexes is its events.
pub fn table_may_have_no_index()
    ensures { (types : List ColumnType) (pages : PageMap) (standing : Standing) (accepted : ℕ) (events : List Event) (used : ℕ → ℕ)
        → HoldsRecords (kept_events types) pages standing accepted events used → HoldsTable types pages standing [] accepted events used [] }
{}

/// The cells of the same events are the same, wherever they lie.
pub fn events_have_their_cells()
    ensures { (types : List ColumnType) (one other : PageMap) (stands lies : Standing) (from to : ℕ) (events : List Event) (used uses : ℕ → ℕ)
        → (first : HoldsRecords (kept_events types) one stands from events used)
        → (second : HoldsRecords (kept_events types) other lies to events uses) → first.cells ≡ second.cells }
{}

/// An index of a table's cells is one more of the table's, at any place among the others.
pub fn table_has_one_more_index()
    ensures { (types : List ColumnType) (pages : PageMap) (standing : Standing) (accepted : ℕ) (events : List Event) (used first : ℕ → ℕ) (some more : List (ℕ → ℕ))
        (index : IndexState) (before after : List IndexState) → length before ≡ length some
        → (table : HoldsTable types pages standing (before ++ after) accepted events used (some ++ more))
        → HoldsIndex index.field pages index.working table.records.cells first
        → HoldsTable types pages standing (before ++ index ∷ after) accepted events used (some ++ first ∷ more) }
{}

/// Each index of a table is one of its cells, and without it the table has the others.
pub fn table_has_each_index()
    ensures others { (types : List ColumnType) (pages : PageMap) (standing : Standing) (accepted : ℕ) (events : List Event) (used first : ℕ → ℕ) (some more : List (ℕ → ℕ))
        (index : IndexState) (before after : List IndexState) → length before ≡ length some
        → HoldsTable types pages standing (before ++ index ∷ after) accepted events used (some ++ first ∷ more)
        → HoldsTable types pages standing (before ++ after) accepted events used (some ++ more) }
    ensures one { (types : List ColumnType) (pages : PageMap) (standing : Standing) (accepted : ℕ) (events : List Event) (used first : ℕ → ℕ) (some more : List (ℕ → ℕ))
        (index : IndexState) (before after : List IndexState) → length before ≡ length some
        → (table : HoldsTable types pages standing (before ++ index ∷ after) accepted events used (some ++ first ∷ more))
        → HoldsIndex index.field pages index.working table.records.cells first }
{}

/// The pages of owners are those of each.
pub fn owners_have_the_pages_of_each()
    ensures { (some more : List (ℕ → ℕ)) (first : ℕ → ℕ) (number : ℕ)
        → all_of (some ++ first ∷ more) number ≡ first number + all_of (some ++ more) number }
{}

/// A table stays with a later version as the one that was accepted last.
pub fn later_table_stays()
    ensures { (types : List ColumnType) (pages : PageMap) (standing : Standing) (indexes : List IndexState) (from to : ℕ) (events : List Event)
        (used : ℕ → ℕ) (uses : List (ℕ → ℕ)) → from ≤ to → HoldsTable types pages standing indexes from events used uses
        → HoldsTable types pages standing indexes to events used uses }
{}

/// The entries of the same cells are the same, in the same tree.
pub fn index_has_its_pages()
    ensures { (field : Field) (pages : PageMap) (root : ℕ) (cells others : List (List ℕ)) (used uses : ℕ → ℕ)
        → HoldsIndex field pages root cells used → HoldsIndex field pages root others uses → (number : ℕ) → used number ≡ uses number }
{}

/// Where an owner's pages are kept, the index that has them stays as it is.
pub fn kept_index_stays()
    ensures { (field : Field) (old new : PageMap) (root : ℕ) (cells : List (List ℕ)) (used : ℕ → ℕ)
        → KeepsPages used old new → HoldsIndex field old root cells used → HoldsIndex field new root cells used }
{}

/// Where the pages of a table and its indexes are kept, they stay as they are.
pub fn kept_table_stays()
    ensures { (types : List ColumnType) (old new : PageMap) (standing : Standing) (indexes : List IndexState) (accepted : ℕ) (events : List Event)
        (used : ℕ → ℕ) (uses : List (ℕ → ℕ)) → KeepsPages (used & all_of uses) old new → HoldsTable types old standing indexes accepted events used uses
        → HoldsTable types new standing indexes accepted events used uses }
{}

/// A tree with as many entries as there are cells, each of which has its entry in it, is the index of these cells.
pub fn as_many_entries_are_the_index()
    ensures { (field : Field) (pages : PageMap) (root count : ℕ) (cells entries : List (List ℕ)) (used : ℕ → ℕ) → AreCells field.cell_width cells
        → IsTree (index_form field) pages root entries used → HasSoMany field pages root count → count ≡ length cells
        → HasEntries field pages root cells → HoldsIndex field pages root cells used }
{}

/// The index of cells has as many entries, and each cell has its entry in it.
pub fn index_has_as_many_entries()
    ensures { (field : Field) (pages : PageMap) (root count : ℕ) (cells : List (List ℕ)) (used : ℕ → ℕ) → HoldsIndex field pages root cells used
        → HasSoMany field pages root count → count ≡ length cells }
{}

/// No index of these cells is there where one of them has no entry.
pub fn index_has_each_entry()
    ensures { (field : Field) (pages : PageMap) (root : ℕ) (cells : List (List ℕ)) (used : ℕ → ℕ) → HoldsIndex field pages root cells used
        → LacksEntries field pages root cells → ⊥ }
{}

/// A table and indexes without roots have no pages.
pub fn rootless_table_has_no_pages()
    ensures table { (types : List ColumnType) (pages : PageMap) (standing : Standing) (indexes : List IndexState) (accepted : ℕ) (events : List Event)
        (used : ℕ → ℕ) (uses : List (ℕ → ℕ)) → standing.root ≡ 0
        → HoldsTable types pages standing indexes accepted events used uses → (number : ℕ) → used number ≡ 0 }
    ensures indexes { (types : List ColumnType) (pages : PageMap) (standing : Standing) (indexes : List IndexState) (accepted : ℕ) (events : List Event)
        (used : ℕ → ℕ) (uses : List (ℕ → ℕ)) → AllByRecursion (λ index. index.working ≡ 0) indexes
        → HoldsTable types pages standing indexes accepted events used uses → (number : ℕ) → all_of uses number ≡ 0 }
{}

/// A table stays with indexes of the same fields and roots, whatever their roots at the last commit are.
pub fn table_stays_with_the_same_roots()
    ensures { (types : List ColumnType) (pages : PageMap) (standing : Standing) (were are : List IndexState) (accepted : ℕ) (events : List Event)
        (used : ℕ → ℕ) (uses : List (ℕ → ℕ)) → working_parts are ≡ working_parts were
        → HoldsTable types pages standing were accepted events used uses → HoldsTable types pages standing are accepted events used uses }
{}

/// Indexes are on the same table before and after a change, a commit or an abandonment.
pub fn indexes_stay_on_their_table()
    ensures kept { (types : List ColumnType) (were are : List IndexState) → kept_parts are ≡ kept_parts were → AreOn types were → AreOn types are }
    ensures working { (types : List ColumnType) (were are : List IndexState) → working_parts are ≡ working_parts were → AreOn types were → AreOn types are }
{}

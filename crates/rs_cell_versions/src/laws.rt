//! These laws say what each version sees after a cell is added, ended or cleared.

ghost use Rattle.std.specs.Prelude.{◌≡◌, ◌<◌, ◌≤◌, ◌-◌, ◌^◌, ◌↔◌, ℕ, List, Contains, IsPermutation, IsTrue, count_by, filter, length, map, min};
ghost use Rattle.std.specs.List.{AllByRecursion};
ghost use Rattle.rs_pages.specs.PageMap.{PageMap};
ghost use Rattle.rs_records.specs.Order.{Ascends};
ghost use Rattle.rs_tree.specs.Cells.{with_cell, without_cell};
ghost use Rattle.rs_tree.specs.Forms.{form};
ghost use Rattle.rs_cell_versions.specs.Changes.{cleared, with_end, without_cells};
ghost use Rattle.rs_cell_versions.specs.Version.{IsDated, LastsOnce, born_of, ended, is_clearable, is_dead, is_living, lasting, sees};
ghost use Rattle.rs_cell_versions.specs.Versioned.{HoldsCells, Standing};
ghost use Rattle.rs_cell_versions.specs.declared.cell.TheConstants.{END_BYTES, LIVING, VERSION_BYTES};

use rs_tree::Summary;

/// The numbers of the bytes in a cell are these.
pub fn cells_end_in_those_bytes()
    ensures version_bytes { VERSION_BYTES ≡ 20 }
    ensures end_bytes { END_BYTES ≡ 8 }
    ensures living { LIVING ≡ 2 ^ 64 - 1 }
{}

/// From its birth on a version sees a living cell that is added among what it saw.
pub fn added_cell_is_seen_from_its_birth()
    ensures { (version : ℕ) (cell : List ℕ) (cells : List (List ℕ)) → version < LIVING → IsTrue (is_living cell)
        → born_of cell ≤ version → filter (sees version) (with_cell cell cells) ≡ with_cell cell (filter (sees version) cells) }
{}

/// A version before its birth sees what it saw.
pub fn added_cell_is_not_seen_before_its_birth()
    ensures { (version : ℕ) (cell : List ℕ) (cells : List (List ℕ)) → Ascends cells
        → version < born_of cell → filter (sees version) (with_cell cell cells) ≡ filter (sees version) cells }
{}

/// Versions before its end see an ended cell as they did, but for that end.
pub fn ended_cell_is_seen_before_its_end()
    ensures { (at version : ℕ) (cell : List ℕ) (cells : List (List ℕ)) → at < version → version < LIVING → 20 ≤ length cell
        → IsTrue (is_living cell) → Ascends cells → Contains cells cell → (Contains cells (ended version cell) → ⊥)
        → IsPermutation (map lasting (filter (sees at) (with_end version cell cells))) (map lasting (filter (sees at) cells)) }
{}

/// Where no two cells are the same but for their ends, versions before its end see an ended cell at its place.
pub fn ended_cell_keeps_its_place_before_its_end()
    ensures { (at version : ℕ) (cell : List ℕ) (cells : List (List ℕ)) → at < version → version < LIVING → 20 ≤ length cell
        → IsTrue (is_living cell) → Ascends cells → Contains cells cell
        → AllByRecursion (λ other. length other ≡ length cell) cells → LastsOnce cells
        → map lasting (filter (sees at) (with_end version cell cells)) ≡ map lasting (filter (sees at) cells) }
{}

/// From its end on no version sees an ended cell, and each sees all else that it saw.
pub fn ended_cell_is_not_seen_from_its_end_on()
    ensures { (at version : ℕ) (cell : List ℕ) (cells : List (List ℕ)) → version ≤ at → version < LIVING → Ascends cells
        → filter (sees at) (with_end version cell cells) ≡ without_cell cell (filter (sees at) cells) }
{}

/// Clearing takes nothing away that a version from the oldest on sees.
pub fn clearing_takes_nothing_that_is_seen()
    ensures { (version oldest most : ℕ) (dead cells : List (List ℕ)) → oldest ≤ version → Ascends cells
        → filter (sees version) (without_cells (cleared oldest most dead) cells) ≡ filter (sees version) cells }
{}

/// As many cells are cleared as are wanted, or all that no version from the oldest on sees.
pub fn clearing_takes_as_many_as_there_are<S: Summary>()
    ensures { (width : ℕ) (pages : PageMap) (standing : Standing) (cells : List (List ℕ)) (used : ℕ → ℕ) (oldest most : ℕ)
        → HoldsCells (form S.Summary width) pages standing cells used
        → length (cleared oldest most standing.dead) ≡ min most (count_by (is_clearable oldest) cells) }
{}

/// The version up to which cells are dated sees those that live.
pub fn living_cells_are_seen_at_present()
    ensures { (version : ℕ) (cells : List (List ℕ)) → version < LIVING → AllByRecursion (IsDated version) cells
        → filter (sees version) cells ≡ filter is_living cells }
{}

/// All dead cells are clearable at the version up to which they are dated.
pub fn dead_cells_are_clearable_at_present<S: Summary>()
    ensures all { (version : ℕ) (cells : List (List ℕ)) → AllByRecursion (IsDated version) cells
        → count_by (is_clearable version) cells ≡ count_by is_dead cells }
    ensures listed { (width : ℕ) (pages : PageMap) (standing : Standing) (cells : List (List ℕ)) (used : ℕ → ℕ) (version : ℕ)
        → HoldsCells (form S.Summary width) pages standing cells used
        → AllByRecursion (IsDated version) cells → count_by (is_clearable version) cells ≡ length standing.dead }
{}

/// Cells stay dated with one more that is dated, after an end at the version that was accepted last or before it, and with fewer.
pub fn changed_cells_are_dated()
    ensures added { (version : ℕ) (cell : List ℕ) (cells : List (List ℕ)) → IsDated version cell
        → AllByRecursion (IsDated version) cells → AllByRecursion (IsDated version) (with_cell cell cells) }
    ensures ended { (last version : ℕ) (cell : List ℕ) (cells : List (List ℕ)) → version ≤ last → version < LIVING → 20 ≤ length cell
        → AllByRecursion (IsDated last) cells → AllByRecursion (IsDated last) (with_end version cell cells) }
    ensures cleared { (version : ℕ) (gone cells : List (List ℕ)) → AllByRecursion (IsDated version) cells
        → AllByRecursion (IsDated version) (without_cells gone cells) }
{}

/// No two cells are the same but for their ends with one more that is like none of them, after an end, and with fewer.
pub fn changed_cells_last_once()
    ensures added { (cell : List ℕ) (cells : List (List ℕ))
        → ((other : List ℕ) → Contains cells other → lasting other ≡ lasting cell → ⊥)
        → LastsOnce cells → LastsOnce (with_cell cell cells) }
    ensures ended { (version : ℕ) (cell : List ℕ) (cells : List (List ℕ)) → 20 ≤ length cell → Contains cells cell
        → LastsOnce cells → LastsOnce (with_end version cell cells) }
    ensures cleared { (gone cells : List (List ℕ)) → LastsOnce cells → LastsOnce (without_cells gone cells) }
{}

/// Once some cells are gone, those are left that are none of them, in the same order.
pub fn cells_that_are_left_are_the_others()
    ensures left { (gone cells : List (List ℕ)) (cell : List ℕ) → Ascends cells
        → Contains (without_cells gone cells) cell ↔ (Contains cells cell × (Contains gone cell → ⊥)) }
    ensures ascend { (gone cells : List (List ℕ)) → Ascends cells → Ascends (without_cells gone cells) }
{}

/// All cells are of the tree's width.
pub fn cells_are_of_one_width<S: Summary>()
    ensures { (width : ℕ) (pages : PageMap) (standing : Standing) (cells : List (List ℕ)) (used : ℕ → ℕ)
        → HoldsCells (form S.Summary width) pages standing cells used
        → AllByRecursion (λ cell. length cell ≡ width) cells }
{}

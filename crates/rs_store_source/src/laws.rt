//! These laws say what is shown of a store that stands in a state, and what its counts of records are.

ghost use Rattle.std.specs.Prelude.{◌≡◌, ◌≤◌, ℕ, Some};
ghost use Rattle.std.specs.FinMap as names;
ghost use Rattle.rs_catalog.specs.Definitions.{RouteItem, TableItem};
ghost use Rattle.rs_exec.specs.Snapshot.{Snapshots};
ghost use Rattle.rs_facts.specs.Fact.{Name, Names};
ghost use Rattle.rs_facts.specs.Query.{facts_of};
ghost use Rattle.rs_machine.specs.State.{State, world_of};
ghost use Rattle.rs_planning.specs.Basis.{IndexedColumn, present_basis};
ghost use Rattle.rs_file_meaning.specs.Seen.{born_by};
ghost use Rattle.rs_file_meaning.specs.States.{routes_named, world_at};
ghost use Rattle.rs_store.specs.Kept.{StandsIn, StoreState};
ghost use Rattle.rs_store.specs.Reading.{living_of};
ghost use Rattle.rs_store_source.specs.Shown.{Shows, numbered_as, shown_from};

use rs_disk::Disk;
use rs_store::laws::store_stands_in_one_state;

/// A store that stands in a state shows what the versions see from the oldest one up to the one that was accepted last. At that
/// version a table of the catalogue has on each of its routes, by their numbers, the facts that the state's table of that name has
/// there, and each route its ends; and at each version, on the routes that this version sees, those that its world has, and these
/// routes the ends that they have in it.
pub fn store_shows_the_facts_of_its_state<D: Disk>()
    ensures shows { (oldest : ℕ) (store : StoreState D) (state : State) (stands : StandsIn D.Disk oldest store state)
        → Shows D.Disk oldest store (shown_from store.catalog stands.contents oldest store.file.accepted) }
    ensures facts { (oldest : ℕ) (store : StoreState D) (snapshots : Snapshots) (shows : Shows D.Disk oldest store snapshots)
        → (name : Name) (item : TableItem) → names.get store.catalog.tables name ≡ Some item
        → (route : Name) (on : RouteItem) → names.get store.catalog.routes route ≡ Some on → (k : ℕ)
        → (snapshots store.file.accepted).rows (numbered_as item) on.number k ≡ facts_of (names.get shows.state.tables name) route k }
    ensures ends { (oldest : ℕ) (store : StoreState D) (snapshots : Snapshots) → Shows D.Disk oldest store snapshots
        → (route : Name) (on : RouteItem) → names.get store.catalog.routes route ≡ Some on
        → (snapshots store.file.accepted).ends on.number ≡ Some on.ends }
    ensures live { (oldest : ℕ) (store : StoreState D) (snapshots : Snapshots) (shows : Shows D.Disk oldest store snapshots)
        → (version : ℕ) → oldest ≤ version → version ≤ store.file.accepted
        → (name : Name) (item : TableItem) → names.get store.catalog.tables name ≡ Some item
        → (route : Name) (on : RouteItem) → names.get (routes_named (born_by version shows.stands.contents.definitions.routes)) route ≡ Some on → (k : ℕ)
        → (snapshots version).rows (numbered_as item) on.number k ≡ facts_of (names.get (world_at shows.stands.contents version).tables name) route k }
    ensures ends_live { (oldest : ℕ) (store : StoreState D) (snapshots : Snapshots) (shows : Shows D.Disk oldest store snapshots)
        → (version : ℕ) → oldest ≤ version → version ≤ store.file.accepted
        → (route : Name) (on : RouteItem) → names.get (routes_named (born_by version shows.stands.contents.definitions.routes)) route ≡ Some on
        → (snapshots version).ends on.number ≡ names.get (world_at shows.stands.contents version).routes route }
{
    store_stands_in_one_state::<D>();
}

/// Of each table of the catalogue as many records live as a plan is chosen by: as the table has maximal runs in the state.
pub fn living_records_are_the_runs_of_the_state<D: Disk>()
    ensures { (oldest : ℕ) (store : StoreState D) (state : State) → StandsIn D.Disk oldest store state
        → (name : Name) (item : TableItem) → names.get store.catalog.tables name ≡ Some item → (indexes : Names IndexedColumn)
        → (present_basis (world_of state) indexes).record_count name ≡ living_of store.file item.number }
{
    store_stands_in_one_state::<D>();
}

//! Where the routes of a store start and end.

ghost use Rattle.std.specs.Prelude.{◌≡◌};
ghost use Rattle.rs_exec.specs.Snapshot.{Snapshots};
ghost use Rattle.rs_store.specs.Versions.{routes_by};
ghost use Rattle.rs_store_source.specs.Shown.{Shows, ends_with};

use rs_catalog::{Catalog, Ends};
use rs_disk::Disk;
use rs_store::Store;

/// Where the route of this number starts and ends, among those that the version sees. There is none at a version before
/// the oldest one or after the one that was accepted last. It takes no memory. A route has the same ends as long as it is
/// there.
pub fn ends_asked<D: Disk>(store: &Store<D>, oldest: u64, route: u32, version: u64) -> Option<Ends>
    ensures { (snapshots : Snapshots) → Shows D.Disk oldest store.now snapshots → result ≡ (snapshots version).ends route }
{
    if version < oldest || store.accepted() < version {
        return None;
    }
    ends_among(store.catalog(), route, version)
}

/// The ends of the route with this number, of those in the catalogue that were born by the version.
fn ends_among(catalog: &Catalog, route: u32, version: u64) -> Option<Ends>
    ensures { result ≡ ends_with (routes_by version catalog.now) route }
{
    for (_, entry) in catalog.routes() {
        if entry.number() == route && entry.born() <= version {
            return Some(entry.ends());
        }
    }
    None
}

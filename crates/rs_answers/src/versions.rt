//! A source of spans that keeps versions: it shows the routes and the referents of each, beside their rows.
//!
//! What a version shows is a relation, since a source may keep what no value of its own shows.

ghost use Rattle.std.specs.Prelude.{◌≡◌, ◌≤◌, ℕ, IfErr, IfOk, map};
ghost use Rattle.std.specs.FinMap as names;
ghost use Rattle.rs_answers.specs.Routes.{entry_of};
ghost use Rattle.rs_answers.specs.Shown.{HasRowsAt};
ghost use Rattle.rs_answers.specs.Versions.{SeenVersion};
ghost use Rattle.rs_catalog.specs.Referents.{referents_on};
ghost use Rattle.rs_exec.specs.Snapshot.{Snapshots};
ghost use Rattle.rs_machine.specs.declared.limits.TheConstants.{ROUTES};

use rs_catalog::{NamedRoute, RouteReferents};
use rs_exec::Source;
use rs_refusal::Refusal;
use std::alloc::Global;

/// A source of spans that shows, at each live version, its routes and their referents.
///
/// As calls of [`Source`], these leave the source as it was for what it stands for, and it tells why they are refused.
pub trait Versions: Source {
    /// What it shows at a version. At a version that isn't live it shows nothing.
    ghost shows: { Self → ℕ → SeenVersion → Type 0 };

    /// The routes of a version, in the order of their names.
    fn routes_at(&mut self, alloc: Global, version: u64) -> Result<Vec<NamedRoute>, Refusal>
        ensures shown { IfOk result (λ routes. (seen : SeenVersion) → shows self.old version seen → map entry_of routes.items ≡ names.entries seen.routes) }
        ensures stays { (snapshots : Snapshots) → Self.is self.old snapshots → Self.is self.new snapshots }
        ensures passes { Self.passes self.old self.new }
        ensures wants { IfErr result (λ why. Self.wants why self.old self.new) };

    /// The referents of the route of this number at a version. Other routes may be left out.
    fn referents_at(
        &mut self,
        alloc: Global,
        route: u32,
        version: u64,
    ) -> Result<RouteReferents, Refusal>
        ensures shown { IfOk result (λ referents. (seen : SeenVersion) → shows self.old version seen → referents_on referents route ≡ seen.referents route) }
        ensures stays { (snapshots : Snapshots) → Self.is self.old snapshots → Self.is self.new snapshots }
        ensures passes { Self.passes self.old self.new }
        ensures wants { IfErr result (λ why. Self.wants why self.old self.new) };

    /// What passes shows what it showed.
    ghost shows_stay: { (old new : Self) → Self.passes old new → (version : ℕ) (seen : SeenVersion) → shows old version seen → shows new version seen };

    /// The rows that it shows at a version are those of a snapshot that it stands for.
    ghost shows_rows: { (source : Self) (version : ℕ) (seen : SeenVersion) → shows source version seen → HasRowsAt Self.is source version seen.snapshot };

    /// It shows no more routes than there may be.
    ghost shows_few: { (source : Self) (version : ℕ) (seen : SeenVersion) → shows source version seen → names.len seen.routes ≤ ROUTES };
}

//! The store of a file as it is looked at: by queries at the version that was accepted last, and by cursors at that of their opening.
//!
//! A read leaves all that is kept as it was, whatever it answers.

ghost use Rattle.std.specs.Prelude.{◌≡◌, IfOk, map};
ghost use Rattle.rs_answers.specs.Routes.{entry_of};
ghost use Rattle.rs_store_source.specs.Versions.{routes_by};

use rs_answers::{InMemory, Versions};
use rs_catalog::{Catalog, Ends, NamedRoute, RouteReferents};
use rs_disk::Disk;
use rs_exec::{Asked, Part, SoughtValue, Source};
use rs_facts::Span;
use rs_refusal::Refusal;
use rs_store_source::rs_store::Store;
use rs_store_source::{ends_asked, spans_asked, spans_of_value_asked};
use std::alloc::{AllocError, Global};

// decision: oldest-version
/// A store, and the oldest version that is looked at.
#[derive(Drop)]
pub struct LiveStore<D: Disk> {
    pub(crate) store: Store<D>,
    pub(crate) oldest: u64,
}

impl<D: Disk> Source for LiveStore<D> {
    ghost use Rattle.std.specs.Prelude.{refl};
    ghost use Rattle.std.proofs.Common.{◌∙◌, inl};
    ghost use Rattle.rs_engine.specs.Living.{wants_from_later};
    ghost use Rattle.rs_engine.specs.Reads.{ReadsFrom, WantsFrom};
    ghost use Rattle.rs_store_source.proofs.Passing.{passes_refl, passes_trans};
    ghost use Rattle.rs_store_source.specs.Shown.{Shows};

    ghost is = { λ live snapshots. Shows D.Disk live.oldest live.store snapshots };

    ghost passes = { λ old new. ReadsFrom D.Disk old.oldest old.store new.oldest new.store };

    ghost wants = { λ why old new. WantsFrom D.Disk why old.oldest old.store new.store };

    fn spans(&mut self, alloc: Global, asked: &Asked, part: Part) -> Result<Vec<Span>, Refusal> {
        spans_asked(alloc, &mut self.store, self.oldest, asked, part)
    }

    fn spans_of_value(
        &mut self,
        alloc: Global,
        asked: &Asked,
        part: Part,
        sought: SoughtValue<'_>,
    ) -> Result<Vec<Span>, Refusal> {
        spans_of_value_asked(alloc, &mut self.store, self.oldest, asked, part, sought)
    }

    fn indexed_column(&self, index: u32) -> Option<u8> {
        for (_, entry) in self.store.catalog().indexes() {
            if entry.number() == index {
                return Some(entry.column());
            }
        }
        None
    }

    fn ends_at(&self, route: u32, version: u64) -> Option<Ends> {
        ends_asked(&self.store, self.oldest, route, version)
    }

    ghost passes_refl = { λ live. record { store = passes_refl _ live.store; oldest_stays = refl } };

    ghost passes_trans = { λ a b c one more. record { store = passes_trans _ a.store b.store c.store one.store more.store; oldest_stays = more.oldest_stays ∙ one.oldest_stays } };

    ghost wants_later = { λ why a b c passed wanted. wants_from_later _ why a.oldest a.store b.oldest b.store c.store passed wanted };

    ghost wants_memory = { λ a b passed. inl refl };
}

impl<D: Disk> InMemory for LiveStore<D> {
    ghost definitions = { λ live. live.store.catalog };

    ghost held_referents = { λ live. live.store.referents };

    fn catalog(&self) -> &Catalog {
        self.store.catalog()
    }

    fn referents(&self) -> &RouteReferents {
        self.store.referents()
    }

    ghost definitions_stay = { λ old new reads. reads.store.keeps.catalog };

    ghost referents_stay = { λ old new reads. reads.store.keeps.referents };
}

impl<D: Disk> Versions for LiveStore<D> {
    ghost use Rattle.rs_engine.specs.Living.{rows_there, routes_few, snapshots_of, snapshots_shown, version_stays};
    ghost use Rattle.rs_engine.specs.Reads.{ShowsVersion};

    ghost shows = { λ live version seen. ShowsVersion D.Disk live.oldest live.store version seen };

    fn routes_at(&mut self, alloc: Global, version: u64) -> Result<Vec<NamedRoute>, Refusal> {
        self.store.routes_born_by_are_seen(version);
        Ok(routes_born_by(alloc, self.store.catalog(), version)?)
    }

    fn referents_at(
        &mut self,
        alloc: Global,
        route: u32,
        version: u64,
    ) -> Result<RouteReferents, Refusal> {
        if version < self.oldest || self.store.accepted() < version {
            return Ok(RouteReferents::new(alloc));
        }
        self.store.referents_at(alloc, route, version)
    }

    ghost shows_stay = { λ old new reads version seen shown. version_stays _ old.oldest old.store new.oldest new.store reads version seen shown };

    ghost shows_rows = { λ live version seen shown. record {
      snapshots = snapshots_of _ live.oldest live.store version seen shown;
      is = snapshots_shown _ live.oldest live.store version seen shown;
      there = rows_there _ live.oldest live.store version seen shown;
    } };

    ghost shows_few = { λ live version seen shown. routes_few _ live.oldest live.store version seen shown };
}

/// The routes of the catalogue that were born by the version, in the order of their names. The only refusal is for want of
/// memory.
fn routes_born_by(
    alloc: Global,
    catalog: &Catalog,
    version: u64,
) -> Result<Vec<NamedRoute>, AllocError>
    ensures { IfOk result (λ routes. map entry_of routes.items ≡ routes_by version catalog.now) }
{
    let mut routes = Vec::new(alloc);
    for (name, route) in catalog.routes() {
        if route.born() <= version {
            routes.push(NamedRoute {
                name: *name,
                route: *route,
            })?;
        }
    }
    Ok(routes)
}

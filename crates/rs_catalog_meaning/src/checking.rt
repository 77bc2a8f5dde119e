//! Checks whether the definitions of a file pass the checks and limits of their DEFINE lines, each beside the others.

ghost use Rattle.std.specs.Prelude.{IsOkUnless, OnErr, OnOk};
ghost use Rattle.rs_catalog_meaning.specs.Meaning.{AreMeant};
ghost use Rattle.rs_catalog_pages.specs.Said.{said_catalogue};

use crate::alignments::are_alignments;
use crate::routes::are_routes;
use crate::tables::{are_indexes, are_tables, are_views};
use rs_catalog_pages::StoredCatalogue;
use rs_refusal::Refusal;

/// Ok exactly where each definition passes the checks and limits of its DEFINE line, beside the others, and each list is in the
/// order of names; 94 where not. A line's length and what a view's text says are not looked at. It takes no memory.
pub fn check_meaning(catalogue: &StoredCatalogue) -> Result<(), Refusal>
    ensures meant { OnOk result (AreMeant (said_catalogue catalogue.now)) }
    ensures none { OnErr result (AreMeant (said_catalogue catalogue.now) → ⊥) }
    ensures refused { IsOkUnless result Refusal.DamagedFile }
{
    if are_routes(catalogue.routes.as_slice())
        && are_tables(catalogue.tables.as_slice())
        && are_indexes(catalogue.tables.as_slice(), catalogue.indexes.as_slice())
        && are_views(catalogue.tables.as_slice(), catalogue.views.as_slice())
        && are_alignments(catalogue.routes.as_slice(), catalogue.alignments.as_slice())
    {
        Ok(())
    } else {
        Err(Refusal::DamagedFile)
    }
}

//! The lines of referents, route by route and in the order of their names.

ghost use Rattle.std.specs.Prelude.{map};
ghost use Rattle.rs_dump.specs.Sections.{referent_commands, referents_of_route};
ghost use Rattle.rs_dump.specs.Written.{WritesAll};
ghost use Rattle.rs_methods.specs.Referents.{mark_of};

use crate::put::put_referent;
use crate::stop::Stop;
use rs_catalog::{Catalog, RouteReferents};
use rs_methods::{Name, Referent};
use std::io::Write;

/// Writes the lines of the referents beside START of each route.
pub fn write_referents<W: Write>(
    catalog: &Catalog,
    referents: &RouteReferents,
    line: &mut Vec<u8>,
    output: &mut W,
) -> Result<(), Stop>
    ensures { WritesAll result (referent_commands catalog.now referents.now) (W.contents output.old) (W.contents output.new) }
{
    for (name, route) in catalog.routes() {
        write_referents_of(name, referents.on_route(route.number()), line, output)?;
    }
    Ok(())
}

/// Writes the lines of these referents of a route.
fn write_referents_of<W: Write>(
    route: &Name,
    referents: &[Referent],
    line: &mut Vec<u8>,
    output: &mut W,
) -> Result<(), Stop>
    ensures { WritesAll result (referents_of_route route.now.bytes (map mark_of referents.now)) (W.contents output.old) (W.contents output.new) }
{
    for referent in referents {
        put_referent(line, route, &referent.name, referent.measure, output)?;
    }
    Ok(())
}

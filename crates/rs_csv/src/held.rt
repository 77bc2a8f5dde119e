//! The end with routes: the lines that define them, and those of the records, which were held until the routes were known.

ghost use Rattle.std.specs.Prelude.{◌≡◌, OnErr, OnOk, IfErr, IfOk, ℕ, List, Ok, false};
ghost use Rattle.std.specs.List.{concat};
ghost use Rattle.std.specs.Io.KnownBytes.{Appends, Keeps};
ghost use Rattle.rs_protocol.specs.Puts.{PutsBut};
ghost use Rattle.rs_csv.specs.Output.{EndsTaken, IsQuiet, table_of};
ghost use Rattle.rs_csv.specs.Routes.{DefineRoutes, HaveMet, IsMet, Placed, PutsRoute};
ghost use Rattle.rs_csv.specs.Stops.{IsFailure};

use crate::filter::{Job, Stop};
use crate::made::Made;
use crate::packing::PackedLines;
use crate::progress::Progress;
use crate::routes::{Extent, push_route};
use rs_methods::Name;
use rs_protocol::put_parts;
use std::alloc::Global;
use std::io::Write;

// Adds the line that defines a route. One on which no measure was met has none, which is told.
fn put_route<E: Write>(
    job: &Job<'_>,
    route: (Name, Extent),
    lines: &mut Vec<u8>,
    made: &mut Made,
    errors: &mut E,
) -> Result<(), Stop>
    ensures stops { IfErr result (λ stop. stop ≡ Stop.OutOfMemory) }
    ensures put { OnOk result (PutsRoute job.now.wanted.session route.0.bytes route.1.ends lines.old.items lines.new.items) }
    ensures quiet { OnOk result (IsQuiet made.old.has_told made.new.has_told (E.contents errors.old) (E.contents errors.new)) }
    ensures quote { made.new.told.open_quote ≡ made.old.told.open_quote }
{
    let (name, extent) = route;
    match extent.ends {
        Some(ends) => push_route(job.alloc, job.wanted.session, name, ends, lines)?,
        None => {
            made.has_told = true;
            made.told.tell_unmet(name.as_str(), errors);
        }
    }
    Ok(())
}

// The lines that define the routes.
fn route_lines<E: Write>(job: &Job<'_>, made: &mut Made, errors: &mut E) -> Result<Vec<u8>, Stop>
    ensures stops { IfErr result (λ stop. stop ≡ Stop.OutOfMemory) }
    ensures lines { IfOk result (λ lines. (events : List Placed) → HaveMet made.old.extents events → DefineRoutes job.now.wanted.session (IsMet events) lines.items) }
    ensures quiet { OnOk result (IsQuiet made.old.has_told made.new.has_told (E.contents errors.old) (E.contents errors.new)) }
    ensures quote { made.new.told.open_quote ≡ made.old.told.open_quote }
{
    let mut lines = Vec::new(job.alloc);
    let Some(extents) = made.extents.take() else {
        return Ok(lines);
    };
    for (name, extent) in extents.iter() {
        put_route(job, (*name, *extent), &mut lines, made, errors)?;
    }
    Ok(lines)
}

// Writes the lines that were held.
fn write_held<W: Write>(alloc: Global, held: &PackedLines, output: &mut W) -> Result<(), Stop>
    ensures stops { IfErr result IsFailure }
    ensures sent { OnOk result (Appends (W.contents output.old) (W.contents output.new) (concat held.now)) }
    ensures fault { OnErr result ((lost : List ℕ) × PutsBut (concat held.now) lost (W.contents output.old) (W.contents output.new)) }
{
    let mut text = Vec::new(alloc);
    for place in 0..held.len() {
        text.clear();
        let Ok(()) = held.unpack(place, &mut text) else {
            return Err(Stop::OutOfMemory);
        };
        if let Err(fault) = put_parts(output, &[text.as_slice()]) {
            return Err(Stop::Stream(fault));
        }
    }
    Ok(())
}

/// Writes the lines that define the routes, and those of the records, which were held for them. Says whether something was told.
pub fn write_rest<W: Write, E: Write>(
    job: &Job<'_>,
    progress: &mut Progress,
    output: &mut W,
    errors: &mut E,
) -> Result<bool, Stop>
    ensures stops { IfErr result IsFailure }
    ensures wrote { EndsTaken job.now.wanted (table_of job.now.definition) result progress.old (W.contents output.old) (W.contents output.new) }
    ensures told { IfOk result (λ told. told ≡ false → progress.old.made.has_told ≡ false) }
    ensures quiet { result ≡ Ok false → Keeps (E.contents errors.old) (E.contents errors.new) }
    ensures quote { progress.new.made.told.open_quote ≡ progress.old.made.told.open_quote }
{
    if !job.wanted.defines_routes {
        return Ok(progress.made.has_told);
    }
    let routes = match route_lines(job, &mut progress.made, errors) {
        Ok(routes) => routes,
        Err(stop) => return Err(stop),
    };
    if let Err(fault) = put_parts(output, &[routes.as_slice()]) {
        return Err(Stop::Stream(fault));
    }
    match write_held(job.alloc, &progress.held, output) {
        Ok(()) => Ok(progress.made.has_told),
        Err(stop) => Err(stop),
    }
}

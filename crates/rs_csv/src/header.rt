//! The header: which field gives the route, the place, and each column of the table.

ghost use Rattle.std.specs.Prelude.{◌≡◌, ◌↔◌, ◌<◌, ℕ, List, IfErr, IfOk, OnOk, map, true};
ghost use Rattle.std.specs.Io.KnownBytes.{Keeps};
ghost use Rattle.csv.specs.Records.{fields_of};
ghost use Rattle.rs_csv.specs.Header.{AreScales, IsCalled, IsNamed, IsNumbered, IsPlaceNamed, IsScaled, IsSourceOf};
ghost use Rattle.rs_csv.specs.Output.{IsDefinition, IsPlanOf, table_of};
ghost use Rattle.rs_csv.specs.Stops.{IsMidway};

use crate::definition::Definition;
use crate::filter::{Stop, Wanted};
use crate::names::field_named;
use csv::ByteRecord;
use rs_csv_lines::{Column, Measures, Place, Plan, Scale, Source};
use rs_value::Kind;
use std::alloc::Global;
use std::io::Write;

// The place of the field that gives a column: it has another name in the header, where the words say so.
fn column_field<E: Write>(
    header: &ByteRecord,
    wanted: &Wanted<'_>,
    column: &str,
    errors: &mut E,
) -> Result<usize, Stop>
    ensures stops { IfErr result IsMidway }
    ensures named { IfOk result (λ place. (name : List ℕ) × IsCalled (map (λ words. words.now) wanted.now.columns.now) column.now name
        × IsNamed wanted.now.makes_names (fields_of header.now) name place) }
    ensures quiet { OnOk result (Keeps (E.contents errors.old) (E.contents errors.new)) }
{
    for renaming in wanted.columns {
        if let Some((name, other)) = renaming.split_once('=') {
            if name == column {
                return field_named(header, other, wanted.makes_names, errors);
            }
        }
    }
    field_named(header, column, wanted.makes_names, errors)
}

// Whether the number of the record is wanted for a column.
fn is_numbered(wanted: &Wanted<'_>, column: &str) -> bool
    ensures { result ≡ true ↔ IsNumbered wanted.now column.now }
{
    match wanted.number {
        Some(name) => name == column,
        None => false,
    }
}

// What gives the value of a column.
fn column_source<E: Write>(
    header: &ByteRecord,
    wanted: &Wanted<'_>,
    column: &str,
    errors: &mut E,
) -> Result<Source, Stop>
    ensures stops { IfErr result IsMidway }
    ensures source { IfOk result (λ source. IsSourceOf wanted.now (fields_of header.now) column.now source) }
    ensures quiet { OnOk result (Keeps (E.contents errors.old) (E.contents errors.new)) }
{
    if is_numbered(wanted, column) {
        return Ok(Source::Number);
    }
    let place = column_field(header, wanted, column, errors)?;
    Ok(Source::Field(place))
}

// What the numbers of a column are multiplied by: 1, where the words do not say so.
fn column_scale(wanted: &Wanted<'_>, column: &str) -> Result<Scale, Stop>
    ensures scaled { IfOk result (λ scale. IsScaled (map (λ words. words.now) wanted.now.scales.now) column.now scale) }
    ensures stops { IfErr result (λ stop. stop ≡ Stop.NoScale) }
{
    for telling in wanted.scales {
        if let Some((name, text)) = telling.split_once('=') {
            if name == column {
                return match Scale::from_text(text) {
                    Some(scale) => Ok(scale),
                    None => Err(Stop::NoScale),
                };
            }
        }
    }
    Ok(Scale::One)
}

/// What the numbers of each column of a table are multiplied by.
pub fn column_scales(
    alloc: Global,
    definition: &Definition,
    wanted: &Wanted<'_>,
) -> Result<Vec<Scale>, Stop>
    ensures { IfOk result (λ scales. AreScales wanted.now definition.now.columns.items scales.items) }
{
    let mut scales = Vec::new(alloc);
    for column in &definition.columns {
        let scale = column_scale(wanted, column.name.as_str())?;
        scales.push(scale)?;
    }
    Ok(scales)
}

// Which fields say the place of an event of this kind.
fn place_fields<E: Write>(
    kind: Kind,
    header: &ByteRecord,
    wanted: &Wanted<'_>,
    errors: &mut E,
) -> Result<Place, Stop>
    ensures stops { IfErr result IsMidway }
    ensures named { IfOk result (λ place. IsPlaceNamed wanted.now (fields_of header.now) kind place) }
    ensures quiet { OnOk result (Keeps (E.contents errors.old) (E.contents errors.new)) }
{
    match kind {
        Kind::Line => {
            let from = field_named(header, wanted.from, wanted.makes_names, errors)?;
            let to = field_named(header, wanted.to, wanted.makes_names, errors)?;
            Ok(Place::Along { from, to })
        }
        Kind::Point => {
            let at = field_named(header, wanted.at, wanted.makes_names, errors)?;
            Ok(Place::At { at })
        }
    }
}

/// The plan for the records under a header. What it lacks is told.
pub fn make_plan<E: Write>(
    alloc: Global,
    definition: &Definition,
    header: &ByteRecord,
    wanted: &Wanted<'_>,
    scales: &[Scale],
    errors: &mut E,
) -> Result<Plan, Stop>
    requires scaled { AreScales wanted.now definition.now.columns.items scales.now }
    requires in_range { wanted.now.session < 64 }
    requires defines { IsDefinition wanted.now.session definition.now }
    ensures stops { IfErr result IsMidway }
    ensures plan { IfOk result (λ plan. IsPlanOf wanted.now (table_of definition.now) (fields_of header.now) plan) }
    ensures quiet { OnOk result (Keeps (E.contents errors.old) (E.contents errors.new)) }
{
    let route = field_named(header, wanted.route, wanted.makes_names, errors)?;
    let place = place_fields(definition.kind, header, wanted, errors)?;
    let mut columns = Vec::new(alloc);
    for column in &definition.columns {
        let source = column_source(header, wanted, column.name.as_str(), errors)?;
        let column_type = column.column_type;
        let scale = scales[columns.len()];
        columns.push(Column {
            column_type,
            source,
            scale,
        })?;
    }
    Ok(Plan {
        session: wanted.session,
        table: definition.name,
        columns,
        route,
        place,
        measures: Measures {
            rounds: wanted.rounds,
            stations: wanted.stations,
        },
        makes_names: wanted.makes_names,
    })
}

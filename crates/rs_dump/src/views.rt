//! The lines of views, each after those that it names.
//!
//! A view that its DEFINE line would be refused now, one that names such a one, and one that names an alignment that was left out are
//! told and left out; no other is.

ghost use Rattle.std.specs.Prelude.{◌≡◌, ◌≢◌, ◌∷◌, [], ◌++◌, ℕ, IfErr, IfOk, IfSome, OnOk, Contains, List, Option, Some, false, true};
ghost use Rattle.std.specs.FinMap as names;
ghost use Rattle.std.specs.List.{AllByRecursion};
ghost use Rattle.rs_dump.specs.Views.{AreRefused, FrontOfViews, Goes, HasAllThatPass, HasAllViews, IsReady, IsSorted, LacksForAReason, LacksSome, MayLack, NamesOneOf, NamesUnwritten, StopsSorting, WroteViews, known_of, left_out_as, names_of, refused_names};
ghost use Rattle.rs_dump.specs.Written.{StopsWriting};
ghost use Rattle.rs_facts.specs.Fact.{Name};
ghost use Rattle.rs_machine.specs.Opening.{names_alignment, names_query};
ghost use Rattle.rs_machine.specs.State.{has};
ghost use Rattle.rs_syntax.specs.QueryView.{query_tree};

use crate::put::put_view;
use crate::stop::Stop;
use crate::tell::tell_view;
use rs_catalog::uses::{is_same, names_alignment, names_query};
use rs_catalog::{Catalog, RouteReferents, ViewEntry};
use rs_checker::check;
use rs_methods::Name;
use rs_refusal::Refusal;
use rs_syntax::Query;
use std::alloc::Global;
use std::io::Write;

/// What is dumped of a catalogue: its definitions, its referents, and the alignments that were left out.
#[derive(Clone, Copy)]
pub struct Defined<'a> {
    /// Where memory is taken.
    pub alloc: Global,
    /// The definitions.
    pub catalog: &'a Catalog,
    /// The referents of each route.
    pub referents: &'a RouteReferents,
    /// The names of the alignments that were left out.
    pub left_out: &'a [Name],
}

/// A view that was left out, and what its DEFINE line would be refused.
#[derive(Clone, Copy)]
pub struct LeftOut {
    /// Its name.
    pub name: Name,
    /// The refusal.
    pub refusal: Refusal,
}

/// The views that were written, in that order, and those that were refused.
#[derive(Drop)]
pub struct Sorted {
    /// The names of those that were written.
    pub written: Vec<Name>,
    /// Those that were refused.
    pub refused: Vec<LeftOut>,
}

/// Writes the lines of the views, each after those that it names, and says whether some were left out.
pub fn write_views<W: Write, E: Write>(
    defined: &Defined<'_>,
    output: &mut W,
    errors: &mut E,
) -> Result<bool, Stop>
    ensures quiet { IfOk result (λ lacks. lacks ≡ false → E.contents errors.new ≡ E.contents errors.old) }
    ensures views { IfOk result (λ lacks. WroteViews (known_of defined.now) lacks (W.contents output.old) (W.contents output.new)) }
    ensures stops { IfErr result (λ stop. StopsWriting stop × FrontOfViews (known_of defined.now) stop (W.contents output.old) (W.contents output.new)) }
{
    let mut sorted = Sorted {
        written: Vec::new(defined.alloc),
        refused: Vec::new(defined.alloc),
    };
    write_rounds(defined, &mut sorted, output)?;
    Ok(tell_others(defined.catalog, &sorted, errors))
}

/// Writes the lines of views that name none but written ones, again and again until there are no more of them. Each round but the last
/// writes one at least, so there are no more rounds than views.
fn write_rounds<W: Write>(
    defined: &Defined<'_>,
    sorted: &mut Sorted,
    output: &mut W,
) -> Result<(), Stop>
    ensures goes { OnOk result (Goes defined.now sorted.old sorted.new (W.contents output.old) (W.contents output.new)) }
    ensures passing { OnOk result ((before : Option (List ℕ)) → IsSorted (known_of defined.now) (names_of sorted.old.written.items) before (W.contents output.old)
        → AreRefused (known_of defined.now) sorted.old.refused.items → HasAllThatPass (known_of defined.now) (names_of sorted.new.written.items)) }
    ensures stops { IfErr result (λ stop. StopsSorting defined.now sorted.old stop (W.contents output.old) (W.contents output.new)) }
{
    for _round in 0..defined.catalog.views_len() {
        let before = sorted.written.len();
        write_ready(defined, sorted, output)?;
        if sorted.written.len() == before {
            return Ok(());
        }
    }
    Ok(())
}

/// Writes the lines of the views that name none but written ones.
fn write_ready<W: Write>(
    defined: &Defined<'_>,
    sorted: &mut Sorted,
    output: &mut W,
) -> Result<(), Stop>
    ensures goes { OnOk result (Goes defined.now sorted.old sorted.new (W.contents output.old) (W.contents output.new)) }
    ensures passing { OnOk result (sorted.new.written.items ≡ sorted.old.written.items → AreRefused (known_of defined.now) sorted.old.refused.items
        → HasAllThatPass (known_of defined.now) (names_of sorted.old.written.items)) }
    ensures stops { IfErr result (λ stop. StopsSorting defined.now sorted.old stop (W.contents output.old) (W.contents output.new)) }
{
    for (name, view) in defined.catalog.views() {
        write_one(defined, sorted, name, view, output)?;
    }
    Ok(())
}

/// Writes the line of a view if it may be written.
fn write_one<W: Write>(
    defined: &Defined<'_>,
    sorted: &mut Sorted,
    name: &Name,
    view: &ViewEntry,
    output: &mut W,
) -> Result<(), Stop>
    requires there { names.get defined.now.catalog.now.views name.now.bytes ≡ Some view.now }
    ensures goes { OnOk result (Goes defined.now sorted.old sorted.new (W.contents output.old) (W.contents output.new)) }
    ensures lacks { OnOk result (sorted.new.written.items ≡ sorted.old.written.items → AreRefused (known_of defined.now) sorted.old.refused.items
        → LacksForAReason (known_of defined.now) (names_of sorted.old.written.items) (name.now.bytes, view.now)) }
    ensures stops { IfErr result (λ stop. StopsSorting defined.now sorted.old stop (W.contents output.old) (W.contents output.new)) }
{
    if !may_be_written(defined, sorted, name, view) {
        return Ok(());
    }
    write_view(defined, sorted, name, view, output)
}

/// Writes the line of a view, or notes why it would be refused.
fn write_view<W: Write>(
    defined: &Defined<'_>,
    sorted: &mut Sorted,
    name: &Name,
    view: &ViewEntry,
    output: &mut W,
) -> Result<(), Stop>
    requires there { names.get defined.now.catalog.now.views name.now.bytes ≡ Some view.now }
    requires once { AllByRecursion (λ other. other ≢ name.now.bytes) (names_of sorted.old.written.items) }
    requires ready { IsReady (known_of defined.now) (names_of sorted.old.written.items) (query_tree view.now.query) }
    ensures goes { OnOk result (Goes defined.now sorted.old sorted.new (W.contents output.old) (W.contents output.new)) }
    ensures lacks { OnOk result (sorted.new.written.items ≡ sorted.old.written.items
        → MayLack (known_of defined.now) (names_of sorted.old.written.items) (query_tree view.now.query)) }
    ensures stops { IfErr result (λ stop. StopsSorting defined.now sorted.old stop (W.contents output.old) (W.contents output.new)) }
{
    match check(
        defined.alloc,
        defined.catalog,
        defined.referents,
        view.query(),
    ) {
        Ok(_checked) => {
            let mut line = Vec::new(defined.alloc);
            put_view(&mut line, name, view.text(), output)?;
            sorted.written.push(*name)?;
        }
        Err(refusal) => note_refusal(sorted, name, refusal)?,
    }
    Ok(())
}

/// Notes what a view is refused. Want of memory says nothing of the view, and is passed on.
fn note_refusal(sorted: &mut Sorted, name: &Name, refusal: Refusal) -> Result<(), Stop>
    ensures known { OnOk result (refusal ≢ Refusal.OutOfMemory) }
    ensures written { OnOk result (sorted.new.written.items ≡ sorted.old.written.items) }
    ensures refused { OnOk result (sorted.new.refused.items ≡ sorted.old.refused.items ++ left_out_as name.now refusal ∷ []) }
    ensures stops { IfErr result (λ stop. stop ≡ Stop.Refused Refusal.OutOfMemory) }
{
    match refusal {
        Refusal::OutOfMemory => Err(Stop::Refused(Refusal::OutOfMemory)),
        _ => {
            sorted.refused.push(LeftOut {
                name: *name,
                refusal,
            })?;
            Ok(())
        }
    }
}

/// Tells of the views that were not written, and says whether there are any.
fn tell_others<E: Write>(catalog: &Catalog, sorted: &Sorted, errors: &mut E) -> bool
    ensures quiet { result ≡ false → E.contents errors.new ≡ E.contents errors.old }
    ensures views { result ≡ false → HasAllViews catalog.now (names_of sorted.now.written.items) }
    ensures lacking { result ≡ true → LacksSome catalog.now (names_of sorted.now.written.items) }
{
    let mut lacks = false;
    for (name, _) in catalog.views() {
        if tell_missing(sorted, name, errors) {
            lacks = true;
        }
    }
    lacks
}

/// Tells of the view if it was not written, and says whether it was not. One that was not refused names one that was left out.
fn tell_missing<E: Write>(sorted: &Sorted, name: &Name, errors: &mut E) -> bool
    ensures quiet { result ≡ false → E.contents errors.new ≡ E.contents errors.old }
    ensures written { result ≡ false → Contains (names_of sorted.now.written.items) name.now.bytes }
    ensures missing { result ≡ true → Contains (names_of sorted.now.written.items) name.now.bytes → ⊥ }
{
    if has_name(&sorted.written, name) {
        return false;
    }
    let refusal = refusal_of(&sorted.refused, name).unwrap_or(Refusal::NoSuchName);
    tell_view(errors, name, &refusal);
    true
}

/// Whether the view is neither written nor refused, and names none but written views and no alignment that was left out.
fn may_be_written(defined: &Defined<'_>, sorted: &Sorted, name: &Name, view: &ViewEntry) -> bool
    requires { names.get defined.now.catalog.now.views name.now.bytes ≡ Some view.now }
    ensures once { result ≡ true → AllByRecursion (λ other. other ≢ name.now.bytes) (names_of sorted.now.written.items) }
    ensures ready { result ≡ true → IsReady (known_of defined.now) (names_of sorted.now.written.items) (query_tree view.now.query) }
    ensures lacks { result ≡ false → AreRefused (known_of defined.now) sorted.now.refused.items
        → LacksForAReason (known_of defined.now) (names_of sorted.now.written.items) (name.now.bytes, view.now) }
{
    if has_name(&sorted.written, name) {
        return false;
    }
    match refusal_of(&sorted.refused, name) {
        Some(_) => false,
        None => is_ready(defined, &sorted.written, view.query()),
    }
}

/// Whether each view that this query names is written, and no alignment that it names was left out.
fn is_ready(defined: &Defined<'_>, written: &[Name], query: &Query) -> bool
    ensures ready { result ≡ true → IsReady (known_of defined.now) (names_of written.now) (query_tree query.now) }
    ensures lacks { result ≡ false → MayLack (known_of defined.now) (names_of written.now) (query_tree query.now) }
{
    if names_one_of(defined.left_out, query) {
        return false;
    }
    names_written(defined.catalog, written, query)
}

/// Whether each view that this query names is written.
fn names_written(catalog: &Catalog, written: &[Name], query: &Query) -> bool
    ensures written { result ≡ true → (other : Name) → has catalog.now.views other ≡ true → names_query other (query_tree query.now) ≡ true → Contains (names_of written.now) other }
    ensures unwritten { result ≡ false → NamesUnwritten catalog.now (names_of written.now) (query_tree query.now) }
{
    for (name, _) in catalog.views() {
        if names_unwritten(written, query, name) {
            return false;
        }
    }
    true
}

/// Whether the query names this view, which is not written.
fn names_unwritten(written: &[Name], query: &Query, name: &Name) -> bool
    ensures written { result ≡ false → names_query name.now.bytes (query_tree query.now) ≡ true → Contains (names_of written.now) name.now.bytes }
    ensures named { result ≡ true → names_query name.now.bytes (query_tree query.now) ≡ true }
    ensures missing { result ≡ true → Contains (names_of written.now) name.now.bytes → ⊥ }
{
    if has_name(written, name) {
        return false;
    }
    names_query(query, name)
}

/// Whether the query names one of these alignments.
fn names_one_of(alignments: &[Name], query: &Query) -> bool
    ensures unnamed { result ≡ false → AllByRecursion (λ alignment. names_alignment alignment (query_tree query.now) ≡ false) (names_of alignments.now) }
    ensures named { result ≡ true → NamesOneOf (names_of alignments.now) (query_tree query.now) }
{
    for name in alignments {
        if names_alignment(query, name) {
            return true;
        }
    }
    false
}

/// Whether the name is among these.
pub fn has_name(names: &[Name], name: &Name) -> bool
    ensures there { result ≡ true → Contains (names_of names.now) name.now.bytes }
    ensures absent { result ≡ false → AllByRecursion (λ other. other ≢ name.now.bytes) (names_of names.now) }
{
    for other in names {
        if is_same(name, other) {
            return true;
        }
    }
    false
}

/// What a view was refused with that is among these.
fn refusal_of(refused: &[LeftOut], name: &Name) -> Option<Refusal>
    ensures { IfSome result (λ _. Contains (refused_names refused.now) name.now.bytes) }
{
    for view in refused {
        if is_same(name, &view.name) {
            return Some(view.refusal);
        }
    }
    None
}

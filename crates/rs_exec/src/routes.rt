//! Routes that a plan is evaluated on, and its rows on each of them.
//!
//! The first route is apart from the others, so that what is evaluated on one route alone takes no memory for lists.

ghost use Rattle.std.specs.Prelude.{◌≡◌, ◌==◌, IfOk, true};
ghost use Rattle.std.specs.List.{list_any};
ghost use Rattle.rs_exec.specs.Routes.{numbers_of, list_of, AreNone, AllAreNone};

use rs_facts::Span;
use std::alloc::{AllocError, Global};

/// Routes that a plan is evaluated on, by their numbers: there is one at least.
#[derive(Clone, Copy)]
pub(crate) struct Routes<'a> {
    /// The version of which rows are asked for.
    pub(crate) version: u64,
    /// The first.
    pub(crate) first: u32,
    /// Those after it.
    pub(crate) others: &'a [u32],
}

/// The rows of a plan on each of some routes, in the order of the routes, each by where they begin.
#[derive(Drop)]
pub(crate) struct RowsOn {
    /// Those on the first.
    pub(crate) first: Vec<Span>,
    /// Those on each after it.
    pub(crate) others: Vec<Vec<Span>>,
}

/// Whether a number is that of one of the routes.
pub(crate) fn is_among(number: u32, routes: Routes<'_>) -> bool
    ensures { result ≡ list_any (λ other. number == other) (numbers_of routes.entry) }
{
    number == routes.first || is_in(number, routes.others)
}

/// Whether a number is among those.
pub(crate) fn is_in(number: u32, numbers: &[u32]) -> bool
    ensures { result ≡ list_any (λ other. number == other) numbers.now }
{
    for other in numbers {
        if number == *other {
            return true;
        }
    }
    false
}

/// Whether there are no rows on any of the routes.
pub(crate) fn are_none(rows: &RowsOn) -> bool
    ensures { result ≡ true → AllAreNone (list_of rows.now) }
{
    rows.first.is_empty() && are_all_empty(rows.others.as_slice())
}

/// Whether each list is empty.
fn are_all_empty(lists: &[Vec<Span>]) -> bool
    ensures { result ≡ true → AllAreNone lists.now }
{
    for rows in lists {
        if !rows.is_empty() {
            return false;
        }
    }
    true
}

/// No rows on each of the routes. The only refusal is for want of memory.
pub(crate) fn none_on(alloc: Global, routes: Routes<'_>) -> Result<RowsOn, AllocError>
    ensures { IfOk result (λ rows. AreNone (numbers_of routes.entry) (list_of rows)) }
{
    let others = none_each(alloc, routes.others)?;
    Ok(RowsOn {
        first: Vec::new(alloc),
        others,
    })
}

/// No rows for each of the numbers.
fn none_each(alloc: Global, numbers: &[u32]) -> Result<Vec<Vec<Span>>, AllocError>
    ensures { IfOk result (λ rows. AreNone numbers.now rows.items) }
{
    let mut rows = Vec::new(alloc);
    for _number in numbers {
        rows.push(Vec::new(alloc))?;
    }
    Ok(rows)
}

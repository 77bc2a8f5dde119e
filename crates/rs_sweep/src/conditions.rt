//! Whether a row meets a condition.

ghost use Rattle.std.specs.Prelude.{◌≡◌};
ghost use Rattle.rs_value.specs.LentView.{lent_datum};
ghost use Rattle.rs_value.specs.View.{literal_datum};
ghost use Rattle.rs_facts.specs.Condition.{is_null, meets, suits};
ghost use Rattle.rs_facts.specs.ConditionView.{condition_of};
ghost use Rattle.rs_sweep.specs.Tests.{all_met, any_met, compared, is_suited};

use rs_facts::{Condition, Term};
use rs_value::{Comparison, KeptRow, LentValue, Literal};
use std::cmp::Ordering;

/// Whether a row meets a condition.
#[cycle(meeting)]
pub fn meets(condition: &Condition, row: &KeptRow) -> bool
    ensures { result ≡ meets (condition_of condition.now) row.now }
{
    match condition {
        Condition::Compare(column, comparison, term) => {
            let value = row.value_at(usize::from(*column));
            let order = match term {
                Term::Column(other) => order_of_values(value, row.value_at(usize::from(*other))),
                Term::Written(literal) => order_with_literal(value, literal),
            };
            is_suited(*comparison, order)
        }
        Condition::TestsNull(column) => is_null(row.value_at(usize::from(*column))),
        Condition::Negated(part) => !meets(part, row),
        Condition::Bracketed(part) => meets(part, row),
        Condition::Both(parts) => meets_all(parts.as_slice(), row),
        Condition::Either(parts) => meets_any(parts.as_slice(), row),
    }
}

/// Whether a row meets each of some conditions.
#[cycle(meeting)]
fn meets_all(parts: &[Condition], row: &KeptRow) -> bool
    ensures { result ≡ all_met parts.now row.now }
{
    for part in parts {
        if !meets(part, row) {
            return false;
        }
    }
    true
}

/// Whether a row meets one of some conditions.
#[cycle(meeting)]
fn meets_any(parts: &[Condition], row: &KeptRow) -> bool
    ensures { result ≡ any_met parts.now row.now }
{
    for part in parts {
        if meets(part, row) {
            return true;
        }
    }
    false
}

fn is_null(value: LentValue<'_>) -> bool
    ensures { result ≡ is_null (lent_datum value.entry) }
{
    match value {
        LentValue::Null => true,
        LentValue::Int(_) => false,
        LentValue::Text(_) => false,
    }
}

/// How two values stand; none where either is NULL.
fn order_of_values(left: LentValue<'_>, right: LentValue<'_>) -> Option<Ordering>
    ensures { result ≡ compared (lent_datum left.entry) (lent_datum right.entry) }
{
    match (left, right) {
        (LentValue::Null, _) => None,
        (_, LentValue::Null) => None,
        (LentValue::Int(one), LentValue::Int(other)) => Some(one.cmp(&other)),
        (LentValue::Text(one), LentValue::Text(other)) => Some(one.cmp(other)),
        (LentValue::Int(_), LentValue::Text(_)) => Some(Ordering::Less),
        (LentValue::Text(_), LentValue::Int(_)) => Some(Ordering::Greater),
    }
}

/// How a value and one that was written out stand; none where either is NULL.
fn order_with_literal(left: LentValue<'_>, right: &Literal) -> Option<Ordering>
    ensures { result ≡ compared (lent_datum left.entry) (literal_datum right.now) }
{
    match (left, right) {
        (LentValue::Null, _) => None,
        (_, Literal::Null) => None,
        (LentValue::Int(one), Literal::Int(other)) => Some(one.cmp(other)),
        (LentValue::Text(one), Literal::Text(other)) => Some(one.cmp(other.as_bytes())),
        (LentValue::Int(_), Literal::Text(_)) => Some(Ordering::Less),
        (LentValue::Text(_), Literal::Int(_)) => Some(Ordering::Greater),
    }
}

/// Whether two values that stand so compare so; not where there is no order of them.
fn is_suited(comparison: Comparison, order: Option<Ordering>) -> bool
    ensures { result ≡ is_suited comparison order }
{
    match order {
        None => false,
        Some(order) => suits(comparison, order),
    }
}

fn suits(comparison: Comparison, order: Ordering) -> bool
    ensures { result ≡ suits comparison order }
{
    match comparison {
        Comparison::Equal => order.is_eq(),
        Comparison::Unequal => order.is_ne(),
        Comparison::Less => order.is_lt(),
        Comparison::LessOrEqual => order.is_le(),
        Comparison::Greater => order.is_gt(),
        Comparison::GreaterOrEqual => order.is_ge(),
    }
}

//! Checks names: whether the names of a list rise, and whether a list has a name.
//!
//! Names are in the order of their bytes, and two are the same where their bytes are.

ghost use Rattle.std.specs.Prelude.{◌≡◌, ◌≢◌, ◌↔◌, ℕ, List, IsTrue, string_bytes};
ghost use Rattle.std.specs.List.{AllByRecursion};
ghost use Rattle.std.specs.Ordering.{is_lt};
ghost use Rattle.rs_facts.specs.Fact.{name_cmp};
ghost use Rattle.rs_catalog_meaning.specs.Meaning.{AreInOrder};

use rs_catalog_pages::{
    StoredAlignment, StoredColumn, StoredIndex, StoredRoute, StoredTable, StoredView,
};

/// What has a name.
pub trait Named {
    ghost name_of: { Self → List ℕ };

    /// Its name.
    fn name(&self) -> &str
        ensures { result.now ≡ name_of self.now };
}

impl Named for StoredRoute {
    ghost name_of = { λ route. string_bytes route.name.value };

    fn name(&self) -> &str {
        self.name.as_str()
    }
}

impl Named for StoredTable {
    ghost name_of = { λ table. string_bytes table.name };

    fn name(&self) -> &str {
        self.name.as_str()
    }
}

impl Named for StoredColumn {
    ghost name_of = { λ column. string_bytes column.name };

    fn name(&self) -> &str {
        self.name.as_str()
    }
}

impl Named for StoredIndex {
    ghost name_of = { λ index. string_bytes index.name };

    fn name(&self) -> &str {
        self.name.as_str()
    }
}

impl Named for StoredView {
    ghost name_of = { λ view. string_bytes view.name };

    fn name(&self) -> &str {
        self.name.as_str()
    }
}

impl Named for StoredAlignment {
    ghost name_of = { λ alignment. string_bytes alignment.name };

    fn name(&self) -> &str {
        self.name.as_str()
    }
}

/// Whether each name comes before the next.
pub fn are_in_order<T: Named>(items: &[T]) -> bool
    ensures { IsTrue result ↔ AreInOrder T.name_of items.now }
{
    items.is_sorted_by(|one, other| comes_before(one, other))
}

// Whether the name of one item comes before that of another.
fn comes_before<T: Named>(one: &T, other: &T) -> bool
    ensures { result ≡ is_lt (name_cmp (T.name_of one.now) (T.name_of other.now)) }
{
    one.name() < other.name()
}

/// Whether no item has this name.
pub fn is_free<T: Named>(items: &[T], name: &str) -> bool
    ensures { IsTrue result ↔ AllByRecursion (λ item. T.name_of item ≢ name.now) items.now }
{
    items.iter().all(|item| item.name() != name)
}

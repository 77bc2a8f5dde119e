//! What is kept by name: routes, tables, and whatever else has a name of its own.
//!
//! It promises the finite map from the bytes of the names to what the values are seen as.

ghost use Rattle.std.specs.Prelude.{◌≡◌, ℕ, ◌<◌, ◌^◌, List, length, Some, OnOk, OnErr};
ghost use Rattle.std.specs.Borrow.{sem};
ghost use Rattle.std.specs.Option.{option_copied, option_copied_mut};
ghost use Rattle.std.specs.FinMap as names;
ghost use Rattle.rs_catalog.specs.Changes.{indexes_of_others};
ghost use Rattle.rs_catalog.specs.Definitions.{IsLeastFree};
ghost use Rattle.rs_catalog.specs.Names.{entries_by_bytes};
ghost use Rattle.rs_catalog.specs.Taken.{none_taken};

use crate::entries::IndexEntry;
use crate::numbers::{Numbered, least_free, take};
use rs_methods::Name;
use std::alloc::{AllocError, Global};
use std::collections::{BTreeMap, btree_map};
use std::marker::Model;

/// Values by name, in the order of the names.
#[derive(Drop)]
pub struct ByName<T> {
    entries: BTreeMap<Name, T>,
}

impl<T> Model for ByName<T> {
    ghost use Rattle.rs_facts.specs.Fact.{Names};
    ghost use Rattle.rs_catalog.specs.Codes.{names_code};
    ghost use Rattle.rs_catalog.specs.Names.{names_of};

    ghost Value = { Names T };

    ghost coded = { names_code T.code };

    ghost view = { λ m. names_of (λ value. value) m.entries.entries };
}

impl<T: Drop> ByName<T> {
    ghost use Rattle.rs_catalog.specs.Lends.{LendsNamed};

    /// Nothing under any name.
    pub fn new(alloc: Global) -> Self
        ensures { result ≡ names.empty }
    {
        ByName {
            entries: BTreeMap::new(alloc),
        }
    }

    /// How many names have a value.
    pub fn len(&self) -> usize
        ensures { result ≡ names.len self.now }
    {
        self.entries.len()
    }

    /// The value under this name.
    pub fn get(&self, name: &Name) -> Option<&T>
        ensures { option_copied result ≡ names.get self.now name.now.bytes }
    {
        self.entries.get(name)
    }

    /// The value under this name, to be changed.
    pub fn get_mut(&mut self, name: &Name) -> Option<&mut T>
        ensures* writes_back { sem 𝓛 (LendsNamed T.row self.entry name.now.bytes result) }
        ensures value { option_copied_mut result ≡ names.get self.old name.now.bytes }
    {
        self.entries.get_mut(name)
    }

    /// Puts a value under a name. For want of memory it changes nothing.
    pub fn define(&mut self, name: Name, value: T) -> Result<(), AllocError>
        ensures ok { OnOk result (self.new ≡ names.insert self.old name.bytes value) }
        ensures err { OnErr result (self.new ≡ self.old) }
    {
        self.entries.insert(name, value)?;
        Ok(())
    }

    /// Takes a name and its value out, if it is there. It takes no memory.
    pub fn remove(&mut self, name: &Name)
        ensures { self.new ≡ names.remove self.old name.now.bytes }
    {
        let _removed = self.entries.remove(name);
    }

    /// The names and the values, in the order of the names.
    pub fn iter(&self) -> btree_map::Iter<'_, Name, T>
        ensures { entries_by_bytes (λ value. value) result ≡ names.entries self.now }
    {
        self.entries.iter()
    }
}

impl<T: Drop + Numbered> ByName<T> {
    /// The least number that no value has, by a place for each number that one may have, of which none is taken yet. There
    /// are more places than values.
    pub(crate) fn free_number(&self, taken: &mut [bool]) -> u32
        requires none { taken.old ≡ none_taken (length taken.old) }
        requires few { length taken.old < 2 ^ 32 }
        requires room { names.len self.now < length taken.old }
        requires each { (name : List ℕ) (value : T) → names.get self.now name ≡ Some value → T.Numbered.number_of value < length taken.old }
        ensures least { IsLeastFree T.Numbered.number_of self.now result }
        ensures below { result < length taken.old }
    {
        for (_, value) in self.iter() {
            take(taken, value.own_number());
        }
        least_free(taken)
    }
}

impl ByName<IndexEntry> {
    /// Takes the indexes of a table out. It takes no memory.
    pub(crate) fn remove_of_table(&mut self, table: &Name)
        ensures { self.new ≡ indexes_of_others table.now.bytes self.old }
    {
        self.entries.retain(|_, index| !index.is_of(table));
    }
}

// Finite maps from names.
ghost use Rattle.std.specs.Prelude.{◌≡◌, [], OnOk, OnErr, not, option_copied};
ghost use Rattle.std.specs.Str.{bytes_eq};
ghost use Rattle.py_value.specs.Maps.{look_up, put, where_name};

use crate::memory::Memory;
use crate::texts::Text;
use std::alloc::Global;
use std::collections::BTreeMap;
use std::marker::Model;

/// A finite map from names. Contracts see it as its entries in the order of the names' bytes.
#[derive(Drop)]
pub struct NameMap<V> {
    inner: BTreeMap<String, V>,
}

impl<V> Model for NameMap<V> {
    ghost use Rattle.std.specs.Coded.{coded_list, coded_ℕ, coded×};
    ghost use Rattle.py_value.specs.Maps.{Map};
    ghost use Rattle.py_value.specs.Named.{name_entries};

    ghost Value = { Map V };

    ghost coded = { coded_list (coded× (coded_list coded_ℕ) V.code) };

    ghost view = { λ m. name_entries m.inner.entries };
}

impl<V> NameMap<V> {
    /// A map without names.
    pub fn new(alloc: Global) -> Self
        ensures { result ≡ [] }
    {
        NameMap {
            inner: BTreeMap::new(alloc),
        }
    }

    /// What the map has at a name.
    pub fn get(&self, name: &str) -> Option<&V>
        ensures { option_copied result ≡ look_up name.now self.now }
    {
        self.inner.get(name)
    }
}

impl<V: Drop> NameMap<V> {
    /// Sets what the map has at a name.
    pub fn put(&mut self, name: Text, item: V) -> Result<(), Memory>
        ensures ok { OnOk result (self.new ≡ put name item self.old) }
        ensures err { OnErr result (self.new ≡ self.old) }
    {
        self.inner.insert(name.into_items(), item)?;
        Ok(())
    }

    /// Takes out what the map has at a name.
    pub fn remove(&mut self, name: &str) -> Option<V>
        ensures taken { result ≡ look_up name.now self.old }
        ensures left { self.new ≡ where_name (λ x. not (bytes_eq x name.now)) self.old }
    {
        self.inner.remove(name)
    }
}

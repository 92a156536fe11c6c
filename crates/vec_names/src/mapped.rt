//! A map from places as a value.

ghost use Rattle.std.specs.Prelude.{◌≡◌, IsTrue, ◌↔◌, OnOk, OnErr, None, Some};
ghost use Rattle.std.specs.Option.{option_copied, option_copied_mut};
ghost use Rattle.std.specs.FinMap as map;

use crate::tid::Tid;
use std::alloc::{AllocError, Global};
use std::collections::BTreeMap;
use std::collections::btree_map::Iter;
use std::marker::Model;

/// A map from places to values, that contracts see as the finite map.
#[derive(Drop)]
pub struct Mapped<V> {
    at: BTreeMap<Tid, V>,
}

impl<V> Model for Mapped<V> {
    ghost use Rattle.std.specs.FinMap as map;
    ghost use Rattle.vec_names.specs.Order.{tid_cmp};
    ghost use Rattle.vec_names.specs.Places.{tid_code};

    ghost Value = { map.FinMap tid_cmp V };

    ghost coded = { map.code tid_code V.code };

    ghost view = { λ a. map.from_entries a.at.entries };
}

impl<V> Mapped<V> {
    /// The empty map. It takes no memory.
    pub fn new(alloc: Global) -> Mapped<V>
        ensures { result ≡ map.empty }
    {
        Mapped {
            at: BTreeMap::new(alloc),
        }
    }

    /// How many places have a value.
    pub fn len(&self) -> usize
        ensures { result ≡ map.len self.now }
    {
        self.at.len()
    }

    /// The value at a place.
    pub fn get(&self, place: Tid) -> Option<&V>
        ensures { option_copied result ≡ map.get self.now place }
    {
        self.at.get(&place)
    }
}

impl<V> Mapped<V> {
    ghost use Rattle.std.specs.Prelude.{◌≡◌};
    ghost use Rattle.std.specs.FinMap as map;
    ghost use Rattle.std.specs.Map.Iter.{ShowsInOrder, deref_pair};
    ghost use Rattle.vec_names.specs.declared.tid.Tid.{Tid};

    /// The places that have a value, rising, each with its value.
    pub fn iter(&self) -> Iter<'_, Tid, V>
        ensures rest { result ≡ map.entries self.now }
        ensures runs { ShowsInOrder (deref_pair {K = Tid} {X = V}) }
    {
        self.at.iter()
    }
}

impl<V> Mapped<V> {
    ghost use Rattle.std.specs.Borrow.{sem};
    ghost use Rattle.std.specs.Prelude.{◌≡◌};
    ghost use Rattle.std.specs.Option.{option_copied_mut};
    ghost use Rattle.std.specs.FinMap as map;
    ghost use Rattle.vec_names.specs.Lending.{LendsValue};

    /// The value at a place, to be changed there.
    pub fn get_mut(&mut self, place: Tid) -> Option<&mut V>
        ensures* writes_back { sem 𝓛 (LendsValue V.row self.entry place result) }
        ensures value { option_copied_mut result ≡ map.get self.old place }
    {
        self.at.get_mut(&place)
    }
}

impl<V: Drop> Mapped<V> {
    ghost use Rattle.std.specs.Prelude.{◌≡◌, OnOk, OnErr};
    ghost use Rattle.std.specs.FinMap as map;
    /// Gives a place this value, in place of the one that it has.
    pub fn insert(&mut self, place: Tid, value: V) -> Result<(), AllocError>
        ensures ok { OnOk result (self.new ≡ map.insert self.old place value) }
        ensures err { OnErr result (self.new ≡ self.old) }
    {
        self.at.insert(place, value)?;
        Ok(())
    }

    /// Takes away the value at a place.
    pub fn remove(&mut self, place: Tid) -> Option<V>
        ensures taken { result ≡ map.get self.old place }
        ensures rest { self.new ≡ map.remove self.old place }
    {
        self.at.remove(&place)
    }
}

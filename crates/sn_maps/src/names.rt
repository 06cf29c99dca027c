//! A map in memory by names.
ghost use Rattle.std.specs.Prelude.{◌≡◌, ◌↔◌, IsTrue, OnOk, OnErr, map};
ghost use Rattle.std.specs.FinMap as fin;
ghost use Rattle.std.specs.Vec.{vec_items};

use std::alloc::{AllocError, Global};
use std::collections::BTreeMap;
use std::collections::btree_map::Keys;
use std::marker::Model;

/// Values by names, each of which is a string of bytes. Seen as the finite map of the names to their values.
///
/// Proved: Values by names in memory are one finite map: a lent name is looked up as it is, a change of one name leaves all
/// others, and where memory is refused nothing has changed.
#[derive(Drop)]
pub struct NameMap<V> {
    map: BTreeMap<Vec<u8>, V>,
}

impl<V> Model for NameMap<V> {
    ghost use Rattle.std.specs.Coded.{coded_list, coded_ℕ};
    ghost use Rattle.std.specs.FinMap as fin;
    ghost use Rattle.std.specs.Cmp.Lexicographic.{slice_cmp};
    ghost use Rattle.std.specs.Ordering.{nat_cmp};
    ghost use Rattle.std.specs.Vec.{vec_items};
    ghost use Rattle.sn_maps.specs.Maps.{seen_as};

    ghost Value = { fin.FinMap (slice_cmp nat_cmp) V };

    ghost coded = { fin.code (coded_list coded_ℕ) V.code };

    ghost view = { λ m. seen_as (slice_cmp nat_cmp) vec_items (λ value. value) m.map.entries };
}

impl<V: Copy> NameMap<V> {
    /// No name. It takes no memory.
    pub fn new(alloc: Global) -> NameMap<V>
        ensures { result ≡ fin.empty }
    {
        NameMap {
            map: BTreeMap::new(alloc),
        }
    }

    /// The value of a name.
    pub fn get(&self, name: &[u8]) -> Option<V>
        ensures { result ≡ fin.get self.now name.now }
    {
        self.map.get(name).copied()
    }

    /// Gives a name a value, in place of the one that it had.
    pub fn insert(&mut self, name: Vec<u8>, value: V) -> Result<(), AllocError>
        ensures ok { OnOk result (self.new ≡ fin.insert self.old name.items value) }
        ensures err { OnErr result (self.new ≡ self.old) }
    {
        self.map.insert(name, value)?;
        Ok(())
    }

    /// Takes a name out, if it is there.
    pub fn remove(&mut self, name: &[u8])
        ensures { self.new ≡ fin.remove self.old name.now }
    {
        self.map.remove(name);
    }

    /// Whether no name is there.
    pub fn is_empty(&self) -> bool
        ensures { IsTrue result ↔ (self.now ≡ fin.empty) }
    {
        self.map.is_empty()
    }

    /// The names, in the order of their bytes.
    ///
    /// Proved: The names are listed in the order of their bytes.
    pub fn names(&self) -> Keys<'_, Vec<u8>, V>
        ensures { map vec_items result ≡ fin.keys self.now }
    {
        self.map.keys()
    }
}

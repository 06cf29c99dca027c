//! The current id of each object.
ghost use Rattle.std.specs.Prelude.{◌≡◌, IfOk, OnOk, OnErr};
ghost use Rattle.std.specs.FinMap as map;
ghost use Rattle.sn_maps.specs.Maps.{restored, updated};

use std::alloc::{AllocError, Global};
use std::collections::BTreeMap;

/// The current ids, by the numbers of their objects.
#[derive(Drop)]
pub(crate) struct Current {
    map: BTreeMap<u64, u64>,
}

impl Current {
    ghost use Rattle.sn_node_table.specs.Stored.{current_of};

    /// An empty index. It allocates nothing.
    pub fn new(alloc: Global) -> Current
        ensures { current_of result ≡ map.empty }
    {
        Current {
            map: BTreeMap::new(alloc),
        }
    }

    /// The current id of an object.
    pub fn get(&self, inode: u64) -> Option<u64>
        ensures { result ≡ map.get (current_of self.now) inode }
    {
        self.map.get(&inode).copied()
    }

    /// Makes an id the current one of an object. Returns the one before.
    pub fn insert(&mut self, inode: u64, id: u64) -> Result<Option<u64>, AllocError>
        ensures ok { OnOk result (current_of self.new ≡ map.insert (current_of self.old) inode id) }
        ensures old { IfOk result (λ old. old ≡ map.get (current_of self.old) inode) }
        ensures err { OnErr result (current_of self.new ≡ current_of self.old) }
    {
        let old = self.map.insert(inode, id)?;
        Ok(old)
    }

    /// Leaves an object without a current id.
    pub fn remove(&mut self, inode: u64)
        ensures { current_of self.new ≡ map.remove (current_of self.old) inode }
    {
        self.map.remove(&inode);
    }

    /// Undoes an `insert`, given what it returned. It allocates nothing.
    pub fn put_back(&mut self, inode: u64, old: Option<u64>)
        ensures { current_of self.new ≡ restored (current_of self.old) inode old }
    {
        match old {
            Some(id) => self.set(inode, id),
            None => self.remove(inode),
        }
    }

    /// Replaces the current id of an object that has one.
    fn set(&mut self, inode: u64, id: u64)
        ensures { current_of self.new ≡ updated (current_of self.old) inode (λ _. id) }
    {
        if let Some(place) = self.map.get_mut(&inode) {
            *place = id;
        }
    }
}

//! Maps that take memory only when room is made for them.
ghost use Rattle.std.specs.Prelude.{◌≡◌, ◌+◌, ◌<◌, ◌≤◌, [], IsTrue, IfOk, OnOk, vec_len, vec_capacity};
ghost use Rattle.std.specs.Option.{option_copied};
ghost use Rattle.std.specs.FinMap.Entries.{find, put, is_sorted};
ghost use Rattle.sn_overlay.specs.Sorted.{FindsKey, newer_value, put_each, bytes_by_file_block};

use crate::node::{hides_block, hides_names};
use crate::{FileBlock, NodeChange};
use sn_limits::Block;
use sn_model::{Link, Word};
use std::alloc::{AllocError, Global};

/// Values by their keys, held in the order of the keys. An insert can't fail where there is room.
#[derive(Drop)]
pub(crate) struct SortedMap<K: Ord, V> {
    pub(crate) entries: Vec<(K, V)>,
    ghost sorted: { IsTrue (is_sorted K.Ord.cmp entries.items) },
}

impl<K: Ord, V> SortedMap<K, V> {
    /// Takes no memory.
    pub fn new(alloc: Global) -> Self
        ensures { result.entries.items ≡ [] }
    {
        SortedMap {
            entries: Vec::new(alloc),
        }
    }

    // Where the key is, or where it would go.
    fn position(&self, key: &K) -> Result<usize, usize>
        ensures { FindsKey K.cmp key.now self.now.entries.items result }
    {
        self.entries.binary_search_by(|entry| entry.0.cmp(key))
    }

    /// The value at a key.
    pub fn get(&self, key: &K) -> Option<&V>
        ensures { option_copied result ≡ find K.cmp key.now self.now.entries.items }
    {
        match self.position(key) {
            Ok(at) => Some(&self.entries[at].1),
            Err(_) => None,
        }
    }

    /// How many keys have a value.
    pub fn len(&self) -> usize
        ensures { result ≡ vec_len self.now.entries }
    {
        self.entries.len()
    }

    /// Makes room for so many more keys.
    pub fn reserve(&mut self, additional: usize) -> Result<(), AllocError>
        ensures same { self.new.entries.items ≡ self.old.entries.items }
        ensures len { vec_len self.new.entries ≡ vec_len self.old.entries }
        ensures room { OnOk result (vec_len self.new.entries + additional ≤ vec_capacity self.new.entries) }
        ensures kept { vec_capacity self.old.entries ≤ vec_capacity self.new.entries }
    {
        self.entries.reserve(additional)
    }
}

impl<K: Ord + Drop, V: Drop> SortedMap<K, V> {
    /// Gives a key a value, in place of the one that it has.
    pub fn insert(&mut self, key: K, value: V)
        requires room { vec_len self.old.entries < vec_capacity self.old.entries }
        ensures entries { self.new.entries.items ≡ put K.cmp key value self.old.entries.items }
        ensures len { vec_len self.new.entries ≤ vec_len self.old.entries + 1 }
        ensures kept { vec_capacity self.old.entries ≤ vec_capacity self.new.entries }
    {
        match self.position(&key) {
            Ok(at) => self.entries[at].1 = value,
            Err(at) => drop(self.entries.insert(at, (key, value))),
        }
    }

    /// Gives each of these keys its value.
    pub fn extend(&mut self, newer: SortedMap<K, V>)
        requires room { vec_len self.old.entries + vec_len newer.entries ≤ vec_capacity self.old.entries }
        ensures entries { self.new.entries.items ≡ put_each K.cmp newer_value newer.entries.items self.old.entries.items }
        ensures len { vec_len self.new.entries ≤ vec_len self.old.entries + vec_len newer.entries }
        ensures kept { vec_capacity self.old.entries ≤ vec_capacity self.new.entries }
    {
        for (key, value) in newer.entries {
            self.insert(key, value);
        }
    }
}

impl SortedMap<u16, NodeChange> {
    /// A copy.
    pub fn copy(&self, alloc: Global) -> Result<Self, AllocError>
        ensures { IfOk result (λ copy. copy.entries.items ≡ self.now.entries.items) }
    {
        let mut entries = Vec::with_capacity(alloc, self.entries.len())?;
        for entry in &self.entries {
            entries.push((entry.0, entry.1.copy()))?;
        }
        Ok(SortedMap { entries })
    }

    ghost use Rattle.std.specs.Ordering.{nat_cmp};
    ghost use Rattle.sn_overlay.specs.Merges.{change_over};

    /// Lays newer changes of nodes over these.
    pub fn lay_over(&mut self, newer: SortedMap<u16, NodeChange>)
        requires room { vec_len self.old.entries + vec_len newer.entries ≤ vec_capacity self.old.entries }
        ensures entries { self.new.entries.items ≡ put_each nat_cmp change_over newer.entries.items self.old.entries.items }
        ensures len { vec_len self.new.entries ≤ vec_len self.old.entries + vec_len newer.entries }
        ensures kept { vec_capacity self.old.entries ≤ vec_capacity self.new.entries }
    {
        for (number, change) in newer.entries {
            let change = change.over(self.get(&number));
            self.insert(number, change);
        }
    }
}

impl SortedMap<Link, Option<u16>> {
    /// A copy.
    pub fn copy(&self, alloc: Global) -> Result<Self, AllocError>
        ensures { IfOk result (λ copy. copy.entries.items ≡ self.now.entries.items) }
    {
        let mut entries = Vec::with_capacity(alloc, self.entries.len())?;
        for entry in &self.entries {
            entries.push((copied_link(alloc, &entry.0)?, entry.1))?;
        }
        Ok(SortedMap { entries })
    }

    ghost use Rattle.std.specs.Prelude.{not, ◌==◌};
    ghost use Rattle.std.specs.Ordering.{nat_cmp};
    ghost use Rattle.std.specs.FinMap.Entries.{where_key};
    ghost use Rattle.sn_model.specs.Tree.{link_cmp};
    ghost use Rattle.sn_overlay.specs.Layers.{hides_names};

    /// Removes the names that newer changes of nodes hide.
    pub fn retain_seen(&mut self, nodes: &SortedMap<u16, NodeChange>)
        ensures entries { self.new.entries.items ≡ where_key link_cmp (λ link. not (hides_names (find nat_cmp link.directory nodes.now.entries.items))) self.old.entries.items }
        ensures len { vec_len self.new.entries ≤ vec_len self.old.entries }
        ensures kept { vec_capacity self.new.entries ≡ vec_capacity self.old.entries }
    {
        self.entries
            .retain(|entry| !hides_names(nodes.get(&entry.0.directory)));
    }

    /// Removes the names of a directory.
    pub fn retain_others(&mut self, directory: u16)
        ensures entries { self.new.entries.items ≡ where_key link_cmp (λ link. not (link.directory == directory)) self.old.entries.items }
        ensures len { vec_len self.new.entries ≤ vec_len self.old.entries }
        ensures kept { vec_capacity self.new.entries ≡ vec_capacity self.old.entries }
    {
        self.entries.retain(|entry| entry.0.directory != directory);
    }
}

fn copied_link(alloc: Global, link: &Link) -> Result<Link, AllocError>
    ensures { IfOk result (λ copy. copy ≡ link.now) }
{
    Ok(Link {
        directory: link.directory,
        name: Word::new(alloc, link.name.as_bytes())?,
    })
}

impl SortedMap<FileBlock, Box<Block>> {
    /// A copy: the same bytes at the same indices.
    pub fn copy(&self, alloc: Global) -> Result<Self, AllocError>
        ensures { IfOk result (λ copy. bytes_by_file_block copy.entries.items ≡ bytes_by_file_block self.now.entries.items) }
    {
        let mut entries = Vec::with_capacity(alloc, self.entries.len())?;
        for entry in &self.entries {
            entries.push((entry.0, Box::new(alloc, *entry.1)?))?;
        }
        Ok(SortedMap { entries })
    }

    ghost use Rattle.std.specs.Prelude.{not, ◌==◌};
    ghost use Rattle.std.specs.Ordering.{nat_cmp};
    ghost use Rattle.std.specs.FinMap.Entries.{where_key};
    ghost use Rattle.sn_overlay.specs.Keys.{file_block_cmp};
    ghost use Rattle.sn_overlay.specs.Layers.{hides_block};

    /// Removes the blocks that newer changes of nodes hide.
    pub fn retain_seen(&mut self, nodes: &SortedMap<u16, NodeChange>)
        ensures entries { self.new.entries.items ≡ where_key file_block_cmp (λ file_block. not (hides_block (find nat_cmp file_block.file nodes.now.entries.items) file_block.index)) self.old.entries.items }
        ensures len { vec_len self.new.entries ≤ vec_len self.old.entries }
        ensures kept { vec_capacity self.new.entries ≡ vec_capacity self.old.entries }
    {
        self.entries.retain(|entry| !hides_block(nodes.get(&entry.0.file), entry.0.index));
    }

    /// Removes the blocks of a file.
    pub fn retain_others(&mut self, file: u16)
        ensures entries { self.new.entries.items ≡ where_key file_block_cmp (λ file_block. not (file_block.file == file)) self.old.entries.items }
        ensures len { vec_len self.new.entries ≤ vec_len self.old.entries }
        ensures kept { vec_capacity self.new.entries ≡ vec_capacity self.old.entries }
    {
        self.entries.retain(|entry| entry.0.file != file);
    }
}

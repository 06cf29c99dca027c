ghost use Rattle.std.specs.Prelude.{◌≡◌, ℕ, ◌+◌, ◌<◌, ◌≤◌, ◌^◌, true, is_some, length, IfOk, OnOk, OnErr, Some, None};
ghost use Rattle.sn_model.specs.Changes.{file_at, overwritten, resized};
ghost use Rattle.sn_model.specs.Tree.{link_cmp};
ghost use Rattle.sn_walk.specs.Views.{is_directory};
ghost use Rattle.std.specs.Option.{option_map, option_copied};
ghost use Rattle.std.specs.FinMap as map;
ghost use Rattle.sn_nodes.specs.Tally.{IsTalliedIn, bare_at};

use sn_file_bytes::FileBytes;
use sn_limits::Kind;
use sn_model::StoredAcl;
use sn_walk::Attributes;
use std::alloc::{AllocError, Global};
use std::collections::BTreeMap;

/// Whether it is the kind of a directory.
pub fn is_directory(kind: Kind) -> bool
    ensures { result ≡ is_directory kind }
{
    match kind {
        Kind::File => false,
        Kind::Directory => true,
    }
}

/// What calls give a node: its owner, its S bits and its ACLs.
#[derive(Drop)]
pub struct StoredOwnership {
    pub owner: u32,
    pub group: u32,
    pub set_gid: bool,
    pub sticky: bool,
    pub acl: StoredAcl,
    pub default_acl: Option<StoredAcl>,
}

/// What is kept beside a node, so that no name is counted over the whole tree.
#[derive(Clone, Copy)]
pub struct Counts {
    /// How many names a directory has. A file has 0.
    pub names: u64,
    /// How many names stand for the node.
    pub links: u16,
    /// The directory that a directory is in. That of the root or of a file says nothing.
    pub parent: u16,
}

impl Counts {
    pub const NONE: Counts = Counts {
        names: 0,
        links: 0,
        parent: 0,
    };
}

/// A node, and what is kept beside it.
#[derive(Drop)]
pub struct StoredNode {
    pub kind: Kind,
    pub ownership: StoredOwnership,
    /// The bytes of a file. A directory has none.
    pub bytes: FileBytes,
    pub counts: Counts,
}

impl StoredNode {
    ghost use Rattle.sn_nodes.specs.Stored.{node_of};
    ghost use Rattle.sn_model.specs.Tree.{Tree, attributes_of, names_for};
    ghost use Rattle.sn_nodes.specs.Tally.{bare_once};

    /// What `stat` answers of the node. A directory has one link and no bytes.
    pub fn attributes(&self) -> Attributes
        ensures { (tree : Tree) (number : ℕ) → self.now.counts.links ≡ names_for tree number → result ≡ attributes_of tree number (node_of self.now) }
    {
        let (links, size) = match self.kind {
            Kind::File => (self.counts.links, self.bytes.size()),
            Kind::Directory => (1, 0),
        };
        Attributes {
            kind: self.kind,
            set_gid: self.ownership.set_gid,
            sticky: self.ownership.sticky,
            owner: self.ownership.owner,
            group: self.ownership.group,
            acl: self.ownership.acl.to_acl(),
            links,
            size,
        }
    }

    /// 1 for a file that no name is counted for, else 0.
    fn nameless(&self) -> u32
        ensures { result ≡ bare_once self.now }
    {
        if is_directory(self.kind) || self.counts.links != 0 {
            0
        } else {
            1
        }
    }
}

/// 1 where there is a file that no name is counted for, else 0.
fn nameless_at(node: &Option<StoredNode>) -> u32
    ensures { result ≡ bare_at node.now }
{
    match node {
        Some(node) => node.nameless(),
        None => 0,
    }
}

/// The nodes by number.
///
/// Proved: The nodes in memory are a finite map by number, each with how many names it has and how many are of it; a change
/// of one changes no other.
#[derive(Drop)]
pub struct Nodes {
    map: BTreeMap<u16, StoredNode>,
    /// How many of them are files that no name is counted for.
    nameless: u32,
    ghost tallied: { IsTalliedIn map.entries nameless },
}

impl Nodes {
    ghost use Rattle.sn_maps.specs.Maps.{filtered, restored, updated};
    ghost use Rattle.sn_nodes.specs.Stored.{node_of, nodes_of, stored_of, with_counts, with_ownership, owned_by, bytes_by, node_bytes_by, counts_of, Recounts, more_at, fewer_at, under};
    ghost use Rattle.sn_nodes.specs.Tally.{bare_in, is_kept};

    /// No node. It takes no memory.
    pub fn new(alloc: Global) -> Nodes
        ensures nodes { nodes_of result ≡ map.empty }
        ensures stored { stored_of result ≡ map.empty }
    {
        Nodes {
            map: BTreeMap::new(alloc),
            nameless: 0,
        }
    }

    /// The node with a number, with what is kept beside it.
    pub fn get(&self, number: u16) -> Option<&StoredNode>
        ensures nodes { option_map node_of (option_copied result) ≡ map.get (nodes_of self.now) number }
        ensures stored { option_copied result ≡ map.get (stored_of self.now) number }
    {
        self.map.get(&number)
    }

    /// Whether the number is that of a file.
    pub fn is_file(&self, number: u16) -> bool
        ensures { (links : map.FinMap link_cmp ℕ) → result ≡ is_some (file_at (record { nodes = nodes_of self.now; links = links }) number) }
    {
        match self.get(number) {
            Some(node) => !is_directory(node.kind),
            None => false,
        }
    }

    /// What is kept beside a node; zeros where there is none.
    pub fn counts(&self, number: u16) -> Counts
        ensures { result ≡ counts_of (map.get (stored_of self.now) number) }
    {
        match self.get(number) {
            Some(node) => node.counts,
            None => Counts::NONE,
        }
    }

    /// Gives a number a node, and hands back the one that it had. It needs no memory where there was
    /// one.
    ///
    /// Proved, also of `Nodes::write` and `Links::insert`: What finds no memory has changed nothing.
    pub fn insert(
        &mut self,
        number: u16,
        node: StoredNode,
    ) -> Result<Option<StoredNode>, AllocError>
        ensures nodes { OnOk result (nodes_of self.new ≡ map.insert (nodes_of self.old) number (node_of node)) }
        ensures stored { OnOk result (stored_of self.new ≡ map.insert (stored_of self.old) number node) }
        ensures old { IfOk result (λ old. old ≡ map.get (stored_of self.old) number) }
        ensures same_nodes { OnErr result (nodes_of self.new ≡ nodes_of self.old) }
        ensures same_stored { OnErr result (stored_of self.new ≡ stored_of self.old) }
        ensures absent { OnErr result (map.get (stored_of self.old) number ≡ None) }
    {
        let added = node.nameless();
        let old = self.map.insert(number, node)?;
        self.nameless = self.nameless + added - nameless_at(&old);
        Ok(old)
    }

    /// Takes a node out, if it is there.
    pub fn remove(&mut self, number: u16)
        ensures nodes { nodes_of self.new ≡ map.remove (nodes_of self.old) number }
        ensures stored { stored_of self.new ≡ map.remove (stored_of self.old) number }
    {
        let old = self.map.remove(&number);
        self.nameless -= nameless_at(&old);
    }

    /// Takes back an `insert`, by what it handed back.
    pub fn put_back(&mut self, number: u16, old: Option<StoredNode>)
        ensures nodes { nodes_of self.new ≡ restored (nodes_of self.old) number (option_map node_of old) }
        ensures stored { stored_of self.new ≡ restored (stored_of self.old) number old }
    {
        match old {
            Some(node) => self.set(number, node),
            None => self.remove(number),
        }
    }

    /// Gives a number that has a node another one. It takes no memory.
    fn set(&mut self, number: u16, node: StoredNode)
        ensures nodes { nodes_of self.new ≡ updated (nodes_of self.old) number (λ _. node_of node) }
        ensures stored { stored_of self.new ≡ updated (stored_of self.old) number (λ _. node) }
    {
        if let Some(place) = self.map.get_mut(&number) {
            let was = place.nameless();
            let is = node.nameless();
            *place = node;
            self.nameless = self.nameless + is - was;
        }
    }

    /// Sets what is kept beside a node.
    pub fn set_counts(&mut self, number: u16, counts: Counts)
        ensures nodes { nodes_of self.new ≡ nodes_of self.old }
        ensures stored { stored_of self.new ≡ updated (stored_of self.old) number (with_counts counts) }
    {
        if let Some(node) = self.map.get_mut(&number) {
            let gone = node.nameless();
            node.counts = counts;
            let added = node.nameless();
            self.nameless = self.nameless + added - gone;
        }
    }

    /// Sets the directory that a node is in.
    pub fn set_parent(&mut self, number: u16, directory: u16)
        ensures nodes { nodes_of self.new ≡ nodes_of self.old }
        ensures stored { stored_of self.new ≡ updated (stored_of self.old) number (under directory) }
    {
        let counts = self.counts(number);
        self.set_counts(
            number,
            Counts {
                parent: directory,
                ..counts
            },
        );
    }

    /// Sets what calls give a node.
    pub fn set_ownership(&mut self, number: u16, ownership: StoredOwnership)
        ensures nodes { nodes_of self.new ≡ updated (nodes_of self.old) number (owned_by ownership) }
        ensures stored { stored_of self.new ≡ updated (stored_of self.old) number (with_ownership ownership) }
    {
        if let Some(node) = self.map.get_mut(&number) {
            node.ownership = ownership;
        }
    }

    /// Puts bytes over those of a file, from an offset on.
    pub fn write(
        &mut self,
        alloc: Global,
        number: u16,
        offset: u64,
        bytes: &[u8],
    ) -> Result<(), AllocError>
        requires { offset + length bytes.now < 2 ^ 64 }
        ensures nodes { OnOk result (nodes_of self.new ≡ updated (nodes_of self.old) number (node_bytes_by (λ old. overwritten old offset bytes.now))) }
        ensures stored { OnOk result (stored_of self.new ≡ updated (stored_of self.old) number (bytes_by (λ old. overwritten old offset bytes.now))) }
        ensures same_nodes { OnErr result (nodes_of self.new ≡ nodes_of self.old) }
        ensures same_stored { OnErr result (stored_of self.new ≡ stored_of self.old) }
    {
        if let Some(node) = self.map.get_mut(&number) {
            node.bytes.write(alloc, offset, bytes)?;
        }
        Ok(())
    }

    /// Cuts a file off, or puts zeros behind its end.
    pub fn set_size(&mut self, number: u16, size: u64)
        ensures nodes { nodes_of self.new ≡ updated (nodes_of self.old) number (node_bytes_by (λ old. resized old size)) }
        ensures stored { stored_of self.new ≡ updated (stored_of self.old) number (bytes_by (λ old. resized old size)) }
    {
        if let Some(node) = self.map.get_mut(&number) {
            node.bytes.set_size(size);
        }
    }

    /// Counts one more name, in a directory and for a number.
    pub fn count_link(&mut self, directory: u16, number: u16)
        requires names { (counts_of (map.get (stored_of self.old) directory)).names + 1 < 2 ^ 64 }
        requires links { (counts_of (map.get (stored_of self.old) number)).links + 1 < 2 ^ 16 }
        ensures nodes { nodes_of self.new ≡ nodes_of self.old }
        ensures stored { Recounts (more_at directory) (more_at number) (stored_of self.old) (stored_of self.new) }
    {
        let counts = self.counts(directory);
        self.set_counts(
            directory,
            Counts {
                names: counts.names + 1,
                ..counts
            },
        );
        let counts = self.counts(number);
        self.set_counts(
            number,
            Counts {
                links: counts.links + 1,
                ..counts
            },
        );
    }

    /// Counts one name less.
    pub fn uncount_link(&mut self, directory: u16, number: u16)
        ensures nodes { nodes_of self.new ≡ nodes_of self.old }
        ensures stored { Recounts (fewer_at directory) (fewer_at number) (stored_of self.old) (stored_of self.new) }
    {
        let counts = self.counts(directory);
        self.set_counts(
            directory,
            Counts {
                names: counts.names.saturating_sub(1),
                ..counts
            },
        );
        let counts = self.counts(number);
        self.set_counts(
            number,
            Counts {
                links: counts.links.saturating_sub(1),
                ..counts
            },
        );
    }

    /// Takes all files away that no name stands for.
    ///
    /// Proved: A settling takes away exactly the files that no name is counted for.
    pub fn settle(&mut self)
        ensures { (number : ℕ) → map.get (stored_of self.new) number ≡ filtered is_kept (map.get (stored_of self.old) number) }
    {
        self.map.retain(|_, node| is_directory(node.kind) || node.counts.links != 0);
        self.nameless = 0;
    }

    /// How many files no name is counted for.
    ///
    /// Proved: How many files no name is counted for is kept through every change.
    pub fn nameless(&self) -> u32
        ensures { result ≡ bare_in (stored_of self.now) }
    {
        self.nameless
    }

    /// The first number from one on that no node has, or 65,536.
    pub fn first_unused(&self, from: u16) -> u32
        ensures low { from ≤ result }
        ensures used { (number : ℕ) → from ≤ number → number < result → is_some (map.get (stored_of self.now) number) ≡ true }
    {
        for number in u32::from(from)..65_536 {
            if self.get(number as u16).is_none() {
                return number;
            }
        }
        65_536
    }
}

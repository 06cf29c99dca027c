ghost use Rattle.std.specs.Prelude.{◌≡◌, IfOk, IfErr, OnOk, is_some};
ghost use Rattle.std.specs.FinMap as map;
ghost use Rattle.sn_model.specs.Seen.{has_room_for_name};
ghost use Rattle.sn_model.specs.Tests.{has_room};
ghost use Rattle.sn_model.specs.Tree.{viewed, least_unused, names_in, names_for};
ghost use Rattle.sn_model.specs.World.{new_root, new_tree};
ghost use Rattle.sn_nodes.specs.Stored.{node_of, IsFresh};
ghost use Rattle.sn_plain.specs.Stored.{IsCountedIn};

use sn_acl::{Acl, Mode, Permissions};
use sn_file_bytes::FileBytes;
use sn_limits::{Kind, Limits};
use sn_model::{Errno, Refusal, StoredAcl};
use sn_nodes::{Counts, Links, Nodes, StoredNode, StoredOwnership};
use sn_walk::{Attributes, ROOT_NUMBER};
use std::alloc::{AllocError, Global};

/// The live tree, as maps in memory.
#[derive(Drop)]
pub struct PlainTree {
    pub(crate) nodes: Nodes,
    pub(crate) links: Links,
    /// No number from 2 on below this one is unused.
    pub(crate) first: u32,
    ghost counted: { IsCountedIn nodes links first },
}

/// The root directory of a new tree: 0:0, mode 0755.
fn new_root(alloc: Global) -> Result<StoredNode, AllocError>
    ensures node { IfOk result (λ root. node_of root ≡ new_root) }
    ensures fresh { IfOk result IsFresh }
{
    let others = Permissions::ALL.difference(Permissions::WRITE);
    let acl = Acl::from_mode(Mode {
        owner: Permissions::ALL,
        group: others,
        other: others,
    });
    Ok(StoredNode {
        kind: Kind::Directory,
        ownership: StoredOwnership {
            owner: 0,
            group: 0,
            set_gid: false,
            sticky: false,
            acl: StoredAcl::new(alloc, &acl)?,
            default_acl: None,
        },
        bytes: FileBytes::new(alloc),
        counts: Counts::NONE,
    })
}

impl PlainTree {
    ghost use Rattle.sn_plain.specs.Plain.{tree_of};

    /// A root directory alone.
    pub fn new(alloc: Global) -> Result<PlainTree, AllocError>
        ensures { IfOk result (λ t. tree_of t ≡ new_tree) }
    {
        let mut nodes = Nodes::new(alloc);
        nodes.insert(ROOT_NUMBER, new_root(alloc)?)?;
        Ok(PlainTree {
            nodes,
            links: Links::new(alloc),
            first: 3,
        })
    }

    /// Whether a node has the number.
    pub fn has_node(&self, number: u16) -> bool
        ensures { result ≡ is_some (map.get (tree_of self.now).nodes number) }
    {
        self.nodes.get(number).is_some()
    }

    /// What `stat` answers of the node with a number.
    pub fn attributes(&self, number: u16) -> Option<Attributes>
        ensures { result ≡ (viewed (tree_of self.now)).node number }
    {
        let node = self.nodes.get(number)?;
        Some(node.attributes())
    }

    /// The default ACL of the directory with a number, where it has one.
    pub fn default_acl(&self, number: u16) -> Option<Acl>
        ensures { result ≡ (viewed (tree_of self.now)).default_acl number }
    {
        match &self.nodes.get(number)?.ownership.default_acl {
            None => None,
            Some(acl) => Some(acl.to_acl()),
        }
    }

    /// The number that a name of a directory stands for. The name isn't copied.
    ///
    /// Proved, also of `attributes`: Look-ups, of names that are lent, answer what a walk sees of the tree.
    pub fn link(&self, directory: u16, name: &[u8]) -> Option<u16>
        ensures { result ≡ (viewed (tree_of self.now)).link directory name.now }
    {
        self.links.named(directory, name)
    }

    /// How many names a directory has; 0 of any other number.
    ///
    /// Proved, also of `names_for` and `is_below`: The names of a directory and of a number are looked up, not counted, and
    /// whether a directory lies in another by the way up.
    pub fn names_in(&self, directory: u16) -> u64
        ensures { result ≡ names_in (tree_of self.now) directory }
    {
        self.nodes.counts(directory).names
    }

    /// How many names stand for a number.
    pub fn names_for(&self, number: u16) -> u16
        ensures { result ≡ names_for (tree_of self.now) number }
    {
        self.nodes.counts(number).links
    }

    /// The least number that no node has.
    pub fn least_unused(&self, limits: &Limits) -> Option<u16>
        ensures { result ≡ least_unused limits.now (tree_of self.now) }
    {
        for number in self.first..u32::from(limits.largest_number) + 1 {
            if self.nodes.get(number as u16).is_none() {
                return Some(number as u16);
            }
        }
        None
    }

    /// The number that a new node of a directory gets: the least that no node has. It is `Elimit`
    /// where there is none, or the directory has all the names that it can have.
    pub fn has_room(&self, limits: &Limits, directory: u16) -> Result<u16, Refusal>
        ensures room { OnOk result (has_room limits.now (tree_of self.now) directory ≡ Ok tt) }
        ensures number { IfOk result (λ number. least_unused limits.now (tree_of self.now) ≡ Some number) }
        ensures refused { IfErr result (λ refusal. has_room limits.now (tree_of self.now) directory ≡ Err refusal) }
    {
        match self.least_unused(limits) {
            Some(number) if self.names_in(directory) < u64::from(limits.names) => Ok(number),
            _ => Err(Refusal::plain(Errno::Elimit)),
        }
    }

    /// Whether a directory may get one more name, of a node that is there: `Elimit` where it has all
    /// the names that it can have.
    pub fn has_room_for_name(&self, limits: &Limits, directory: u16) -> Result<(), Refusal>
        ensures { result ≡ has_room_for_name limits.now (tree_of self.now) directory }
    {
        if self.names_in(directory) >= u64::from(limits.names) {
            return Err(Refusal::plain(Errno::Elimit));
        }
        Ok(())
    }
}

ghost use Rattle.std.specs.Prelude.{◌≡◌, ◌+◌, ◌<◌, ◌^◌, is_some, IsTrue};
ghost use Rattle.sn_walk.specs.Views.{is_hidden_name};
ghost use Rattle.sn_model.specs.Changes.{is_free_number, is_vacant, has_room_for, is_ownership};
ghost use Rattle.sn_model.specs.Tree.{names_in, names_for};

use crate::tree::PlainTree;
use sn_limits::{Kind, Limits, is_name};
use sn_model::{Link, Ownership};
use sn_nodes::is_directory;
use sn_walk::ROOT_NUMBER;

/// The name under which the root has the directory of snapshots.
pub(crate) fn is_hidden_name(directory: u16, name: &[u8]) -> bool
    ensures { result ≡ is_hidden_name directory name.now }
{
    directory == ROOT_NUMBER && name == b".snapshot".as_slice()
}

/// Whether a node of a kind can have this owner and these ACLs: a file has no default ACL.
pub(crate) fn is_ownership(kind: Kind, ownership: &Ownership) -> bool
    ensures { result ≡ is_ownership kind ownership.now }
{
    let _owner = ownership.owner;
    let _group = ownership.group;
    let _access = ownership.acl.entries();
    match &ownership.default_acl {
        None => true,
        Some(acl) => {
            let _default = acl.entries();
            is_directory(kind)
        }
    }
}

impl PlainTree {
    ghost use Rattle.sn_plain.specs.Plain.{tree_of};

    /// Whether a new node can get the number: no node with a name has it.
    pub(crate) fn is_free_number(&self, limits: &Limits, number: u16) -> bool
        ensures { result ≡ is_free_number limits.now (tree_of self.now) number }
    {
        if number <= ROOT_NUMBER || number > limits.largest_number {
            return false;
        }
        match self.nodes.get(number) {
            Some(node) => node.kind == Kind::File && node.counts.links == 0,
            None => true,
        }
    }

    /// Whether it is a name that its directory can have, and doesn't yet.
    pub(crate) fn is_vacant(&self, link: &Link) -> bool
        ensures { result ≡ is_vacant (tree_of self.now) link.now }
    {
        let name = link.name.as_bytes();
        is_name(name) && !is_hidden_name(link.directory, name) && self.links.get(link).is_none()
    }

    /// Whether a directory may get one more name, and a number too.
    pub(crate) fn has_room_for(&self, limits: &Limits, link: &Link, number: u16) -> bool
        ensures exact { result ≡ is_some (has_room_for limits.now (tree_of self.now) link.now number) }
        ensures names { IsTrue result → names_in (tree_of self.now) link.now.directory + 1 < 2 ^ 64 }
        ensures links { IsTrue result → names_for (tree_of self.now) number + 1 < 2 ^ 16 }
    {
        match self.nodes.get(link.directory) {
            Some(node) => {
                node.kind == Kind::Directory
                    && node.counts.names < u64::from(limits.names)
                    && self.names_for(number) < limits.links
            }
            None => false,
        }
    }
}

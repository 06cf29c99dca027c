ghost use Rattle.std.specs.Prelude.{◌≡◌, ◌==◌, ◌+◌, ◌<◌, ◌^◌, [], is_some, IsTrue, IfOk, if◌then◌else◌};
ghost use Rattle.sn_model.specs.Changes.{made, node_with, owned};
ghost use Rattle.sn_model.specs.Tree.{names_in, names_for};
ghost use Rattle.sn_nodes.specs.Stored.{node_of, IsFresh};

use crate::fault::ApplyError;
use crate::tests::is_ownership;
use crate::tree::PlainTree;
use sn_file_bytes::FileBytes;
use sn_limits::{Kind, Limits};
use sn_model::{Link, Ownership, StoredAcl};
use sn_nodes::{Counts, StoredNode, StoredOwnership};
use std::alloc::{AllocError, Global};

fn stored(alloc: Global, ownership: &Ownership) -> Result<StoredOwnership, AllocError>
    ensures { IfOk result (λ o. o ≡ record { owner = ownership.now.owner; group = ownership.now.group; set_gid = ownership.now.set_gid; sticky = ownership.now.sticky; acl = ownership.now.acl; default_acl = ownership.now.default_acl }) }
{
    Ok(StoredOwnership {
        owner: ownership.owner,
        group: ownership.group,
        set_gid: ownership.set_gid,
        sticky: ownership.sticky,
        acl: StoredAcl::new(alloc, &ownership.acl)?,
        default_acl: StoredAcl::of_option(alloc, ownership.default_acl.as_ref())?,
    })
}

/// A node that no name stands for yet. Its directory is to be this one.
pub(crate) fn new_node(
    alloc: Global,
    kind: Kind,
    directory: u16,
    ownership: &Ownership,
) -> Result<StoredNode, AllocError>
    ensures node { IfOk result (λ s. node_of s ≡ node_with kind ownership.now []) }
    ensures fresh { IfOk result IsFresh }
    ensures parent { IfOk result (λ s. s.counts.parent ≡ directory) }
{
    Ok(StoredNode {
        kind,
        ownership: stored(alloc, ownership)?,
        bytes: FileBytes::new(alloc),
        counts: Counts {
            parent: directory,
            ..Counts::NONE
        },
    })
}

/// The first number that may be unused, once a number is used.
pub(crate) fn after_use(first: u32, number: u16) -> u32
    ensures { result ≡ (if first == number then first + 1 else first) }
{
    if first == u32::from(number) {
        first + 1
    } else {
        first
    }
}

impl PlainTree {
    ghost use Rattle.sn_plain.specs.Plain.{tree_of, Applies};

    #[tactic(auto, unfolding(sn_model::specs::Changes::made))]
    fn can_make(
        &self,
        limits: &Limits,
        link: &Link,
        number: u16,
        kind: Kind,
        ownership: &Ownership,
    ) -> bool
        ensures exact { result ≡ is_some (made limits.now (tree_of self.now) link.now number kind ownership.now) }
        ensures names { IsTrue result → names_in (tree_of self.now) link.now.directory + 1 < 2 ^ 64 }
        ensures links { IsTrue result → names_for (tree_of self.now) number + 1 < 2 ^ 16 }
    {
        self.is_free_number(limits, number)
            && self.is_vacant(link)
            && is_ownership(kind, ownership)
            && self.has_room_for(limits, link, number)
    }

    /// Makes a file without bytes, or a directory.
    pub fn make(
        &mut self,
        alloc: Global,
        limits: &Limits,
        link: Link,
        number: u16,
        kind: Kind,
        ownership: &Ownership,
    ) -> Result<(), ApplyError>
        ensures { Applies result (made limits.now (tree_of self.old) link number kind ownership.now) (tree_of self.old) (tree_of self.new) }
    {
        if !self.can_make(limits, &link, number, kind, ownership) {
            return Err(ApplyError::CannotApply);
        }
        let directory = link.directory;
        let node = new_node(alloc, kind, directory, ownership)?;
        let old = self.nodes.insert(number, node)?;
        match self.links.insert(link, number) {
            Ok(()) => {
                self.nodes.count_link(directory, number);
                self.first = after_use(self.first, number);
                Ok(())
            }
            Err(_) => {
                self.nodes.put_back(number, old);
                Err(ApplyError::Memory)
            }
        }
    }

    #[tactic(auto, unfolding(sn_model::specs::Changes::owned))]
    fn can_own(&self, number: u16, ownership: &Ownership) -> bool
        ensures { result ≡ is_some (owned (tree_of self.now) number ownership.now) }
    {
        match self.nodes.get(number) {
            Some(node) => is_ownership(node.kind, ownership),
            None => false,
        }
    }

    /// Sets owner, group, S bits and both ACLs of a node.
    pub fn set_attributes(
        &mut self,
        alloc: Global,
        number: u16,
        ownership: &Ownership,
    ) -> Result<(), ApplyError>
        ensures { Applies result (owned (tree_of self.old) number ownership.now) (tree_of self.old) (tree_of self.new) }
    {
        if !self.can_own(number, ownership) {
            return Err(ApplyError::CannotApply);
        }
        self.nodes.set_ownership(number, stored(alloc, ownership)?);
        Ok(())
    }
}

//! The inodes of nodes that changed.
ghost use Rattle.std.specs.Prelude.{Option};
ghost use Rattle.sn_layout_node.specs.declared.inode.Inode.{Inode as TheInode};
ghost use Rattle.sn_cp_nodes.specs.Inodes.{AreAclsFor, FitsContent, FitsRecord, IsInodeFor};

use sn_acl::Mode;
use sn_inode::AclChange;
use sn_layout_acl::{AclBlock, AclParts, fitting};
use sn_layout_node::{Content, Inode};
use sn_overlay::NodeState;

// The mode bits and the ACL block that are made of the ACLs of a node.
fn acls_set(state: &NodeState) -> (Mode, AclChange)
    ensures { (was : Option TheInode) → AreAclsFor was state.now result.0 result.1 }
{
    let parts = AclParts::of(&state.ownership.acl);
    let default = match &state.ownership.default_acl {
        Some(acl) => Some(acl.copy()),
        None => None,
    };
    let AclParts { objects, access } = parts;
    (objects, AclChange::Set(AclBlock { access, default }))
}

// The mode bits of a node, and what is to become of its ACL block.
fn acls_for(was: &Option<Inode>, state: &NodeState) -> (Mode, AclChange)
    ensures { AreAclsFor was.now state.now result.0 result.1 }
{
    match was {
        Some(inode) if !state.fresh && !state.acl_changed => (inode.objects, AclChange::Kept),
        _ => acls_set(state),
    }
}

// By the type of its bytes, or those of its size and its pointers.
fn fits_content(content: &Content)
    ensures { FitsContent content.now }
{
    match content {
        Content::Inline(bytes) => {
            bytes.as_slice();
        }
        Content::Tree(tree) => tree.fits(),
    }
}

// By the types of its fields.
fn fits_record(inode: &Inode)
    ensures { FitsRecord inode.now }
{
    let _owner = inode.owner;
    let _group = inode.group;
    let _acl_block = inode.acl_block;
    fitting(inode.objects);
    fits_content(&inode.content);
}

/// The inode of a node that changed, and what is to become of its ACLs.
pub(crate) fn inode_for(
    was: &Option<Inode>,
    state: &NodeState,
    content: Content,
) -> (Inode, AclChange)
    ensures made { IsInodeFor was.now state.now content result.0 result.1 }
    ensures fits { FitsRecord result.0 }
{
    let (objects, acls) = acls_for(was, state);
    let inode = Inode {
        kind: state.kind,
        set_gid: state.ownership.set_gid,
        sticky: state.ownership.sticky,
        objects,
        links: state.links,
        owner: state.ownership.owner,
        group: state.ownership.group,
        acl_block: 0,
        content,
    };
    fits_record(&inode);
    (inode, acls)
}

//! The node of a number, without its bytes and names.
ghost use Rattle.std.specs.Prelude.{◌≡◌, ℕ, [], Option as TheOption, Err, IsTrue, IfOk};
ghost use Rattle.std.specs.FinMap as fin;
ghost use Rattle.sn_block.specs.Lending.{device_of};
ghost use Rattle.sn_inode.specs.Unread.{IsUnreadRecord};
ghost use Rattle.sn_layout_node.specs.Inode.{size_of};
ghost use Rattle.sn_model.specs.Settling.{is_nameless};
ghost use Rattle.sn_model.specs.Tree.{viewed};
ghost use Rattle.sn_tree_read.specs.Counts.{CountsTree};
ghost use Rattle.sn_tree_read.specs.declared.fault.TreeFault.TheVariants.{Damaged};
ghost use Rattle.sn_rooted.specs.Roots.{IsSoundOn, store_on, tree_on};
ghost use Rattle.sn_rooted.specs.Nodes.{attributes_in, is_unlinked, shown_size};
ghost use Rattle.sn_rooted.specs.Unread.{IsUnreadInode};

use crate::inodes::inode_of;
use crate::stored_inode;
use sn_acl::Acl;
use sn_block::Blocks;
use sn_device::Device;
use sn_layout::BlockTree;
use sn_layout_acl::NamedEntries;
use sn_layout_node::Inode;
use sn_limits::{Kind, Limits};
use sn_tree_read::TreeFault;
use sn_walk::Attributes;

// How many bytes a file has.
fn shown_size(inode: &Inode) -> u64
    ensures { result ≡ shown_size inode.now.kind (size_of inode.now.content) }
{
    match inode.kind {
        Kind::File => inode.content.size(),
        Kind::Directory => 0,
    }
}

// What is known of an inode's node, with the entries of its access ACL that mode bits don't hold.
fn attributes_in(inode: &Inode, access: &NamedEntries) -> Attributes
    ensures { result ≡ attributes_in inode.now access.now }
{
    Attributes {
        kind: inode.kind,
        set_gid: inode.set_gid,
        sticky: inode.sticky,
        owner: inode.owner,
        group: inode.group,
        acl: access.join(inode.objects),
        links: inode.links,
        size: shown_size(inode),
    }
}

// What is known of an inode's node whose access ACL is given by its mode bits alone.
fn plain_attributes(inode: &Inode) -> Attributes
    ensures { result ≡ attributes_in inode.now [] }
{
    Attributes {
        kind: inode.kind,
        set_gid: inode.set_gid,
        sticky: inode.sticky,
        owner: inode.owner,
        group: inode.group,
        acl: Acl::from_mode(inode.objects),
        links: inode.links,
        size: shown_size(inode),
    }
}

// The same as `attributes`, of a node that may have an ACL block.
fn whole_attributes<D: Device>(
    blocks: &mut Blocks<D>,
    limits: &Limits,
    file: &BlockTree,
    number: u16,
) -> Result<Option<Attributes>, TreeFault>
    ensures found { IsTrue D.tells_bytes → IsSoundOn blocks.old limits.now file.now
        → IfOk result (λ attributes. attributes ≡ (viewed (tree_on blocks.old file.now)).node number) }
    ensures damaged { IsTrue D.tells_bytes → IsSoundOn blocks.old limits.now file.now → (block : TheOption ℕ) → result ≡ Err (Damaged block) → ⊥ }
    ensures unread { IsTrue D.tells_bytes → (block : TheOption ℕ) → result ≡ Err (Damaged block)
        → IsUnreadInode limits.now (D.status (device_of blocks.old)).sectors (store_on blocks.old) file.now number block }
    ensures same { IsTrue D.tells_bytes → D.disk (device_of blocks.new) ≡ D.disk (device_of blocks.old) }
    ensures counts { CountsTree result (D.status (device_of blocks.old)) (D.status (device_of blocks.new)) }
{
    match stored_inode(blocks, limits, file, number)? {
        Some(stored) => Ok(Some(attributes_in(&stored.inode, &stored.acls.access))),
        None => Ok(None),
    }
}

/// What is known of the node that a number has in a root's tree, `None` where none has it. `file` is the
/// root's inode file. `Damaged` is returned only where its record or its ACLs can't be read, with their block,
/// and never where the root is sound. Memory is taken for blocks that aren't kept. Most nodes have no ACL
/// block, and need no more than their mode bits.
///
/// Proved, also of `names` and `read`: What is read on demand is what the tree has that a sound root denotes: a node's
/// attributes with its links, size and ACL, the names of a directory in order, with their numbers, and the bytes of a file
/// from any offset on.
/// Proved, also of `default_acl`, `inode_of`, `is_nameless`, `link`, `names`, `read` and `stored_inode`: On a sound root
/// whose blocks the device has `Damaged` is never answered.
/// Proved, also of `default_acl`, `inode_of`, `is_nameless`, `link`, `names`, `read` and `stored_inode`: On any image
/// `Damaged` is returned only where what is needed can't be read: the number's record, its ACLs, or a block of its names or
/// bytes, which it carries, if there is one.
/// Proved, also of each other function: Nothing is written, and nothing is counted but the failure of a read.
pub fn attributes<D: Device>(
    blocks: &mut Blocks<D>,
    limits: &Limits,
    file: &BlockTree,
    number: u16,
) -> Result<Option<Attributes>, TreeFault>
    ensures found { IsTrue D.tells_bytes → IsSoundOn blocks.old limits.now file.now
        → IfOk result (λ attributes. attributes ≡ (viewed (tree_on blocks.old file.now)).node number) }
    ensures damaged { IsTrue D.tells_bytes → IsSoundOn blocks.old limits.now file.now → (block : TheOption ℕ) → result ≡ Err (Damaged block) → ⊥ }
    ensures unread { IsTrue D.tells_bytes → (block : TheOption ℕ) → result ≡ Err (Damaged block)
        → IsUnreadInode limits.now (D.status (device_of blocks.old)).sectors (store_on blocks.old) file.now number block }
    ensures same { IsTrue D.tells_bytes → D.disk (device_of blocks.new) ≡ D.disk (device_of blocks.old) }
    ensures counts { CountsTree result (D.status (device_of blocks.old)) (D.status (device_of blocks.new)) }
{
    let Some(inode) = inode_of(blocks, limits, file, number)? else {
        return Ok(None);
    };
    if inode.acl_block != 0 {
        return whole_attributes(blocks, limits, file, number);
    }
    Ok(Some(plain_attributes(&inode)))
}

/// The default ACL of the node that a number has in a root's tree, `None` where it has none, as a file, or
/// where no node has the number. `Damaged` is returned only where its record or its ACLs can't be read, with
/// their block, and never where the root is sound. Memory is taken for blocks that aren't kept.
///
/// Proved, also of `link`: A default ACL and the number under a name are what a root has, on any image.
pub fn default_acl<D: Device>(
    blocks: &mut Blocks<D>,
    limits: &Limits,
    file: &BlockTree,
    number: u16,
) -> Result<Option<Acl>, TreeFault>
    ensures found { IsTrue D.tells_bytes
        → IfOk result (λ acl. acl ≡ (viewed (tree_on blocks.old file.now)).default_acl number) }
    ensures damaged { IsTrue D.tells_bytes → IsSoundOn blocks.old limits.now file.now → (block : TheOption ℕ) → result ≡ Err (Damaged block) → ⊥ }
    ensures unread { IsTrue D.tells_bytes → (block : TheOption ℕ) → result ≡ Err (Damaged block)
        → IsUnreadInode limits.now (D.status (device_of blocks.old)).sectors (store_on blocks.old) file.now number block }
    ensures same { IsTrue D.tells_bytes → D.disk (device_of blocks.new) ≡ D.disk (device_of blocks.old) }
    ensures counts { CountsTree result (D.status (device_of blocks.old)) (D.status (device_of blocks.new)) }
{
    match stored_inode(blocks, limits, file, number)? {
        Some(stored) => Ok(stored.acls.default),
        None => Ok(None),
    }
}

// Whether an inode is that of a file to which no link is counted.
fn is_unlinked(inode: &Inode) -> bool
    ensures { result ≡ is_unlinked inode.now.kind inode.now.links }
{
    match inode.kind {
        Kind::File => inode.links == 0,
        Kind::Directory => false,
    }
}

/// Whether a number has a file in a root's tree that has no name. `file` is the root's inode file, and of the
/// number only the inode is read. `Damaged` is returned only where its record can't be read, with its block,
/// and never where the root is sound. Memory is taken for blocks that aren't kept.
///
/// Proved: Whether a number has a file without a name, by its inode alone, is so in the tree that a sound root denotes.
pub fn is_nameless<D: Device>(
    blocks: &mut Blocks<D>,
    limits: &Limits,
    file: &BlockTree,
    number: u16,
) -> Result<bool, TreeFault>
    ensures nameless { IsTrue D.tells_bytes → IsSoundOn blocks.old limits.now file.now → IfOk result (λ nameless. nameless
        ≡ is_nameless (tree_on blocks.old file.now) number (fin.get (tree_on blocks.old file.now).nodes number)) }
    ensures damaged { IsTrue D.tells_bytes → IsSoundOn blocks.old limits.now file.now → (block : TheOption ℕ) → result ≡ Err (Damaged block) → ⊥ }
    ensures unread { IsTrue D.tells_bytes → (block : TheOption ℕ) → result ≡ Err (Damaged block)
        → IsUnreadRecord limits.now (D.status (device_of blocks.old)).sectors (store_on blocks.old) file.now number block }
    ensures same { IsTrue D.tells_bytes → D.disk (device_of blocks.new) ≡ D.disk (device_of blocks.old) }
    ensures counts { CountsTree result (D.status (device_of blocks.old)) (D.status (device_of blocks.new)) }
{
    match inode_of(blocks, limits, file, number)? {
        Some(inode) => Ok(is_unlinked(&inode)),
        None => Ok(false),
    }
}

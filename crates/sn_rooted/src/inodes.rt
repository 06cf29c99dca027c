//! The inode of a number, with its ACLs.
ghost use Rattle.std.specs.Prelude.{◌≡◌, ℕ, Option as TheOption, Err, IsTrue, IfOk, IfSome};
ghost use Rattle.std.specs.Option.{option_map};
ghost use Rattle.sn_block.specs.Lending.{device_of};
ghost use Rattle.sn_image.specs.Acls.{acls_at};
ghost use Rattle.sn_image.specs.Inodes.{inode_at};
ghost use Rattle.sn_inode.specs.Unread.{IsUnreadRecord};
ghost use Rattle.sn_layout_node.specs.Inode.{IsInode};
ghost use Rattle.sn_tree_read.specs.Counts.{CountsTree};
ghost use Rattle.sn_tree_read.specs.declared.fault.TreeFault.TheVariants.{Damaged};
ghost use Rattle.sn_rooted.specs.Roots.{IsSoundOn, store_on};
ghost use Rattle.sn_rooted.specs.Unread.{IsUnreadInode};

use sn_block::Blocks;
use sn_device::Device;
use sn_inode::{acls, get, inode_laws};
use sn_layout::BlockTree;
use sn_layout_acl::AclBlock;
use sn_layout_node::Inode;
use sn_limits::Limits;
use sn_tree_read::TreeFault;

/// What a number has on disk, but for the blocks of its bytes and names.
#[derive(Drop)]
pub struct StoredInode {
    pub inode: Inode,
    /// What its ACL block holds, nothing where it has none.
    pub acls: AclBlock,
}

/// The inode that a number has in a root's tree, `None` where no node has it. `file` is the root's inode file, and of
/// the number only the inode is read. `Damaged` is returned only where its record can't be read, and never where the
/// root is sound. Memory is taken for blocks that aren't kept.
///
/// Proved, also of `stored_inode`: The inode of a number is the one that a root has, on any image, and its ACLs are those of
/// its block.
pub fn inode_of<D: Device>(
    blocks: &mut Blocks<D>,
    limits: &Limits,
    file: &BlockTree,
    number: u16,
) -> Result<Option<Inode>, TreeFault>
    ensures inode { IsTrue D.tells_bytes → IfOk result (λ inode. inode ≡ inode_at (store_on blocks.old) file.now number) }
    ensures valid { IfOk result (λ inode. IfSome inode (λ used. IsInode limits.now used)) }
    ensures damaged { IsTrue D.tells_bytes → IsSoundOn blocks.old limits.now file.now → (block : TheOption ℕ) → result ≡ Err (Damaged block) → ⊥ }
    ensures unread { IsTrue D.tells_bytes → (block : TheOption ℕ) → result ≡ Err (Damaged block)
        → IsUnreadRecord limits.now (D.status (device_of blocks.old)).sectors (store_on blocks.old) file.now number block }
    ensures same { IsTrue D.tells_bytes → D.disk (device_of blocks.new) ≡ D.disk (device_of blocks.old) }
    ensures counts { CountsTree result (D.status (device_of blocks.old)) (D.status (device_of blocks.new)) }
{
    inode_laws();
    get(blocks, limits, file, number)
}

/// The inode that a number has in a root's tree, with its ACLs, `None` where no node has it. `file` is the
/// root's inode file. `Damaged` is returned only where its record or its ACLs can't be read, with their block,
/// and never where the root is sound. Memory is taken for blocks that aren't kept.
pub fn stored_inode<D: Device>(
    blocks: &mut Blocks<D>,
    limits: &Limits,
    file: &BlockTree,
    number: u16,
) -> Result<Option<StoredInode>, TreeFault>
    ensures inode { IsTrue D.tells_bytes → IfOk result (λ found. option_map (λ stored. stored.inode) found
        ≡ inode_at (store_on blocks.old) file.now number) }
    ensures acls { IsTrue D.tells_bytes → IfOk result (λ found. IfSome found (λ stored. stored.acls
        ≡ acls_at (store_on blocks.old) stored.inode.acl_block)) }
    ensures valid { IfOk result (λ found. IfSome found (λ stored. IsInode limits.now stored.inode)) }
    ensures damaged { IsTrue D.tells_bytes → IsSoundOn blocks.old limits.now file.now → (block : TheOption ℕ) → result ≡ Err (Damaged block) → ⊥ }
    ensures unread { IsTrue D.tells_bytes → (block : TheOption ℕ) → result ≡ Err (Damaged block)
        → IsUnreadInode limits.now (D.status (device_of blocks.old)).sectors (store_on blocks.old) file.now number block }
    ensures same { IsTrue D.tells_bytes → D.disk (device_of blocks.new) ≡ D.disk (device_of blocks.old) }
    ensures counts { CountsTree result (D.status (device_of blocks.old)) (D.status (device_of blocks.new)) }
{
    inode_laws();
    let Some(inode) = inode_of(blocks, limits, file, number)? else {
        return Ok(None);
    };
    let acls = acls(blocks, &inode)?;
    Ok(Some(StoredInode { inode, acls }))
}

//! The ACLs of an inode.
ghost use Rattle.std.specs.Prelude.{◌≡◌, ℕ, ◌↔◌, None, Option as TheOption, Err, IsTrue, IfOk, IfErr, OnOk};
ghost use Rattle.sn_device.specs.Disk.{reads};
ghost use Rattle.sn_block.specs.Lending.{device_of};
ghost use Rattle.sn_limits.specs.declared.kind.Kind.TheVariants.{File};
ghost use Rattle.sn_ondisk.specs.Trees.{store_of};
ghost use Rattle.sn_image.specs.Acls.{acls_in, acls_at, no_acls};
ghost use Rattle.sn_tree_read.specs.Counts.{CountsTree};
ghost use Rattle.sn_tree_read.specs.Paths.{block_named};
ghost use Rattle.sn_tree_read.specs.declared.fault.TreeFault.TheVariants.{Damaged};
ghost use Rattle.sn_inode.specs.Reads.{HoldsAcls, CanReadAcls};

use sn_block::{Block, Blocks};
use sn_device::Device;
use sn_layout_acl::{AclBlock, NamedEntries};
use sn_layout_node::Inode;
use sn_limits::Kind;
use sn_tree_read::{TreeFault, lies_on};

fn no_acls() -> AclBlock
    ensures { result ≡ no_acls }
{
    AclBlock {
        access: NamedEntries::new(),
        default: None,
    }
}

// A file has no default ACL.
pub(crate) fn can_have(kind: Kind, acls: &AclBlock) -> bool
    ensures { IsTrue result ↔ (kind ≡ File → acls.now.default ≡ None) }
{
    match kind {
        Kind::File => acls.default.is_none(),
        Kind::Directory => true,
    }
}

// The ACLs that the block of a number spells. `Damaged` comes exactly where it spells none that such an inode can have.
fn decoded(kind: Kind, block: &Block, number: u32) -> Result<AclBlock, TreeFault>
    ensures acls { IfOk result (λ acls. acls ≡ acls_in block.now) }
    ensures spelled { OnOk result (HoldsAcls kind block.now) }
    ensures damaged { IfErr result (λ fault. (fault ≡ Damaged (block_named number)) × (HoldsAcls kind block.now → ⊥)) }
{
    match AclBlock::decode(block) {
        Some(acls) => {
            if !can_have(kind, &acls) {
                return Err(TreeFault::at(number));
            }
            Ok(acls)
        }
        None => Err(TreeFault::at(number)),
    }
}

/// The entries of an inode's ACLs that its mode bits don't hold. An inode without an ACL block has none.
/// `Damaged` comes exactly where its ACL block isn't on the device or spells no ACLs, or a file has a
/// default ACL.
pub fn acls<D: Device>(blocks: &mut Blocks<D>, inode: &Inode) -> Result<AclBlock, TreeFault>
    ensures acls { IsTrue D.tells_bytes → IfOk result (λ acls. acls
        ≡ acls_at (store_of (reads (D.disk (device_of blocks.old)))) inode.now.acl_block) }
    ensures read { IsTrue D.tells_bytes → OnOk result (CanReadAcls (D.status (device_of blocks.old)).sectors
        (store_of (reads (D.disk (device_of blocks.old)))) inode.now) }
    ensures damaged { IsTrue D.tells_bytes → (block : TheOption ℕ) → result ≡ Err (Damaged block)
        → (CanReadAcls (D.status (device_of blocks.old)).sectors
        (store_of (reads (D.disk (device_of blocks.old)))) inode.now → ⊥)
        × (block ≡ block_named inode.now.acl_block) }
    ensures same { IsTrue D.tells_bytes → D.disk (device_of blocks.new) ≡ D.disk (device_of blocks.old) }
    ensures counts { CountsTree result (D.status (device_of blocks.old)) (D.status (device_of blocks.new)) }
{
    let pointer = inode.acl_block;
    if pointer == 0 {
        return Ok(no_acls());
    }
    if !lies_on(blocks.sectors(), pointer) {
        return Err(TreeFault::at(pointer));
    }
    blocks.fetch(pointer)?;
    decoded(inode.kind, blocks.fetched(), pointer)
}

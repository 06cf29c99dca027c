//! The bytes of a file.
ghost use Rattle.std.specs.Prelude.{◌≡◌, ◌⊎◌, ℕ, ◌+◌, ◌<◌, ◌^◌, Option as TheOption, Err, drop, length, take, IsTrue, IfOk, IfSome};
ghost use Rattle.std.specs.FinMap as fin;
ghost use Rattle.sn_block.specs.Lending.{device_of};
ghost use Rattle.sn_image.specs.Inodes.{inode_at};
ghost use Rattle.sn_inode.specs.Unread.{IsUnreadRecord};
ghost use Rattle.sn_model.specs.FileCalls.{bytes_of};
ghost use Rattle.sn_tree_read.specs.Counts.{CountsTree};
ghost use Rattle.sn_tree_read.specs.declared.fault.TreeFault.TheVariants.{Damaged};
ghost use Rattle.sn_rooted.specs.Nodes.{bytes_if, file_content, file_content_if};
ghost use Rattle.sn_rooted.specs.Roots.{IsSoundOn, IsWhole, store_on, tree_on};
ghost use Rattle.sn_rooted.specs.Unread.{HasUnreadBytes};

use crate::inodes::inode_of;
use sn_block::Blocks;
use sn_device::Device;
use sn_layout::BlockTree;
use sn_layout_node::{Content, Inode};
use sn_limits::{Kind, Limits};
use sn_tree_read::{TreeFault, read_laws};
use std::alloc::Global;

fn file_content(inode: Inode) -> Option<Content>
    ensures { result ≡ file_content inode.kind inode.content }
{
    match inode.kind {
        Kind::File => Some(inode.content),
        Kind::Directory => None,
    }
}

// The content that a file has its bytes in, and `None` where the number isn't a file's. Where the root is
// sound, its blocks can be read.
fn file_at<D: Device>(
    blocks: &mut Blocks<D>,
    limits: &Limits,
    file: &BlockTree,
    number: u16,
) -> Result<Option<Content>, TreeFault>
    ensures bytes { IsTrue D.tells_bytes → IfOk result (λ content. bytes_of (fin.get (tree_on blocks.old file.now).nodes number)
        ≡ bytes_if (store_on blocks.old) content) }
    ensures content { IsTrue D.tells_bytes → IfOk result (λ content. content ≡ file_content_if (inode_at (store_on blocks.old) file.now number)) }
    ensures sound { IsTrue D.tells_bytes → IsSoundOn blocks.old limits.now file.now → IfOk result (λ found. IfSome found (λ content.
        IsWhole (D.status (device_of blocks.old)).sectors (store_on blocks.old) content)) }
    ensures damaged { IsTrue D.tells_bytes → IsSoundOn blocks.old limits.now file.now → (block : TheOption ℕ) → result ≡ Err (Damaged block) → ⊥ }
    ensures unread { IsTrue D.tells_bytes → (block : TheOption ℕ) → result ≡ Err (Damaged block)
        → IsUnreadRecord limits.now (D.status (device_of blocks.old)).sectors (store_on blocks.old) file.now number block }
    ensures same { IsTrue D.tells_bytes → D.disk (device_of blocks.new) ≡ D.disk (device_of blocks.old) }
    ensures counts { CountsTree result (D.status (device_of blocks.old)) (D.status (device_of blocks.new)) }
{
    read_laws();
    let Some(inode) = inode_of(blocks, limits, file, number)? else {
        return Ok(None);
    };
    Ok(file_content(inode))
}

/// The bytes of a file of a root's tree from an offset on: so many, or as many as there are before its end,
/// and none where the number isn't a file's. Holes read as zeros. `Damaged` is returned only where its record
/// or one of these bytes can't be read, with their block, and never where the root is sound. Memory is taken
/// for the answer, and for blocks that aren't kept.
pub fn read<D: Device>(
    alloc: Global,
    blocks: &mut Blocks<D>,
    limits: &Limits,
    file: &BlockTree,
    number: u16,
    offset: u64,
    most: usize,
) -> Result<Vec<u8>, TreeFault>
    ensures bytes { IsTrue D.tells_bytes → IsSoundOn blocks.old limits.now file.now → IfOk result (λ part. part.items
        ≡ take most (drop offset (bytes_of (fin.get (tree_on blocks.old file.now).nodes number)))) }
    ensures ends { IfOk result (λ part. offset + length part.items < 2 ^ 64) }
    ensures damaged { IsTrue D.tells_bytes → IsSoundOn blocks.old limits.now file.now → (block : TheOption ℕ) → result ≡ Err (Damaged block) → ⊥ }
    ensures unread { IsTrue D.tells_bytes → (block : TheOption ℕ) → result ≡ Err (Damaged block)
        → IsUnreadRecord limits.now (D.status (device_of blocks.old)).sectors (store_on blocks.old) file.now number block
        ⊎ HasUnreadBytes offset most (D.status (device_of blocks.old)).sectors (store_on blocks.old) file.now number block }
    ensures same { IsTrue D.tells_bytes → D.disk (device_of blocks.new) ≡ D.disk (device_of blocks.old) }
    ensures counts { CountsTree result (D.status (device_of blocks.old)) (D.status (device_of blocks.new)) }
{
    read_laws();
    match file_at(blocks, limits, file, number)? {
        Some(content) => {
            // It bounds where its bytes end.
            let _size = content.size();
            sn_tree_read::read(alloc, blocks, &content, offset, most)
        }
        None => Ok(Vec::new(alloc)),
    }
}

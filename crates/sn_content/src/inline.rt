//! The bytes of a content that are in the inode.
ghost use Rattle.std.specs.Prelude.{◌≡◌, ℕ, ◌-◌, ◌≤◌, List, ◌++◌, length, take, Option as TheOption, Err, IsTrue, IsNone, IfOk, IfSome};
ghost use Rattle.sn_device.specs.Disk.{reads};
ghost use Rattle.sn_block.specs.Lending.{device_of};
ghost use Rattle.sn_content.specs.Contents.{content_block};
ghost use Rattle.sn_image.specs.Contents.{content_reach};
ghost use Rattle.sn_layout.specs.Bytes.{zeros};
ghost use Rattle.sn_ondisk.specs.Trees.{store_of};
ghost use Rattle.sn_tree.specs.Dirty.{IsFrom, block_after};
ghost use Rattle.sn_tree.specs.Steps.{LeadsOutsideAt};
ghost use Rattle.sn_tree_read.specs.Counts.{CountsTree};
ghost use Rattle.sn_tree_read.specs.declared.fault.TreeFault.TheVariants.{Damaged};

use sn_block::Blocks;
use sn_device::Device;
use sn_layout::{BLOCK_SIZE, Block};
use sn_layout_node::{Content, InlineBytes};
use sn_tree::{Dirty, DirtyBlock};
use sn_tree_read::{TreeFault, fetch_data};
use std::collections::VecDeque;

fn hole() -> Block
    ensures { result ≡ zeros 4096 }
{
    [0; BLOCK_SIZE]
}

/// The first data block of a file whose bytes are in the inode.
pub(crate) fn inline_block(inline: &InlineBytes) -> Block
    ensures { result ≡ inline.now ++ zeros (4096 - length inline.now) }
{
    let bytes = inline.as_slice();
    let mut block = hole();
    block[..bytes.len()].copy_from_slice(bytes);
    block
}

// The first bytes of a block, which an inode is to hold.
fn first_of(block: &Block, count: usize) -> InlineBytes
    requires { count ≤ 64 }
    ensures bytes { result ≡ take count block.now }
    ensures count { length result ≡ count }
{
    InlineBytes::new(&block[..count])
}

/// The first dirty block, if it is data block 0.
pub(crate) fn dirty_first(dirty: &VecDeque<DirtyBlock>) -> Option<&Block>
    ensures some { IfSome result (λ block. (keep : ℕ) (old : List ℕ) → block_after keep dirty.now.items 0 old ≡ block.now) }
    ensures none { IsNone result → IsFrom 0 dirty.now.items → IsFrom 1 dirty.now.items }
{
    let first = dirty.front()?;
    if first.index == 0 {
        Some(&first.bytes)
    } else {
        None
    }
}

// The first bytes of a content, and zeros where it has fewer.
fn first_bytes<D: Device>(
    blocks: &mut Blocks<D>,
    content: &Content,
    count: usize,
) -> Result<InlineBytes, TreeFault>
    requires { count ≤ 64 }
    ensures bytes { IsTrue D.tells_bytes → IfOk result (λ bytes. bytes
        ≡ take count (content_block (store_of (reads (D.disk (device_of blocks.old)))) content.now 0)) }
    ensures count { IfOk result (λ bytes. length bytes ≡ count) }
    ensures damaged { IsTrue D.tells_bytes → (block : TheOption ℕ) → result ≡ Err (Damaged block)
        → LeadsOutsideAt (D.status (device_of blocks.old)).sectors
        (content_reach (store_of (reads (D.disk (device_of blocks.old)))) content.now) block }
    ensures same { IsTrue D.tells_bytes → D.disk (device_of blocks.new) ≡ D.disk (device_of blocks.old) }
    ensures counts { CountsTree result (D.status (device_of blocks.old)) (D.status (device_of blocks.new)) }
{
    match content {
        Content::Inline(inline) => Ok(first_of(&inline_block(inline), count)),
        Content::Tree(tree) => {
            if fetch_data(blocks, tree, 0)?.is_some() {
                return Ok(first_of(blocks.fetched(), count));
            }
            Ok(first_of(&hole(), count))
        }
    }
}

/// The bytes that the inode of so short a file is to hold.
pub(crate) fn wanted_bytes<D: Device>(
    blocks: &mut Blocks<D>,
    content: &Content,
    dirty: &Dirty,
) -> Result<InlineBytes, TreeFault>
    requires size { dirty.now.size ≤ 64 }
    requires rise { IsFrom 0 dirty.now.blocks.items }
    ensures bytes { IsTrue D.tells_bytes → IfOk result (λ bytes. bytes
        ≡ take dirty.now.size (block_after dirty.now.keep dirty.now.blocks.items 0
        (content_block (store_of (reads (D.disk (device_of blocks.old)))) content.now 0))) }
    ensures count { IfOk result (λ bytes. length bytes ≡ dirty.now.size) }
    ensures damaged { IsTrue D.tells_bytes → (block : TheOption ℕ) → result ≡ Err (Damaged block)
        → LeadsOutsideAt (D.status (device_of blocks.old)).sectors
        (content_reach (store_of (reads (D.disk (device_of blocks.old)))) content.now) block }
    ensures same { IsTrue D.tells_bytes → D.disk (device_of blocks.new) ≡ D.disk (device_of blocks.old) }
    ensures counts { CountsTree result (D.status (device_of blocks.old)) (D.status (device_of blocks.new)) }
{
    let count = dirty.size as usize;
    if let Some(block) = dirty_first(&dirty.blocks) {
        return Ok(first_of(block, count));
    }
    if dirty.keep == 0 {
        return Ok(first_of(&hole(), count));
    }
    first_bytes(blocks, content, count)
}

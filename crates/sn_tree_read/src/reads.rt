//! The bytes of a file.
ghost use Rattle.std.specs.Prelude.{◌≡◌, ◌+◌, ◌-◌, ◌*◌, ◌/◌, ◌%◌, ◌<◌, ◌≤◌, ℕ, ◌++◌, length, min, true, false, take, drop, vec_len, Option as TheOption, Err, IsTrue, IfOk, OnOk};
ghost use Rattle.sn_device.specs.Disk.{reads};
ghost use Rattle.sn_block.specs.Lending.{device_of};
ghost use Rattle.sn_ondisk.specs.Trees.{store_of, data_block};
ghost use Rattle.sn_layout_node.specs.Inode.{size_of};
ghost use Rattle.sn_layout_node.specs.declared.content.Content.TheVariants.{Inline, Tree};
ghost use Rattle.sn_tree_read.specs.Counts.{CountsTree};
ghost use Rattle.sn_tree_read.specs.Paths.{block_lies_on, block_met};
ghost use Rattle.sn_tree_read.specs.Reads.{IsPart, IsOutside, IsOutsideAt};
ghost use Rattle.sn_tree_read.specs.declared.fault.TreeFault.TheVariants.{Damaged};

use crate::{TreeFault, fetch_data};
use sn_block::{BLOCK_SIZE, Blocks};
use sn_device::Device;
use sn_layout::BlockTree;
use sn_layout_node::Content;
use std::alloc::{AllocError, Global};

// How many bytes there are from an offset on, up to so many.
fn count_from(size: u64, offset: u64, most: usize) -> usize
    ensures { result ≡ min most (size - offset) }
{
    if offset >= size {
        return 0;
    }
    let left = size - offset;
    if (most as u64) < left {
        most
    } else {
        left as usize
    }
}

// How many bytes from an offset on are in its block, up to so many.
fn count_within(at: u64, most: usize) -> usize
    requires { 0 < most }
    ensures some { 0 < result }
    ensures most { result ≤ most }
    ensures within { at % 4096 + result ≤ 4096 }
{
    let room = BLOCK_SIZE - (at % 4096) as usize;
    if most < room { most } else { room }
}

// Appends bytes of one data block.
fn push_part<D: Device>(
    blocks: &mut Blocks<D>,
    tree: &BlockTree,
    at: u64,
    count: usize,
    bytes: &mut Vec<u8>,
) -> Result<(), TreeFault>
    requires { at % 4096 + count ≤ 4096 }
    ensures bytes { IsTrue D.tells_bytes → OnOk result (bytes.new.items ≡ bytes.old.items
        ++ take count (drop (at % 4096) (data_block (store_of (reads (D.disk (device_of blocks.old)))) tree.now (at / 4096)))) }
    ensures longer { OnOk result (vec_len bytes.new ≡ vec_len bytes.old + count) }
    ensures lies { IsTrue D.tells_bytes → OnOk result
        (block_lies_on (D.status (device_of blocks.old)).sectors
        (store_of (reads (D.disk (device_of blocks.old)))) tree.now (at / 4096) ≡ true) }
    ensures damaged { IsTrue D.tells_bytes → (block : TheOption ℕ) → result ≡ Err (Damaged block)
        → (block_lies_on (D.status (device_of blocks.old)).sectors
        (store_of (reads (D.disk (device_of blocks.old)))) tree.now (at / 4096) ≡ false)
        × (block ≡ block_met (D.status (device_of blocks.old)).sectors
        (store_of (reads (D.disk (device_of blocks.old)))) tree.now (at / 4096)) }
    ensures same { IsTrue D.tells_bytes → D.disk (device_of blocks.new) ≡ D.disk (device_of blocks.old) }
    ensures counts { CountsTree result (D.status (device_of blocks.old)) (D.status (device_of blocks.new)) }
{
    let from = (at % 4096) as usize;
    if fetch_data(blocks, tree, at / 4096)?.is_some() {
        let block = blocks.fetched();
        bytes.extend_from_slice(&block[from..from + count])?;
    } else {
        let longer = bytes.len() + count;
        bytes.resize(longer, 0)?;
    }
    Ok(())
}

fn read_tree<D: Device>(
    alloc: Global,
    blocks: &mut Blocks<D>,
    tree: &BlockTree,
    offset: u64,
    most: usize,
) -> Result<Vec<u8>, TreeFault>
    ensures bytes { IsTrue D.tells_bytes → IfOk result (λ part. IsPart
        (store_of (reads (D.disk (device_of blocks.old)))) (Tree tree.now) offset most part.items) }
    ensures count { IfOk result (λ part. vec_len part ≡ min most (tree.now.size - offset)) }
    ensures lies { IsTrue D.tells_bytes → OnOk result (IsOutside (D.status (device_of blocks.old)).sectors
        (store_of (reads (D.disk (device_of blocks.old)))) (Tree tree.now) offset most → ⊥) }
    ensures damaged { IsTrue D.tells_bytes → (block : TheOption ℕ) → result ≡ Err (Damaged block)
        → IsOutsideAt (D.status (device_of blocks.old)).sectors
        (store_of (reads (D.disk (device_of blocks.old)))) (Tree tree.now) offset most block }
    ensures same { IsTrue D.tells_bytes → D.disk (device_of blocks.new) ≡ D.disk (device_of blocks.old) }
    ensures counts { CountsTree result (D.status (device_of blocks.old)) (D.status (device_of blocks.new)) }
{
    let count = count_from(tree.size, offset, most);
    let mut bytes = Vec::with_capacity(alloc, count)?;
    while bytes.len() < count {
        let at = offset + bytes.len() as u64;
        let step = count_within(at, count - bytes.len());
        push_part(blocks, tree, at, step, &mut bytes)?;
    }
    Ok(bytes)
}

fn read_inline(
    alloc: Global,
    inline: &[u8],
    offset: u64,
    most: usize,
) -> Result<Vec<u8>, AllocError>
    ensures { IfOk result (λ part. part.items ≡ take (min most (length inline.now - offset)) (drop offset inline.now)) }
{
    let count = count_from(inline.len() as u64, offset, most);
    if count == 0 {
        return Ok(Vec::new(alloc));
    }
    let from = offset as usize;
    inline[from..from + count].to_vec(alloc)
}

/// The bytes of a content from an offset on: so many, or as many as there are before its end, and none
/// from the end on. Holes read as zeros. `Damaged` comes exactly where a data block of these bytes, or a
/// block above one, isn't on the device. Memory is taken for the answer, and for blocks that aren't kept.
pub fn read<D: Device>(
    alloc: Global,
    blocks: &mut Blocks<D>,
    content: &Content,
    offset: u64,
    most: usize,
) -> Result<Vec<u8>, TreeFault>
    ensures bytes { IsTrue D.tells_bytes → IfOk result (λ part. IsPart
        (store_of (reads (D.disk (device_of blocks.old)))) content.now offset most part.items) }
    ensures count { IfOk result (λ part. vec_len part ≡ min most (size_of content.now - offset)) }
    ensures lies { IsTrue D.tells_bytes → OnOk result (IsOutside (D.status (device_of blocks.old)).sectors
        (store_of (reads (D.disk (device_of blocks.old)))) content.now offset most → ⊥) }
    ensures damaged { IsTrue D.tells_bytes → (block : TheOption ℕ) → result ≡ Err (Damaged block)
        → IsOutsideAt (D.status (device_of blocks.old)).sectors
        (store_of (reads (D.disk (device_of blocks.old)))) content.now offset most block }
    ensures same { IsTrue D.tells_bytes → D.disk (device_of blocks.new) ≡ D.disk (device_of blocks.old) }
    ensures counts { CountsTree result (D.status (device_of blocks.old)) (D.status (device_of blocks.new)) }
{
    match content {
        Content::Inline(inline) => {
            let part = read_inline(alloc, inline.as_slice(), offset, most)?;
            Ok(part)
        }
        Content::Tree(tree) => read_tree(alloc, blocks, tree, offset, most),
    }
}

//! The bytes of a file, block by block.
ghost use Rattle.std.specs.Prelude.{◌≡◌, ◌++◌, ◌-◌, ◌/◌, ◌%◌, ◌+◌, ◌<◌, ◌≤◌, ◌^◌, IsTrue, IfErr, IfOk, OnOk, drop, length, min, take, vec_len};
ghost use Rattle.std.specs.FinMap as map;
ghost use Rattle.sn_core_decide_rules.specs.Faults.{IfLookUp};
ghost use Rattle.sn_overlay.specs.Keys.{file_block_at};
ghost use Rattle.sn_overlay.specs.Layers.{bytes_of};
ghost use Rattle.sn_overlay.specs.Seen.{seen_block};
ghost use Rattle.sn_walk.specs.Frame.{Leaves};

use sn_core_decide_rules::FileFault;
use sn_overlay::{BLOCK_SIZE, Below, FileBlock};
use std::alloc::Global;

/// How many bytes a node has: none of a directory, or of a number without a node.
pub fn size<B: Below>(tree: &mut B, number: u16) -> Result<u64, B::Fault>
    requires { B.holds tree.old }
    ensures left { Leaves B.holds B.follows B.is_told B.shows tree.old tree.new }
    ensures found { IsTrue B.is_told → IfOk result (λ size. size ≡ length (bytes_of (map.get (B.shows tree.old).nodes number))) }
    ensures cause { IfErr result (λ f. B.causes tree.old tree.new f) }
{
    match tree.node(number) {
        Ok(Some(node)) => Ok(node.size),
        Ok(None) => Ok(0),
        Err(fault) => Err(fault),
    }
}

// How many bytes there are from an offset on, up to so many.
fn count_from(size: u64, offset: u64, most: usize) -> usize
    ensures { result ≡ min most (size - offset) }
{
    if offset >= size {
        return 0;
    }
    let left = size - offset;
    if (most as u64) < left {
        most
    } else {
        left as usize
    }
}

// How many bytes from an offset on lie in its block, up to so many.
fn count_within(at: u64, most: usize) -> usize
    requires { 0 < most }
    ensures some { 0 < result }
    ensures most { result ≤ most }
    ensures within { at % 4096 + result ≤ 4096 }
{
    let room = BLOCK_SIZE - (at % 4096) as usize;
    if most < room { most } else { room }
}

// Puts bytes of one block of a file after those that are there.
fn push_part<B: Below>(
    tree: &mut B,
    number: u16,
    at: u64,
    count: usize,
    bytes: &mut Vec<u8>,
) -> Result<(), FileFault<B::Fault>>
    requires holds { B.holds tree.old }
    requires within { at % 4096 + count ≤ 4096 }
    ensures left { Leaves B.holds B.follows B.is_told B.shows tree.old tree.new }
    ensures bytes { IsTrue B.is_told → OnOk result (bytes.new.items ≡ bytes.old.items
        ++ take count (drop (at % 4096) (seen_block (B.shows tree.old) (file_block_at number (at / 4096))))) }
    ensures longer { OnOk result (vec_len bytes.new ≡ vec_len bytes.old + count) }
    ensures cause { IfLookUp result (λ f. B.causes tree.old tree.new f) }
{
    let file_block = FileBlock {
        file: number,
        index: at / 4096,
    };
    let mut block = [0; BLOCK_SIZE];
    if let Err(fault) = tree.read_block(file_block, &mut block) {
        return Err(FileFault::View(fault));
    }
    let from = (at % 4096) as usize;
    bytes.extend_from_slice(&block[from..from + count])?;
    Ok(())
}

// So many bytes of a file from an offset on, which end before the file does.
fn gathered<B: Below>(
    tree: &mut B,
    alloc: Global,
    number: u16,
    offset: u64,
    count: usize,
) -> Result<Vec<u8>, FileFault<B::Fault>>
    requires holds { B.holds tree.old }
    requires fits { offset + count < 2 ^ 64 }
    requires within { IsTrue B.is_told → offset + count ≤ length (bytes_of (map.get (B.shows tree.old).nodes number)) }
    ensures left { Leaves B.holds B.follows B.is_told B.shows tree.old tree.new }
    ensures found { IsTrue B.is_told → IfOk result (λ read. read.items ≡ take count (drop offset (bytes_of (map.get (B.shows tree.old).nodes number)))) }
    ensures ends { IfOk result (λ read. offset + length read.items < 2 ^ 64) }
    ensures cause { IfLookUp result (λ f. B.causes tree.old tree.new f) }
{
    let mut bytes = Vec::with_capacity(alloc, count)?;
    while bytes.len() < count {
        let at = offset + bytes.len() as u64;
        let step = count_within(at, count - bytes.len());
        push_part(tree, number, at, step, &mut bytes)?;
    }
    Ok(bytes)
}

/// The bytes of a node from an offset on, gathered block by block: so many, or as many as there are before its end, and
/// none of a directory or of a number without a node. It is `Memory` where there is none for the answer, and `View`
/// where the tree finds a fault.
pub(crate) fn gathered_from<B: Below>(
    tree: &mut B,
    alloc: Global,
    number: u16,
    offset: u64,
    most: usize,
) -> Result<Vec<u8>, FileFault<B::Fault>>
    requires { B.holds tree.old }
    ensures left { Leaves B.holds B.follows B.is_told B.shows tree.old tree.new }
    ensures found { IsTrue B.is_told → IfOk result (λ read. read.items ≡ take most (drop offset (bytes_of (map.get (B.shows tree.old).nodes number)))) }
    ensures ends { IfOk result (λ read. offset + length read.items < 2 ^ 64) }
    ensures cause { IfLookUp result (λ f. B.causes tree.old tree.new f) }
{
    let size = match size(tree, number) {
        Ok(size) => size,
        Err(fault) => return Err(FileFault::View(fault)),
    };
    let count = count_from(size, offset, most);
    if count == 0 {
        return Ok(Vec::new(alloc));
    }
    gathered(tree, alloc, number, offset, count)
}

//! | offset | field, 72 bytes in all |
//! |---|---|
//! | 0 | size u64, in bytes |
//! | 8 | 16 pointers u32 |
ghost use Rattle.std.specs.Prelude.{◌≡◌, ℕ, ◌+◌, ◌≤◌, List, ◌++◌, length};
ghost use Rattle.sn_bytes.specs.Bytes.{Puts};
ghost use Rattle.sn_layout.specs.Pointers.{span_of};

use crate::Pointers;
use sn_bytes::{Reader, put_u64};

/// The root of the blocks of a file: how many bytes it has, and where they are.
#[derive(Clone, Copy, Default, PartialEq, Eq)]
pub struct BlockTree {
    pub size: u64,
    pub pointers: Pointers,
}

fn span_of(size: u64) -> u64
    ensures value { result ≡ span_of size }
    ensures small { result ≤ 4398046511104 }
{
    4096 * 1024u64.pow(BlockTree::levels_of(size))
}

impl BlockTree {
    ghost use Rattle.sn_layout.specs.BlockTree.{IsBlockTree, tree_bytes, ends_at_size};
    ghost use Rattle.sn_layout.specs.Pointers.{levels_of};
    ghost use Rattle.sn_layout.specs.declared.tree.BlockTree.{BlockTree as TheTree};

    /// How many levels of indirect blocks are between the pointers and the data blocks of so many
    /// bytes: none up to 65,536, one up to 67,108,864, two up to 68,719,476,736, and else three.
    pub fn levels_of(size: u64) -> u32
        ensures value { result ≡ levels_of size }
        ensures most { result ≤ 3 }
    {
        u32::from(size > 65_536) + u32::from(size > 67_108_864) + u32::from(size > 68_719_476_736)
    }

    /// Whether each pointer whose bytes would be wholly past the size is 0.
    pub fn ends_at_size(&self) -> bool
        ensures { result ≡ ends_at_size self.now }
    {
        let size = self.size;
        let span = span_of(size);
        let pointers = self.pointers.as_slice();
        for (i, pointer) in pointers.iter().enumerate() {
            if *pointer != 0 && (i as u64) * span >= size {
                return false;
            }
        }
        true
    }

    /// Any size and any pointers fit their fields.
    pub fn fits(&self)
        ensures { IsBlockTree self.now }
    {
        let _size = self.size;
        self.pointers.as_slice();
    }

    /// Writes it at an offset of a block, and answers the offset after it.
    pub fn put(&self, block: &mut [u8], at: usize) -> usize
        requires { at + 72 ≤ length block.old }
        ensures bytes { Puts block.old block.new at result (tree_bytes self.now) }
        ensures next { result ≡ at + 72 }
    {
        let at = put_u64(block, at, self.size);
        self.pointers.put(block, at)
    }

    /// Reads a root of blocks. Any bytes are one.
    pub fn read(reader: &mut Reader<'_>) -> Self
        requires { 72 ≤ length reader.old }
        ensures fits { IsBlockTree result }
        ensures read { reader.old ≡ tree_bytes result ++ reader.new }
        ensures only { (tree : TheTree) (rest : List ℕ) → IsBlockTree tree → reader.old ≡ tree_bytes tree ++ rest
            → (result ≡ tree) × (reader.new ≡ rest) }
        ensures left { length reader.new + 72 ≡ length reader.old }
    {
        let size = reader.u64();
        let pointers = Pointers::read(reader);
        BlockTree { size, pointers }
    }
}

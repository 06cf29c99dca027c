//! 1,024 pointers u32. A pointer 0 is a hole.
ghost use Rattle.std.specs.Prelude.{◌≡◌, ℕ, ◌<◌, List, length, replicate, slice_index, slice_set};
ghost use Rattle.sn_layout_node.specs.Indirect.{ArePointers, pointers_of, pointers_bytes};

use byteorder::{ByteOrder, LittleEndian};
use sn_layout::{BLOCK_SIZE, Block, put_u32s, put_zeros};
use std::marker::Model;

/// How many pointers a block holds.
pub const POINTERS_PER_BLOCK: usize = 1024;

/// The pointers of a block, which are read in place. Any block is an indirect block.
#[derive(Drop)]
pub struct IndirectBlock<'a> {
    bytes: &'a [u8],
}

impl<'a> Model for IndirectBlock<'a> {
    ghost use Rattle.std.specs.Prelude.{◌≡◌, ℕ, List, length};
    ghost use Rattle.sn_layout_node.specs.Indirect.{pointers_of};

    ghost Value = { List ℕ };

    ghost view = { λ indirect. pointers_of indirect.bytes.now };

    ghost invariant = { λ indirect. length indirect.bytes.now ≡ 4096 };
}

impl<'a> IndirectBlock<'a> {
    fn over(bytes: &'a [u8]) -> Self
        requires { length bytes.now ≡ 4096 }
        ensures { result ≡ pointers_of bytes.now }
    {
        IndirectBlock { bytes }
    }

    /// The 1,024 pointers that a block spells, read in place: each block spells some.
    pub fn decode(block: &'a Block) -> Self
        ensures read { block.now ≡ pointers_bytes result }
        ensures fits { ArePointers result }
        ensures only { (pointers : List ℕ) → ArePointers pointers → block.now ≡ pointers_bytes pointers → result ≡ pointers }
    {
        IndirectBlock::over(block)
    }

    /// The pointer at an index; 0 is a hole.
    pub fn pointer(&self, index: usize) -> u32
        requires { index < 1024 }
        ensures { result ≡ slice_index self.now index }
    {
        let at = 4 * index;
        let bytes = self.bytes;
        LittleEndian::read_u32(&bytes[at..at + 4])
    }

    /// Makes the block the spelling of these pointers: all its 4,096 bytes are written.
    pub fn encode(pointers: &[u32; POINTERS_PER_BLOCK], block: &mut Block)
        ensures { block.new ≡ pointers_bytes pointers.now }
    {
        put_u32s(block, 0, pointers);
    }

    /// Makes the block one of holes, whatever was there.
    pub fn clear(block: &mut Block)
        ensures { block.new ≡ pointers_bytes (replicate 1024 0) }
    {
        put_zeros(block, 0, BLOCK_SIZE);
    }

    /// Sets one pointer of a block, and leaves the others.
    pub fn set_pointer(block: &mut Block, index: usize, pointer: u32)
        requires { index < 1024 }
        ensures { block.new ≡ pointers_bytes (slice_set (pointers_of block.old) index pointer) }
    {
        let at = 4 * index;
        LittleEndian::write_u32(&mut block[at..at + 4], pointer);
    }
}

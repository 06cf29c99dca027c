//! A copy of an indirect block, whose pointers are set in place.
ghost use Rattle.std.specs.Prelude.{◌≡◌, ◌≢◌, ◌↔◌, ◌<◌, ◌≤◌, ◌+◌, ℕ, List, All, IsTrue, slice_index, slice_set, take, drop};
ghost use Rattle.sn_layout_node.specs.Indirect.{ArePointers, pointers_of, pointers_bytes};

use sn_layout::Block;
use sn_layout_node::{IndirectBlock, POINTERS_PER_BLOCK};
use std::marker::Model;

/// The bytes of an indirect block in memory of their own, seen as its 1,024 pointers.
#[derive(Drop)]
pub(crate) struct IndirectCopy {
    bytes: Box<Block>,
}

impl Model for IndirectCopy {
    ghost use Rattle.std.specs.Prelude.{ℕ, List};
    ghost use Rattle.sn_layout_node.specs.Indirect.{pointers_of};

    ghost Value = { List ℕ };

    ghost view = { λ copy. pointers_of copy.bytes.value };
}

impl IndirectCopy {
    pub(crate) fn new(bytes: Box<Block>) -> Self
        ensures are { ArePointers result }
        ensures bytes { bytes.value ≡ pointers_bytes result }
    {
        // Any block is one of pointers.
        pointers_in(&bytes);
        IndirectCopy { bytes }
    }

    pub(crate) fn pointer(&self, index: usize) -> u32
        requires { index < 1024 }
        ensures { result ≡ slice_index self.now index }
    {
        pointers_in(&self.bytes).pointer(index)
    }

    // Puts all of its pointers in place of others.
    pub(crate) fn list(&self, numbers: &mut [u32; POINTERS_PER_BLOCK])
        ensures { numbers.new ≡ self.now }
    {
        let pointers = pointers_in(&self.bytes);
        for (i, number) in numbers.iter_mut().enumerate() {
            *number = pointers.pointer(i);
        }
    }

    // Sets one pointer, and leaves the others.
    pub(crate) fn set(&mut self, index: usize, pointer: u32)
        requires { index < 1024 }
        ensures { self.new ≡ slice_set self.old index pointer }
    {
        set_in(&mut self.bytes, index, pointer);
    }

    // Whether all of its pointers are holes.
    pub(crate) fn is_empty(&self) -> bool
        ensures holes { IsTrue result ↔ All (λ p. p ≡ 0) self.now }
        ensures are { ArePointers self.now }
    {
        let pointers = pointers_in(&self.bytes);
        for i in 0..POINTERS_PER_BLOCK {
            if pointers.pointer(i) != 0 {
                return false;
            }
        }
        true
    }

    // How many of so many pointers from one on are holes, up to the first that is none.
    pub(crate) fn count_holes(&self, from: usize, most: usize) -> usize
        requires { from + most ≤ 1024 }
        ensures most { result ≤ most }
        ensures holes { All (λ p. p ≡ 0) (take result (drop from self.now)) }
        ensures ends { result < most → slice_index self.now (from + result) ≢ 0 }
    {
        let pointers = pointers_in(&self.bytes);
        let mut count = 0;
        while count < most && pointers.pointer(from + count) == 0 {
            count += 1;
        }
        count
    }

    pub(crate) fn into_bytes(self) -> Box<Block>
        ensures are { ArePointers self }
        ensures bytes { result.value ≡ pointers_bytes self }
    {
        pointers_in(&self.bytes);
        self.bytes
    }
}

// The pointers that a block spells.
fn pointers_in(block: &Block) -> IndirectBlock<'_>
    ensures value { result ≡ pointers_of block.now }
    ensures are { ArePointers result }
    ensures bytes { block.now ≡ pointers_bytes result }
{
    IndirectBlock::decode(block)
}

fn set_in(block: &mut Block, index: usize, pointer: u32)
    requires { index < 1024 }
    ensures { pointers_of block.new ≡ slice_set (pointers_of block.old) index pointer }
{
    IndirectBlock::set_pointer(block, index, pointer);
    pointers_in(block);
}

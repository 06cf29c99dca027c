//! The new blocks of a tree to come, and the blocks that it no longer reaches.
ghost use Rattle.std.specs.Prelude.{◌≡◌, ◌≢◌, ◌+◌, ◌^◌, ◌<◌, ◌≤◌, [], ◌∷◌, length, replicate, All, Err, IfOk, OnOk, OnErr};
ghost use Rattle.std.specs.List.Sorted.{IsStrictlyIncreasing};
ghost use Rattle.sn_alloc.specs.Taking.{IsFreeData, free_data};
ghost use Rattle.sn_image.specs.Reach.{block_reach};
ghost use Rattle.sn_tree.specs.Drafts.{Draft, numbers_of, grown, IsFresh};
ghost use Rattle.sn_tree.specs.declared.fault.PlanFault.TheVariants.{Tree, Full};
ghost use Rattle.sn_tree_read.specs.declared.fault.TreeFault.{TreeFault};

use crate::{DirtyBlock, NewBlock, PlanFault};
use sn_alloc::BlockAllocator;
use sn_layout::{BLOCK_SIZE, Block};
use std::alloc::{AllocError, Global};
use std::collections::VecDeque;
use std::marker::Model;

/// A tree in the making: blocks taken from the allocator with the bytes that they are to have, and
/// blocks of the old tree that the new one no longer reaches. Nothing is written. After an error it can
/// only be given up.
#[derive(Drop)]
pub struct Build {
    allocator: BlockAllocator,
    added: Vec<NewBlock>,
    released: Vec<u32>,
}

impl Model for Build {
    ghost use Rattle.sn_tree.specs.Drafts.{Draft};

    ghost Value = { Draft };

    ghost use Rattle.sn_tree.specs.Build.{draft_of, IsWhole};

    ghost view = { draft_of };

    ghost invariant = { IsWhole };
}

impl Build {
    /// Nothing new yet. The allocator has taken no block, and its data area doesn't begin with block 0,
    /// since a pointer 0 is a hole.
    pub fn new(alloc: Global, allocator: BlockAllocator) -> Self
        requires none { allocator.taken ≡ [] }
        requires first { 0 < allocator.first }
        ensures { result ≡ record { words = allocator.words; first = allocator.first; added = []; released = [] } }
    {
        Build {
            allocator,
            added: Vec::new(alloc),
            released: Vec::new(alloc),
        }
    }

    /// Takes a block that is free, for these bytes, and answers its number. Where that fails nothing
    /// changes. `Full` comes only where each free block is taken.
    ///
    /// Proved, also of `added`: Each new block was free and is taken once.
    pub fn put(&mut self, bytes: Box<Block>) -> Result<u32, PlanFault>
        ensures fresh { IfOk result (IsFresh self.old) }
        ensures ok { IfOk result (λ number. self.new
            ≡ grown self.old (record { number = number; bytes = bytes } ∷ []) []) }
        ensures err { OnErr result (self.new ≡ self.old) }
        ensures full { result ≡ Err Full → free_data self.old.words self.old.first ≤ length self.old.added }
        ensures own { (fault : TreeFault) → result ≢ Err (Tree fault) }
    {
        self.allocator.reserve(1)?;
        self.added.reserve(1)?;
        let number = self.allocator.take()?;
        self.added.push_reserved(NewBlock { number, bytes });
        Ok(number)
    }

    /// Notes that the new tree doesn't reach the block at a pointer of the old one. At 0 there
    /// is none.
    ///
    /// Proved: A block that the new tree doesn't reach is noted once for each pointer.
    pub fn release(&mut self, pointer: u32) -> Result<(), AllocError>
        ensures ok { OnOk result (self.new ≡ grown self.old [] (block_reach pointer)) }
        ensures err { OnErr result (self.new ≡ self.old) }
    {
        if pointer != 0 {
            self.released.push(pointer)?;
        }
        Ok(())
    }

    /// The new blocks, in the order in which they were taken.
    pub fn added(&self) -> &[NewBlock]
        ensures value { result.now ≡ self.now.added }
        ensures free { All (IsFreeData self.now.words self.now.first) (numbers_of result.now) }
        ensures ascending { IsStrictlyIncreasing (numbers_of result.now) }
    {
        self.allocator.taken();
        self.added.as_slice()
    }

    /// The blocks that are no longer reached.
    pub fn released(&self) -> &[u32]
        ensures { result.now ≡ self.now.released }
    {
        self.released.as_slice()
    }

    /// How many blocks can still be added.
    pub fn left(&self) -> u32
        ensures { length self.now.added + result ≡ free_data self.now.words self.now.first }
    {
        self.allocator.left()
    }

    /// Says how many blocks can be added at most, and counts none: `left` goes through the map.
    pub fn bound(&self)
        ensures added { length self.now.added ≤ free_data self.now.words self.now.first }
        ensures free { free_data self.now.words self.now.first < length self.now.added + 2 ^ 32 }
    {
        self.allocator.bound();
    }

    /// The allocator, which took the new blocks, with those and the released ones.
    pub fn into_parts(self) -> (BlockAllocator, Vec<NewBlock>, Vec<u32>)
        ensures words { result.0.words ≡ self.words }
        ensures first { result.0.first ≡ self.first }
        ensures taken { result.0.taken ≡ numbers_of self.added }
        ensures added { result.1.items ≡ self.added }
        ensures released { result.2.items ≡ self.released }
    {
        (self.allocator, self.added, self.released)
    }

    // How many blocks were added, and how many released.
    pub(crate) fn counts(&self) -> (usize, usize)
        ensures added { result.0 ≡ length self.now.added }
        ensures released { result.1 ≡ length self.now.released }
    {
        (self.added.len(), self.released.len())
    }

    // No dirty block.
    pub(crate) fn no_dirty(&self) -> VecDeque<DirtyBlock>
        ensures { result.items ≡ [] }
    {
        VecDeque::new(*self.added.allocator())
    }

    // A block of its own, of zeros.
    pub(crate) fn zeros(&self) -> Result<Box<Block>, AllocError>
        ensures { IfOk result (λ boxed. boxed.value ≡ replicate 4096 0) }
    {
        Ok(Box::new(*self.added.allocator(), [0; BLOCK_SIZE])?)
    }

    /// A block of its own with these bytes, in memory alone: it isn't added. It fails only where memory is short.
    pub fn boxed(&self, block: &Block) -> Result<Box<Block>, AllocError>
        ensures { IfOk result (λ boxed. boxed.value ≡ block.now) }
    {
        let mut boxed = self.zeros()?;
        boxed.copy_from_slice(block);
        Ok(boxed)
    }
}

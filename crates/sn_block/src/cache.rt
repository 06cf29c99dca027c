//! The blocks that are kept, at most 256. This is all that knows of `lru`.
ghost use Rattle.std.specs.Prelude.{◌≡◌, ◌<◌, [], length, IsTrue, IfOk, OnOk, Some};

use lru::LruCache;
use sn_limits::Block;
use std::alloc::{AllocError, Global};
use std::num::NonZeroUsize;

const KEPT_BLOCKS: usize = 256;

// Blocks by their numbers, the one that was used last first.
#[derive(Drop)]
pub(crate) struct Cache {
    blocks: LruCache<u64, Box<Block>>,
}

impl Cache {
    ghost use Rattle.sn_block.specs.Cache.{entries_of, has, first_number, first_bytes, HasOnly, HasOnlyWith, HasOnlyOthers};

    // Keeps none. Room for the numbers of all is taken here.
    pub(crate) fn new(alloc: Global) -> Result<Self, AllocError>
        ensures empty { IfOk result (λ cache. entries_of cache ≡ []) }
    {
        let limit = NonZeroUsize::new(KEPT_BLOCKS).unwrap();
        let blocks = LruCache::new(alloc, limit)?;
        Ok(Cache { blocks })
    }

    // Whether the block is kept. Then it counts as used last.
    pub(crate) fn find(&mut self, number: u64) -> bool
        ensures kept { result ≡ has number (entries_of self.old) }
        ensures first { IsTrue result → first_number (entries_of self.new) ≡ Some number }
        ensures others { HasOnly (entries_of self.old) (entries_of self.new) }
    {
        self.blocks.promote(&number)
    }

    // Room for a block: of a full cache, that of the block that wasn't used for longest, which is dropped.
    pub(crate) fn take_room(&mut self) -> Result<Box<Block>, AllocError>
        ensures others { HasOnly (entries_of self.old) (entries_of self.new) }
    {
        if self.blocks.len() < KEPT_BLOCKS {
            let alloc = *self.blocks.allocator();
            return Ok(Box::new(alloc, [0; 4096])?);
        }
        let (_, block) = self.blocks.pop_lru().unwrap();
        Ok(block)
    }

    // Keeps a block, which counts as used last.
    pub(crate) fn put(&mut self, number: u64, block: Box<Block>) -> Result<(), AllocError>
        ensures first { OnOk result (first_number (entries_of self.new) ≡ Some number) }
        ensures others { HasOnlyWith number block.value (entries_of self.old) (entries_of self.new) }
    {
        self.blocks.put(number, block)?;
        Ok(())
    }

    // Keeps the block no longer.
    pub(crate) fn forget(&mut self, number: u64)
        ensures others { HasOnlyOthers number (entries_of self.old) (entries_of self.new) }
    {
        // That no number is kept twice is a promise of `len`.
        let _kept = self.blocks.len();
        self.blocks.pop(&number);
    }

    // The number of the block that was used last.
    pub(crate) fn first_number(&self) -> u64
        requires { 0 < length (entries_of self.now) }
        ensures { Some result ≡ first_number (entries_of self.now) }
    {
        let (number, _) = self.blocks.peek_mru().unwrap();
        *number
    }

    // The block that was used last.
    pub(crate) fn first(&self) -> &Block
        requires { 0 < length (entries_of self.now) }
        ensures { result.now ≡ first_bytes (entries_of self.now) }
    {
        let (_, block) = self.blocks.peek_mru().unwrap();
        block
    }
}

ghost use Rattle.std.specs.Prelude.{◌≡◌, ◌+◌, ◌^◌, ◌<◌, ◌≤◌, ◌↔◌, length, All, IsOk, IfOk, OnOk, OnErr};
ghost use Rattle.std.specs.List.Sorted.{IsStrictlyIncreasing};
ghost use Rattle.std.specs.Result.{result_ok};
ghost use Rattle.sn_map.specs.Free.{next_free};
ghost use Rattle.sn_alloc.specs.Taking.{Taking, nothing_taken, after_take, after_full, IsFreeData, IsLeft, NoneLeft, free_data};

use crate::Full;
use sn_map::Map;
use std::alloc::{AllocError, Global};
use std::marker::Model;

/// Takes free blocks of the data area of a map, in the order of the blocks.
#[derive(Drop)]
pub struct BlockAllocator {
    map: Map,
    first: u32,
    next: u32,
    looked: u32,
    taken: Vec<u32>,
}

impl Model for BlockAllocator {
    ghost use Rattle.sn_alloc.specs.Taking.{Taking, IsTaking};

    ghost Value = { Taking };

    ghost use Rattle.sn_alloc.specs.BlockAllocator.{taking_of};

    ghost view = { taking_of };

    ghost invariant = { λ a. IsTaking (taking_of a) };
}

impl BlockAllocator {
    /// An allocator over the blocks of the map from the first data block on.
    pub fn new(alloc: Global, map: Map, first: u32) -> Self
        requires { first ≤ length map }
        ensures { result ≡ nothing_taken map first }
    {
        BlockAllocator {
            map,
            first,
            next: first,
            looked: 0,
            taken: Vec::new(alloc),
        }
    }

    /// Makes room to remember so many more blocks. Where memory is refused nothing changes.
    pub fn reserve(&mut self, blocks: u32) -> Result<(), AllocError>
        ensures ok { OnOk result (blocks ≤ self.new.room) }
        ensures room { self.old.room ≤ self.new.room }
        ensures same { self.new ≡ record self.old { room = self.new.room } }
        ensures err { OnErr result (self.new ≡ self.old) }
        ensures there_already { blocks ≤ self.old.room → IsOk result }
    {
        self.taken.reserve(blocks as usize)
    }

    /// How many more blocks there is room to remember.
    pub fn room(&self) -> usize
        ensures { result ≡ self.now.room }
    {
        self.taken.capacity() - self.taken.len()
    }

    /// Takes the next free block, from where the last search stopped. It takes no memory: the room
    /// comes from `reserve`. `Full` comes where every free block of the data area is taken, and the
    /// search is then at the end.
    ///
    /// Proved: A taken block's word was zero, it is in the data area and wasn't taken before; `Full` comes only where no
    /// block is left.
    pub fn take(&mut self) -> Result<u32, Full>
        requires { 0 < self.old.room }
        // The block was free, and wasn't taken before. `Full` comes only where none is left.
        ensures left { IfOk result (IsLeft self.old) }
        ensures full { OnErr result (NoneLeft self.old) }
        ensures counted { IsOk result
            ↔ (length self.old.taken < free_data self.old.words self.old.first) }

        // Which block it is, and what the search adds.
        ensures block { result_ok result ≡ next_free self.old.words self.old.next }
        ensures ok { IfOk result (λ block. self.new ≡ after_take self.old block) }
        ensures err { OnErr result (self.new ≡ after_full self.old) }
    {
        let blocks = self.map.len();
        match self.map.next_free(self.next) {
            Some(block) => {
                self.looked += block - self.next + 1;
                self.next = block + 1;
                self.taken.push_reserved(block);
                Ok(block)
            }
            None => {
                self.looked += blocks - self.next;
                self.next = blocks;
                Err(Full)
            }
        }
    }

    /// How many blocks can still be taken.
    pub fn left(&self) -> u32
        ensures { length self.now.taken + result ≡ free_data self.now.words self.now.first }
    {
        self.map.count_free_from(self.next)
    }

    /// Says how many blocks there are at most, and counts none: `left` goes through the map.
    pub fn bound(&self)
        ensures taken { length self.now.taken ≤ free_data self.now.words self.now.first }
        ensures free { free_data self.now.words self.now.first < length self.now.taken + 2 ^ 32 }
    {
        // A map has a number of 32 bits for each block.
        let _blocks = self.map.len();
    }

    /// How many words the searches of all takes looked at: for each, those from where it began to the
    /// block that it took, both counted, and at `Full` those to the end.
    ///
    /// Proved: The words looked at are counted, and are at most the words of the map over all takes.
    pub fn looked(&self) -> u64
        ensures sum { result ≡ self.now.looked }
        ensures at_most { result ≤ length self.now.words }
        // Each word of the data area up to the next search was looked at once.
        ensures once { self.now.first + result ≡ self.now.next }
    {
        u64::from(self.looked)
    }

    /// The blocks taken, in order.
    pub fn taken(&self) -> &[u32]
        ensures taken { result.now ≡ self.now.taken }
        ensures free { All (IsFreeData self.now.words self.now.first) result.now }
        ensures ascending { IsStrictlyIncreasing result.now }
    {
        self.taken.as_slice()
    }

    /// The map as it was given.
    pub fn map(&self) -> &Map
        ensures { result.now ≡ self.now.words }
    {
        &self.map
    }

    /// Gives up what was taken, and gives back the map as it was given.
    ///
    /// Proved: The map that is given back when a build is given up is the one that was given.
    pub fn give_up(self) -> Map
        ensures { result ≡ self.words }
    {
        self.into_parts().0
    }

    /// The map as it was given, and the blocks taken from it, in order.
    pub fn into_parts(self) -> (Map, Vec<u32>)
        ensures map { result.0 ≡ self.words }
        ensures taken { result.1.items ≡ self.taken }
    {
        (self.map, self.taken)
    }
}

ghost use Rattle.std.specs.Prelude.{◌≡◌, ℕ, ◌^◌, ◌<◌, ◌≤◌, ◌↔◌, List, [], length, drop, map, replicate, count_by, vec_len, slice_index, slice_set, IsTrue, IfOk, IfSome, IfNone};
ghost use Rattle.sn_map.specs.Bits.{with_bit_copied, with_bit_cleared, CopiesBit, ClearsBit, PutsBit};
ghost use Rattle.std.specs.Int.{bit_at};
ghost use Rattle.sn_map.specs.Free.{is_free_word, next_free, IsNextFree, NoneFree};

use crate::lanes;
use std::alloc::{AllocError, Global};
use std::marker::Model;

/// One word for each block: bit 0 is set where the live file system reaches the block, bit k where
/// the snapshot with bit k does (Hitz, Lau and Malcolm 1994, block-map file).
#[derive(Drop)]
pub struct Map {
    words: Vec<u32>,
}

impl Model for Map {
    ghost Value = { List ℕ };

    ghost view = { λ map. map.words.items };

    ghost invariant = { λ map. vec_len map.words < 2 ^ 32 };
}

impl Map {
    /// A map on which every block is free.
    pub fn new(alloc: Global, blocks: u32) -> Result<Self, AllocError>
        ensures { IfOk result (λ map. map ≡ replicate blocks 0) }
    {
        Ok(Map {
            words: Vec::from_elem(alloc, 0, blocks as usize)?,
        })
    }

    /// The map with these words, one for each block.
    pub fn from_words(words: Vec<u32>) -> Self
        requires { vec_len words < 2 ^ 32 }
        ensures { result ≡ words.items }
    {
        Map { words }
    }

    /// A copy of the map.
    pub fn try_clone(&self) -> Result<Self, AllocError>
        ensures { IfOk result (λ copy. copy ≡ self.now) }
    {
        Ok(Map {
            words: self.words.clone()?,
        })
    }

    /// How many blocks the map has.
    pub fn len(&self) -> u32
        ensures { result ≡ length self.now }
    {
        self.words.len() as u32
    }

    /// Whether the map has no block at all.
    pub fn is_empty(&self) -> bool
        ensures { IsTrue result ↔ (self.now ≡ []) }
    {
        self.words.is_empty()
    }

    /// The words in the order of the blocks.
    pub fn words(&self) -> &[u32]
        ensures { result.now ≡ self.now }
    {
        self.words.as_slice()
    }

    /// The word of a block.
    pub fn word(&self, block: u32) -> u32
        requires { block < length self.now }
        ensures { result ≡ slice_index self.now block }
    {
        self.words()[block as usize]
    }

    /// Sets the word of a block.
    pub fn set_word(&mut self, block: u32, word: u32)
        requires { block < length self.old }
        ensures { self.new ≡ slice_set self.old block word }
    {
        self.words[block as usize] = word;
    }

    /// Whether the root with bit k reaches the block.
    pub fn has_bit(&self, block: u32, k: u32) -> bool
        requires block { block < length self.now }
        requires bit { k < 32 }
        ensures { IsTrue result ↔ (bit_at (slice_index self.now block) k ≡ 1) }
    {
        (self.word(block) >> k) & 1 == 1
    }

    /// Says that the root with bit k reaches the block.
    pub fn set_bit(&mut self, block: u32, k: u32)
        requires block { block < length self.old }
        requires bit { k < 32 }
        ensures { PutsBit block k 1 self.old self.new }
    {
        self.set_word(block, self.word(block) | (1 << k));
    }

    /// Says that the root with bit k doesn't reach the block.
    pub fn unset_bit(&mut self, block: u32, k: u32)
        requires block { block < length self.old }
        requires bit { k < 32 }
        ensures { PutsBit block k 0 self.old self.new }
    {
        self.set_word(block, self.word(block) & !(1 << k));
    }

    /// Whether no root reaches the block.
    pub fn is_free(&self, block: u32) -> bool
        requires { block < length self.now }
        ensures { IsTrue result ↔ (slice_index self.now block ≡ 0) }
    {
        self.word(block) == 0
    }

    /// How many blocks are free, of all of them.
    ///
    /// Proved, also of `next_free`, `copy_bit0_to`, `copy_bit_to_0` and `clear_bit`: Each pass over the block map, on lanes
    /// of several words, is a plain list function of the words.
    pub fn count_free(&self) -> u32
        ensures { result ≡ count_by is_free_word self.now }
    {
        lanes::count_free(&self.words) as u32
    }

    /// How many blocks are free from one on, as from the first data block.
    pub fn count_free_from(&self, from: u32) -> u32
        requires { from ≤ length self.now }
        ensures { result ≡ count_by is_free_word (drop from self.now) }
    {
        lanes::count_free(&self.words[from as usize..]) as u32
    }

    /// The first free block from one on.
    #[inline]
    pub fn next_free(&self, from: u32) -> Option<u32>
        ensures first { result ≡ next_free self.now from }
        ensures found { IfSome result (λ block. IsNextFree self.now from block) }
        ensures none { IfNone result (NoneFree self.now from) }
    {
        if from >= self.len() {
            return None;
        }
        match lanes::first_free(&self.words[from as usize..]) {
            Some(ahead) => Some(from + ahead as u32),
            None => None,
        }
    }

    /// Makes bit `to` of each word what its bit `from` is: of two roots the one reaches what the other
    /// reaches.
    pub fn copy_bit(&mut self, from: u32, to: u32)
        requires from { from < 32 }
        requires to { to < 32 }
        ensures words { self.new ≡ map (with_bit_copied from to) self.old }
        ensures bits { CopiesBit from to self.old self.new }
    {
        lanes::copy_bit(&mut self.words, from, to);
    }

    /// Makes bit k of each word what its bit 0 is: the snapshot with bit k reaches what the live
    /// file system reaches.
    pub fn copy_bit0_to(&mut self, k: u32)
        requires { k < 32 }
        ensures words { self.new ≡ map (with_bit_copied 0 k) self.old }
        ensures bits { CopiesBit 0 k self.old self.new }
    {
        self.copy_bit(0, k);
    }

    /// Makes bit 0 of each word what its bit k is: the live file system reaches what the snapshot
    /// with bit k reaches.
    pub fn copy_bit_to_0(&mut self, k: u32)
        requires { k < 32 }
        ensures words { self.new ≡ map (with_bit_copied k 0) self.old }
        ensures bits { CopiesBit k 0 self.old self.new }
    {
        self.copy_bit(k, 0);
    }

    /// Makes bit k of each word 0: no block is reached by the snapshot with bit k, and a block that
    /// nothing else reaches is free.
    pub fn clear_bit(&mut self, k: u32)
        requires { k < 32 }
        ensures words { self.new ≡ map (with_bit_cleared k) self.old }
        ensures bits { ClearsBit k self.old self.new }
    {
        lanes::clear_bit(&mut self.words, k);
    }
}

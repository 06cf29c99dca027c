//! The index of a directory, and what it answers.
ghost use Rattle.std.specs.Prelude.{◌≡◌, ◌≢◌, ◌<◌, ◌≤◌, ◌/◌, ℕ, None, slice_index_or, vec_len};
ghost use Rattle.sn_layout.specs.Pointers.{levels_of};

use crate::Print;
use crate::ordered::OrderedNumbers;
use crate::rooms::is_below;
use sn_layout::BlockTree;

/// What is known of the blocks of a directory: where they are, which names they may have, and what room is
/// left in them.
#[derive(Drop)]
pub struct NameIndex {
    /// The directory's size and sixteen pointers.
    pub(crate) tree: BlockTree,
    /// The number on the device of each block, 0 where it isn't known.
    pub(crate) numbers: Vec<u32>,
    /// The bytes left in each block, 0 to 4,096, `None` where its names aren't known.
    pub(crate) rooms: Vec<Option<u16>>,
    /// For each name of each known block its print and the block.
    pub(crate) entries: OrderedNumbers,
    /// The blocks before this one are known.
    pub(crate) first_unknown: usize,
    ghost level: { levels_of tree.size ≤ 1 },
    ghost few: { vec_len numbers ≤ 16384 },
    ghost all: { vec_len numbers ≡ tree.size / 4096 },
    ghost beside: { vec_len rooms ≡ vec_len numbers },
    ghost known: { (i : ℕ) → i < first_unknown → slice_index_or rooms.items i None ≢ None },
}

impl NameIndex {
    ghost use Rattle.std.specs.Prelude.{Contains, List, true};
    ghost use Rattle.sn_ondisk.specs.Trees.{Store};
    ghost use Rattle.sn_names.specs.Prints.{print_of, entry_at};
    ghost use Rattle.sn_names.specs.Told.{IsSeen, LacksName, IsUnwanted};
    ghost use Rattle.sn_names.specs.Rooms.{room_is_below};
    ghost use Rattle.sn_names.specs.Index.{Tells, entries_of, room_at};

    // Whether it's the index of a directory.
    pub(crate) fn is_of(&self, tree: &BlockTree) -> bool
        ensures { result ≡ true → self.now.tree ≡ tree.now }
    {
        self.tree == *tree
    }

    // The first block from one on that may have a name of a print, as far as entries say; or the end.
    fn next_listed(&self, print: Print, from: u64) -> u64
        requires { from < vec_len self.now.numbers }
        ensures after { from ≤ result }
        ensures end { result ≤ vec_len self.now.numbers }
        ensures none { (i : ℕ) → from ≤ i → i < result → Contains (entries_of self.now) (entry_at print i) → ⊥ }
    {
        let count = self.numbers.len() as u64;
        match self.entries.next(print.entry_at(from)) {
            Some(entry) => match print.block_of(entry) {
                Some(block) => block.min(count),
                None => count,
            },
            None => count,
        }
    }

    // The first block from one on, before another, of which the names aren't known; or that other one.
    fn next_unknown(&self, from: u64, until: u64) -> u64
        requires from { from ≤ until }
        requires until { until ≤ vec_len self.now.numbers }
        ensures after { from ≤ result }
        ensures end { result ≤ until }
        ensures known { (i : ℕ) → from ≤ i → i < result → room_at self.now i ≢ None }
    {
        let mut i = from.max(self.first_unknown as u64);
        while i < until && self.rooms[i as usize].is_some() {
            i += 1;
        }
        i.min(until)
    }

    // The first block from one on, before another, of which the names aren't known, or that has at least
    // this room; or that other one.
    fn next_roomy(&self, least: usize, from: u64, until: u64) -> u64
        requires from { from ≤ until }
        requires until { until ≤ vec_len self.now.numbers }
        ensures after { from ≤ result }
        ensures end { result ≤ until }
        ensures below { (i : ℕ) → from ≤ i → i < result → room_is_below least (room_at self.now i) ≡ true }
    {
        let mut i = from;
        while i < until && is_below(self.rooms[i as usize], least) {
            i += 1;
        }
        i
    }

    // The first block from one on that may have a name of this print: each block passed over lacks the
    // name. Where there is none it is the number of blocks.
    pub(crate) fn next_block(&self, print: Print, from: u64) -> u64
        ensures after { from ≤ result }
        ensures end { from ≤ self.now.tree.size / 4096 → result ≤ self.now.tree.size / 4096 }
        ensures passed { (sectors : ℕ) (s : Store) (name : List ℕ) (i : ℕ) → Tells sectors s self.now
            → print_of name ≡ print → from ≤ i → i < result
            → IsSeen sectors s self.now.tree i (LacksName name) }
    {
        if from >= self.numbers.len() as u64 {
            return from;
        }
        self.next_unknown(from, self.next_listed(print, from))
    }

    // The first block from one on that may have a name of one of these prints, or at least this room: each
    // block passed over has neither. Where there is none it is the number of blocks.
    pub(crate) fn next_wanted(&self, prints: &[Print], least: usize, from: u64) -> u64
        ensures after { from ≤ result }
        ensures end { from ≤ self.now.tree.size / 4096 → result ≤ self.now.tree.size / 4096 }
        ensures passed { (sectors : ℕ) (s : Store) (i : ℕ) → Tells sectors s self.now → from ≤ i → i < result
            → IsSeen sectors s self.now.tree i (IsUnwanted prints.now least) }
    {
        if from >= self.numbers.len() as u64 {
            return from;
        }
        let mut until = self.numbers.len() as u64;
        for print in prints {
            until = until.min(self.next_listed(*print, from));
        }
        self.next_roomy(least, from, until)
    }
}

//! The indexes of names that are kept beside the blocks.
ghost use Rattle.std.specs.Prelude.{◌≡◌, ◌<◌, ◌≤◌, ◌/◌, ℕ, IsTrue, IsSome, IfOk};
ghost use Rattle.sn_device.specs.Disk.{reads};
ghost use Rattle.sn_ondisk.specs.Trees.{Store, store_of};
ghost use Rattle.sn_names.specs.Index.{Tells, is_indexable, tree_of};
ghost use Rattle.sn_names.specs.Told.{IsSeen, LacksName, IsUnwanted};

use crate::Blocks;
use sn_device::Device;
use sn_layout::BlockTree;
use sn_names::{NameIndex, Print};
use std::alloc::AllocError;

impl<D: Device> Blocks<D> {
    ghost use Rattle.sn_block.specs.Lending.{device_of, fetched_number, fetched_bytes};

    /// Whether a directory has an index of its names. Then it counts as the one used last.
    ///
    /// Proved, also of `new_index`, `keep_index` and `note_names`: Calls on indexes of names leave the device, its counts
    /// and the block that is lent.
    pub fn has_index(&mut self, tree: &BlockTree) -> bool
        ensures device { device_of self.new ≡ device_of self.old }
        ensures number { fetched_number self.new ≡ fetched_number self.old }
        ensures bytes { fetched_bytes self.new ≡ fetched_bytes self.old }
    {
        self.names.has(tree)
    }

    /// Begins an index of a directory, which knows no names, and isn't kept before `keep_index`.
    pub fn new_index(&self, tree: &BlockTree) -> Result<NameIndex, AllocError>
        requires { IsTrue (is_indexable tree.now) }
        ensures tree { IfOk result (λ index. tree_of index ≡ tree.now) }
        ensures told { IfOk result (λ index. (s : Store) → Tells (D.status (device_of self.now)).sectors s index) }
    {
        self.names.begin(tree, self.device.sectors())
    }

    /// Keeps an index as the one used last, with what another one knows of blocks in the same places. Where
    /// memory is refused, it isn't kept.
    pub fn keep_index(&mut self, index: NameIndex)
        requires told { IsTrue D.tells_bytes → Tells (D.status (device_of self.old)).sectors
            (store_of (reads (D.disk (device_of self.old)))) index }
        ensures device { device_of self.new ≡ device_of self.old }
        ensures number { fetched_number self.new ≡ fetched_number self.old }
        ensures bytes { fetched_bytes self.new ≡ fetched_bytes self.old }
    {
        self.names.keep(index);
    }

    /// The first block of a directory from one on that may have a name: each block passed over is there, and
    /// lacks it. Without an index no block is passed over. Where there is none it is the number of blocks.
    ///
    /// Proved, also of `next_wanted`: Each block of a directory that is passed over is there by what reads give, spells
    /// names, and lacks the name that is looked for, or all names of the prints and the room, whatever was written since the
    /// index learnt it, also where a write failed.
    pub fn next_block(&self, tree: &BlockTree, name: &[u8], from: u64) -> u64
        ensures after { from ≤ result }
        ensures end { from ≤ tree.now.size / 4096 → result ≤ tree.now.size / 4096 }
        ensures passed { IsTrue D.tells_bytes → (i : ℕ) → from ≤ i → i < result
            → IsSeen (D.status (device_of self.now)).sectors
            (store_of (reads (D.disk (device_of self.now)))) tree.now i (LacksName name.now) }
    {
        self.names.next_block(tree, name, from)
    }

    /// The first block of a directory from one on that may have a name of one of these prints, or at least
    /// this room: each block passed over is there, and has neither. Without an index no block is passed over.
    /// Where there is none it is the number of blocks.
    pub fn next_wanted(&self, tree: &BlockTree, prints: &[Print], least: usize, from: u64) -> u64
        ensures after { from ≤ result }
        ensures end { from ≤ tree.now.size / 4096 → result ≤ tree.now.size / 4096 }
        ensures passed { IsTrue D.tells_bytes → (i : ℕ) → from ≤ i → i < result
            → IsSeen (D.status (device_of self.now)).sectors
            (store_of (reads (D.disk (device_of self.now)))) tree.now i (IsUnwanted prints.now least) }
    {
        self.names.next_wanted(tree, prints, least, from)
    }

    /// The names of the block that is lent become known as those of block `i` of a directory, if the
    /// directory has an index, which has the block at that number, and its bytes spell names. Where memory
    /// is refused the index is dropped.
    pub fn note_names(&mut self, tree: &BlockTree, i: u64)
        requires { IsSome (fetched_number self.old) }
        ensures device { device_of self.new ≡ device_of self.old }
        ensures number { fetched_number self.new ≡ fetched_number self.old }
        ensures bytes { fetched_bytes self.new ≡ fetched_bytes self.old }
    {
        let number = self.cache.first_number();
        let block = self.cache.first();
        if let Ok(number) = u32::try_from(number) {
            self.names.note_names(tree, i, number, block);
        }
    }
}

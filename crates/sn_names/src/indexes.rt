//! The indexes that are kept.
ghost use Rattle.std.specs.Prelude.{◌≤◌, vec_len};

use crate::kept::KeptIndex;
use crate::{NameIndex, Print};
use sn_layout::{Block, BlockTree};
use std::alloc::{AllocError, Global};

/// So many indexes are kept at most.
const MOST_INDEXES: usize = 8;

/// So many names they have at most together.
const MOST_NAMES: usize = 262_144;

/// The indexes of the directories that were used last: at most eight, which have at most 262,144 names
/// together.
#[derive(Drop)]
pub struct NameIndexes {
    alloc: Global,
    /// The one used last is the last one.
    list: Vec<KeptIndex>,
    ghost few: { vec_len list ≤ 8 },
}

// In how many places two lists have the same number, which isn't 0.
fn count_same(first: &[u32], second: &[u32]) -> usize {
    let mut count: usize = 0;
    for i in 0..first.len().min(second.len()) {
        if first[i] != 0 && first[i] == second[i] {
            count = count.saturating_add(1);
        }
    }
    count
}

impl NameIndexes {
    ghost use Rattle.std.specs.Prelude.{◌≡◌, ◌≢◌, ◌<◌, ◌/◌, ℕ, true, All, IfOk, IfSome, slice_index_or};
    ghost use Rattle.sn_ondisk.specs.Trees.{Store};
    ghost use Rattle.sn_names.specs.declared.kept.KeptIndex.{KeptIndex as TheKept};
    ghost use Rattle.sn_names.specs.Told.{IsSeen, LacksName, IsUnwanted};
    ghost use Rattle.sn_names.specs.Index.{RestsOn, Tells, is_indexable, tree_of};
    ghost use Rattle.sn_names.specs.Indexes.{AllTell};

    /// None is kept yet.
    pub fn new(alloc: Global) -> Self
        ensures { (sectors : ℕ) (s : Store) → AllTell sectors s result }
    {
        NameIndexes {
            alloc,
            list: Vec::new(alloc),
        }
    }

    // Which one is a directory's.
    fn position(&self, tree: &BlockTree) -> Option<usize>
        ensures within { IfSome result (λ k. k < vec_len self.now.list) }
        ensures found { IfSome result (λ k. (d : TheKept) → (slice_index_or self.now.list.items k d).index.tree ≡ tree.now) }
    {
        for k in 0..self.list.len() {
            if self.list[k].index.is_of(tree) {
                return Some(k);
            }
        }
        None
    }

    /// Whether a directory has an index. Then it's the one used last.
    pub fn has(&mut self, tree: &BlockTree) -> bool
        ensures { (sectors : ℕ) (s : Store) → AllTell sectors s self.old → AllTell sectors s self.new }
    {
        match self.position(tree) {
            Some(k) => {
                let kept = self.list.remove(k);
                self.list.push(kept).is_ok()
            }
            None => false,
        }
    }

    /// Begins the index of a directory on a device of so many sectors, which knows no names, and isn't kept
    /// before `keep`. Where there are indirect blocks, `place_below` records in it where the others are.
    ///
    /// Proved, also of `place_below`, `note_names` and `keep`: What is learnt from a block's bytes, from an indirect block
    /// or from another index is true where those were.
    pub fn begin(&self, tree: &BlockTree, sectors: u64) -> Result<NameIndex, AllocError>
        requires { is_indexable tree.now ≡ true }
        ensures tree { IfOk result (λ index. tree_of index ≡ tree.now) }
        ensures told { IfOk result (λ index. (s : Store) → Tells sectors s index) }
    {
        NameIndex::new(self.alloc, tree, sectors)
    }

    /// The first block of a directory from one on that may have a name: each block passed over lacks it.
    /// Without an index no block is passed over. Where there is none it is the number of blocks.
    ///
    /// Proved: A block that is passed over is at its place on the device, spells names, and none of them is the one that is
    /// looked for.
    pub fn next_block(&self, tree: &BlockTree, name: &[u8], from: u64) -> u64
        ensures after { from ≤ result }
        ensures end { from ≤ tree.now.size / 4096 → result ≤ tree.now.size / 4096 }
        ensures passed { (sectors : ℕ) (s : Store) (i : ℕ) → AllTell sectors s self.now → from ≤ i → i < result
            → IsSeen sectors s tree.now i (LacksName name.now) }
    {
        match self.position(tree) {
            Some(k) => self.list[k].index.next_block(Print::of(name), from),
            None => from,
        }
    }

    /// The first block of a directory from one on that may have a name of one of these prints, or at least
    /// this room: each block passed over has neither. Without an index no block is passed over. Where there
    /// is none it is the number of blocks.
    ///
    /// Proved: A block that is passed over for several names has none of these, and less room than is asked for.
    pub fn next_wanted(&self, tree: &BlockTree, prints: &[Print], least: usize, from: u64) -> u64
        ensures after { from ≤ result }
        ensures end { from ≤ tree.now.size / 4096 → result ≤ tree.now.size / 4096 }
        ensures passed { (sectors : ℕ) (s : Store) (i : ℕ) → AllTell sectors s self.now → from ≤ i → i < result
            → IsSeen sectors s tree.now i (IsUnwanted prints.now least) }
    {
        match self.position(tree) {
            Some(k) => self.list[k].index.next_wanted(prints, least, from),
            None => from,
        }
    }

    /// The names of block `i` of a directory become known from its bytes, if the directory has an index, the
    /// block is at this number, and they spell names. Where memory is refused the index is dropped.
    pub fn note_names(&mut self, tree: &BlockTree, i: u64, number: u32, block: &Block)
        ensures { (sectors : ℕ) (s : Store) → AllTell sectors s self.old → s number ≡ block.now
            → AllTell sectors s self.new }
    {
        let Some(k) = self.position(tree) else {
            return;
        };
        let mut kept = self.list.remove(k);
        if kept.note(i, number, block).is_err() {
            return;
        }
        let _kept = self.list.push(kept);
        self.trim();
    }

    // The index that has the most blocks in the same places, if one has any.
    fn most_alike(&self, index: &NameIndex) -> Option<usize>
        ensures { IfSome result (λ k. k < vec_len self.now.list) }
    {
        let mut best = None;
        let mut most = 0;
        for k in 0..self.list.len() {
            let same = count_same(&index.numbers, &self.list[k].index.numbers);
            if same > most {
                most = same;
                best = Some(k);
            }
        }
        best
    }

    // The index with what the one that is most alike knows besides.
    fn taught(&self, mut index: NameIndex) -> Result<NameIndex, AllocError>
        ensures { IfOk result (λ taught. (sectors : ℕ) (s : Store) → AllTell sectors s self.now
            → Tells sectors s index → Tells sectors s taught) }
    {
        if let Some(k) = self.most_alike(&index) {
            index.take_over(self.alloc, &self.list[k].index)?;
            return Ok(index);
        }
        Ok(index)
    }

    // Makes room for one more: of eight the one that wasn't used for longest is dropped.
    fn make_room(&mut self)
        ensures room { vec_len self.new.list < 8 }
        ensures told { (sectors : ℕ) (s : Store) → AllTell sectors s self.old → AllTell sectors s self.new }
    {
        if self.list.len() >= MOST_INDEXES {
            self.list.remove(0);
        }
    }

    /// Keeps an index as the one used last. What is known of blocks that are in the same places in the index
    /// most alike is taken over. Where memory is refused, the index isn't kept.
    pub fn keep(&mut self, index: NameIndex)
        ensures { (sectors : ℕ) (s : Store) → AllTell sectors s self.old → Tells sectors s index
            → AllTell sectors s self.new }
    {
        let Ok(index) = self.taught(index) else {
            return;
        };
        let Ok(kept) = KeptIndex::new(self.alloc, index) else {
            return;
        };
        self.make_room();
        let _kept = self.list.push(kept);
        self.trim();
    }

    // How many names the indexes have together.
    fn names(&self) -> usize {
        let mut names: usize = 0;
        for k in 0..self.list.len() {
            names = names.saturating_add(self.list[k].index.entries.len());
        }
        names
    }

    // Lets indexes go until the others have few enough names.
    fn trim(&mut self)
        ensures { (sectors : ℕ) (s : Store) → AllTell sectors s self.old → AllTell sectors s self.new }
    {
        while !self.list.is_empty() && self.names() > MOST_NAMES {
            self.list.remove(0);
        }
    }

    // Lets the indexes go that may rest on a block.
    fn let_go(&mut self, number: u32)
        ensures told { (sectors : ℕ) (s : Store) → AllTell sectors s self.old → AllTell sectors s self.new }
        ensures gone { All (λ (kept : TheKept). RestsOn kept.index number → ⊥) self.new.list.items }
    {
        let mut k = 0;
        while k < self.list.len() {
            if self.list[k].rests_on(number) {
                self.list.remove(k);
            } else {
                k += 1;
            }
        }
    }

    /// Before a block is written: the indexes go that may rest on its bytes. What the others say stays true,
    /// whatever is written there.
    pub fn forget(&mut self, block: u64)
        ensures { (sectors : ℕ) (s r : Store) → AllTell sectors s self.old
            → ((other : ℕ) → other ≢ block → r other ≡ s other) → AllTell sectors r self.new }
    {
        match u32::try_from(block) {
            Ok(number) => self.let_go(number),
            Err(_) => self.list.clear(),
        }
    }
}

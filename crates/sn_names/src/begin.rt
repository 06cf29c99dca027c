//! How an index begins.
ghost use Rattle.std.specs.Prelude.{◌≡◌, ◌≢◌, ◌+◌, ◌*◌, ◌/◌, ◌<◌, ◌≤◌, ◌⊎◌, ℕ, true, IfOk, slice_index, vec_len};
ghost use Rattle.sn_layout.specs.Pointers.{levels_of};
ghost use Rattle.sn_names.specs.Place.{IsFrom};

use crate::NameIndex;
use crate::ordered::OrderedNumbers;
use crate::place::{place_below, place_first, unknown, unplaced};
use sn_layout::{BLOCK_SIZE, Block, BlockTree};
use std::alloc::{AllocError, Global};

/// A directory of so many blocks has no index.
const FEW_BLOCKS: u64 = 2;

/// No index has more blocks, which 14 bits of an entry say.
const MOST_BLOCKS: u64 = 16_384;

// Where the blocks of a tree are, as far as its own pointers say.
fn first_numbers(alloc: Global, tree: &BlockTree, sectors: u64) -> Result<Vec<u32>, AllocError>
    ensures len { IfOk result (λ numbers. vec_len numbers ≡ tree.now.size / 4096) }
    ensures placed { IfOk result (λ numbers. (i : ℕ) → slice_index numbers.items i ≡ 0
        ⊎ (levels_of tree.now.size ≡ 0) × IsFrom sectors tree.now.pointers i (slice_index numbers.items i)) }
{
    let mut numbers = unplaced(alloc, (tree.size / BLOCK_SIZE as u64) as usize)?;
    if BlockTree::levels_of(tree.size) != 0 {
        return Ok(numbers);
    }
    place_first(numbers.as_mut_slice(), sectors, &tree.pointers);
    Ok(numbers)
}

impl NameIndex {
    ghost use Rattle.sn_ondisk.specs.Trees.{Store};
    ghost use Rattle.sn_names.specs.Index.{Tells, is_indexable, tree_of};

    /// Whether a directory can have an index: it has three blocks or more, at most 16,384, and at most one
    /// level of indirect ones.
    pub fn is_for(tree: &BlockTree) -> bool
        ensures { result ≡ is_indexable tree.now }
    {
        let count = tree.size / BLOCK_SIZE as u64;
        count > FEW_BLOCKS && count <= MOST_BLOCKS && BlockTree::levels_of(tree.size) <= 1
    }

    // The index of a directory on a device of so many sectors, which knows no names, and of blocks below
    // indirect ones no places.
    pub(crate) fn new(alloc: Global, tree: &BlockTree, sectors: u64) -> Result<Self, AllocError>
        requires { is_indexable tree.now ≡ true }
        ensures tree { IfOk result (λ index. tree_of index ≡ tree.now) }
        ensures told { IfOk result (λ index. (s : Store) → Tells sectors s index) }
    {
        let numbers = first_numbers(alloc, tree, sectors)?;
        let rooms = unknown(alloc, numbers.len())?;
        Ok(NameIndex {
            tree: *tree,
            numbers,
            rooms,
            entries: OrderedNumbers::new(alloc),
            first_unknown: 0,
        })
    }

    /// The pointers of an indirect block become known from its bytes: the block that pointer `top`, 0 to 15,
    /// leads to.
    pub fn place_below(&mut self, sectors: u64, top: usize, block: &Block)
        requires { top < 16 }
        ensures tree { tree_of self.new ≡ tree_of self.old }
        ensures told { (s : Store) → Tells sectors s self.old → levels_of (tree_of self.old).size ≢ 0
            → slice_index (tree_of self.old).pointers top ≢ 0
            → 8 * slice_index (tree_of self.old).pointers top + 8 ≤ sectors
            → s (slice_index (tree_of self.old).pointers top) ≡ block.now → Tells sectors s self.new }
    {
        place_below(self.numbers.as_mut_slice(), sectors, top, block);
    }
}

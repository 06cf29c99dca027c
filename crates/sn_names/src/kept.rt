//! An index with the blocks that it rests on.
ghost use Rattle.std.specs.Prelude.{◌≡◌, ◌⊎◌, ℕ, false, Contains, IfOk, OnOk};
ghost use Rattle.std.specs.List.Sorted.{IsNonDecreasing};
ghost use Rattle.sn_ondisk.specs.Trees.{Store};
ghost use Rattle.sn_names.specs.Index.{RestsOn, Tells};

use crate::NameIndex;
use sn_layout::Block;
use std::alloc::{AllocError, Global};

/// An index with the blocks that it rests on, in order.
#[derive(Drop)]
pub struct KeptIndex {
    pub(crate) index: NameIndex,
    /// The numbers of all blocks that its pointers lead to.
    reach: Vec<u32>,
    ghost rises: { IsNonDecreasing reach.items },
    ghost reached: { (block : ℕ) → (Contains reach.items block → ⊥) → RestsOn index block → ⊥ },
}

// All numbers that pointers of an index lead to, in order.
fn reach_of(alloc: Global, index: &NameIndex) -> Result<Vec<u32>, AllocError>
    ensures rises { IfOk result (λ reach. IsNonDecreasing reach.items) }
    ensures all { IfOk result (λ reach. (block : ℕ) → Contains index.now.tree.pointers block
        ⊎ Contains index.now.numbers.items block → Contains reach.items block) }
{
    let mut reach = Vec::from_slice(alloc, index.numbers.as_slice())?;
    reach.extend_from_slice(index.tree.pointers.as_slice())?;
    reach.sort_unstable();
    Ok(reach)
}

impl KeptIndex {
    // The index with what it rests on.
    pub(crate) fn new(alloc: Global, index: NameIndex) -> Result<Self, AllocError>
        ensures { IfOk result (λ kept. kept.index ≡ index) }
    {
        let reach = reach_of(alloc, &index)?;
        Ok(KeptIndex { index, reach })
    }

    // Whether it may rest on a block.
    pub(crate) fn rests_on(&self, block: u32) -> bool
        ensures { result ≡ false → RestsOn self.now.index block → ⊥ }
    {
        match self.reach.as_slice().binary_search(&block) {
            Ok(_) => true,
            Err(_) => false,
        }
    }

    // The names of block `i` become known from its bytes, if the block is at this number.
    pub(crate) fn note(&mut self, i: u64, number: u32, block: &Block) -> Result<(), AllocError>
        ensures told { OnOk result ((sectors : ℕ) (s : Store) → Tells sectors s self.old.index
            → s number ≡ block.now → Tells sectors s self.new.index) }
    {
        self.index.note(i, number, block)?;
        Ok(())
    }
}

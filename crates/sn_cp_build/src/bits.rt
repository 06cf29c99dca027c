//! The bits of the block map.
ghost use Rattle.std.specs.Prelude.{◌≡◌, ◌<◌, ◌↔◌, ℕ, length, All, IsTrue, Err, IfErr, OnOk, None};
ghost use Rattle.sn_tree.specs.Drafts.{numbers_of};
ghost use Rattle.sn_tree.specs.declared.fault.PlanFault.TheVariants.{Tree};
ghost use Rattle.sn_tree_read.specs.declared.fault.TreeFault.TheVariants.{Damaged};
ghost use Rattle.sn_cp_build.specs.Bits.{PutsBits, BitsFollow};

use crate::edits::SnapshotEdit;
use sn_map::Map;
use sn_tree::{NewBlock, PlanFault};
use sn_tree_read::TreeFault;

// Sets bit 0 of the words of blocks that were added.
fn set_added(map: &mut Map, added: &[NewBlock])
    requires { All (λ (b : ℕ). b < length map.old) (numbers_of added.now) }
    ensures { PutsBits 1 (numbers_of added.now) map.old map.new }
{
    for block in added {
        map.set_bit(block.number, 0);
    }
}

// Unsets bit 0 of the words of blocks that were released.
fn unset_released(map: &mut Map, released: &[u32])
    requires { All (λ (b : ℕ). b < length map.old) released.now }
    ensures { PutsBits 0 released.now map.old map.new }
{
    for block in released {
        map.unset_bit(*block, 0);
    }
}

// Whether the map has a word for each of these blocks.
fn has_words(map: &Map, blocks: &[u32]) -> bool
    ensures { IsTrue result ↔ All (λ (b : ℕ). b < length map.now) blocks.now }
{
    let words = map.len();
    blocks.iter().all(|block| *block < words)
}

/// Makes bit 0 that of a new tree: from that of the tree that was built from on it is set for each block that was added,
/// and then unset for each that was released, so that a block that was added and released again has it unset. Last the
/// bits of snapshots are edited.
/// `Damaged` comes exactly where a block that was released has no word in the map.
pub(crate) fn put_bits(
    map: &mut Map,
    added: &[NewBlock],
    released: &[u32],
    edit: SnapshotEdit,
) -> Result<(), PlanFault>
    requires { All (λ (b : ℕ). b < length map.old) (numbers_of added.now) }
    ensures bits { OnOk result (BitsFollow (numbers_of added.now) released.now edit map.old map.new) }
    ensures damaged { (result ≡ Err (Tree (Damaged None))) ↔ (All (λ (b : ℕ). b < length map.old) released.now → ⊥) }
    ensures fault { IfErr result (λ fault. fault ≡ Tree (Damaged None)) }
{
    if !has_words(map, released) {
        return Err(PlanFault::Tree(TreeFault::Damaged { block: None }));
    }
    edit.take_base(map);
    set_added(map, added);
    unset_released(map, released);
    edit.apply(map);
    Ok(())
}

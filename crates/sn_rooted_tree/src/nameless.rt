//! The files of a root's tree without names.
ghost use Rattle.std.specs.Prelude.{◌≡◌, ℕ, Option as TheOption, Err, IsTrue, IfOk};
ghost use Rattle.sn_block.specs.Lending.{device_of};
ghost use Rattle.sn_model.specs.Settling.{nameless_in};
ghost use Rattle.sn_rooted.specs.Roots.{IsSoundOn, tree_on};
ghost use Rattle.sn_tree_read.specs.Counts.{CountsTree};
ghost use Rattle.sn_tree_read.specs.declared.fault.TreeFault.TheVariants.{Damaged};

use crate::loading::record_count;
use sn_block::Blocks;
use sn_device::Device;
use sn_layout::BlockTree;
use sn_limits::Limits;
use sn_rooted::is_nameless;
use sn_tree_read::TreeFault;

/// How many files of a root's tree have no name. `file` is the root's inode file, and each of its inodes is read
/// once. Where the root is sound, `Damaged` is never returned. Memory is taken for blocks that aren't kept.
///
/// Proved: The files of a root's tree without names are counted by one pass over the inode file's records: as many as the
/// tree that a sound root denotes has, and `Damaged` is never answered then.
pub fn nameless_of<D: Device>(
    blocks: &mut Blocks<D>,
    limits: &Limits,
    file: &BlockTree,
) -> Result<u32, TreeFault>
    ensures count { IsTrue D.tells_bytes → IsSoundOn blocks.old limits.now file.now
        → IfOk result (λ n. n ≡ nameless_in (tree_on blocks.old file.now)) }
    ensures damaged { IsTrue D.tells_bytes → IsSoundOn blocks.old limits.now file.now → (block : TheOption ℕ) → result ≡ Err (Damaged block) → ⊥ }
    ensures same { IsTrue D.tells_bytes → D.disk (device_of blocks.new) ≡ D.disk (device_of blocks.old) }
    ensures counts { CountsTree result (D.status (device_of blocks.old)) (D.status (device_of blocks.new)) }
{
    let mut count = 0;
    for number in 0..record_count(file) {
        if is_nameless(blocks, limits, file, number as u16)? {
            count += 1;
        }
    }
    Ok(count)
}

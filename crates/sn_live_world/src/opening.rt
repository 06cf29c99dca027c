//! The live tree of a root on which nothing changed.
ghost use Rattle.std.specs.Prelude.{◌≡◌, ℕ, false, Option as TheOption, Err, IsTrue, IfOk};
ghost use Rattle.sn_block.specs.Lending.{device_of};
ghost use Rattle.sn_live.specs.Live.{HasNoPoint, IsLive, changes_of, kept_back_of, kept_since_of, shown_of};
ghost use Rattle.sn_model.specs.Tree.{Tree};
ghost use Rattle.sn_overlay.specs.Overlays.{no_changes};
ghost use Rattle.sn_rooted.specs.Roots.{IsSoundOn, tree_on};
ghost use Rattle.sn_tree_read.specs.Counts.{CountsTree};
ghost use Rattle.sn_tree_read.specs.declared.fault.TreeFault.TheVariants.{Damaged};

use sn_block::Blocks;
use sn_device::Device;
use sn_layout::BlockTree;
use sn_limits::Limits;
use sn_live::LiveTree;
use sn_rooted_tree::{directories_of, numbers_of};
use sn_tree_read::TreeFault;
use std::alloc::Global;

/// The live tree of a root on which nothing changed, with its tables: what is shown is the root's tree. `file` is the
/// root's inode file. Two passes go over it, one over its directories and one over its inodes. Where the root is sound,
/// `Damaged` is never returned. Memory is taken for the tables, and for blocks that aren't kept.
///
/// Proved: The live tree of a root on which nothing changed, with its tables, shows the root's tree; `Damaged` is never
/// answered where the root is sound.
pub fn live_tree_of<D: Device>(
    alloc: Global,
    blocks: &mut Blocks<D>,
    limits: &Limits,
    file: &BlockTree,
) -> Result<LiveTree, TreeFault>
    ensures live { IsTrue D.tells_bytes → IsSoundOn blocks.old limits.now file.now → IfOk result (λ live. IsLive live (tree_on blocks.old file.now)) }
    ensures shown { IfOk result (λ live. (root : Tree) → shown_of live root ≡ root) }
    ensures point { IfOk result HasNoPoint }
    ensures changes { IfOk result (λ live. changes_of live ≡ no_changes) }
    ensures kept { IfOk result (λ live. (n : ℕ) → kept_back_of live n ≡ false) }
    ensures since { IfOk result (λ live. (n : ℕ) → kept_since_of live n ≡ false) }
    ensures damaged { IsTrue D.tells_bytes → IsSoundOn blocks.old limits.now file.now → (block : TheOption ℕ) → result ≡ Err (Damaged block) → ⊥ }
    ensures same { IsTrue D.tells_bytes → D.disk (device_of blocks.new) ≡ D.disk (device_of blocks.old) }
    ensures counts { CountsTree result (D.status (device_of blocks.old)) (D.status (device_of blocks.new)) }
{
    let directories = directories_of(alloc, blocks, limits, file)?;
    let told = numbers_of(alloc, blocks, limits, file)?;
    Ok(LiveTree::over(
        alloc,
        directories,
        told.numbers,
        told.nameless_files,
        told.nameless,
    ))
}

//! The records of the root's epoch, and those of the next one.
ghost use Rattle.std.specs.Prelude.{◌≡◌, ◌⊎◌, ◌*◌, ◌≤◌, ◌^◌, Some, IsTrue, IfOk, OnOk};
ghost use Rattle.sn_block.specs.Lending.{device_of};
ghost use Rattle.sn_check_log.specs.Trying.{HasNoPointIf, IsTried, KeepsNoneIf, TriesBoth, changes_if, tree_of};
ghost use Rattle.sn_device.specs.Disk.{reads};
ghost use Rattle.sn_examine.specs.Failing.{FailsAs, WritesNothing};
ghost use Rattle.sn_examine.specs.Replaying.{LeadsOn};
ghost use Rattle.sn_limits.specs.Versions.{limits_of};
ghost use Rattle.sn_overlay.specs.Overlays.{no_changes};
ghost use Rattle.sn_rooted.specs.Roots.{IsSoundOn, tree_on};

use crate::CheckedRoot;
use crate::replaying::{Tried, try_epoch};
use sn_block::Blocks;
use sn_device::Device;
use sn_log::{Buffer, Position};
use sn_model::MountFault;
use std::alloc::Global;

// Where the log continues: after the records of the newer epoch, or of the older one where the newer has none.
fn last_of(older: Position, newer: Position) -> Position
    ensures last { ((newer.count ≡ 0) × (result ≡ older)) ⊎ (result ≡ newer) }
    ensures none { result.count ≡ 0 → (older.count ≡ 0) × (newer.count ≡ 0) }
{
    if newer.count() == 0 { older } else { newer }
}

/// Tries the records of the root's epoch and then those of the next one on the root's tree, by the limits of the root.
/// Answers where the log continues, after the last of them, what they are charged together, and the live tree after them,
/// `None` where there is no record: then it is the root's tree. What changed of that is what they changed. Damaged is a
/// record that is misspelt or can't be applied, reported at the block of its gate.
///
/// Proved: The records of the root's epoch and of the next one are tried on the root's tree as it is on disk, by the limits
/// of the root's version: where they end, what they make of it and their charges are those that the log has; or one is
/// misspelt or can't be applied, and the block of its gate is reported.
/// Proved: The live tree after the last record shows what they make of the root's tree, with what changed and its charges
/// since no change; no consistency point is in progress, no number is kept back, and without a record no live tree is made.
/// Proved, also of each other function: Nothing is written, and a failure is reported only where the device failed or ended,
/// over any device.
pub fn try_both<D: Device>(
    alloc: Global,
    blocks: &mut Blocks<D>,
    it: &CheckedRoot<'_>,
) -> Result<Tried, MountFault>
    requires version { limits_of it.now.root.now.limits.version ≡ Some it.now.root.now.limits }
    requires sound { IsTrue D.tells_bytes → IsSoundOn blocks.old it.now.root.now.limits it.now.root.now.inode_file }
    requires disk { 8 * it.now.geometry ≤ (D.status (device_of blocks.old)).sectors }
    requires epoch { it.now.root.now.epoch ≤ 2 ^ 62 }
    ensures replayed { IsTrue D.tells_bytes → TriesBoth it.now.root.now.limits result (reads (D.disk (device_of blocks.old))) (tree_on blocks.old it.now.root.now.inode_file) it.now.geometry it.now.root.now.epoch }
    ensures changed { IsTrue D.tells_bytes → IfOk result (λ r. LeadsOn it.now.root.now.limits no_changes (tree_on blocks.old it.now.root.now.inode_file) 0
        (changes_if r.live) (tree_of r.live (tree_on blocks.old it.now.root.now.inode_file)) r.charges) }
    ensures live { IsTrue D.tells_bytes → IfOk result (λ r. IsTried r.live (tree_on blocks.old it.now.root.now.inode_file)) }
    ensures point { IfOk result (λ r. HasNoPointIf r.live) }
    ensures kept { IsTrue D.tells_bytes → IfOk result (λ r. KeepsNoneIf r.live) }
    ensures blocks { IfOk result (λ r. r.at.blocks ≡ it.now.geometry) }
    ensures same { IsTrue D.tells_bytes → D.disk (device_of blocks.new) ≡ D.disk (device_of blocks.old) }
    ensures idle { OnOk result (D.status (device_of blocks.new) ≡ D.status (device_of blocks.old)) }
    ensures reads { WritesNothing (D.status (device_of blocks.old)) (D.status (device_of blocks.new)) }
    ensures failed { FailsAs result (D.status (device_of blocks.old)) (D.status (device_of blocks.new)) }
{
    let Ok(mut buffer) = Buffer::new(alloc) else {
        return Err(MountFault::Memory);
    };
    let epoch = it.root.epoch;
    let older = try_epoch(alloc, blocks, &mut buffer, it, None, epoch)?;
    let live = older.live;
    let newer = try_epoch(alloc, blocks, &mut buffer, it, live, epoch + 1)?;
    Ok(Tried {
        at: last_of(older.at, newer.at),
        charges: older.charges + newer.charges,
        live: newer.live,
    })
}

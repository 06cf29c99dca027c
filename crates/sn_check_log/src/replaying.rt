//! The records of one epoch, tried one after the other.
ghost use Rattle.std.specs.Prelude.{◌≡◌, ◌*◌, ◌≤◌, ◌<◌, ◌^◌, true, Some, IsTrue, IfOk, OnOk};
ghost use Rattle.sn_block.specs.Lending.{device_of};
ghost use Rattle.sn_device.specs.Disk.{reads};
ghost use Rattle.sn_examine.specs.Failing.{FailsAs, WritesNothing};
ghost use Rattle.sn_examine.specs.Replaying.{HasReplayed, LeadsOn, ReplaysOne};
ghost use Rattle.sn_check_log.specs.Trying.{HasNoPointIf, IsTried, KeepsNoneIf, TriesAll, changes_if, tree_of};
ghost use Rattle.sn_limits.specs.Versions.{limits_of};
ghost use Rattle.sn_model.specs.Tree.{Tree};
ghost use Rattle.sn_rooted.specs.Roots.{IsSoundOn, tree_on};

use crate::CheckedRoot;
use crate::trying::try_opened;
use sn_block::Blocks;
use sn_changed::changed_laws;
use sn_device::Device;
use sn_examine::fault_of;
use sn_live::LiveTree;
use sn_log::{Buffer, NextRecord, Position, Replay};
use sn_model::{Damage, MountFault};
use sn_overlay::versions_are_charged;
use std::alloc::Global;

/// What trying records results in.
#[derive(Drop)]
pub struct Tried {
    /// Where the records end.
    pub at: Position,
    /// What they are charged.
    pub charges: u128,
    /// The live tree after them, `None` where no record was tried.
    pub live: Option<LiveTree>,
}

/// Tries the next record of an epoch, if there is one, on what is shown, and charges it.
pub(crate) fn try_next<D: Device>(
    alloc: Global,
    blocks: &mut Blocks<D>,
    buffer: &mut Buffer,
    it: &CheckedRoot<'_>,
    replay: &mut Replay,
    charges: &mut u128,
    live: &mut Option<LiveTree>,
) -> Result<bool, MountFault>
    requires few { charges.old ≤ 2 ^ 64 * replay.old.place }
    requires version { limits_of it.now.root.now.limits.version ≡ Some it.now.root.now.limits }
    requires sound { IsTrue D.tells_bytes → IsSoundOn blocks.old it.now.root.now.limits it.now.root.now.inode_file }
    requires tried { IsTrue D.tells_bytes → IsTried live.old (tree_on blocks.old it.now.root.now.inode_file) }
    requires point { HasNoPointIf live.old }
    requires keeps { IsTrue D.tells_bytes → KeepsNoneIf live.old }
    requires disk { 8 * replay.old.blocks ≤ (D.status (device_of blocks.old)).sectors }
    ensures replayed { IsTrue D.tells_bytes → (from : Tree)
        → HasReplayed it.now.root.now.limits (reads (D.disk (device_of blocks.old))) from replay.old (tree_of live.old (tree_on blocks.old it.now.root.now.inode_file)) charges.old
        → ReplaysOne it.now.root.now.limits result (reads (D.disk (device_of blocks.old))) from replay.old (tree_of live.old (tree_on blocks.old it.now.root.now.inode_file)) charges.old
        replay.new (tree_of live.new (tree_on blocks.old it.now.root.now.inode_file)) charges.new }
    ensures changed { IsTrue D.tells_bytes → OnOk result (LeadsOn it.now.root.now.limits (changes_if live.old) (tree_of live.old (tree_on blocks.old it.now.root.now.inode_file)) charges.old
        (changes_if live.new) (tree_of live.new (tree_on blocks.old it.now.root.now.inode_file)) charges.new) }
    ensures tried { IsTrue D.tells_bytes → OnOk result (IsTried live.new (tree_on blocks.old it.now.root.now.inode_file)) }
    ensures point { HasNoPointIf live.new }
    ensures keeps { IsTrue D.tells_bytes → OnOk result (KeepsNoneIf live.new) }
    ensures few { OnOk result (charges.new ≤ 2 ^ 64 * replay.new.place) }
    ensures blocks { replay.new.blocks ≡ replay.old.blocks }
    ensures epoch { replay.new.epoch ≡ replay.old.epoch }
    ensures further { IfOk result (λ more. more ≡ true → replay.old.place < replay.new.place) }
    ensures onward { OnOk result (replay.old.place ≤ replay.new.place) }
    ensures within { replay.old.place ≤ 255 }
    ensures same { IsTrue D.tells_bytes → D.disk (device_of blocks.new) ≡ D.disk (device_of blocks.old) }
    ensures idle { OnOk result (D.status (device_of blocks.new) ≡ D.status (device_of blocks.old)) }
    ensures reads { WritesNothing (D.status (device_of blocks.old)) (D.status (device_of blocks.new)) }
    ensures failed { FailsAs result (D.status (device_of blocks.old)) (D.status (device_of blocks.new)) }
{
    // What changed leads on with each record.
    changed_laws();
    versions_are_charged();
    let at = replay.position();
    // It bounds the place.
    let _place = at.place();
    match replay.next(blocks, buffer) {
        Ok(NextRecord::Change(change)) => match try_opened(alloc, blocks, it, live, &change) {
            Ok(Some(charge)) => {
                *charges += charge;
                Ok(true)
            }
            Ok(None) => Err(MountFault::Damaged {
                damage: Damage::Log,
                block: at.block(),
            }),
            Err(fault) => Err(fault),
        },
        Ok(NextRecord::End) => Ok(false),
        Ok(NextRecord::Misspelt { block }) => Err(MountFault::Damaged {
            damage: Damage::Log,
            block,
        }),
        Err(fault) => Err(fault_of(fault)),
    }
}

/// Tries all records of an epoch on what is shown.
pub(crate) fn try_epoch<D: Device>(
    alloc: Global,
    blocks: &mut Blocks<D>,
    buffer: &mut Buffer,
    it: &CheckedRoot<'_>,
    mut live: Option<LiveTree>,
    epoch: u64,
) -> Result<Tried, MountFault>
    requires version { limits_of it.now.root.now.limits.version ≡ Some it.now.root.now.limits }
    requires sound { IsTrue D.tells_bytes → IsSoundOn blocks.old it.now.root.now.limits it.now.root.now.inode_file }
    requires tried { IsTrue D.tells_bytes → IsTried live (tree_on blocks.old it.now.root.now.inode_file) }
    requires point { HasNoPointIf live }
    requires keeps { IsTrue D.tells_bytes → KeepsNoneIf live }
    requires disk { 8 * it.now.geometry ≤ (D.status (device_of blocks.old)).sectors }
    ensures replayed { IsTrue D.tells_bytes → TriesAll it.now.root.now.limits result (reads (D.disk (device_of blocks.old))) (tree_of live (tree_on blocks.old it.now.root.now.inode_file)) it.now.geometry epoch (tree_on blocks.old it.now.root.now.inode_file) }
    ensures changed { IsTrue D.tells_bytes → IfOk result (λ r. LeadsOn it.now.root.now.limits (changes_if live) (tree_of live (tree_on blocks.old it.now.root.now.inode_file)) 0
        (changes_if r.live) (tree_of r.live (tree_on blocks.old it.now.root.now.inode_file)) r.charges) }
    ensures tried { IsTrue D.tells_bytes → IfOk result (λ r. IsTried r.live (tree_on blocks.old it.now.root.now.inode_file)) }
    ensures point { IfOk result (λ r. HasNoPointIf r.live) }
    ensures keeps { IsTrue D.tells_bytes → IfOk result (λ r. KeepsNoneIf r.live) }
    ensures few { IfOk result (λ r. r.charges ≤ 2 ^ 72) }
    ensures blocks { IfOk result (λ r. r.at.blocks ≡ it.now.geometry) }
    ensures epoch { IfOk result (λ r. r.at.epoch ≡ epoch) }
    ensures same { IsTrue D.tells_bytes → D.disk (device_of blocks.new) ≡ D.disk (device_of blocks.old) }
    ensures idle { OnOk result (D.status (device_of blocks.new) ≡ D.status (device_of blocks.old)) }
    ensures reads { WritesNothing (D.status (device_of blocks.old)) (D.status (device_of blocks.new)) }
    ensures failed { FailsAs result (D.status (device_of blocks.old)) (D.status (device_of blocks.new)) }
{
    let mut replay = Replay::new(it.geometry, epoch);
    let mut charges = 0;
    let mut more = true;
    while more {
        more = try_next(
            alloc,
            blocks,
            buffer,
            it,
            &mut replay,
            &mut charges,
            &mut live,
        )?;
    }
    let at = replay.position();
    // It bounds the charges.
    let _place = at.place();
    Ok(Tried { at, charges, live })
}

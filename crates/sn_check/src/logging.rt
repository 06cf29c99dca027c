//! The log on top of a sound root.
ghost use Rattle.std.specs.Prelude.{◌≡◌, ◌*◌, ◌≤◌, ℕ, true, IsTrue, IfErr, IfOk, OnOk};
ghost use Rattle.sn_device.specs.Disk.{reads};
ghost use Rattle.sn_block.specs.Lending.{device_of};
ghost use Rattle.sn_layout.specs.RootBody.{IsRootBody};
ghost use Rattle.sn_image.specs.Sound.{IsSound};
ghost use Rattle.sn_ondisk.specs.Trees.{store_of};
ghost use Rattle.sn_held.specs.Rooms.{is_covered, mounted};
ghost use Rattle.sn_sound.specs.Logs.{HasSoundLog};
ghost use Rattle.sn_examine.specs.Failing.{FailsAs, WritesNothing};
ghost use Rattle.sn_check.specs.Faults.{IsDamageOf};
ghost use Rattle.sn_check.specs.Logs.{HasLogged, IsOfLog, IsOver};

use sn_block::Blocks;
use sn_check_log::{CheckedRoot, count_nameless, try_both};
use sn_device::Device;
use sn_examine::{is_to_recover, none_later, test_age};
use sn_held::Room;
use sn_layout::{Area, Geometry, LogHalf, RootBody};
use sn_model::{Damage, MountFault};
use std::alloc::Global;

/// What the log on top of a root amounts to.
#[derive(Clone, Copy)]
pub(crate) struct Logged {
    /// What its records are charged.
    pub(crate) charges: u128,
    /// How many files of the root's tree have no name.
    pub(crate) dropped: u32,
    /// Whether a mount ends in a point of recovery.
    pub(crate) recovers: bool,
}

/// Tries the records of a sound root's epoch and of the next one on its tree, as it is on the disk. `body` is the block of
/// the root body. Damaged is a record that is misspelt or can't be applied, reported at the block of its gate; and a tree
/// that was checked and is misspelt now, since the device gives other bytes than before, reported at `body`.
fn replay_log<D: Device>(
    alloc: Global,
    blocks: &mut Blocks<D>,
    geometry: Geometry,
    root: &RootBody,
    body: u32,
) -> Result<Logged, MountFault>
    requires fits { IsRootBody root.now }
    requires room { 8 * geometry ≤ (D.status (device_of blocks.old)).sectors }
    requires sound { IsTrue D.tells_bytes → IsSound root.now.limits geometry (store_of (reads (D.disk (device_of blocks.old)))) root.now.inode_file }
    ensures logged { IsTrue D.tells_bytes → IfOk result (λ l. HasLogged geometry (reads (D.disk (device_of blocks.old))) root.now l.charges l.dropped l.recovers) }
    ensures fault { IsTrue D.tells_bytes → IfErr result (λ f. (free : ℕ) → IsDamageOf (IsOfLog geometry (reads (D.disk (device_of blocks.old))) root.now free) f) }
    ensures same { IsTrue D.tells_bytes → D.disk (device_of blocks.new) ≡ D.disk (device_of blocks.old) }
    ensures idle { OnOk result (D.status (device_of blocks.new) ≡ D.status (device_of blocks.old)) }
    ensures reads { WritesNothing (D.status (device_of blocks.old)) (D.status (device_of blocks.new)) }
    ensures failed { FailsAs result (D.status (device_of blocks.old)) (D.status (device_of blocks.new)) }
{
    let it = CheckedRoot {
        root,
        body,
        geometry,
    };
    let dropped = match count_nameless(blocks, &it) {
        Ok(dropped) => dropped,
        Err(fault) => return Err(fault),
    };
    let tried = match try_both(alloc, blocks, &it) {
        Ok(tried) => tried,
        Err(fault) => return Err(fault),
    };
    let recovers = is_to_recover(root, tried.at.count(), dropped);
    Ok(Logged {
        charges: tried.charges,
        dropped,
        recovers,
    })
}

/// Damaged where what is logged is charged more than is free, which is reported at the half of the root's epoch.
fn test_charges(
    geometry: Geometry,
    root: &RootBody,
    free: u32,
    logged: &Logged,
) -> Result<(), MountFault>
    ensures covered { OnOk result (is_covered root.now.limits (mounted free logged.now.charges logged.now.dropped) ≡ true) }
    ensures over { IfErr result (λ f. IsOver f geometry root.now free logged.now.charges logged.now.dropped) }
{
    match Room::mounted(&root.limits, free, logged.charges, logged.dropped) {
        Some(_) => Ok(()),
        None => Err(MountFault::Damaged {
            damage: Damage::Log,
            block: geometry
                .range(Area::Log(LogHalf::of_epoch(root.epoch)))
                .start,
        }),
    }
}

/// Checks the log on top of a sound root that leaves so many blocks free: no record of a later epoch, each record in
/// order, all of them charged no more than is free, and an age left where something is to recover. `body` is the block of
/// the root body.
pub(crate) fn check_log<D: Device>(
    alloc: Global,
    blocks: &mut Blocks<D>,
    geometry: Geometry,
    root: &RootBody,
    body: u32,
    free: u32,
) -> Result<(), MountFault>
    requires fits { IsRootBody root.now }
    requires room { 8 * geometry ≤ (D.status (device_of blocks.old)).sectors }
    requires sound { IsTrue D.tells_bytes → IsSound root.now.limits geometry (store_of (reads (D.disk (device_of blocks.old)))) root.now.inode_file }
    ensures sound { IsTrue D.tells_bytes → OnOk result (HasSoundLog geometry (reads (D.disk (device_of blocks.old))) root.now free) }
    ensures fault { IsTrue D.tells_bytes → IfErr result (IsDamageOf (IsOfLog geometry (reads (D.disk (device_of blocks.old))) root.now free)) }
    ensures same { IsTrue D.tells_bytes → D.disk (device_of blocks.new) ≡ D.disk (device_of blocks.old) }
    ensures idle { OnOk result (D.status (device_of blocks.new) ≡ D.status (device_of blocks.old)) }
    ensures reads { WritesNothing (D.status (device_of blocks.old)) (D.status (device_of blocks.new)) }
    ensures failed { FailsAs result (D.status (device_of blocks.old)) (D.status (device_of blocks.new)) }
{
    match none_later(blocks, geometry, root.epoch + 1) {
        Ok(()) => {}
        Err(fault) => return Err(fault),
    }
    let logged = match replay_log(alloc, blocks, geometry, root, body) {
        Ok(logged) => logged,
        Err(fault) => return Err(fault),
    };
    match test_charges(geometry, root, free, &logged) {
        Ok(()) => {}
        Err(fault) => return Err(fault),
    }
    match test_age(geometry, root, logged.recovers) {
        Ok(()) => Ok(()),
        Err(fault) => Err(fault),
    }
}

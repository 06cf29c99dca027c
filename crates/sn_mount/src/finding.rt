//! What a mount finds on a disk without a fault.
ghost use Rattle.std.specs.Prelude.{◌≡◌, ◌*◌, ◌≤◌, ◌^◌, true, length, IsTrue, IfErr, IfOk, OnOk};
ghost use Rattle.sn_device.specs.Disk.{reads};
ghost use Rattle.sn_block.specs.Lending.{device_of};
ghost use Rattle.sn_layout.specs.RootBody.{IsRootBody};
ghost use Rattle.sn_live.specs.Live.{HasNoPoint, IsLive, changes_of, shown_of};
ghost use Rattle.sn_rooted.specs.Roots.{IsSoundOn, tree_on};
ghost use Rattle.sn_sound.specs.Logs.{HasAgeLeft};
ghost use Rattle.sn_check_log.specs.Trying.{HasNoPointIf, IsTried, changes_if, tree_of};
ghost use Rattle.sn_examine.specs.Failing.{FailsAs, WritesNothing};
ghost use Rattle.sn_examine.specs.Finding.{HasFound};
ghost use Rattle.sn_examine.specs.Laws.{IsSomeClean};
ghost use Rattle.sn_examine.specs.Refusing.{RefusesAs};
ghost use Rattle.sn_examine.specs.Rooms.{IsNoDamage};
ghost use Rattle.sn_mount.specs.FoundDisk.{kept_of};

use crate::found::FoundDisk;
use sn_block::Blocks;
use sn_check_log::{CheckedRoot, Tried, count_nameless, live_over, try_both};
use sn_device::Device;
use sn_examine::{DiskRoot, find_room, find_root, is_to_recover, test_age};
use sn_layout::Area;
use sn_live::LiveTree;
use sn_model::MountFault;
use std::alloc::Global;

/// The live tree of a sound root with its log on top of it: what the records made, or the root's own where there is none.
fn live_of<D: Device>(
    alloc: Global,
    blocks: &mut Blocks<D>,
    it: &CheckedRoot<'_>,
    tried: Option<LiveTree>,
) -> Result<LiveTree, MountFault>
    requires sound { IsTrue D.tells_bytes → IsSoundOn blocks.old it.now.root.now.limits it.now.root.now.inode_file }
    requires tried { IsTrue D.tells_bytes → IsTried tried (tree_on blocks.old it.now.root.now.inode_file) }
    requires point { HasNoPointIf tried }
    ensures live { IsTrue D.tells_bytes → IfOk result (λ live. IsLive live (tree_on blocks.old it.now.root.now.inode_file)) }
    ensures shown { IsTrue D.tells_bytes → IfOk result (λ live. shown_of live (tree_on blocks.old it.now.root.now.inode_file) ≡ tree_of tried (tree_on blocks.old it.now.root.now.inode_file)) }
    ensures changes { IfOk result (λ live. changes_of live ≡ changes_if tried) }
    ensures point { IfOk result HasNoPoint }
    ensures undamaged { IsTrue D.tells_bytes → IfErr result IsNoDamage }
    ensures same { IsTrue D.tells_bytes → D.disk (device_of blocks.new) ≡ D.disk (device_of blocks.old) }
    ensures idle { OnOk result (D.status (device_of blocks.new) ≡ D.status (device_of blocks.old)) }
    ensures reads { WritesNothing (D.status (device_of blocks.old)) (D.status (device_of blocks.new)) }
    ensures failed { FailsAs result (D.status (device_of blocks.old)) (D.status (device_of blocks.new)) }
{
    match tried {
        Some(live) => Ok(live),
        None => live_over(alloc, blocks, it),
    }
}

/// Reads the newest root of a disk without a fault, tries the log over its tree, and looks whether what that is charged is
/// free, and an age is left where something is to recover.
pub(crate) fn find<D: Device>(
    alloc: Global,
    blocks: &mut Blocks<D>,
) -> Result<FoundDisk, MountFault>
    requires clean { IsTrue D.tells_bytes → IsSomeClean (D.status (device_of blocks.old)).sectors (reads (D.disk (device_of blocks.old))) }
    ensures found { IsTrue D.tells_bytes → IfOk result (λ f. HasFound (D.status (device_of blocks.old)).sectors (reads (D.disk (device_of blocks.old))) (kept_of f) f.at
        (shown_of f.live (tree_on blocks.old f.root.inode_file)) f.room f.recovers) }
    ensures live { IsTrue D.tells_bytes → IfOk result (λ f. IsLive f.live (tree_on blocks.old f.root.inode_file)) }
    ensures point { IfOk result (λ f. HasNoPoint f.live) }
    ensures few { IfOk result (λ f. f.room.dropped ≤ 2 ^ 32) }
    ensures blocks { IfOk result (λ f. f.at.blocks ≡ f.geometry) }
    ensures body { IfOk result (λ f. IsRootBody f.root) }
    ensures words { IfOk result (λ f. length f.map ≡ f.geometry) }
    ensures age { IfOk result (λ f. f.recovers ≡ true → HasAgeLeft f.root) }
    ensures within { IfOk result (λ f. 8 * f.geometry ≤ (D.status (device_of blocks.old)).sectors) }
    ensures refuses { IsTrue D.tells_bytes → RefusesAs result (D.status (device_of blocks.old)).sectors (reads (D.disk (device_of blocks.old))) }
    ensures same { IsTrue D.tells_bytes → D.disk (device_of blocks.new) ≡ D.disk (device_of blocks.old) }
    ensures idle { OnOk result (D.status (device_of blocks.new) ≡ D.status (device_of blocks.old)) }
    ensures reads { WritesNothing (D.status (device_of blocks.old)) (D.status (device_of blocks.new)) }
    ensures failed { FailsAs result (D.status (device_of blocks.old)) (D.status (device_of blocks.new)) }
{
    let DiskRoot {
        geometry,
        slot,
        root,
    } = match find_root(blocks) {
        Ok(found) => found,
        Err(fault) => return Err(fault),
    };
    let it = CheckedRoot {
        root: &root,
        body: geometry.start(Area::RootBody(slot)),
        geometry,
    };
    let dropped = match count_nameless(blocks, &it) {
        Ok(count) => count,
        Err(fault) => return Err(fault),
    };
    let Tried { at, charges, live } = match try_both(alloc, blocks, &it) {
        Ok(tried) => tried,
        Err(fault) => return Err(fault),
    };
    let live = match live_of(alloc, blocks, &it, live) {
        Ok(live) => live,
        Err(fault) => return Err(fault),
    };
    let (map, room) = match find_room(alloc, blocks, geometry, slot, &root, charges, dropped) {
        Ok(found) => found,
        Err(fault) => return Err(fault),
    };
    let recovers = is_to_recover(&root, at.count(), dropped);
    match test_age(geometry, &root, recovers) {
        Ok(()) => {}
        Err(fault) => return Err(fault),
    }
    Ok(FoundDisk {
        geometry,
        slot,
        root,
        map,
        at,
        live,
        room,
        recovers,
    })
}

//! Recovery: what a mount reads, the root that it makes, and clearing the first place of its log.
ghost use Rattle.std.specs.Prelude.{◌≡◌, ◌+◌, ◌*◌, ◌≤◌, ◌^◌, ℕ, false, IsTrue, IfOk, OnOk};
ghost use Rattle.sn_device.specs.Disk.{reads};
ghost use Rattle.sn_block.specs.Counts.{IsLater};
ghost use Rattle.sn_block.specs.Lending.{device_of};
ghost use Rattle.sn_cp_whole.specs.Making.{room_over};
ghost use Rattle.sn_cp_whole.specs.Planning.{IsBaseAt, kept_in};
ghost use Rattle.sn_desc.specs.InUse.{live_in};
ghost use Rattle.sn_limits.specs.Versions.{limits_written};
ghost use Rattle.sn_live_world.specs.World.{HasDrops, IsOver, changes_of, descriptors_of, kept_of, kept_since_of, nameless_of, point_of};
ghost use Rattle.sn_held.specs.Images.{IsImage};
ghost use Rattle.sn_log.specs.Positions.{first_of};
ghost use Rattle.sn_model.specs.World.{World};
ghost use Rattle.sn_model.specs.Worlds.{IsWorld};
ghost use Rattle.sn_overlay.specs.Overlays.{no_changes};
ghost use Rattle.sn_rooted.specs.Roots.{tree_on};
ghost use Rattle.sn_examine.specs.Failing.{FailsAs};
ghost use Rattle.sn_examine.specs.Laws.{IsSomeClean};
ghost use Rattle.sn_mount.specs.Costs.{CostsFew, CostsMount};
ghost use Rattle.sn_mount.specs.Recovering.{Recovers, RunsOver, recovered_base, recovered_world};
ghost use Rattle.sn_mount.specs.Rooting.{MountsRoot};

use crate::examining::examine;
use crate::found::Recovered;
use crate::settling::{Settled, make_root, settle};
use sn_block::Blocks;
use sn_device::Device;
use sn_examine::fault_of;
use sn_held::Room;
use sn_layout::{Area, LogHalf};
use sn_log::{Buffer, Log, Position, clear};
use sn_model::MountFault;
use std::alloc::Global;

/// Syncs, checks the whole disk, finds the newest root with the log on top of it, and drops the files that have no name.
/// Where a record was replayed, a file dropped, or the root isn't of the version that is written, a whole point makes a root
/// of that, which is of that version. Last it clears the first place of the root's half of the log, where nothing is logged
/// then. `NotFormatted`, `NoRoot`, `Version` and `Damaged` come in this order, each before anything is written, and as the
/// check reports them.
///
/// Proved: Only a clean disk is mounted: what is no image of a world is refused, for the cause that a check reports, which
/// is M1, M3, M2, or a damage at its block, of the first group that has one.
/// Proved: Where the disk's contents are an image of a world, a mount that succeeds has found that world, with the frozen
/// trees of its snapshots, runs over it, and is ready for a point, with nothing logged and nothing charged.
/// Proved: No tree is handed out: the world is the live tree of the root that counts, as the device has it and unchanged,
/// with the frozen trees of its snapshots beside it.
/// Proved: On any clean disk what is found runs.
/// Proved: From the first sync on, whatever a crash leaves is an image of that world, also where the mount fails; before it
/// nothing is written, superblock, the root that counted and its map never are, and nothing is where the disk is why there
/// is no mount.
/// Proved: A mount makes a root exactly where a record was replayed, a file without names dropped, or the root isn't of the
/// version that is written: the one that follows, in the other slot, of the next generation and two epochs on, for the
/// writes and syncs of a whole point and a sync; otherwise root, slot and map are unchanged, for one write and two syncs.
/// Proved: A fault of the device comes only where it failed or ended, and a mount that fails costs no more than the largest
/// point for which the device has room.
/// Proved: What is found is a world, no number is kept back, and the room that is left is the image's, after the mount.
pub fn recover<D: Device>(alloc: Global, blocks: &mut Blocks<D>) -> Result<Recovered, MountFault>
    ensures recovers { IsTrue D.tells_bytes → Recovers result (D.status (device_of blocks.old)).sectors (D.disk (device_of blocks.old)) (D.disk (device_of blocks.new)) }
    ensures clean { IsTrue D.tells_bytes → OnOk result (IsSomeClean (D.status (device_of blocks.old)).sectors (reads (D.disk (device_of blocks.old)))) }
    ensures over { IsTrue D.tells_bytes → IfOk result (λ r. IsOver r.world (tree_on blocks.new r.base.root.inode_file)) }
    ensures whole { IsTrue D.tells_bytes → IfOk result (λ r. IsWorld limits_written (recovered_world r (D.disk (device_of blocks.new)))) }
    ensures runs { IsTrue D.tells_bytes → IfOk result (λ r. RunsOver r (D.disk (device_of blocks.new))) }
    ensures kept { IfOk result (λ r. (number : ℕ) → kept_of r.world number ≡ false) }
    ensures since { IfOk result (λ r. (number : ℕ) → kept_since_of r.world number ≡ false) }
    ensures few { IfOk result (λ r. r.room.dropped + nameless_of r.world ≤ 2 ^ 33) }
    ensures root { IsTrue D.tells_bytes → IfOk result (λ r. (world : World) (im : IsImage (reads (D.disk (device_of blocks.old))) world)
        → MountsRoot (reads (D.disk (device_of blocks.old))) world im (recovered_base r) (D.status (device_of blocks.old)) (D.status (device_of blocks.new))) }
    ensures base { IfOk result (λ r. IsBaseAt r.log r.base) }
    ensures log { IfOk result (λ r. r.log ≡ first_of r.log.blocks r.base.root.epoch) }
    ensures room { IfOk result (λ r. r.room ≡ room_over r.log.blocks (kept_in r.base (changes_of r.world))) }
    ensures empty { IfOk result (λ r. changes_of r.world ≡ no_changes) }
    ensures point { IfOk result (λ r. point_of r.world ≡ no_changes) }
    ensures drops { IfOk result (λ r. HasDrops r.world (live_in (descriptors_of r.world))) }
    ensures within { IfOk result (λ r. 8 * r.log.blocks ≤ (D.status (device_of blocks.old)).sectors) }
    ensures sectors { (D.status (device_of blocks.new)).sectors ≡ (D.status (device_of blocks.old)).sectors }
    ensures later { IsLater (D.status (device_of blocks.old)) (D.status (device_of blocks.new)) }
    ensures done { IfOk result (λ r. CostsMount r.log.blocks (D.status (device_of blocks.old)) (D.status (device_of blocks.new))) }
    ensures failed { FailsAs result (D.status (device_of blocks.old)) (D.status (device_of blocks.new)) }
    ensures costs { CostsFew (D.status (device_of blocks.old)) (D.status (device_of blocks.new)) }
{
    let Ok(buffer) = Buffer::new(alloc) else {
        return Err(MountFault::Memory);
    };
    let Ok(()) = blocks.sync() else {
        return Err(MountFault::Device);
    };
    let found = match examine(alloc, blocks) {
        Ok(found) => found,
        Err(fault) => return Err(fault),
    };
    let geometry = found.geometry;
    let recovers = found.recovers;
    let Ok(
        Settled {
            mut world,
            base,
            since,
        },
    ) = settle(alloc, found)
    else {
        return Err(MountFault::Memory);
    };
    let base = match make_root(alloc, blocks, geometry, base, world.changes(), recovers) {
        Ok(base) => base,
        Err(fault) => return Err(fault),
    };
    world.replace_root(alloc, since);
    // It bounds the files without names.
    let _nameless = world.nameless();
    let at = Position::first(geometry, base.root.epoch);
    let room = Room::fresh(base.map.count_free_from(geometry.start(Area::Data)));
    match clear(blocks, geometry, LogHalf::of_epoch(base.root.epoch), 0) {
        Ok(()) => Ok(Recovered {
            log: Log::new(at, buffer),
            world,
            room,
            base,
        }),
        Err(fault) => Err(fault_of(fault)),
    }
}

//! All roots of a disk, and what they leave free.
ghost use Rattle.std.specs.Prelude.{◌≡◌, ◌*◌, ◌≤◌, IsTrue, IfErr, IfOk, OnOk};
ghost use Rattle.sn_device.specs.Disk.{reads};
ghost use Rattle.sn_block.specs.Lending.{device_of};
ghost use Rattle.sn_layout.specs.RootBody.{IsRootBody};
ghost use Rattle.sn_ondisk.specs.MapCopy.{map_word};
ghost use Rattle.sn_ondisk.specs.Trees.{store_of};
ghost use Rattle.sn_sound.specs.Maps.{IsSoundRoot, free_blocks};
ghost use Rattle.sn_check_roots.specs.First.{IsFirstOf};
ghost use Rattle.sn_examine.specs.Failing.{FailsAs, WritesNothing};
ghost use Rattle.sn_check.specs.Faults.{IsDamageOf};

use crate::fault::fault_of_check;
use sn_block::Blocks;
use sn_check_roots::check_roots;
use sn_device::Device;
use sn_layout::{Area, Geometry, RootBody, Slot};
use sn_model::MountFault;
use std::alloc::Global;

/// Checks all roots of a disk and the slot's copy of the map, and counts the data blocks that no root reaches. The map
/// that this takes is let go again.
pub(crate) fn count_free<D: Device>(
    alloc: Global,
    blocks: &mut Blocks<D>,
    geometry: Geometry,
    slot: Slot,
    root: &RootBody,
) -> Result<u32, MountFault>
    requires fits { IsRootBody root.now }
    requires room { 8 * geometry ≤ (D.status (device_of blocks.old)).sectors }
    ensures sound { IsTrue D.tells_bytes → OnOk result (IsSoundRoot geometry (store_of (reads (D.disk (device_of blocks.old)))) root.now
        (map_word geometry (reads (D.disk (device_of blocks.old))) slot)) }
    ensures free { IsTrue D.tells_bytes → IfOk result (λ free. free ≡ free_blocks geometry (store_of (reads (D.disk (device_of blocks.old)))) root.now) }
    ensures fault { IsTrue D.tells_bytes → IfErr result (IsDamageOf (IsFirstOf geometry (reads (D.disk (device_of blocks.old))) slot root.now)) }
    ensures same { IsTrue D.tells_bytes → D.disk (device_of blocks.new) ≡ D.disk (device_of blocks.old) }
    ensures idle { OnOk result (D.status (device_of blocks.new) ≡ D.status (device_of blocks.old)) }
    ensures reads { WritesNothing (D.status (device_of blocks.old)) (D.status (device_of blocks.new)) }
    ensures failed { FailsAs result (D.status (device_of blocks.old)) (D.status (device_of blocks.new)) }
{
    match check_roots(alloc, blocks, geometry, slot, root) {
        Ok(map) => Ok(map.count_free_from(geometry.range(Area::Data).start)),
        Err(fault) => Err(fault_of_check(fault)),
    }
}

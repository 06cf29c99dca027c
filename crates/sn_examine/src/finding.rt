//! The newest root.
ghost use Rattle.std.specs.Prelude.{◌≡◌, ◌*◌, ◌≤◌, IsTrue, IfErr, IfOk, OnOk};
ghost use Rattle.sn_device.specs.Disk.{reads};
ghost use Rattle.sn_block.specs.Lending.{device_of};
ghost use Rattle.sn_layout.specs.RootBody.{IsRootBody};
ghost use Rattle.sn_ondisk.specs.Roots.{IsNewest};
ghost use Rattle.sn_sound.specs.Disks.{IsFormatted};
ghost use Rattle.sn_examine.specs.Examining.{IsOfRoots};
ghost use Rattle.sn_examine.specs.Failing.{FailsAs, WritesNothing};
ghost use Rattle.sn_examine.specs.Finding.{HasRoot};
ghost use Rattle.sn_examine.specs.Refusing.{RefusesAs};

use crate::examining::{disk_size, newest_root, none_later};
use sn_block::Blocks;
use sn_device::Device;
use sn_layout::{Geometry, RootBody, Slot};
use sn_model::MountFault;

/// The newest root, and how large its disk is.
#[derive(Drop)]
pub struct DiskRoot {
    pub geometry: Geometry,
    pub slot: Slot,
    pub root: RootBody,
}

/// Reads superblock and roots.
pub fn find_newest<D: Device>(blocks: &mut Blocks<D>) -> Result<DiskRoot, MountFault>
    ensures formatted { IsTrue D.tells_bytes → IfOk result (λ r. IsFormatted (D.status (device_of blocks.old)).sectors (reads (D.disk (device_of blocks.old))) r.geometry) }
    ensures newest { IsTrue D.tells_bytes → IfOk result (λ r. IsNewest (reads (D.disk (device_of blocks.old))) r.slot r.root) }
    ensures fits { IfOk result (λ r. IsRootBody r.root) }
    ensures within { IfOk result (λ r. 8 * r.geometry ≤ (D.status (device_of blocks.old)).sectors) }
    ensures roots { IfErr result IsOfRoots }
    ensures refuses { IsTrue D.tells_bytes → RefusesAs result (D.status (device_of blocks.old)).sectors (reads (D.disk (device_of blocks.old))) }
    ensures same { IsTrue D.tells_bytes → D.disk (device_of blocks.new) ≡ D.disk (device_of blocks.old) }
    ensures idle { OnOk result (D.status (device_of blocks.new) ≡ D.status (device_of blocks.old)) }
    ensures reads { WritesNothing (D.status (device_of blocks.old)) (D.status (device_of blocks.new)) }
    ensures failed { FailsAs result (D.status (device_of blocks.old)) (D.status (device_of blocks.new)) }
{
    let geometry = match disk_size(blocks) {
        Ok(geometry) => geometry,
        Err(fault) => return Err(fault),
    };
    match newest_root(blocks) {
        Ok(newest) => Ok(DiskRoot {
            geometry,
            slot: newest.slot,
            root: newest.root,
        }),
        Err(fault) => Err(fault),
    }
}

/// Reads superblock and roots, and looks for records of later epochs.
///
/// Proved, also of `find_newest`, `find_room` and `read_map`: The newest root of a formatted disk is found, no record of an
/// epoch after the next one being the first in a half, with its map and the room that is left.
/// Proved: M1, M3 and M2 come each only where the superblock, the gates and the versions say so, and in this order.
/// Proved: A damage of the roots (C1) or of the log (C7) is at the block that is reported, and the contents are an image of
/// no world; a record of an epoch after the next, at the first place of a half, is such a damage.
/// Proved, also of each other function: Nothing is written, and a fault of the device is reported only where it failed or
/// ended.
pub fn find_root<D: Device>(blocks: &mut Blocks<D>) -> Result<DiskRoot, MountFault>
    ensures found { IsTrue D.tells_bytes → IfOk result (λ r. HasRoot (D.status (device_of blocks.old)).sectors (reads (D.disk (device_of blocks.old))) r.geometry r.slot r.root) }
    ensures fits { IfOk result (λ r. IsRootBody r.root) }
    ensures within { IfOk result (λ r. 8 * r.geometry ≤ (D.status (device_of blocks.old)).sectors) }
    ensures refuses { IsTrue D.tells_bytes → RefusesAs result (D.status (device_of blocks.old)).sectors (reads (D.disk (device_of blocks.old))) }
    ensures same { IsTrue D.tells_bytes → D.disk (device_of blocks.new) ≡ D.disk (device_of blocks.old) }
    ensures idle { OnOk result (D.status (device_of blocks.new) ≡ D.status (device_of blocks.old)) }
    ensures reads { WritesNothing (D.status (device_of blocks.old)) (D.status (device_of blocks.new)) }
    ensures failed { FailsAs result (D.status (device_of blocks.old)) (D.status (device_of blocks.new)) }
{
    let newest = match find_newest(blocks) {
        Ok(newest) => newest,
        Err(fault) => return Err(fault),
    };
    match none_later(blocks, newest.geometry, newest.root.epoch + 1) {
        Ok(()) => Ok(newest),
        Err(fault) => Err(fault),
    }
}

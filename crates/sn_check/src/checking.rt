//! The check of a whole disk.
ghost use Rattle.std.specs.Prelude.{◌≡◌, IsTrue, IfErr, IfOk, OnOk};
ghost use Rattle.sn_device.specs.Disk.{reads};
ghost use Rattle.sn_block.specs.Lending.{device_of};
ghost use Rattle.sn_sound.specs.Verdicts.{HasNoVerdict, IsClean};
ghost use Rattle.sn_examine.specs.Failing.{FailsAs, WritesNothing};
ghost use Rattle.sn_check.specs.Verdicts.{IsCause, IsRight};

use crate::logging::check_log;
use crate::roots::count_free;
use crate::verdict::{Verdict, verdict_of};
use sn_block::Blocks;
use sn_device::Device;
use sn_examine::{DiskRoot, find_newest};
use sn_layout::Area;
use sn_model::MountFault;
use std::alloc::Global;

/// Goes through a disk group by group, up to its first fault, as [`check`] does. At `Ok` it is sound, and so many blocks are
/// free.
///
/// Proved: As the fault of a mount a verdict is `Ok` only of a clean disk, and else the fault that it names.
pub fn test_disk<D: Device>(alloc: Global, blocks: &mut Blocks<D>) -> Result<u32, MountFault>
    ensures clean { IsTrue D.tells_bytes → IfOk result (λ free. IsClean (D.status (device_of blocks.old)).sectors (reads (D.disk (device_of blocks.old))) free) }
    ensures cause { IsTrue D.tells_bytes → IfErr result (IsCause (D.status (device_of blocks.old)).sectors (reads (D.disk (device_of blocks.old)))) }
    ensures same { IsTrue D.tells_bytes → D.disk (device_of blocks.new) ≡ D.disk (device_of blocks.old) }
    ensures idle { OnOk result (D.status (device_of blocks.new) ≡ D.status (device_of blocks.old)) }
    ensures reads { WritesNothing (D.status (device_of blocks.old)) (D.status (device_of blocks.new)) }
    ensures failed { FailsAs result (D.status (device_of blocks.old)) (D.status (device_of blocks.new)) }
{
    let DiskRoot {
        geometry,
        slot,
        root,
    } = match find_newest(blocks) {
        Ok(found) => found,
        Err(fault) => return Err(fault),
    };
    let free = match count_free(alloc, blocks, geometry, slot, &root) {
        Ok(free) => free,
        Err(fault) => return Err(fault),
    };
    let body = geometry.start(Area::RootBody(slot));
    match check_log(alloc, blocks, geometry, &root, body, free) {
        Ok(()) => Ok(free),
        Err(fault) => Err(fault),
    }
}

/// Checks a whole disk: its superblock and the newest of its roots, all that this root and those of its snapshots reach,
/// the map of their blocks, their names and links, and the log on top of the newest one. A disk that is sound is `Clean`,
/// and no other is; else a fault is reported, at its block, of the first group that has one. There is no verdict, and
/// `NotFormatted`, `NoRoot` and `Version` come in this order, where there is no root to check; `Memory` where memory is
/// refused, and `Device` where the device fails. Nothing is written. Other bytes at a second read are reported as a
/// misspelt root body.
///
/// Proved: A disk is `Clean` only where it is sound, its newest root and those of its snapshots with the map of their
/// blocks, and the log on top of the newest one; the number with it is that of the data blocks that no root reaches.
/// Proved: A fault is at the block that is reported, and none of an earlier group is there: the root bodies (C1) come before
/// pointers, blocks reached twice and spelling (C2, C3, C5), these before the map (C4), then names and links (C6), and last
/// the log (C7), each over all roots.
/// Proved: The verdict is exact, since no disk is two of these (`fault_laws` of sn_sound).
/// Proved: M1, M3 and M2 come each exactly where superblock, gates and versions say so, and in this order; else there is a
/// verdict, but for lack of memory or a failure of the device.
/// Proved: Reads give the same as before, nothing is written, and a failure is reported only where the device failed or
/// ended, over any device.
pub fn check<D: Device>(alloc: Global, blocks: &mut Blocks<D>) -> Result<Verdict, MountFault>
    ensures verdict { IsTrue D.tells_bytes → IfOk result (IsRight (D.status (device_of blocks.old)).sectors (reads (D.disk (device_of blocks.old)))) }
    ensures none { IsTrue D.tells_bytes → IfErr result (HasNoVerdict (D.status (device_of blocks.old)).sectors (reads (D.disk (device_of blocks.old)))) }
    ensures same { IsTrue D.tells_bytes → D.disk (device_of blocks.new) ≡ D.disk (device_of blocks.old) }
    ensures reads { WritesNothing (D.status (device_of blocks.old)) (D.status (device_of blocks.new)) }
    ensures failed { FailsAs result (D.status (device_of blocks.old)) (D.status (device_of blocks.new)) }
{
    match test_disk(alloc, blocks) {
        Ok(free) => Ok(Verdict::Clean { free }),
        Err(fault) => verdict_of(fault),
    }
}

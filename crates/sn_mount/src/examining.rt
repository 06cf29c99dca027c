//! What a mount reads: first all of the disk, and then what is to run.
ghost use Rattle.std.specs.Prelude.{◌≡◌, ◌*◌, ◌≤◌, ◌^◌, true, length, IsTrue, IfErr, IfOk, OnOk};
ghost use Rattle.sn_device.specs.Disk.{reads};
ghost use Rattle.sn_block.specs.Lending.{device_of};
ghost use Rattle.sn_layout.specs.RootBody.{IsRootBody};
ghost use Rattle.sn_live.specs.Live.{HasNoPoint, IsLive, shown_of};
ghost use Rattle.sn_rooted.specs.Roots.{tree_on};
ghost use Rattle.sn_sound.specs.Logs.{HasAgeLeft};
ghost use Rattle.sn_examine.specs.Failing.{FailsAs, WritesNothing};
ghost use Rattle.sn_examine.specs.Finding.{HasFound};
ghost use Rattle.sn_examine.specs.Laws.{IsSomeClean};
ghost use Rattle.sn_check.specs.Verdicts.{IsCause};
ghost use Rattle.sn_mount.specs.FoundDisk.{kept_of};

use crate::finding::find;
use crate::found::FoundDisk;
use sn_block::Blocks;
use sn_check::test_disk;
use sn_device::Device;
use sn_model::MountFault;
use std::alloc::Global;

/// Checks the whole disk, and finds the newest root with the log on top of it where that is sound. A fault is the one that
/// the check reports.
pub(crate) fn examine<D: Device>(
    alloc: Global,
    blocks: &mut Blocks<D>,
) -> Result<FoundDisk, MountFault>
    ensures clean { IsTrue D.tells_bytes → OnOk result (IsSomeClean (D.status (device_of blocks.old)).sectors (reads (D.disk (device_of blocks.old)))) }
    ensures cause { IsTrue D.tells_bytes → IfErr result (IsCause (D.status (device_of blocks.old)).sectors (reads (D.disk (device_of blocks.old)))) }
    ensures found { IsTrue D.tells_bytes → IfOk result (λ f. HasFound (D.status (device_of blocks.old)).sectors (reads (D.disk (device_of blocks.old))) (kept_of f) f.at
        (shown_of f.live (tree_on blocks.old f.root.inode_file)) f.room f.recovers) }
    ensures live { IsTrue D.tells_bytes → IfOk result (λ f. IsLive f.live (tree_on blocks.old f.root.inode_file)) }
    ensures point { IfOk result (λ f. HasNoPoint f.live) }
    ensures few { IfOk result (λ f. f.room.dropped ≤ 2 ^ 32) }
    ensures blocks { IfOk result (λ f. f.at.blocks ≡ f.geometry) }
    ensures body { IfOk result (λ f. IsRootBody f.root) }
    ensures words { IfOk result (λ f. length f.map ≡ f.geometry) }
    ensures age { IfOk result (λ f. f.recovers ≡ true → HasAgeLeft f.root) }
    ensures within { IfOk result (λ f. 8 * f.geometry ≤ (D.status (device_of blocks.old)).sectors) }
    ensures same { IsTrue D.tells_bytes → D.disk (device_of blocks.new) ≡ D.disk (device_of blocks.old) }
    ensures idle { OnOk result (D.status (device_of blocks.new) ≡ D.status (device_of blocks.old)) }
    ensures reads { WritesNothing (D.status (device_of blocks.old)) (D.status (device_of blocks.new)) }
    ensures failed { FailsAs result (D.status (device_of blocks.old)) (D.status (device_of blocks.new)) }
{
    let _free = match test_disk(alloc, blocks) {
        Ok(free) => free,
        Err(fault) => return Err(fault),
    };
    match find(alloc, blocks) {
        Ok(found) => Ok(found),
        Err(fault) => Err(fault),
    }
}

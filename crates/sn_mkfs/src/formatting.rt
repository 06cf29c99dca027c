//! Formatting of a device.
ghost use Rattle.std.specs.Prelude.{◌≡◌, ◌≢◌, ◌↔◌, ◌+◌, ◌-◌, ◌*◌, ◌≤◌, IsTrue, IsSome, IfSome, IfOk, IfErr};
ghost use Rattle.sn_device.specs.Disk.{IsSynced, reads};
ghost use Rattle.sn_layout.specs.Geometry.{start_of};
ghost use Rattle.sn_layout.specs.declared.geometry.Area.TheVariants.{Data};
ghost use Rattle.sn_layout.specs.declared.geometry.Slot.TheVariants.{A};
ghost use Rattle.sn_model.specs.World.{new_world};
ghost use Rattle.sn_block.specs.Counts.{called};
ghost use Rattle.sn_ondisk.specs.Trees.{store_of};
ghost use Rattle.sn_opening.specs.Opens.{Opens};
ghost use Rattle.sn_sound.specs.Disks.{IsSoundDisk};
ghost use Rattle.sn_sound.specs.Maps.{free_blocks};
ghost use Rattle.sn_held.specs.Images.{IsImage};
ghost use Rattle.sn_mkfs.specs.Writing.{format_writes};
ghost use Rattle.sn_mkfs.specs.Faults.{HasRoom, IsCutOff};
ghost use Rattle.sn_mkfs.specs.Fresh.{fresh_root};
ghost use Rattle.sn_mkfs.specs.declared.fault.MkfsFault.TheVariants as mkfs_fault;

use crate::writing::format;
use crate::{MkfsFault, Unformatted};
use sn_block::Blocks;
use sn_device::Device;
use sn_layout::{Geometry, SECTORS_PER_BLOCK};
use std::alloc::Global;

/// Formats the first so many blocks of a device, of 4,096 bytes each: it then holds an empty root
/// directory of user 0 and group 0, of mode 0755, and no snapshots. `Size` is returned where the number
/// isn't from 256 to 1,048,576 or the device has fewer than eight sectors for each block. At `Device`
/// any part may have been written.
///
/// Proved: A device that was formatted opens to the new world: a root directory alone, of user 0 and group 0 and of mode
/// 0755, no snapshots, and nobody logged in.
/// Proved: A device that was formatted is a sound disk of so many blocks, and so an image that runs begin from, with its
/// first root in slot A: generation 1, epoch 1, the limits that are written, no snapshots, and an inode file of one block,
/// the first of the data area.
/// Proved: All other data blocks are free.
/// Proved: Nothing is unsynced, after exactly the writes of the sectors before the data area and 33 more, and four syncs.
/// Proved: K1 is returned exactly where the number of blocks isn't from 256 to 1,048,576, or the device has fewer than eight
/// sectors for each.
/// Proved: At K1, and where memory is refused (K2), the device comes back as it was.
/// Proved: K3 is returned only where the device failed or ended, after no more writes and syncs than those, and no count of
/// it fell.
pub fn mkfs<D: Device>(alloc: Global, device: D, blocks: u32) -> Result<D, Unformatted<D>>
    ensures opens { IsTrue D.tells_bytes
        → IfOk result (λ formatted. Opens blocks (reads (D.disk formatted)) new_world) }
    ensures sound { IsTrue D.tells_bytes → IfOk result (λ formatted.
        IsSoundDisk (D.status device).sectors (reads (D.disk formatted)) blocks A (fresh_root blocks)) }
    ensures image { IsTrue D.tells_bytes → IfOk result (λ formatted. IsImage (reads (D.disk formatted)) new_world) }
    ensures free { IsTrue D.tells_bytes → IfOk result (λ formatted.
        free_blocks blocks (store_of (reads (D.disk formatted))) (fresh_root blocks) ≡ blocks - start_of blocks Data - 1) }
    ensures synced { IsTrue D.tells_bytes → IfOk result (λ formatted. IsSynced (D.disk formatted)) }
    ensures costs { IfOk result (λ formatted.
        D.status formatted ≡ called (format_writes blocks) 4 (D.status device)) }
    ensures fits { IfOk result (λ _. HasRoom (D.status device).sectors blocks) }
    ensures size { IfErr result (λ unformatted.
        (unformatted.fault ≡ mkfs_fault.Size) ↔ (HasRoom (D.status device).sectors blocks → ⊥)) }
    ensures untouched { IfErr result (λ unformatted.
        unformatted.fault ≢ mkfs_fault.Device → unformatted.device ≡ device) }
    ensures failed { IfErr result (λ unformatted. unformatted.fault ≡ mkfs_fault.Device
        → IsCutOff blocks (D.status device) (D.status unformatted.device)) }
{
    let Some(geometry) = places_on(blocks, device.sectors()) else {
        return Err(Unformatted {
            fault: MkfsFault::Size,
            device,
        });
    };
    let mut blocks = match Blocks::new(alloc, device) {
        Ok(blocks) => blocks,
        Err(refused) => {
            return Err(Unformatted {
                fault: MkfsFault::Memory,
                device: refused.value,
            });
        }
    };
    let result = format(&mut blocks, geometry);
    let device = blocks.into_device();
    match result {
        Ok(()) => Ok(device),
        Err(_) => Err(Unformatted {
            fault: MkfsFault::Device,
            device,
        }),
    }
}

// Where things are on a disk of so many blocks, if a device of so many sectors has room for it.
fn places_on(blocks: u32, sectors: u64) -> Option<Geometry>
    ensures some { IsSome result ↔ HasRoom sectors blocks }
    ensures value { IfSome result (λ geometry. geometry ≡ blocks) }
{
    let geometry = Geometry::new(blocks)?;
    if sectors < SECTORS_PER_BLOCK * u64::from(blocks) {
        return None;
    }
    Some(geometry)
}

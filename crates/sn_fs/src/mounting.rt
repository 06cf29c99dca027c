//! Mount and unmount.
ghost use Rattle.std.specs.Prelude.{◌≡◌, ◌*◌, ◌≤◌, IsTrue, IfOk, IfErr};
ghost use Rattle.sn_block.specs.Counts.{IsLater};
ghost use Rattle.sn_device.specs.Disk.{reads};
ghost use Rattle.sn_examine.specs.Failing.{IsSoOf};
ghost use Rattle.sn_held.specs.Images.{IsImage};
ghost use Rattle.sn_model.specs.World.{World};
ghost use Rattle.sn_mount.specs.Costs.{CostsFew, CostsMount};
ghost use Rattle.sn_mount.specs.Rooting.{MountsRoot};
ghost use Rattle.sn_fs.specs.Filesystem.{IsFs, has_stopped, held};
ghost use Rattle.sn_events.specs.Mounting.{IsLeft, Mounts};

use crate::{Fs, Unmounted};
use sn_block::Blocks;
use sn_device::Device;
use sn_model::MountFault;
use sn_mount::{Recovered, recover};
use std::alloc::Global;

/// Mounts a device: syncs it, checks all of it, tries the log over the newest root's tree, which stays on the device, and drops
/// the files that have no name. Where anything was replayed or dropped, a consistency point makes a root of it; then
/// the first place of the log is cleared. `NotFormatted`, `NoRoot`, `Version` and `Damaged` come in this order, each before anything
/// is written, and as the check of the image reports them.
///
/// Proved, also of `Fs::call` and `Fs::step`: Over any device, unless a failure has stopped the mount: the log is on a
/// device that has all its blocks, a point can begin or one is in progress, each open file has room for its drop, and no
/// more files are parked than can be counted.
/// Proved, also of `Fs::call` and `Fs::step`: A new node gets the least number that no node has and that isn't kept back; a
/// mount keeps none back, those from before a point began are kept back until it is done, and those since until the next one
/// is.
/// Proved: A mount runs over the world that the contents are an image of, with the log empty at its first place, nothing
/// charged or changed since the root, and no number kept back.
/// Proved: Where the contents are an image of a world, no crash leaves another world from the mount's first sync on, also
/// where it fails; before that nothing is written.
/// Proved: M1, M3 and M2 come only where superblock, gates and versions say so, a damage only where the contents are an
/// image of no world, M6 only where the device failed or ended, and no other fault where it failed.
/// Proved: A damage of the roots or the log is at the block that is reported, and then nothing was written.
/// Proved: A mount writes neither the superblock nor the root that counts and its map, also where it fails.
/// Proved: A mount makes a root exactly where a record was replayed, a file without names dropped, or the root isn't of the
/// version that is written: the one that follows, of the next generation and two epochs later, with the writes and syncs of
/// a whole consistency point and a sync.
/// Proved: Otherwise the root is unchanged, for one write and two syncs; a mount that fails makes at most the writes and
/// syncs of a point.
pub fn mount<D: Device>(alloc: Global, device: D) -> Result<Fs<D>, Unmounted<D>>
    ensures mounted { IsTrue D.tells_bytes → IfOk result (λ fs. Mounts (D.status device).sectors (D.disk device) (held fs) (has_stopped fs)) }
    ensures root { IsTrue D.tells_bytes → IfOk result (λ fs. (world : World) (im : IsImage (reads (D.disk device)) world)
        → MountsRoot (reads (D.disk device)) world im (held fs).base (D.status device) (held fs).status) }
    ensures sound { IfOk result IsFs }
    ensures unmounted { IsTrue D.tells_bytes → IfErr result (λ u. IsLeft u.fault (D.status device).sectors (D.disk device) (D.disk u.device)) }
    ensures failed { IfErr result (λ u. IsSoOf u.fault (D.status device) (D.status u.device)) }
    ensures sectors { IfErr result (λ u. (D.status u.device).sectors ≡ (D.status device).sectors) }
    ensures later { IfErr result (λ u. IsLater (D.status device) (D.status u.device)) }
    ensures costs { IfOk result (λ fs. CostsMount (held fs).at.blocks (D.status device) (held fs).status) }
    ensures within { IfOk result (λ fs. 8 * (held fs).at.blocks ≤ (D.status device).sectors) }
    ensures tries { IfErr result (λ u. CostsFew (D.status device) (D.status u.device)) }
{
    let mut blocks = match Blocks::new(alloc, device) {
        Ok(blocks) => blocks,
        Err(refused) => {
            return Err(Unmounted {
                fault: MountFault::Memory,
                device: refused.value,
            });
        }
    };
    match recover(alloc, &mut blocks) {
        Ok(
            Recovered {
                log,
                world,
                room,
                base,
            },
        ) => Ok(Fs {
            alloc,
            blocks,
            log,
            world,
            room,
            base,
            going: None,
            has_stopped: false,
        }),
        Err(fault) => Err(Unmounted {
            fault,
            device: blocks.into_device(),
        }),
    }
}

impl<D: Device> Fs<D> {
    /// Unmounts: hands the device back, and calls nothing of it.
    ///
    /// Proved: The device comes back as the calls left it.
    pub fn into_device(self) -> D
        ensures disk { D.disk result ≡ (held self).disk }
        ensures status { D.status result ≡ (held self).status }
    {
        let Fs {
            blocks,
            log,
            world,
            base,
            going,
            ..
        } = self;
        drop(log);
        drop(world);
        drop(base);
        drop(going);
        blocks.into_device()
    }
}

//! What is found on a disk before its tree is read.
ghost use Rattle.std.specs.Prelude.{◌≡◌, ◌*◌, ◌≤◌, ℕ, IsTrue, IfErr, IfOk, OnOk};
ghost use Rattle.sn_device.specs.Disk.{reads};
ghost use Rattle.sn_layout.specs.RootBody.{IsRootBody};
ghost use Rattle.sn_block.specs.Lending.{device_of};
ghost use Rattle.sn_ondisk.specs.LogHalf.{HasNoLater, base_of};
ghost use Rattle.sn_ondisk.specs.Roots.{IsNewest};
ghost use Rattle.sn_sound.specs.Disks.{IsFormatted};
ghost use Rattle.sn_sound.specs.Verdicts.{IsSomeSize};
ghost use Rattle.sn_log.specs.Positions.{half_base};
ghost use Rattle.sn_examine.specs.Examining.{IsLaterIn, IsOfRoots, SomeIsLater};
ghost use Rattle.sn_examine.specs.Failing.{FailsAs, WritesNothing};
ghost use Rattle.sn_examine.specs.Refusing.{RefusesAs};

use crate::fault::{fault_of, root_fault};
use sn_block::Blocks;
use sn_device::Device;
use sn_layout::{Area, Geometry, LogHalf, SECTORS_PER_BLOCK, SMALLEST_DISK, Superblock};
use sn_log::has_no_later;
use sn_model::{Damage, MountFault};
use sn_root::{NewestRoot, newest};

/// How many sectors the least disk has.
const LEAST_SECTORS: u64 = SECTORS_PER_BLOCK * SMALLEST_DISK as u64;

/// How large the disk is, by its superblock. `NotFormatted` where that is misspelt, or the device has fewer sectors.
pub(crate) fn disk_size<D: Device>(blocks: &mut Blocks<D>) -> Result<Geometry, MountFault>
    ensures found { IsTrue D.tells_bytes → IfOk result (λ n. IsFormatted (D.status (device_of blocks.old)).sectors (reads (D.disk (device_of blocks.old))) n) }
    ensures within { IfOk result (λ n. 8 * n ≤ (D.status (device_of blocks.old)).sectors) }
    ensures least { OnOk result (2048 ≤ (D.status (device_of blocks.old)).sectors) }
    ensures roots { IfErr result IsOfRoots }
    ensures refuses { IsTrue D.tells_bytes → RefusesAs result (D.status (device_of blocks.old)).sectors (reads (D.disk (device_of blocks.old))) }
    ensures same { IsTrue D.tells_bytes → D.disk (device_of blocks.new) ≡ D.disk (device_of blocks.old) }
    ensures idle { OnOk result (D.status (device_of blocks.new) ≡ D.status (device_of blocks.old)) }
    ensures reads { WritesNothing (D.status (device_of blocks.old)) (D.status (device_of blocks.new)) }
    ensures failed { FailsAs result (D.status (device_of blocks.old)) (D.status (device_of blocks.new)) }
{
    let sectors = blocks.sectors();
    if sectors < LEAST_SECTORS {
        return Err(MountFault::NotFormatted);
    }
    let block = match blocks.read_block(0) {
        Ok(block) => block,
        Err(fault) => return Err(fault_of(fault)),
    };
    let Some(superblock) = Superblock::decode(block) else {
        return Err(MountFault::NotFormatted);
    };
    if SECTORS_PER_BLOCK * u64::from(superblock.geometry.blocks()) > sectors {
        return Err(MountFault::NotFormatted);
    }
    Ok(superblock.geometry)
}

/// The root that counts.
pub(crate) fn newest_root<D: Device>(blocks: &mut Blocks<D>) -> Result<NewestRoot, MountFault>
    requires room { 2048 ≤ (D.status (device_of blocks.old)).sectors }
    ensures found { IsTrue D.tells_bytes → IfOk result (λ it. IsNewest (reads (D.disk (device_of blocks.old))) it.slot it.root) }
    ensures fits { IfOk result (λ it. IsRootBody it.root) }
    ensures roots { IfErr result IsOfRoots }
    ensures refuses { IsTrue D.tells_bytes → IsSomeSize (D.status (device_of blocks.old)).sectors (reads (D.disk (device_of blocks.old)))
        → RefusesAs result (D.status (device_of blocks.old)).sectors (reads (D.disk (device_of blocks.old))) }
    ensures same { IsTrue D.tells_bytes → D.disk (device_of blocks.new) ≡ D.disk (device_of blocks.old) }
    ensures idle { OnOk result (D.status (device_of blocks.new) ≡ D.status (device_of blocks.old)) }
    ensures reads { WritesNothing (D.status (device_of blocks.old)) (D.status (device_of blocks.new)) }
    ensures failed { FailsAs result (D.status (device_of blocks.old)) (D.status (device_of blocks.new)) }
{
    match newest(blocks) {
        Ok(found) => Ok(found),
        Err(fault) => Err(root_fault(fault)),
    }
}

/// Damaged where the first place of a half has a record of an epoch later than this one, which would count once that
/// epoch begins. It is reported at the half's first block.
fn none_later_in<D: Device>(
    blocks: &mut Blocks<D>,
    geometry: Geometry,
    half: LogHalf,
    epoch: u64,
) -> Result<(), MountFault>
    requires disk { 8 * geometry ≤ (D.status (device_of blocks.old)).sectors }
    ensures none { IsTrue D.tells_bytes → OnOk result (HasNoLater (reads (D.disk (device_of blocks.old))) (half_base geometry half) epoch) }
    ensures later { IsTrue D.tells_bytes → IfErr result (λ f. IsLaterIn f (reads (D.disk (device_of blocks.old))) geometry half epoch) }
    ensures same { IsTrue D.tells_bytes → D.disk (device_of blocks.new) ≡ D.disk (device_of blocks.old) }
    ensures idle { OnOk result (D.status (device_of blocks.new) ≡ D.status (device_of blocks.old)) }
    ensures reads { WritesNothing (D.status (device_of blocks.old)) (D.status (device_of blocks.new)) }
    ensures failed { FailsAs result (D.status (device_of blocks.old)) (D.status (device_of blocks.new)) }
{
    match has_no_later(blocks, geometry, half, epoch) {
        Ok(true) => Ok(()),
        Ok(false) => Err(MountFault::Damaged {
            damage: Damage::Log,
            block: geometry.range(Area::Log(half)).start,
        }),
        Err(fault) => Err(fault_of(fault)),
    }
}

/// Damaged where the first place of either half has a record of an epoch later than this one. It is reported at that half's
/// first block.
pub fn none_later<D: Device>(
    blocks: &mut Blocks<D>,
    geometry: Geometry,
    epoch: u64,
) -> Result<(), MountFault>
    requires disk { 8 * geometry ≤ (D.status (device_of blocks.old)).sectors }
    ensures none { IsTrue D.tells_bytes → OnOk result ((e : ℕ) → HasNoLater (reads (D.disk (device_of blocks.old))) (base_of geometry e) epoch) }
    ensures later { IsTrue D.tells_bytes → IfErr result (λ f. SomeIsLater f (reads (D.disk (device_of blocks.old))) geometry epoch) }
    ensures same { IsTrue D.tells_bytes → D.disk (device_of blocks.new) ≡ D.disk (device_of blocks.old) }
    ensures idle { OnOk result (D.status (device_of blocks.new) ≡ D.status (device_of blocks.old)) }
    ensures reads { WritesNothing (D.status (device_of blocks.old)) (D.status (device_of blocks.new)) }
    ensures failed { FailsAs result (D.status (device_of blocks.old)) (D.status (device_of blocks.new)) }
{
    match none_later_in(blocks, geometry, LogHalf::Zero, epoch) {
        Ok(()) => {}
        Err(fault) => return Err(fault),
    }
    match none_later_in(blocks, geometry, LogHalf::One, epoch) {
        Ok(()) => Ok(()),
        Err(fault) => Err(fault),
    }
}

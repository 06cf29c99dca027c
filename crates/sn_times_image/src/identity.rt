//! What tells one end of an image from all others.
ghost use Rattle.std.specs.Prelude.{◌≡◌, ℕ, ◌+◌, ◌/◌, ◌<◌, ◌≤◌, ◌↔◌, List, ◌++◌, IfSome, IsSome, IsTrue, OnOk};
ghost use Rattle.sha2.specs.Hashers.{Holds256};
ghost use Rattle.sn_device.specs.Disk.{reads};
ghost use Rattle.sn_device.specs.Sectors.{sector_at};
ghost use Rattle.sn_device.specs.Status.{Counts};
ghost use Rattle.sn_ondisk.specs.Blocks.{bytes_at};
ghost use Rattle.sn_times_image.specs.Identity.{identity_of, marks_of};
ghost use Rattle.sn_times_image.specs.Looking.{HasImageSize, Looks, Reads};

use sha2::{Digest, Sha256};
use sn_device::{Device, Fault};
use sn_layout::{Area, Geometry, LogHalf, SECTOR_SIZE, SECTORS_PER_BLOCK, Slot};

/// The sectors of both root bodies and of the block with their gates, which follow one another.
const ROOT_SECTORS: u64 = 3 * SECTORS_PER_BLOCK;

/// A digest of what tells one end of an image from all others.
pub(crate) type Identity = [u8; 32];

/// Adds a sector to the message. Where it can't be read, the message is as it was.
fn take_sector<D: Device>(device: &mut D, at: u64, hasher: &mut Sha256) -> Result<(), Fault>
    requires { at < (D.status device.old).sectors }
    ensures taken { IsTrue D.tells_bytes → OnOk result ((message : List ℕ) → Holds256 hasher.old message
        → Holds256 hasher.new (message ++ sector_at (reads (D.disk device.old)) at)) }
    ensures same { IsTrue D.tells_bytes → D.disk device.new ≡ D.disk device.old }
    ensures counts { Counts (λ status. status) result (D.status device.old) (D.status device.new) }
{
    let mut sector = [0; SECTOR_SIZE];
    device.read(at, &mut sector)?;
    hasher.update(sector.as_slice());
    Ok(())
}

/// Adds so many sectors from one on to the message, up to the first that can't be read.
fn take_sectors<D: Device>(
    device: &mut D,
    first: u64,
    count: u64,
    hasher: &mut Sha256,
) -> Result<(), Fault>
    requires { first + count ≤ (D.status device.old).sectors }
    ensures taken { IsTrue D.tells_bytes → OnOk result ((message : List ℕ) → Holds256 hasher.old message
        → Holds256 hasher.new (message ++ bytes_at (reads (D.disk device.old)) first count)) }
    ensures same { IsTrue D.tells_bytes → D.disk device.new ≡ D.disk device.old }
    ensures counts { Reads result (D.status device.old) (D.status device.new) }
{
    // It bounds the numbers of the sectors.
    let _sectors = device.sectors();
    for i in 0..count {
        take_sector(device, first + i, hasher)?;
    }
    Ok(())
}

/// Where things lie on an image of the device's size. `None` where no image has it.
fn geometry_of<D: Device>(device: &D) -> Option<Geometry>
    ensures sized { IsSome result ↔ HasImageSize (D.status device.now) }
    ensures value { IfSome result (λ geometry. geometry ≡ (D.status device.now).sectors / 8) }
{
    let blocks = u32::try_from(device.sectors() / SECTORS_PER_BLOCK).ok()?;
    Geometry::new(blocks)
}

/// Adds what a point or a record changes to the message, up to the first sector that can't be read.
fn take_marks<D: Device>(
    device: &mut D,
    geometry: Geometry,
    hasher: &mut Sha256,
) -> Result<(), Fault>
    requires sized { HasImageSize (D.status device.old) }
    requires geometry { geometry ≡ (D.status device.old).sectors / 8 }
    ensures taken { IsTrue D.tells_bytes → OnOk result ((message : List ℕ) → Holds256 hasher.old message
        → Holds256 hasher.new (message ++ marks_of (reads (D.disk device.old)))) }
    ensures same { IsTrue D.tells_bytes → D.disk device.new ≡ D.disk device.old }
    ensures counts { Reads result (D.status device.old) (D.status device.new) }
{
    let roots = geometry.first_sector(Area::RootBody(Slot::A));
    let zero = geometry.first_sector(Area::Log(LogHalf::Zero));
    let one = geometry.first_sector(Area::Log(LogHalf::One));
    take_sectors(device, roots, ROOT_SECTORS, hasher)?;
    take_sector(device, zero, hasher)?;
    take_sector(device, one, hasher)?;
    Ok(())
}

/// The digest of both roots with their gates, and of the first gate of each half of the log: a point changes the former, and a record the
/// latter. `None` where the device has no size of an image, or can't be read.
pub(crate) fn identity_of<D: Device>(device: &mut D) -> Option<Identity>
    ensures told { IsTrue D.tells_bytes → IfSome result (λ identity. identity ≡ identity_of (reads (D.disk device.old))) }
    ensures same { IsTrue D.tells_bytes → D.disk device.new ≡ D.disk device.old }
    ensures counts { Looks result (D.status device.old) (D.status device.new) }
{
    let geometry = geometry_of(device)?;
    let mut hasher = Sha256::new();
    take_marks(device, geometry, &mut hasher).ok()?;
    Some(hasher.finalize())
}

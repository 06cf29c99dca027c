//! Gates and sectors of the log.
ghost use Rattle.std.specs.Prelude.{◌≡◌, ◌+◌, ◌*◌, ◌≤◌, ◌<◌, take, IsTrue, OnOk};
ghost use Rattle.sn_device.specs.Disk.{reads};
ghost use Rattle.sn_device.specs.Sectors.{sector_at};
ghost use Rattle.sn_block.specs.Counts.{CountsRead};
ghost use Rattle.sn_block.specs.Lending.{device_of};
ghost use Rattle.sn_layout.specs.Gate.{gate_of, gate_bytes};
ghost use Rattle.sn_ondisk.specs.Blocks.{bytes_at};
ghost use Rattle.sn_log.specs.Positions.{half_base};

use sn_block::{Blocks, ReadFault};
use sn_device::Device;
use sn_layout::{Area, Gate, Geometry, LogHalf, SECTOR_SIZE, Sector};

/// The sector of a gate.
pub(crate) fn sector_of(gate: Gate) -> Sector
    ensures bytes { result ≡ gate_bytes gate }
    ensures read { gate_of result ≡ gate }
{
    let mut sector = [0; 512];
    gate.encode(&mut sector);
    sector
}

/// The first block of a half.
pub(crate) fn first_block(geometry: Geometry, half: LogHalf) -> u32
    ensures start { 8 * result ≡ half_base geometry half }
    ensures within { 8 * result + 256 ≤ 8 * geometry }
    ensures few { result < 1048576 }
{
    geometry.range(Area::Log(half)).start
}

/// Copies the sector at a place of the half that begins with the block `start`.
pub(crate) fn read_sector<D: Device>(
    blocks: &mut Blocks<D>,
    start: u32,
    place: u64,
    sector: &mut Sector,
) -> Result<(), ReadFault>
    requires start { start < 1048576 }
    requires place { place ≤ 255 }
    requires disk { 8 * start + 256 ≤ (D.status (device_of blocks.old)).sectors }
    ensures bytes { IsTrue D.tells_bytes → OnOk result
        (sector.new ≡ sector_at (reads (D.disk (device_of blocks.old))) (8 * start + place)) }
    ensures same { IsTrue D.tells_bytes
        → D.disk (device_of blocks.new) ≡ D.disk (device_of blocks.old) }
    ensures counts { CountsRead result
        (D.status (device_of blocks.old)) (D.status (device_of blocks.new)) }
{
    blocks.fetch(start + (place / 8) as u32)?;
    let from = SECTOR_SIZE * (place % 8) as usize;
    sector.copy_from_slice(&blocks.fetched()[from..from + SECTOR_SIZE]);
    Ok(())
}

/// Copies `count` sectors from a place of the half on.
pub(crate) fn read_sectors<D: Device>(
    blocks: &mut Blocks<D>,
    start: u32,
    place: u64,
    count: usize,
    room: &mut [u8; 66_048],
) -> Result<(), ReadFault>
    requires start { start < 1048576 }
    requires place { place + count ≤ 256 }
    requires count { count ≤ 129 }
    requires disk { 8 * start + 256 ≤ (D.status (device_of blocks.old)).sectors }
    ensures bytes { IsTrue D.tells_bytes → OnOk result (take (512 * count) room.new
        ≡ bytes_at (reads (D.disk (device_of blocks.old))) (8 * start + place) count) }
    ensures same { IsTrue D.tells_bytes
        → D.disk (device_of blocks.new) ≡ D.disk (device_of blocks.old) }
    ensures counts { CountsRead result
        (D.status (device_of blocks.old)) (D.status (device_of blocks.new)) }
{
    for i in 0..count {
        let mut sector = [0; 512];
        read_sector(blocks, start, place + i as u64, &mut sector)?;
        room[SECTOR_SIZE * i..SECTOR_SIZE * i + SECTOR_SIZE].copy_from_slice(&sector);
    }
    Ok(())
}

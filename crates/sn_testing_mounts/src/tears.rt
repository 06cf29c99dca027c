//! What a crash leaves of the sectors that weren't synced.
ghost use Rattle.std.specs.Prelude.{◌<◌};

use anyhow::{Result, ensure};
use rand_core::Rng;
use rand_pcg::Pcg32;
use sn_device::{Device, Fill, MemDevice, SECTOR_SIZE, Sector};
use std::alloc::Global;

/// How many fills there are: the five of one kind, and seeds.
pub const FILLS: u32 = 40;

/// The five fills of one kind first, and then seeds.
fn fill_of(number: u32) -> Fill {
    match number {
        0 => Fill::Old,
        1 => Fill::New,
        2 => Fill::Zero,
        3 => Fill::One,
        4 => Fill::Junk,
        _ => Fill::Seeded(u64::from(number)),
    }
}

/// The device after a crash. The numbers below [`FILLS`] fill each sector that wasn't synced: the five
/// fills of one kind first, and then seeds. Each number from there on draws for every such sector whether it is
/// old, new, or torn at a byte that is drawn too.
pub fn crashed(alloc: Global, device: MemDevice, number: u32) -> Result<MemDevice> {
    if number < FILLS {
        return Ok(device.crash(fill_of(number)));
    }
    let after = Vec::from_slice(alloc, device.contents())?;
    torn(device, after.as_slice(), number)
}

/// A crash of a device with these contents, of which each sector that wasn't synced may be there.
fn torn(device: MemDevice, after: &[Sector], number: u32) -> Result<MemDevice> {
    let mut random = Pcg32::new(u64::from(number), 0);
    let mut left = device.crash(Fill::Old);
    for (at, new) in after.iter().enumerate() {
        tear(&mut left, at as u64, new, &mut random)?;
    }
    Ok(left.crash(Fill::New))
}

/// Leaves of a sector what is drawn, where it isn't the new one already.
fn tear(device: &mut MemDevice, at: u64, new: &Sector, random: &mut Pcg32) -> Result<()> {
    ensure!(at < device.sectors(), "no such sector");
    let mut sector = [0; SECTOR_SIZE];
    let is_read = device.read(at, &mut sector).is_ok();
    ensure!(is_read && at < device.sectors(), "a read that failed");
    if sector != *new {
        leave_some(&mut sector, new, random);
        let is_written = device.write(at, &sector).is_ok();
        ensure!(is_written, "a write that failed");
    }
    Ok(())
}

/// Where a sector is torn: after its first byte, before its last, or anywhere between.
fn cut_of(random: &mut Pcg32) -> usize
    ensures { result < 512 }
{
    match random.next_u32() % 4 {
        0 => 1,
        1 => 511,
        _ => 1 + random.next_u32() as usize % 511,
    }
}

/// Leaves a sector as it was, new, with a new front, or with a new end.
fn leave_some(sector: &mut Sector, new: &Sector, random: &mut Pcg32) {
    let cut = cut_of(random);
    match random.next_u32() % 6 {
        0 | 1 => {}
        2 | 3 => *sector = *new,
        4 => sector[..cut].copy_from_slice(&new[..cut]),
        _ => sector[cut..].copy_from_slice(&new[cut..]),
    }
}

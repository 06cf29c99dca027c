//! What is free on the disk, beside what the log is charged.
ghost use Rattle.std.specs.Prelude.{◌≡◌, ℕ, ◌+◌, ◌*◌, ◌≤◌, ◌^◌, List, length, IsTrue, IfErr, IfOk, OnOk};
ghost use Rattle.sn_device.specs.Disk.{reads};
ghost use Rattle.sn_block.specs.Lending.{device_of};
ghost use Rattle.sn_layout.specs.Bytes.{AreNumbers};
ghost use Rattle.sn_layout.specs.MapCopy.{map_block_bytes};
ghost use Rattle.sn_ondisk.specs.Blocks.{block_at};
ghost use Rattle.sn_ondisk.specs.MapCopy.{HasMap};
ghost use Rattle.sn_examine.specs.Failing.{FailsAs, WritesNothing};
ghost use Rattle.sn_examine.specs.Rooms.{FindsRoom, IsNoDamage, IsUncovered};

use crate::fault::fault_of;
use sn_block::Blocks;
use sn_device::Device;
use sn_held::Room;
use sn_layout::{Area, Geometry, LogHalf, RootBody, Slot, WORDS_PER_BLOCK, read_map_words};
use sn_map::Map;
use sn_model::{Damage, MountFault};
use std::alloc::Global;

/// Reads the words of one block of a map copy. What comes after the last of them doesn't matter here.
fn read_words<D: Device>(
    blocks: &mut Blocks<D>,
    number: u32,
    words: &mut [u32],
) -> Result<(), MountFault>
    requires disk { 8 * number + 8 ≤ (D.status (device_of blocks.old)).sectors }
    requires long { length words.old ≤ 1024 }
    ensures words { IsTrue D.tells_bytes → OnOk result ((all : List ℕ) → length all ≡ length words.old → AreNumbers 4 all
        → block_at (reads (D.disk (device_of blocks.old))) number ≡ map_block_bytes all → words.new ≡ all) }
    ensures fault { IfErr result IsNoDamage }
    ensures same { IsTrue D.tells_bytes → D.disk (device_of blocks.new) ≡ D.disk (device_of blocks.old) }
    ensures idle { OnOk result (D.status (device_of blocks.new) ≡ D.status (device_of blocks.old)) }
    ensures reads { WritesNothing (D.status (device_of blocks.old)) (D.status (device_of blocks.new)) }
    ensures failed { FailsAs result (D.status (device_of blocks.old)) (D.status (device_of blocks.new)) }
{
    match blocks.read_block(number) {
        Ok(block) => {
            read_map_words(block, words);
            Ok(())
        }
        Err(fault) => Err(fault_of(fault)),
    }
}

/// Reads the words of a slot's copy of the map, block by block.
fn fill_words<D: Device>(
    blocks: &mut Blocks<D>,
    geometry: Geometry,
    slot: Slot,
    words: &mut [u32],
) -> Result<(), MountFault>
    requires disk { 8 * geometry ≤ (D.status (device_of blocks.old)).sectors }
    requires count { length words.old ≡ geometry }
    ensures words { IsTrue D.tells_bytes → OnOk result ((all : List ℕ) → HasMap geometry (reads (D.disk (device_of blocks.old))) slot all → words.new ≡ all) }
    ensures fault { IfErr result IsNoDamage }
    ensures same { IsTrue D.tells_bytes → D.disk (device_of blocks.new) ≡ D.disk (device_of blocks.old) }
    ensures idle { OnOk result (D.status (device_of blocks.new) ≡ D.status (device_of blocks.old)) }
    ensures reads { WritesNothing (D.status (device_of blocks.old)) (D.status (device_of blocks.new)) }
    ensures failed { FailsAs result (D.status (device_of blocks.old)) (D.status (device_of blocks.new)) }
{
    let first = geometry.range(Area::MapCopy(slot)).start;
    let mut at = 0;
    while at < words.len() {
        let end = words.len().min(at + WORDS_PER_BLOCK);
        let number = first + (at / WORDS_PER_BLOCK) as u32;
        match read_words(blocks, number, &mut words[at..end]) {
            Ok(()) => {}
            Err(fault) => return Err(fault),
        }
        at = end;
    }
    Ok(())
}

/// Reads a slot's copy of the map.
pub fn read_map<D: Device>(
    alloc: Global,
    blocks: &mut Blocks<D>,
    geometry: Geometry,
    slot: Slot,
) -> Result<Map, MountFault>
    requires disk { 8 * geometry ≤ (D.status (device_of blocks.old)).sectors }
    ensures words { IsTrue D.tells_bytes → IfOk result (λ map. (words : List ℕ) → HasMap geometry (reads (D.disk (device_of blocks.old))) slot words → map ≡ words) }
    ensures count { IfOk result (λ map. length map ≡ geometry) }
    ensures fault { IfErr result IsNoDamage }
    ensures same { IsTrue D.tells_bytes → D.disk (device_of blocks.new) ≡ D.disk (device_of blocks.old) }
    ensures idle { OnOk result (D.status (device_of blocks.new) ≡ D.status (device_of blocks.old)) }
    ensures reads { WritesNothing (D.status (device_of blocks.old)) (D.status (device_of blocks.new)) }
    ensures failed { FailsAs result (D.status (device_of blocks.old)) (D.status (device_of blocks.new)) }
{
    let Ok(mut words) = Vec::from_elem(alloc, 0, geometry.blocks() as usize) else {
        return Err(MountFault::Memory);
    };
    match fill_words(blocks, geometry, slot, words.as_mut_slice()) {
        Ok(()) => Ok(Map::from_words(words)),
        Err(fault) => Err(fault),
    }
}

/// The room that is left on top of a root whose log is charged so much, and whose tree has so many files without names,
/// and the map that says so. Damaged where more is charged than is free, which is reported at the half of the root's
/// epoch.
///
/// Proved: Charges of more than the map has free are a damage of the log, reported at the half of the root's epoch; how much
/// is free is the root's where the map is right, and a file without names is charged as the root's version says.
pub fn find_room<D: Device>(
    alloc: Global,
    blocks: &mut Blocks<D>,
    geometry: Geometry,
    slot: Slot,
    root: &RootBody,
    charges: u128,
    dropped: u32,
) -> Result<(Map, Room), MountFault>
    requires disk { 8 * geometry ≤ (D.status (device_of blocks.old)).sectors }
    ensures words { IsTrue D.tells_bytes → IfOk result (λ r. (words : List ℕ) → HasMap geometry (reads (D.disk (device_of blocks.old))) slot words → r.0 ≡ words) }
    ensures count { IfOk result (λ r. length r.0 ≡ geometry) }
    ensures room { IsTrue D.tells_bytes → IfOk result (λ r. FindsRoom geometry (reads (D.disk (device_of blocks.old))) slot root.now charges dropped r.1) }
    ensures few { IfOk result (λ r. r.1.dropped ≤ 2 ^ 32) }
    ensures uncovered { IsTrue D.tells_bytes → IfErr result (λ f. IsUncovered f geometry (reads (D.disk (device_of blocks.old))) slot root.now charges dropped) }
    ensures same { IsTrue D.tells_bytes → D.disk (device_of blocks.new) ≡ D.disk (device_of blocks.old) }
    ensures idle { OnOk result (D.status (device_of blocks.new) ≡ D.status (device_of blocks.old)) }
    ensures reads { WritesNothing (D.status (device_of blocks.old)) (D.status (device_of blocks.new)) }
    ensures failed { FailsAs result (D.status (device_of blocks.old)) (D.status (device_of blocks.new)) }
{
    let map = match read_map(alloc, blocks, geometry, slot) {
        Ok(map) => map,
        Err(fault) => return Err(fault),
    };
    let free = map.count_free_from(geometry.range(Area::Data).start);
    match Room::mounted(&root.limits, free, charges, dropped) {
        Some(room) => Ok((map, room)),
        None => Err(MountFault::Damaged {
            damage: Damage::Log,
            block: geometry
                .range(Area::Log(LogHalf::of_epoch(root.epoch)))
                .start,
        }),
    }
}

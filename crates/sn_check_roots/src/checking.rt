//! The roots of a disk, its map, and the links of all roots.
ghost use Rattle.std.specs.Prelude.{◌≡◌, ◌*◌, ◌≤◌, length, replicate, IsTrue, IfErr, IfOk};
ghost use Rattle.sn_device.specs.Disk.{reads};
ghost use Rattle.sn_block.specs.Lending.{device_of};
ghost use Rattle.sn_block.specs.declared.fault.ReadFault.TheVariants.{Memory};
ghost use Rattle.sn_layout.specs.RootBody.{IsRootBody};
ghost use Rattle.sn_ondisk.specs.MapCopy.{map_word};
ghost use Rattle.sn_ondisk.specs.Trees.{store_of};
ghost use Rattle.sn_sound.specs.Maps.{IsSoundRoot};
ghost use Rattle.sn_marks.specs.Fault.{CountsCheck, Tells};
ghost use Rattle.sn_marks.specs.declared.fault.CheckFault.TheVariants.{Read};
ghost use Rattle.sn_check_roots.specs.Laws.{FitWords};
ghost use Rattle.sn_check_roots.specs.Words.{HasWords};
ghost use Rattle.sn_check_roots.specs.First.{AreMarked, IsFirstOf};

use crate::laws::set_laws;
use crate::linking::link_roots;
use crate::marking::mark_roots;
use crate::words::check_map;
use sn_block::{Blocks, ReadFault};
use sn_census::Census;
use sn_check_root::root_laws;
use sn_device::Device;
use sn_layout::{Area, Geometry, RootBody, Slot};
use sn_map::Map;
use sn_marks::CheckFault;
use std::alloc::Global;

// A map without marks.
fn blank_map(alloc: Global, geometry: Geometry) -> Result<Map, CheckFault>
    ensures map { IfOk result (λ map. map ≡ replicate geometry 0) }
    ensures fault { IfErr result (λ fault. fault ≡ Read Memory) }
{
    match Map::new(alloc, geometry.blocks()) {
        Ok(map) => Ok(map),
        Err(_) => Err(CheckFault::Read(ReadFault::Memory)),
    }
}

// What the type says of words.
fn words_law(words: &[u32])
    ensures { FitWords words.now }
{}

// A table to count names in.
fn new_census(alloc: Global) -> Result<Census, CheckFault>
    ensures fault { IfErr result (λ fault. fault ≡ Read Memory) }
{
    match Census::new(alloc) {
        Ok(census) => Ok(census),
        Err(_) => Err(CheckFault::Read(ReadFault::Memory)),
    }
}

// Checks all roots but for their links, and the copy of the map. It answers what they reach.
fn check_marks<D: Device>(
    alloc: Global,
    blocks: &mut Blocks<D>,
    geometry: Geometry,
    slot: Slot,
    root: &RootBody,
) -> Result<Map, CheckFault>
    requires fits { IsRootBody root.now }
    requires room { 8 * geometry ≤ (D.status (device_of blocks.old)).sectors }
    ensures words { IsTrue D.tells_bytes → IfOk result (λ map. HasWords geometry (reads (D.disk (device_of blocks.old))) slot map) }
    ensures marked { IsTrue D.tells_bytes → IfOk result (λ map. AreMarked geometry (reads (D.disk (device_of blocks.old))) slot root.now) }
    ensures count { IfOk result (λ map. length map ≡ geometry) }
    ensures fault { IsTrue D.tells_bytes → IfErr result (λ fault. Tells fault (IsFirstOf geometry (reads (D.disk (device_of blocks.old))) slot root.now)) }
    ensures same { IsTrue D.tells_bytes → D.disk (device_of blocks.new) ≡ D.disk (device_of blocks.old) }
    ensures counts { CountsCheck result (D.status (device_of blocks.old)) (D.status (device_of blocks.new)) }
{
    // Where words are those of the marks of all roots, they say what the roots reach.
    set_laws();
    root_laws();
    let body = geometry.start(Area::RootBody(slot));
    let mut map = blank_map(alloc, geometry)?;
    mark_roots(alloc, blocks, &mut map, geometry, root, body)?;
    words_law(map.words());
    check_map(blocks, geometry, slot, &map)?;
    Ok(map)
}

/// Checks all roots of a disk, the live one and those of its snapshots: the pointers and the spelling of each,
/// then the words of the slot's copy of the map, then the names and links of each. At `Ok` they are sound, and
/// the map that is answered has the words of the copy. What is reported otherwise is so, and nothing of an earlier
/// group is. The memory for the map and for the count of names is taken here.
///
/// Proved: At `Ok` all roots of a disk, the live one and those of its snapshots, are sound, and the words of the slot's copy
/// of the map are those of what they reach; the map that is returned has those words.
/// Proved: A damage is at the block that is reported, and none of an earlier group is there: pointers and spelling come
/// before the map, and the map before names and links, each over all roots.
/// Proved: Over a device that tells its bytes nothing is written, and only its own failures are counted; over another
/// nothing is written unless the device is reported as failed.
pub fn check_roots<D: Device>(
    alloc: Global,
    blocks: &mut Blocks<D>,
    geometry: Geometry,
    slot: Slot,
    root: &RootBody,
) -> Result<Map, CheckFault>
    requires fits { IsRootBody root.now }
    requires room { 8 * geometry ≤ (D.status (device_of blocks.old)).sectors }
    ensures sound { IsTrue D.tells_bytes → IfOk result (λ map. IsSoundRoot geometry (store_of (reads (D.disk (device_of blocks.old)))) root.now
        (map_word geometry (reads (D.disk (device_of blocks.old))) slot)) }
    ensures words { IsTrue D.tells_bytes → IfOk result (λ map. HasWords geometry (reads (D.disk (device_of blocks.old))) slot map) }
    ensures count { IfOk result (λ map. length map ≡ geometry) }
    ensures fault { IsTrue D.tells_bytes → IfErr result (λ fault. Tells fault (IsFirstOf geometry (reads (D.disk (device_of blocks.old))) slot root.now)) }
    ensures same { IsTrue D.tells_bytes → D.disk (device_of blocks.new) ≡ D.disk (device_of blocks.old) }
    ensures counts { CountsCheck result (D.status (device_of blocks.old)) (D.status (device_of blocks.new)) }
{
    // A root is sound with its links, and a fault makes it unsound.
    root_laws();
    let map = check_marks(alloc, blocks, geometry, slot, root)?;
    let mut census = new_census(alloc)?;
    let body = geometry.start(Area::RootBody(slot));
    link_roots(&mut census, blocks, geometry, root, body)?;
    Ok(map)
}

//! The words of a copy of the map.
ghost use Rattle.std.specs.Prelude.{◌≡◌, ◌+◌, ◌*◌, ◌<◌, ◌≤◌, ◌^◌, ℕ, length, IsTrue, IfErr, IfNone, IfOk, IfSome, OnOk, slice_index};
ghost use Rattle.sn_device.specs.Disk.{reads};
ghost use Rattle.sn_block.specs.Counts.{CountsRead};
ghost use Rattle.sn_block.specs.Lending.{device_of};
ghost use Rattle.sn_ondisk.specs.Blocks.{block_at, numbers_in};
ghost use Rattle.sn_marks.specs.Fault.{CountsCheck, Tells};
ghost use Rattle.sn_check_roots.specs.Words.{HasOther, HasOtherWord, HasWords, IsOther};

use sn_block::{Blocks, ReadFault};
use sn_device::Device;
use sn_layout::{Area, Geometry, Slot, WORDS_PER_BLOCK, read_map_words};
use sn_map::Map;
use sn_marks::CheckFault;
use sn_model::Damage;

// The words of a block of a copy.
fn read_words<D: Device>(
    blocks: &mut Blocks<D>,
    number: u32,
) -> Result<[u32; WORDS_PER_BLOCK], ReadFault>
    requires room { 8 * number + 8 ≤ (D.status (device_of blocks.old)).sectors }
    ensures words { IsTrue D.tells_bytes → IfOk result (λ words. words
        ≡ numbers_in 1024 (block_at (reads (D.disk (device_of blocks.old))) number)) }
    ensures same { IsTrue D.tells_bytes → D.disk (device_of blocks.new) ≡ D.disk (device_of blocks.old) }
    ensures counts { CountsRead result (D.status (device_of blocks.old)) (D.status (device_of blocks.new)) }
{
    let mut words = [0; WORDS_PER_BLOCK];
    read_map_words(blocks.read_block(number)?, &mut words);
    Ok(words)
}

// The word that a block is to have: none, past the last block of the disk.
fn wanted(map: &Map, block: u32) -> u32
    ensures { result ≡ slice_index map.now block }
{
    if block >= map.len() {
        return 0;
    }
    map.word(block)
}

// The first block whose word isn't the one that it is to have. The first word is that of the block `from`.
fn first_other(words: &[u32], map: &Map, from: u32) -> Option<u32>
    requires { from + length words.now ≤ 2 ^ 32 }
    ensures none { IfNone result ((k : ℕ) → k < length words.now → slice_index words.now k ≡ slice_index map.now (from + k)) }
    ensures some { IfSome result (λ block. HasOther words.now map.now from block) }
{
    for k in 0..words.len() {
        let block = from + k as u32;
        if words[k] != wanted(map, block) {
            return Some(block);
        }
    }
    None
}

// Compares the words of one block of a copy. The first word is that of the block `from`.
fn check_words<D: Device>(
    blocks: &mut Blocks<D>,
    map: &Map,
    number: u32,
    from: u32,
) -> Result<(), CheckFault>
    requires room { 8 * number + 8 ≤ (D.status (device_of blocks.old)).sectors }
    requires from { from + 1024 ≤ 2 ^ 32 }
    ensures words { IsTrue D.tells_bytes → OnOk result ((k : ℕ) → k < 1024
        → slice_index (numbers_in 1024 (block_at (reads (D.disk (device_of blocks.old))) number)) k ≡ slice_index map.now (from + k)) }
    ensures fault { IsTrue D.tells_bytes → IfErr result (λ fault. Tells fault (IsOther
        (numbers_in 1024 (block_at (reads (D.disk (device_of blocks.old))) number)) map.now from)) }
    ensures same { IsTrue D.tells_bytes → D.disk (device_of blocks.new) ≡ D.disk (device_of blocks.old) }
    ensures counts { CountsCheck result (D.status (device_of blocks.old)) (D.status (device_of blocks.new)) }
{
    let words = read_words(blocks, number)?;
    match first_other(&words, map, from) {
        Some(block) => Err(CheckFault::Damaged {
            damage: Damage::MapWord,
            block,
        }),
        None => Ok(()),
    }
}

/// Compares each word of a slot's copy of the map with that of a map, which has a word for each block of the
/// disk. The words past the last block are to be 0. The first word that is another is reported at the block that
/// it is the word of.
///
/// Proved: At `Ok` each word of a slot's copy of the map is that of the map that is given, and 0 past the last block of the
/// disk.
/// Proved: A damage is a word that isn't that of the given map, reported at the block that the word is for.
/// Proved: Over a device that tells its bytes nothing is written, and only its own failures are counted; over another
/// nothing is written unless the device is reported as failed.
pub fn check_map<D: Device>(
    blocks: &mut Blocks<D>,
    geometry: Geometry,
    slot: Slot,
    map: &Map,
) -> Result<(), CheckFault>
    requires words { length map.now ≡ geometry }
    requires room { 8 * geometry ≤ (D.status (device_of blocks.old)).sectors }
    ensures words { IsTrue D.tells_bytes → OnOk result (HasWords geometry (reads (D.disk (device_of blocks.old))) slot map.now) }
    ensures fault { IsTrue D.tells_bytes → IfErr result (λ fault. Tells fault
        (HasOtherWord geometry (reads (D.disk (device_of blocks.old))) slot map.now)) }
    ensures same { IsTrue D.tells_bytes → D.disk (device_of blocks.new) ≡ D.disk (device_of blocks.old) }
    ensures counts { CountsCheck result (D.status (device_of blocks.old)) (D.status (device_of blocks.new)) }
{
    // It says how large a disk can be.
    geometry.blocks();
    let copy = geometry.range(Area::MapCopy(slot));
    for i in 0..geometry.map_blocks() {
        check_words(blocks, map, copy.start + i, i * WORDS_PER_BLOCK as u32)?;
    }
    Ok(())
}

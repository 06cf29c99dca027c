//! Which root and which records a disk has.

use crate::bytes::{BLOCK, are_zeros, block_of, number_at, part};
use crate::geometry::{Geometry, Slot};
use sn_testing_reading::{Ending, Records};

/// The bytes of a half.
const HALF: usize = 131_072;

/// The largest generation and epoch.
const LARGEST_AGE: u64 = 1 << 62;

/// The most snapshots, and the largest bit of one.
const SNAPSHOTS: u64 = 31;

/// A root with all that it reaches, and the records on top of it.
#[derive(Clone, Copy)]
pub struct Standing<'a> {
    /// A disk on which the root and its blocks stand, at their places.
    pub like: &'a [u8],
    pub slot: Slot,
    /// The payloads of the records of its epoch.
    pub older: &'a [Vec<u8>],
    /// And of the next one.
    pub newer: &'a [Vec<u8>],
}

/// What a slot has.
#[derive(Clone, Copy)]
enum Held {
    Closed,
    Misspelt,
    /// A root of this generation.
    Root(u64),
}

/// Whether a disk has this root as the newest one, its body, its map copy and all blocks that it reaches as they are
/// to be, and exactly these records. Blocks that are told as not written are taken to be as they were, so that few
/// bytes are read where one disk is looked at again and again; where nothing is told of a block, it is read.
pub fn stands(disk: &[u8], wanted: &Standing<'_>, written: &[bool]) -> bool {
    let geometry = Geometry::read(wanted.like);
    let epoch = number_at(wanted.like, wanted.slot.body().saturating_add(16), 8);
    let next = epoch.wrapping_add(1);
    newest(disk, written) == Some(wanted.slot)
        && has_records(disk, geometry.half(epoch), epoch, wanted.older)
        && has_records(disk, geometry.half(next), next, wanted.newer)
        && is_root_kept(disk, wanted, written)
}

/// The slot of the root that counts, or none where none does or an open one is damaged.
fn newest(disk: &[u8], written: &[bool]) -> Option<Slot> {
    match (
        read_slot(disk, Slot::A, written),
        read_slot(disk, Slot::B, written),
    ) {
        (Held::Root(_), Held::Closed) => Some(Slot::A),
        (Held::Closed, Held::Root(_)) => Some(Slot::B),
        (Held::Root(a), Held::Root(b)) if a > b => Some(Slot::A),
        (Held::Root(a), Held::Root(b)) if a < b => Some(Slot::B),
        _ => None,
    }
}

fn read_slot(disk: &[u8], slot: Slot, written: &[bool]) -> Held {
    if number_at(disk, slot.gate(), 1) != 1 {
        return Held::Closed;
    }
    let body = part(disk, slot.body(), BLOCK);
    if !is_written(written, (slot.body() / BLOCK) as u64) || is_root_body(body) {
        Held::Root(number_at(body, 8, 8))
    } else {
        Held::Misspelt
    }
}

fn is_age(age: u64) -> bool {
    age >= 1 && age <= LARGEST_AGE
}

/// Whether a block spells a root body. That no two of its snapshots have one name isn't looked at.
fn is_root_body(body: &[u8]) -> bool {
    let count = number_at(body, 24, 4);
    number_at(body, 0, 4) == 2
        && are_zeros(part(body, 4, 4))
        && is_age(number_at(body, 8, 8))
        && is_age(number_at(body, 16, 8))
        && count <= SNAPSHOTS
        && are_zeros(part(body, 28, 4))
        && are_zeros(part(body, 104, 520))
        && are_snapshots(part(body, 624, 3472), count as usize)
}

fn are_snapshots(list: &[u8], count: usize) -> bool {
    let mut before = 0;
    for (i, snapshot) in list.chunks_exact(112).enumerate() {
        let bit = number_at(snapshot, 0, 1);
        if i >= count {
            if !are_zeros(snapshot) {
                return false;
            }
        } else if bit <= before || bit > SNAPSHOTS || !is_name(part(snapshot, 1, 39)) {
            return false;
        } else {
            before = bit;
        }
    }
    true
}

/// Whether a length and the bytes behind it are a name and zeros.
fn is_name(field: &[u8]) -> bool {
    let length = number_at(field, 0, 1) as usize;
    let name = part(field, 1, length);
    length >= 1
        && length <= 31
        && name != b".".as_slice()
        && name != b"..".as_slice()
        && name.iter().all(|byte| is_name_byte(*byte))
        && are_zeros(part(field, length.saturating_add(1), 38 - length.min(38)))
}

fn is_name_byte(byte: u8) -> bool {
    byte.is_ascii_alphanumeric() || matches!(byte, b'.' | b'_' | b'-')
}

/// Whether a block may have been written.
fn is_written(written: &[bool], number: u64) -> bool {
    match written.get(number as usize) {
        Some(is_written) => *is_written,
        None => true,
    }
}

fn is_root_kept(disk: &[u8], wanted: &Standing<'_>, written: &[bool]) -> bool {
    let (like, slot) = (wanted.like, wanted.slot);
    let geometry = Geometry::read(like);
    let body = part(like, slot.body(), BLOCK);
    let map = (geometry.map(slot) / BLOCK) as u64;
    let blocks = Blocks {
        disk,
        like,
        written,
    };
    blocks.is_kept((slot.body() / BLOCK) as u64)
        && (0..geometry.map_blocks()).all(|i| blocks.is_kept(map.saturating_add(i)))
        && blocks.is_tree_kept(part(body, 32, 72))
        && blocks.are_frozen_kept(body)
}

/// The blocks of a disk, beside those of another one.
#[derive(Clone, Copy)]
struct Blocks<'a> {
    disk: &'a [u8],
    like: &'a [u8],
    written: &'a [bool],
}

impl Blocks<'_> {
    /// Whether a block is on both disks the same. There is no block behind a pointer 0.
    fn is_kept(&self, number: u64) -> bool {
        number == 0
            || !is_written(self.written, number)
            || block_of(self.disk, number) == block_of(self.like, number)
    }

    /// Whether those are that some pointers name.
    fn are_kept(&self, pointers: &[u8]) -> bool {
        for pointer in pointers.chunks_exact(4) {
            if !self.is_kept(number_at(pointer, 0, 4)) {
                return false;
            }
        }
        true
    }

    /// The same of a tree without an indirect block, or with one level of them.
    fn is_tree_kept(&self, root: &[u8]) -> bool {
        let pointers = part(root, 8, 64);
        self.are_kept(pointers)
            && (number_at(root, 0, 8) <= 65_536 || self.are_children_kept(pointers))
    }

    /// The same of the blocks that indirect blocks name.
    fn are_children_kept(&self, pointers: &[u8]) -> bool {
        for pointer in pointers.chunks_exact(4) {
            let number = number_at(pointer, 0, 4);
            if number != 0 && !self.are_kept(block_of(self.like, number)) {
                return false;
            }
        }
        true
    }

    /// The same of the trees of a root body's snapshots.
    fn are_frozen_kept(&self, body: &[u8]) -> bool {
        let count = number_at(body, 24, 4) as usize;
        for snapshot in part(body, 624, 3472).chunks_exact(112).take(count) {
            if !self.is_tree_kept(part(snapshot, 40, 72)) {
                return false;
            }
        }
        true
    }
}

/// Whether the records of an epoch are those with these payloads.
fn has_records(disk: &[u8], half: usize, epoch: u64, payloads: &[Vec<u8>]) -> bool {
    let mut records = Records::new(part(disk, half, HALF), epoch);
    for payload in payloads {
        match records.read_next() {
            Ok(found) if found == payload.as_slice() => {}
            _ => return false,
        }
    }
    match records.read_next() {
        Ok(_) => false,
        Err(ending) => matches!(ending, Ending::Closed | Ending::Last | Ending::OtherEpoch),
    }
}

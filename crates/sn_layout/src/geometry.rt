//! | blocks of a disk of N, with M = (N + 1023) / 1024 rounded down | content |
//! |---|---|
//! | 0 | superblock |
//! | 1, 2 | root bodies of slot A and slot B |
//! | 3 | gates: sector 24 of slot A, sector 25 of slot B |
//! | 4 to 3 + M | map copy of slot A |
//! | 4 + M to 3 + 2M | map copy of slot B |
//! | 4 + 2M to 35 + 2M | log half 0 |
//! | 36 + 2M to 67 + 2M | log half 1 |
//! | 68 + 2M to N - 1 | data area |
ghost use Rattle.std.specs.Prelude.{◌≡◌, ℕ, ◌+◌, ◌*◌, ◌<◌, ◌≤◌, ◌↔◌, IsSome, IfSome, IsTrue};
ghost use Rattle.sn_layout.specs.Geometry.{IsDiskSize};

use crate::{SECTORS_PER_BLOCK, WORDS_PER_BLOCK};
use std::marker::Model;
use std::ops::Range;

/// The fewest blocks of a disk.
pub const SMALLEST_DISK: u32 = 256;

/// The most blocks of a disk.
pub const LARGEST_DISK: u32 = 1_048_576;

/// The blocks of a log half.
const LOG_HALF_BLOCKS: u32 = 32;

/// Which of the two roots.
#[derive(Clone, Copy, PartialEq, Eq, Hash)]
pub enum Slot {
    A,
    B,
}

impl Slot {
    ghost use Rattle.sn_layout.specs.Geometry.{other_slot};

    /// The slot that this one isn't.
    pub fn other(self) -> Self
        ensures { result ≡ other_slot self }
    {
        match self {
            Slot::A => Slot::B,
            Slot::B => Slot::A,
        }
    }
}

/// Which half of the log.
#[derive(Clone, Copy, PartialEq, Eq, Hash)]
pub enum LogHalf {
    Zero,
    One,
}

impl LogHalf {
    ghost use Rattle.sn_layout.specs.Geometry.{half_of_epoch};

    /// The half that the records of an epoch are in: those of even epochs in half 0.
    pub fn of_epoch(epoch: u64) -> Self
        ensures { result ≡ half_of_epoch epoch }
    {
        if epoch.is_multiple_of(2) {
            LogHalf::Zero
        } else {
            LogHalf::One
        }
    }
}

/// A part of the disk.
#[derive(Clone, Copy, PartialEq, Eq, Hash)]
pub enum Area {
    Superblock,
    RootBody(Slot),
    /// One sector for each slot, of which the first byte alone is read.
    Gates,
    MapCopy(Slot),
    Log(LogHalf),
    Data,
}

/// Where things lie on a disk of so many blocks.
///
/// Proved, also of `Geometry::area_of`: Each block of a disk of 256 to 1,048,576 blocks is in exactly one area.
#[derive(Clone, Copy, PartialEq, Eq, Hash)]
pub struct Geometry {
    blocks: u32,
}

impl Model for Geometry {
    ghost use Rattle.std.specs.Prelude.{ℕ};
    ghost use Rattle.sn_layout.specs.Geometry.{IsDiskSize};

    ghost Value = { ℕ };

    ghost view = { λ p. p.blocks };

    ghost invariant = { λ p. IsDiskSize p.blocks };

    ghost inverse = { λ n. record { blocks = n } };
}

impl Geometry {
    ghost use Rattle.sn_layout.specs.Geometry.{IsDiskSize, IsIn, start_of, end_of, map_blocks, gate_sector};
    ghost use Rattle.sn_layout.specs.declared.geometry.Area.TheVariants.{Data};
    ghost use Rattle.sn_layout.specs.declared.geometry.Area.{Area as AnArea};

    /// `None` for a number of blocks that no disk has.
    pub fn new(blocks: u32) -> Option<Self>
        ensures valid { IsSome result ↔ IsDiskSize blocks }
        ensures value { IfSome result (λ geometry. geometry ≡ blocks) }
    {
        if blocks >= SMALLEST_DISK && blocks <= LARGEST_DISK {
            Some(Geometry { blocks })
        } else {
            None
        }
    }

    /// How many blocks the disk has.
    pub fn blocks(self) -> u32
        ensures blocks { result ≡ self }
        ensures valid { IsDiskSize self }
    {
        self.blocks
    }

    /// How many blocks a copy of the map takes.
    pub fn map_blocks(self) -> u32
        ensures { result ≡ map_blocks self }
    {
        self.blocks.div_ceil(WORDS_PER_BLOCK as u32)
    }

    /// The first block of an area.
    pub fn start(self, area: Area) -> u32
        ensures { result ≡ start_of self area }
    {
        let map = self.map_blocks();
        match area {
            Area::Superblock => 0,
            Area::RootBody(Slot::A) => 1,
            Area::RootBody(Slot::B) => 2,
            Area::Gates => 3,
            Area::MapCopy(Slot::A) => 4,
            Area::MapCopy(Slot::B) => 4 + map,
            Area::Log(LogHalf::Zero) => 4 + 2 * map,
            Area::Log(LogHalf::One) => 4 + LOG_HALF_BLOCKS + 2 * map,
            Area::Data => 4 + 2 * LOG_HALF_BLOCKS + 2 * map,
        }
    }

    /// The sector of a slot's gate, the same on each disk.
    pub fn gate(slot: Slot) -> u64
        ensures { result ≡ gate_sector slot }
    {
        match slot {
            Slot::A => 24,
            Slot::B => 25,
        }
    }

    /// The first sector of an area.
    pub fn first_sector(self, area: Area) -> u64
        ensures { result ≡ 8 * start_of self area }
    {
        SECTORS_PER_BLOCK * u64::from(self.start(area))
    }

    /// Whether a pointer, which may be any number, names a block of the data area.
    pub fn is_data(self, pointer: u32) -> bool
        ensures { IsTrue result ↔ IsIn self Data pointer }
    {
        self.start(Area::Data) <= pointer && pointer < self.blocks
    }

    /// The blocks of an area.
    pub fn range(self, area: Area) -> Range<u32>
        ensures start { result.start ≡ start_of self area }
        ensures end { result.end ≡ end_of self area }
        ensures within { (start_of self area < end_of self area) × (end_of self area ≤ self) }
    {
        let start = self.start(area);
        let end = match area {
            Area::Superblock | Area::RootBody(_) | Area::Gates => start + 1,
            Area::MapCopy(_) => start + self.map_blocks(),
            Area::Log(_) => start + LOG_HALF_BLOCKS,
            Area::Data => self.blocks,
        };
        start..end
    }

    /// The area that a block is in. Each block is in exactly one.
    pub fn area_of(self, block: u32) -> Area
        requires { block < self }
        ensures within { IsIn self result block }
        ensures only { (area : AnArea) → IsIn self area block → area ≡ result }
    {
        let map = self.map_blocks();
        match block {
            0 => Area::Superblock,
            1 => Area::RootBody(Slot::A),
            2 => Area::RootBody(Slot::B),
            3 => Area::Gates,
            _ => {
                let past = block - 4;
                if past < map {
                    Area::MapCopy(Slot::A)
                } else if past < 2 * map {
                    Area::MapCopy(Slot::B)
                } else if past < 2 * map + LOG_HALF_BLOCKS {
                    Area::Log(LogHalf::Zero)
                } else if past < 2 * map + 2 * LOG_HALF_BLOCKS {
                    Area::Log(LogHalf::One)
                } else {
                    Area::Data
                }
            }
        }
    }
}

//! Where the areas of a disk lie.
ghost use Rattle.std.specs.Prelude.{◌≤◌};

use crate::bytes::{BLOCK, SECTOR, number_at, start_of};

/// Which of the two roots.
#[derive(Clone, Copy, PartialEq, Eq)]
pub enum Slot {
    A,
    B,
}

impl Slot {
    /// The slot whose root a point replaces, where this one has the newest.
    pub fn other(self) -> Slot {
        match self {
            Slot::A => Slot::B,
            Slot::B => Slot::A,
        }
    }

    /// Where its body begins.
    pub fn body(self) -> usize {
        match self {
            Slot::A => BLOCK,
            Slot::B => 2 * BLOCK,
        }
    }

    /// Where its gate begins.
    pub fn gate(self) -> usize {
        match self {
            Slot::A => 24 * SECTOR,
            Slot::B => 25 * SECTOR,
        }
    }
}

/// How large a disk is, and so where its areas lie.
#[derive(Clone, Copy)]
pub struct Geometry {
    blocks: u64,
}

impl Geometry {
    /// Of a disk of so many blocks.
    pub fn new(blocks: u32) -> Geometry {
        Geometry {
            blocks: u64::from(blocks),
        }
    }

    /// Of the disk with these bytes, as its superblock says.
    pub fn read(disk: &[u8]) -> Geometry {
        Geometry {
            blocks: number_at(disk, 8, 4),
        }
    }

    /// How many blocks it has, no more than a disk can have.
    pub fn blocks(self) -> u64
        ensures { result ≤ 1048576 }
    {
        self.blocks.min(1_048_576)
    }

    /// The blocks of a copy of the map.
    pub fn map_blocks(self) -> u64
        ensures { result ≤ 1024 }
    {
        self.blocks().div_ceil(1024)
    }

    /// The bytes of a copy of the map.
    pub fn map_size(self) -> usize {
        start_of(self.map_blocks())
    }

    /// Where the map copy of a slot begins.
    pub fn map(self, slot: Slot) -> usize {
        match slot {
            Slot::A => start_of(4),
            Slot::B => start_of(4 + self.map_blocks()),
        }
    }

    /// Where the half of an epoch begins.
    pub fn half(self, epoch: u64) -> usize {
        let halves = 4 + 2 * self.map_blocks();
        if epoch % 2 == 0 {
            start_of(halves)
        } else {
            start_of(halves + 32)
        }
    }

    /// The first block of the data area.
    pub fn data(self) -> u64 {
        68 + 2 * self.map_blocks()
    }
}

//! Places of the log.
ghost use Rattle.std.specs.Prelude.{◌≡◌, ◌+◌, ◌*◌, ◌/◌, ◌≤◌, ◌<◌, ◌↔◌, IsTrue};
ghost use Rattle.sn_log.specs.Positions.{first_of, base_at};

use crate::sectors::first_block;
use sn_layout::{Geometry, LogHalf};
use std::marker::Model;

/// The last place at which a record has room.
pub(crate) const LAST_GATE: u64 = 253;

/// The last place of a half: the last record ends before it, and its gate is the last one.
pub(crate) const LAST_PLACE: u64 = 255;

/// Where in the log reading or appending continues: on which disk, in the half of which epoch, at which
/// sector of that half, and after how many records.
#[derive(Clone, Copy, PartialEq, Eq)]
pub struct Position {
    geometry: Geometry,
    epoch: u64,
    place: u64,
    count: u32,
}

impl Model for Position {
    ghost use Rattle.std.specs.Prelude.{◌≤◌};
    ghost use Rattle.sn_log.specs.Positions.{LogPosition};

    ghost Value = { LogPosition };

    ghost view = { λ p. record { blocks = p.geometry; epoch = p.epoch; place = p.place; count = p.count } };

    ghost invariant = { λ p. (p.place ≤ 255) × (p.count ≤ p.place) };

    ghost inverse = { λ p. record { geometry = p.blocks; epoch = p.epoch; place = p.place; count = p.count } };
}

impl Position {
    /// The first place of an epoch.
    pub fn first(geometry: Geometry, epoch: u64) -> Self
        ensures { result ≡ first_of geometry epoch }
    {
        Position {
            geometry,
            epoch,
            place: 0,
            count: 0,
        }
    }

    /// The geometry of the disk.
    pub fn geometry(self) -> Geometry
        ensures { result ≡ self.blocks }
    {
        self.geometry
    }

    /// How many blocks the disk has.
    pub fn blocks(self) -> u32
        ensures { result ≡ self.blocks }
    {
        self.geometry.blocks()
    }

    /// The epoch whose records are read or appended.
    pub fn epoch(self) -> u64
        ensures { result ≡ self.epoch }
    {
        self.epoch
    }

    /// The sector of the half, 0 to 255, at which the next gate is.
    pub fn place(self) -> u64
        ensures value { result ≡ self.place }
        ensures within { result ≤ LAST_PLACE }
    {
        self.place
    }

    /// How many records are before it in the half.
    pub fn count(self) -> u32
        ensures { result ≡ self.count }
    {
        self.count
    }

    /// The first place of another epoch on this disk.
    pub(crate) fn at_epoch(self, epoch: u64) -> Self
        ensures { result ≡ first_of self.blocks epoch }
    {
        Position::first(self.geometry, epoch)
    }

    /// The first block of the half.
    pub(crate) fn start(self) -> u32
        ensures start { 8 * result ≡ base_at self }
        ensures within { 8 * result + 256 ≤ 8 * self.blocks }
        ensures few { result < 1048576 }
    {
        first_block(self.geometry, LogHalf::of_epoch(self.epoch))
    }

    /// The block of the gate.
    pub fn block(self) -> u32
        ensures { result ≡ (base_at self + self.place) / 8 }
    {
        self.start() + (self.place / 8) as u32
    }

    /// Whether a body of so many sectors has room, with the gate after it.
    pub(crate) fn has_room(self, sectors: u64) -> bool
        requires { sectors ≤ 1000 }
        ensures { IsTrue result ↔ (self.place + sectors + 1 ≤ 255) }
    {
        self.place + sectors < LAST_PLACE
    }

    /// The position after a body of so many sectors.
    pub(crate) fn behind(self, sectors: u64) -> Self
        requires { self.place + sectors + 1 ≤ 255 }
        ensures { result ≡ record self { place = self.place + sectors + 1; count = self.count + 1 } }
    {
        Position {
            geometry: self.geometry,
            epoch: self.epoch,
            place: self.place + sectors + 1,
            count: self.count + 1,
        }
    }
}

//! Sectors that were written one after the other and are to go to the file in one call.
ghost use Rattle.std.specs.Prelude.{◌≡◌, ◌≢◌, ◌+◌, ◌*◌, ◌/◌, ◌%◌, ◌<◌, ◌≤◌, ◌^◌, [], ◌++◌, IsTrue, IfOk, OnOk, OnErr, ◌↔◌, length};

use sn_device::{SECTOR_SIZE, Sector};
use std::alloc::{AllocError, Global};

/// At most so many bytes go to the file in one call.
const ROOM: usize = 65536;

#[derive(Drop)]
pub struct Gathered {
    /// The first of the sectors, and their bytes.
    pub first: u64,
    pub bytes: Vec<u8>,
    ghost within: { first * 512 + length bytes.items < 2 ^ 64 },
    ghost whole: { length bytes.items % 512 ≡ 0 },
}

impl Gathered {
    /// Nothing is gathered. The memory for all that may be is taken here.
    pub fn new(alloc: Global) -> Result<Self, AllocError>
        ensures { IfOk result (λ g. g.bytes.items ≡ []) }
    {
        Ok(Gathered {
            first: 0,
            bytes: Vec::with_capacity(alloc, ROOM)?,
        })
    }

    /// Whether nothing is gathered.
    pub fn is_empty(&self) -> bool
        ensures { IsTrue result ↔ (self.now.bytes.items ≡ []) }
    {
        self.bytes.is_empty()
    }

    /// Whether this sector is the next one, and has room.
    pub fn is_followed_by(&self, at: u64) -> bool
        ensures { IsTrue result ↔ ((self.now.first + length self.now.bytes.items / 512 ≡ at)
            × (length self.now.bytes.items < ROOM)) }
    {
        self.bytes.len() < ROOM && self.first + self.sectors() == at
    }

    /// Whether one of the sectors from one up to another is among them.
    pub fn overlaps(&self, from: u64, to: u64) -> bool
        ensures { IsTrue result ↔ ((self.now.first < to)
            × (from < self.now.first + length self.now.bytes.items / 512)) }
    {
        self.first < to && from < self.first + self.sectors()
    }

    /// Begins with this sector.
    pub fn begin(&mut self, at: u64, sector: &Sector) -> Result<(), AllocError>
        requires { at * 512 + 512 < 2 ^ 64 }
        ensures ok { OnOk result ((self.new.first ≡ at) × (self.new.bytes.items ≡ sector.now)) }
        ensures err { OnErr result (self.new.bytes.items ≡ []) }
    {
        self.clear();
        self.first = at;
        self.push(sector)
    }

    /// Adds the sector that follows.
    pub fn push(&mut self, sector: &Sector) -> Result<(), AllocError>
        requires { self.old.first * 512 + length self.old.bytes.items + 512 < 2 ^ 64 }
        ensures first { self.new.first ≡ self.old.first }
        ensures ok { OnOk result (self.new.bytes.items ≡ self.old.bytes.items ++ sector.now) }
        ensures err { OnErr result (self.new.bytes.items ≡ self.old.bytes.items) }
    {
        self.bytes.extend_from_slice(sector)
    }

    /// Where they are in the file.
    pub fn offset(&self) -> u64
        ensures { result ≡ self.now.first * 512 }
    {
        self.first * SECTOR_SIZE as u64
    }

    /// Forgets what was gathered.
    pub fn clear(&mut self)
        ensures first { self.new.first ≡ self.old.first }
        ensures bytes { self.new.bytes.items ≡ [] }
    {
        self.bytes.clear();
    }

    fn sectors(&self) -> u64
        ensures { result ≡ length self.now.bytes.items / 512 }
    {
        (self.bytes.len() / SECTOR_SIZE) as u64
    }
}

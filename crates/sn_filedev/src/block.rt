//! The block that was read last.
ghost use Rattle.std.specs.Prelude.{◌≡◌, ◌≤◌, ◌<◌, ◌*◌, ◌+◌, ◌^◌, IsTrue, ◌↔◌, OnOk, OnErr, None, Some, slice_range};

use sn_device::{SECTOR_SIZE, Sector};
use std::io;
use std::os::unix::fs::FileExt;

#[derive(Drop)]
pub struct LastBlock {
    /// Which block of the file it is, if it is one.
    pub number: Option<u64>,
    pub bytes: [u8; 4096],
}

impl LastBlock {
    /// Holds no block yet.
    pub fn new() -> Self
        ensures { result.number ≡ None }
    {
        LastBlock {
            number: None,
            bytes: [0; 4096],
        }
    }

    /// Whether it holds the block with this number.
    pub fn is(&self, number: u64) -> bool
        ensures { IsTrue result ↔ (self.now.number ≡ Some number) }
    {
        self.number == Some(number)
    }

    /// It is no block from now on, as where a sector of it is to change in the file.
    pub fn forget(&mut self)
        ensures { self.new.number ≡ None }
    {
        self.number = None;
    }

    /// Reads a block, of which the file has so many sectors. At an error it is none.
    pub fn read<F: FileExt>(&mut self, file: &F, number: u64, sectors: u64) -> io::Result<()>
        requires some { sectors ≤ 8 }
        requires place { number * 4096 < 2 ^ 64 }
        ensures ok { OnOk result (self.new.number ≡ Some number) }
        ensures err { OnErr result (self.new.number ≡ None) }
    {
        self.forget();
        let bytes = &mut self.bytes[..sectors as usize * SECTOR_SIZE];
        file.read_exact_at(bytes, number * 4096)?;
        self.number = Some(number);
        Ok(())
    }

    /// Copies out one of the eight sectors.
    pub fn copy_to(&self, index: u64, sector: &mut Sector)
        requires { index < 8 }
        ensures { sector.new ≡ slice_range self.now.bytes (512 * index) (512 * index + 512) }
    {
        let start = SECTOR_SIZE * index as usize;
        sector.copy_from_slice(&self.bytes[start..start + SECTOR_SIZE]);
    }
}

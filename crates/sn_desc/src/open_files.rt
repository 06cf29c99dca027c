ghost use Rattle.std.specs.Prelude.{◌≡◌, ◌-◌, ◌<◌, ◌≤◌, ◌↔◌, ℕ, IsTrue, replicate, slice_index_or, slice_set, option_copied, count_by, None, Some, IsOk, IfOk, OnOk};
ghost use Rattle.std.specs.Option.{option_map};
ghost use Rattle.sn_desc.specs.Holders.{IsCounted, is_live_file, live_seats};
ghost use Rattle.sn_desc.specs.Files.{files_at, with_offset};

use crate::holders;
use crate::open_file::OpenFile;
use crate::seats::Seats;
use sn_walk::Home;
use std::alloc::{AllocError, Global};

/// How many seats there are.
pub(crate) const SEATS: usize = 4096;

/// How many numbers a file can have.
const NUMBERS: usize = 65_536;

/// Open files by their seats, with how many there are of each live file.
#[derive(Drop)]
pub(crate) struct OpenFiles {
    seats: Seats,
    holders: Vec<u16>,
    /// How many seats have a file of the live tree.
    live: u16,
    ghost counted: { IsCounted (files_at seats) holders.items },
    ghost live_counted: { live ≡ live_seats (files_at seats) },
}

impl OpenFiles {
    ghost use Rattle.sn_desc.specs.OpenFiles.{files_of, room_of, released_file, IsOpenIn};

    /// Nothing is open. The memory for all counts is taken here.
    pub fn new(alloc: Global) -> Result<OpenFiles, AllocError>
        ensures files { IfOk result (λ f. files_of f ≡ replicate 4096 None) }
    {
        Ok(OpenFiles {
            seats: Seats::new(alloc, SEATS)?,
            holders: vec![in alloc; 0; NUMBERS]?,
            live: 0,
        })
    }

    /// The file that is open at a seat; `None` also past the last seat.
    pub fn get(&self, seat: usize) -> Option<&OpenFile>
        ensures { option_copied result ≡ slice_index_or (files_of self.now) seat None }
    {
        self.seats.get(seat)
    }

    /// Whether a file of this tree is open at a seat.
    fn is_open_in(&self, home: &Home, seat: usize) -> bool
        ensures { IsTrue result ↔ IsOpenIn home.now (slice_index_or (files_of self.now) seat None) }
    {
        match self.get(seat) {
            Some(file) => file.is_in(home),
            None => false,
        }
    }

    /// Whether a file of this tree is open at any seat. It passes over the seats once.
    pub fn has_open(&self, home: &Home) -> bool
        ensures { IsTrue result ↔ ((seat : ℕ) × IsOpenIn home.now (slice_index_or (files_of self.now) seat None)) }
    {
        for seat in 0..SEATS {
            if self.is_open_in(home, seat) {
                return true;
            }
        }
        false
    }

    /// How many descriptors have the live file with this number.
    pub fn holders(&self, number: u16) -> u16
        ensures { result ≡ count_by (is_live_file number) (files_of self.now) }
    {
        self.holders[number as usize]
    }

    /// How many seats have a file of the live tree.
    pub fn live(&self) -> u16
        ensures { result ≡ live_seats (files_of self.now) }
    {
        self.live
    }

    /// The live file that was closed, where no descriptor has it any more.
    fn released(&self, file: &OpenFile) -> Option<u16>
        ensures { result ≡ released_file (files_of self.now) (Some file.now) }
    {
        match file.home {
            Home::Live if self.holders(file.number) == 0 => Some(file.number),
            _ => None,
        }
    }

    /// Makes room for one more file. Where memory is refused nothing changes.
    pub fn reserve(&mut self) -> Result<(), AllocError>
        ensures ok { OnOk result (0 < room_of self.new) }
        ensures files { files_of self.new ≡ files_of self.old }
        ensures room { room_of self.old ≤ room_of self.new }
        ensures there_already { 0 < room_of self.old → IsOk result }
    {
        self.seats.reserve()
    }

    /// Opens a file at a seat that has none.
    pub fn open(&mut self, seat: usize, file: OpenFile)
        requires within { seat < 4096 }
        requires vacant { slice_index_or (files_of self.old) seat None ≡ None }
        requires room { 0 < room_of self.old }
        ensures files { files_of self.new ≡ slice_set (files_of self.old) seat (Some file) }
        ensures room { room_of self.new ≡ room_of self.old - 1 }
    {
        holders::add(self.holders.as_mut_slice(), &file);
        self.live += holders::live(&file);
        self.seats.put(seat, file);
    }

    /// Closes what is at a seat, and returns the live file whose last descriptor this was.
    pub fn close(&mut self, seat: usize) -> Option<u16>
        ensures files { files_of self.new ≡ slice_set (files_of self.old) seat None }
        ensures released { result ≡ released_file (files_of self.new) (slice_index_or (files_of self.old) seat None) }
        ensures room { room_of self.old ≤ room_of self.new }
    {
        let file = self.seats.take(seat)?;
        holders::remove(self.holders.as_mut_slice(), &file);
        self.live -= holders::live(&file);
        self.released(&file)
    }

    /// Moves the offset of what is open at a seat, if anything is.
    pub fn set_offset(&mut self, seat: usize, offset: u64)
        ensures files { files_of self.new ≡ slice_set (files_of self.old) seat (option_map (with_offset offset) (slice_index_or (files_of self.old) seat None)) }
        ensures room { room_of self.new ≡ room_of self.old }
    {
        self.seats.set_offset(seat, offset)
    }
}

ghost use Rattle.std.specs.Prelude.{◌≡◌, ◌≢◌, ◌+◌, ◌-◌, ◌<◌, ◌≤◌, replicate, length, slice_index_or, slice_set, option_copied, None, Some, IsOk, IfOk, OnOk};
ghost use Rattle.std.specs.Option.{option_map};
ghost use Rattle.sn_desc.specs.Seats.{IsSeatd};

use crate::open_file::OpenFile;
use slab::Slab;
use std::alloc::{AllocError, Global};

/// Open files by their seats.
#[derive(Drop)]
pub(crate) struct Seats {
    keys: Vec<Option<usize>>,
    files: Slab<OpenFile>,
    ghost seated: { IsSeatd files keys.items },
}

impl Seats {
    ghost use Rattle.sn_desc.specs.Files.{files_at, with_offset, room_at};

    /// So many seats, with nothing open.
    pub fn new(alloc: Global, count: usize) -> Result<Seats, AllocError>
        ensures files { IfOk result (λ p. files_at p ≡ replicate count None) }
    {
        Ok(Seats {
            keys: vec![in alloc; None; count]?,
            files: Slab::new(alloc),
        })
    }

    /// The key of what is at a seat.
    fn key(&self, seat: usize) -> Option<usize>
        ensures { result ≡ slice_index_or self.now.keys.items seat None }
    {
        match self.keys.get(seat) {
            Some(key) => *key,
            None => None,
        }
    }

    /// The file that is open at a seat; `None` also past the last seat.
    pub fn get(&self, seat: usize) -> Option<&OpenFile>
        ensures { option_copied result ≡ slice_index_or (files_at self.now) seat None }
    {
        match self.key(seat) {
            Some(key) => self.files.get(key),
            None => None,
        }
    }

    /// Makes room for one more file. Where memory is refused nothing changes.
    pub fn reserve(&mut self) -> Result<(), AllocError>
        ensures ok { OnOk result (0 < room_at self.new) }
        ensures files { files_at self.new ≡ files_at self.old }
        ensures room { room_at self.old ≤ room_at self.new }
        ensures there_already { 0 < room_at self.old → IsOk result }
    {
        self.files.reserve(1)
    }

    /// Puts a file at a seat that has none.
    pub fn put(&mut self, seat: usize, file: OpenFile)
        requires within { seat < length (files_at self.old) }
        requires vacant { slice_index_or (files_at self.old) seat None ≡ None }
        requires room { 0 < room_at self.old }
        ensures files { files_at self.new ≡ slice_set (files_at self.old) seat (Some file) }
        ensures room { room_at self.new ≡ room_at self.old - 1 }
    {
        let key = self.files.insert_reserved(file);
        self.keys[seat] = Some(key);
    }

    /// Takes away what is at a seat.
    pub fn take(&mut self, seat: usize) -> Option<OpenFile>
        ensures value { result ≡ slice_index_or (files_at self.old) seat None }
        ensures files { files_at self.new ≡ slice_set (files_at self.old) seat None }
        ensures room { room_at self.old ≤ room_at self.new }
    {
        let key = self.key(seat)?;
        self.keys[seat] = None;
        self.files.try_remove(key)
    }

    /// Sets the offset of the file at a seat, if there is one.
    pub fn set_offset(&mut self, seat: usize, offset: u64)
        ensures files { files_at self.new ≡ slice_set (files_at self.old) seat (option_map (with_offset offset) (slice_index_or (files_at self.old) seat None)) }
        ensures room { room_at self.new ≡ room_at self.old }
    {
        let Some(key) = self.key(seat) else {
            return;
        };
        if let Some(file) = self.files.get_mut(key) {
            file.offset = offset;
        }
    }
}

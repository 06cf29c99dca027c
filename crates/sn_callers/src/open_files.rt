//! The open files of a mount, by their handles.
ghost use Rattle.std.specs.Prelude.{◌≡◌, ◌<◌, None, Some, is_none, IfOk, IfSome, OnSome, length, position, replicate, slice_set};
ghost use Rattle.sn_callers.specs.Files.{file_at};

use std::alloc::{AllocError, Global};
use std::marker::Model;

/// How many files can be open at once: 64 in each session but that of who asks.
pub const FILES_MAX: usize = 4032;

/// What a handle stands for.
#[derive(Clone, Copy, PartialEq, Eq, Debug)]
pub struct OpenFile {
    /// The descriptor, of the session that the handle has ([`session_of`](crate::session_of)).
    pub descriptor: u32,
    /// The id of the file's node.
    pub node: u64,
}

fn first_vacant(places: &[Option<OpenFile>]) -> Option<usize>
    ensures first { result ≡ position is_none places.now }
    ensures within { IfSome result (λ place. place < length places.now) }
{
    places.iter().position(|file| file.is_none())
}

/// The open files of a mount: a list of 4,032 places, which handles number from 0, each with an open file or with none.
#[derive(Drop)]
pub struct OpenFiles {
    places: Vec<Option<OpenFile>>,
}

impl Model for OpenFiles {
    ghost use Rattle.std.specs.Prelude.{◌≡◌, List, Option, vec_len};
    ghost use Rattle.sn_callers.specs.declared.open_files.OpenFile.{OpenFile};

    ghost Value = { List (Option OpenFile) };

    ghost view = { λ files. files.places.items };

    ghost invariant = { λ files. vec_len files.places ≡ 4032 };
}

impl OpenFiles {
    /// A table with no file open. It takes all the memory that the table ever has.
    pub fn new(alloc: Global) -> Result<OpenFiles, AllocError>
        ensures { IfOk result (λ files. files ≡ replicate 4032 None) }
    {
        Ok(OpenFiles {
            places: vec![in alloc; None; FILES_MAX]?,
        })
    }

    /// The handle that the next file gets: the least one that no file has. `None` where 4,032 files are open (`ENFILE`).
    ///
    /// Proved: A file that is opened gets the least handle that no other has, and is refused exactly where 4,032 are open.
    pub fn vacant(&self) -> Option<u64>
        ensures first { result ≡ position is_none self.now }
        ensures within { IfSome result (λ handle. handle < 4032) }
    {
        let place = first_vacant(&self.places)?;
        Some(place as u64)
    }

    /// The open file that a handle stands for. `None` where it stands for none (`EBADF`).
    pub fn get(&self, handle: u64) -> Option<OpenFile>
        ensures file { result ≡ file_at self.now handle }
        ensures within { OnSome result (handle < 4032) }
    {
        match self.places.get(handle as usize) {
            Some(file) => *file,
            None => None,
        }
    }

    /// Gives a handle that no file has to one that was opened. It takes no memory.
    ///
    /// Proved, also of `OpenFiles::get` and `OpenFiles::release`: A handle stands for the descriptor and the node that were given to
    /// it, until it is released.
    pub fn open(&mut self, handle: u64, file: OpenFile)
        requires { handle < 4032 }
        ensures { self.new ≡ slice_set self.old handle (Some file) }
    {
        self.places[handle as usize] = Some(file);
    }

    /// Takes a handle back. Returns what it stood for, `None` where it stood for nothing, and then nothing changes.
    pub fn release(&mut self, handle: u64) -> Option<OpenFile>
        ensures file { result ≡ file_at self.old handle }
        ensures others { self.new ≡ slice_set self.old handle None }
    {
        let place = self.places.get_mut(handle as usize)?;
        place.take()
    }
}

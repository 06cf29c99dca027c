//! The open directories of a mount, by their handles.
ghost use Rattle.std.specs.Prelude.{◌≡◌, ℕ, IfOk, OnErr, None, Some};
ghost use Rattle.std.specs.Option.{option_map};
ghost use Rattle.sn_listings.specs.Held as held;
ghost use Rattle.sn_listings.specs.Held.{Changes};

use crate::entry::HeldEntry;
use slab::Slab;
use std::alloc::{AllocError, Global};

/// An open directory: its node, and its listing, if that was read.
#[derive(Drop)]
pub(crate) struct OpenDirectory {
    pub(crate) node: u64,
    pub(crate) listing: Option<Vec<HeldEntry>>,
}

impl OpenDirectory {
    /// The entries of its listing, none where that wasn't read.
    pub(crate) fn entries(&self) -> &[HeldEntry]
        ensures { result.now ≡ held.entries_in (option_map (λ entries. entries.items) self.now.listing) }
    {
        match &self.listing {
            Some(entries) => entries.as_slice(),
            None => &[],
        }
    }
}

/// The open directories of a mount, by their handles.
#[derive(Drop)]
pub struct Listings {
    pub(crate) directories: Slab<OpenDirectory>,
}

impl Listings {
    ghost use Rattle.sn_listings.specs.Told.{directory_at};

    /// No directory is open. It takes no memory.
    pub fn new(alloc: Global) -> Listings
        ensures { (handle : ℕ) → directory_at result handle ≡ None }
    {
        Listings {
            directories: Slab::new(alloc),
        }
    }

    /// Opens a directory, whose listing is still to be read. Returns a handle that no other has.
    ///
    /// Proved, also of `Listings::hold` and `Listings::release`: A handle has the node that it was opened for, and the listing that was
    /// held for it last, until it is released; where memory is refused nothing changes.
    pub fn open(&mut self, node: u64) -> Result<u64, AllocError>
        ensures vacant { IfOk result (λ handle. directory_at self.old handle ≡ None) }
        ensures opened { IfOk result (λ handle. Changes (directory_at self.old) (directory_at self.new) handle (Some (held.unread node))) }
        ensures err { OnErr result ((handle : ℕ) → directory_at self.new handle ≡ directory_at self.old handle) }
    {
        let key = self.directories.insert(OpenDirectory {
            node,
            listing: None,
        })?;
        Ok(key as u64)
    }

    /// The node that a handle was opened for. `None` where the handle has none (`EBADF`).
    pub fn node(&self, handle: u64) -> Option<u64>
        ensures { result ≡ held.node_of (directory_at self.now handle) }
    {
        match self.directories.get(handle as usize) {
            Some(directory) => Some(directory.node),
            None => None,
        }
    }

    /// Whether the listing of a handle was read.
    pub fn is_read(&self, handle: u64) -> bool
        ensures { result ≡ held.is_read (directory_at self.now handle) }
    {
        match self.directories.get(handle as usize) {
            Some(directory) => directory.listing.is_some(),
            None => false,
        }
    }

    /// Whether a listing is to be read for a handle before an answer that begins at an offset: at 0 each time, and at another one
    /// where none was read yet. Not for a handle that has no directory.
    ///
    /// Proved: The listing of an open directory is to be read before an answer exactly if that begins at offset 0 or none is held.
    pub fn is_due(&self, handle: u64, offset: u64) -> bool
        ensures { result ≡ held.is_due offset (directory_at self.now handle) }
    {
        match self.directories.get(handle as usize) {
            Some(directory) => offset == 0 || directory.listing.is_none(),
            None => false,
        }
    }

    /// Holds a listing for a handle, in place of what was held for it. A handle that has no directory is left so.
    pub fn hold(&mut self, handle: u64, entries: Vec<HeldEntry>)
        ensures { Changes (directory_at self.old) (directory_at self.new) handle (held.listed entries.items (directory_at self.old handle)) }
    {
        if let Some(directory) = self.directories.get_mut(handle as usize) {
            directory.listing = Some(entries);
        }
    }

    /// Takes a handle back, with its listing. Returns the node that it was opened for.
    pub fn release(&mut self, handle: u64) -> Option<u64>
        ensures node { result ≡ held.node_of (directory_at self.old handle) }
        ensures released { Changes (directory_at self.old) (directory_at self.new) handle None }
    {
        let directory = self.directories.try_remove(handle as usize)?;
        Some(directory.node)
    }
}

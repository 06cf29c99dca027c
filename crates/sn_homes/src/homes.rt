//! The snapshots that were met, each at a place of its own.
ghost use Rattle.std.specs.Prelude.{◌≡◌, ◌<◌, [], IfSome, OnErr, IfOk, None, length, position, slice_index_or};
ghost use Rattle.sn_homes.specs.Homes as homes;

use sn_limits::SnapshotName;
use std::alloc::{AllocError, Global};
use std::marker::Model;

/// How many places there can be. Where a run meets more snapshots, the next one is refused as where memory is.
const PLACES_MAX: usize = 1 << 32;

/// The snapshots that were met.
#[derive(Drop)]
pub struct Homes {
    places: Vec<Option<SnapshotName>>,
}

impl Model for Homes {
    ghost use Rattle.std.specs.Prelude.{◌≤◌, length};
    ghost use Rattle.sn_homes.specs.Homes.{Places};

    ghost Value = { Places };

    ghost view = { λ homes. homes.places.items };

    ghost invariant = { λ homes. length homes.places.items ≤ 4294967296 };
}

fn has_name(home: &Option<SnapshotName>, name: &[u8]) -> bool
    ensures { result ≡ homes.has_name name.now home.now }
{
    match home {
        Some(other) => other.as_bytes() == name,
        None => false,
    }
}

impl Homes {
    /// No snapshot was met. It takes no memory.
    pub fn new(alloc: Global) -> Homes
        ensures { result ≡ [] }
    {
        Homes {
            places: Vec::new(alloc),
        }
    }

    // The place of the snapshot with this name.
    pub(crate) fn place(&self, name: &[u8]) -> Option<usize>
        ensures place { result ≡ position (homes.has_name name.now) self.now }
        ensures within { IfSome result (λ place. place < length self.now) }
        ensures few { IfSome result (λ place. place < 4294967296) }
    {
        self.places.iter().position(|home| has_name(home, name))
    }

    // The snapshot at a place.
    pub(crate) fn at(&self, place: u64) -> Option<SnapshotName>
        ensures { result ≡ slice_index_or self.now place None }
    {
        match self.places.get(place as usize) {
            Some(Some(name)) => Some(name.copy()),
            _ => None,
        }
    }

    // The place of a snapshot, which is the next one where it wasn't met before.
    pub(crate) fn meet(&mut self, name: &SnapshotName) -> Result<usize, AllocError>
        ensures place { IfOk result (λ place. place ≡ homes.place_of self.new name.now) }
        ensures few { IfOk result (λ place. place < 4294967296) }
        ensures met { IfOk result (λ place. self.new ≡ homes.met self.old name.now) }
        ensures err { OnErr result (self.new ≡ self.old) }
    {
        if let Some(place) = self.place(name.as_bytes()) {
            return Ok(place);
        }
        let place = self.places.len();
        if place >= PLACES_MAX {
            return Err(AllocError);
        }
        self.places.push(Some(name.copy()))?;
        Ok(place)
    }

    /// A snapshot was deleted: its number, and those of all that it had, denote nothing from then on.
    ///
    /// Proved: What is made under the name of a deleted snapshot has other numbers than what that had, and these are given to nothing else.
    pub fn forget(&mut self, name: &[u8])
        ensures { self.new ≡ homes.without self.old name.now }
    {
        if let Some(place) = self.place(name) {
            self.places[place] = None;
        }
    }
}

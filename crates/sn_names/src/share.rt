//! What an index takes over from another one.
ghost use Rattle.std.specs.Prelude.{◌≡◌, ◌≢◌, ◌⊎◌, ◌%◌, ◌<◌, ℕ, true, None, Some, Contains, IfOk, OnOk, length, slice_index_or, vec_len};
ghost use Rattle.sn_names.specs.Index.{entries_of};
ghost use Rattle.sn_names.specs.Share.{shares};
ghost use Rattle.sn_names.specs.Search.{HasAll};

use crate::NameIndex;
use crate::print::block_in;
use std::alloc::{AllocError, Global};

// Whether another index knows block `i`, and it's at the same place in both.
fn shares(numbers: &[u32], other: &NameIndex, i: u64) -> bool
    ensures value { result ≡ shares numbers.now other.now.numbers.items other.now.rooms.items i }
    ensures within { result ≡ true → i < vec_len other.now.rooms }
{
    let i = i as usize;
    if i >= numbers.len() {
        return false;
    }
    if i >= other.numbers.len() {
        return false;
    }
    let number = numbers[i];
    number != 0 && number == other.numbers[i] && other.rooms[i].is_some()
}

// Puts an entry after those that were taken, if its block is shared.
fn take_entry(
    numbers: &[u32],
    other: &NameIndex,
    entry: u64,
    taken: &mut Vec<u64>,
) -> Result<(), AllocError>
    ensures kept { OnOk result (HasAll taken.old.items taken.new.items) }
    ensures taken { OnOk result (shares numbers.now other.now.numbers.items other.now.rooms.items (entry % 16384) ≡ true
        → Contains taken.new.items entry) }
{
    if !shares(numbers, other, block_in(entry)) {
        return Ok(());
    }
    taken.push(entry)?;
    Ok(())
}

// Puts the entries of shared blocks after those that were taken.
fn take_entries(
    numbers: &[u32],
    other: &NameIndex,
    entries: &[u64],
    taken: &mut Vec<u64>,
) -> Result<(), AllocError>
    ensures kept { OnOk result (HasAll taken.old.items taken.new.items) }
    ensures taken { OnOk result ((n : ℕ) → Contains entries.now n
        → shares numbers.now other.now.numbers.items other.now.rooms.items (n % 16384) ≡ true
        → Contains taken.new.items n) }
{
    for entry in entries {
        take_entry(numbers, other, *entry, taken)?;
    }
    Ok(())
}

// The entries of shared blocks.
fn shared_entries(
    alloc: Global,
    index: &NameIndex,
    other: &NameIndex,
) -> Result<Vec<u64>, AllocError>
    ensures { IfOk result (λ taken. (n : ℕ) → Contains (entries_of other.now) n
        → shares index.now.numbers.items other.now.numbers.items other.now.rooms.items (n % 16384) ≡ true
        → Contains taken.items n) }
{
    let mut taken = Vec::new(alloc);
    let (settled, recent) = other.entries.parts();
    let numbers = index.numbers.as_slice();
    take_entries(numbers, other, settled, &mut taken)?;
    take_entries(numbers, other, recent, &mut taken)?;
    Ok(taken)
}

// The room of block `i`: what it was if it was known, and what the other index says if it's shared.
fn taken_room(room: Option<u16>, numbers: &[u32], other: &NameIndex, i: usize) -> Option<u16>
    ensures known { room ≢ None → result ≢ None }
    ensures taken { (left : ℕ) → result ≡ Some left → room ≡ Some left
        ⊎ (shares numbers.now other.now.numbers.items other.now.rooms.items i ≡ true)
        × (slice_index_or other.now.rooms.items i None ≡ Some left) }
{
    match room {
        Some(room) => Some(room),
        None => {
            if shares(numbers, other, i as u64) {
                other.rooms[i]
            } else {
                None
            }
        }
    }
}

// Takes over the rooms of shared blocks of which none is known.
fn take_rooms(rooms: &mut [Option<u16>], numbers: &[u32], other: &NameIndex)
    ensures len { length rooms.new ≡ length rooms.old }
    ensures known { (i : ℕ) → slice_index_or rooms.old i None ≢ None
        → slice_index_or rooms.new i None ≢ None }
    ensures taken { (i left : ℕ) → slice_index_or rooms.new i None ≡ Some left
        → slice_index_or rooms.old i None ≡ Some left
        ⊎ (shares numbers.now other.now.numbers.items other.now.rooms.items i ≡ true)
        × (slice_index_or other.now.rooms.items i None ≡ Some left) }
{
    for i in 0..rooms.len() {
        rooms[i] = taken_room(rooms[i], numbers, other, i);
    }
}

impl NameIndex {
    ghost use Rattle.sn_ondisk.specs.Trees.{Store};
    ghost use Rattle.sn_names.specs.Index.{Tells};

    // What another index knows of blocks that are in the same places becomes known. Where memory is
    // refused, what the index says is lost.
    pub(crate) fn take_over(&mut self, alloc: Global, other: &NameIndex) -> Result<(), AllocError>
        ensures told { OnOk result ((sectors : ℕ) (s : Store) → Tells sectors s self.old
            → Tells sectors s other.now → Tells sectors s self.new) }
    {
        let taken = shared_entries(alloc, self, other)?;
        self.entries.add_all(taken.as_slice())?;
        take_rooms(self.rooms.as_mut_slice(), self.numbers.as_slice(), other);
        self.pass_known();
        Ok(())
    }
}

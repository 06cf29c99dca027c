//! Where the blocks of a directory are.
ghost use Rattle.std.specs.Prelude.{◌≡◌, ◌⊎◌, ◌/◌, ◌%◌, ◌<◌, ℕ, None, IfOk, length, slice_index, slice_index_or, vec_len};
ghost use Rattle.sn_ondisk.specs.Blocks.{numbers_in};
ghost use Rattle.sn_names.specs.Place.{IsFrom, lying_on};

use sn_layout::{Block, POINTERS, Pointers, SECTORS_PER_BLOCK};
use sn_layout_node::{IndirectBlock, POINTERS_PER_BLOCK};
use std::alloc::{AllocError, Global};

// The numbers of so many blocks of which no place is known.
pub(crate) fn unplaced(alloc: Global, count: usize) -> Result<Vec<u32>, AllocError>
    ensures len { IfOk result (λ numbers. vec_len numbers ≡ count) }
    ensures none { IfOk result (λ numbers. (i : ℕ) → slice_index numbers.items i ≡ 0) }
{
    let numbers = Vec::from_elem(alloc, 0, count)?;
    Ok(numbers)
}

// The rooms of so many blocks of which no names are known.
pub(crate) fn unknown(alloc: Global, count: usize) -> Result<Vec<Option<u16>>, AllocError>
    ensures len { IfOk result (λ rooms. vec_len rooms ≡ count) }
    ensures none { IfOk result (λ rooms. (i : ℕ) → slice_index_or rooms.items i None ≡ None) }
{
    let rooms = Vec::from_elem(alloc, None, count)?;
    Ok(rooms)
}

// A pointer to a block of a device of so many sectors, and 0 for any other.
fn lying_on(sectors: u64, pointer: u32) -> u32
    ensures { result ≡ lying_on sectors pointer }
{
    if SECTORS_PER_BLOCK * u64::from(pointer) + SECTORS_PER_BLOCK <= sectors {
        pointer
    } else {
        0
    }
}

// The first blocks are where the pointers of a tree say, if they are on the device.
pub(crate) fn place_first(numbers: &mut [u32], sectors: u64, pointers: &Pointers)
    ensures len { length numbers.new ≡ length numbers.old }
    ensures placed { (i : ℕ) → slice_index numbers.new i ≡ slice_index numbers.old i
        ⊎ IsFrom sectors pointers.now i (slice_index numbers.new i) }
{
    for i in 0..numbers.len().min(POINTERS) {
        numbers[i] = lying_on(sectors, pointers.get(i));
    }
}

// The blocks below a pointer are where its block says, if they are on the device. Those stay whose place is
// known.
pub(crate) fn place_below(numbers: &mut [u32], sectors: u64, top: usize, block: &Block)
    requires { top < 16 }
    ensures len { length numbers.new ≡ length numbers.old }
    ensures placed { (i : ℕ) → slice_index numbers.new i ≡ slice_index numbers.old i
        ⊎ (slice_index numbers.old i ≡ 0) × (i / 1024 ≡ top)
        × IsFrom sectors (numbers_in 1024 block.now) (i % 1024) (slice_index numbers.new i) }
{
    let pointers = IndirectBlock::decode(block);
    for k in 0..POINTERS_PER_BLOCK {
        let i = POINTERS_PER_BLOCK * top + k;
        if i < numbers.len() && numbers[i] == 0 {
            numbers[i] = lying_on(sectors, pointers.pointer(k));
        }
    }
}

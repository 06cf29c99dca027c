//! 16 numbers u32.
ghost use Rattle.std.specs.Prelude.{◌≡◌, ℕ, ◌+◌, ◌≤◌, ◌<◌, List, ◌++◌, length, replicate, slice_index, slice_set};
ghost use Rattle.sn_bytes.specs.Bytes.{AreNumbers, Puts, numbers_bytes};
ghost use Rattle.sn_layout.specs.Pointers.{ArePointers};

use sn_bytes::{Reader, put_u32s};
use std::marker::Model;

/// How many pointers a root of blocks has.
pub const POINTERS: usize = 16;

/// Sixteen numbers of blocks, seen as their list. A pointer 0 is a hole, which reads as zeros.
#[derive(Clone, Copy, PartialEq, Eq)]
pub struct Pointers {
    numbers: [u32; POINTERS],
}

impl Model for Pointers {
    ghost use Rattle.std.specs.Prelude.{ℕ, List};
    ghost use Rattle.sn_layout.specs.Pointers.{ArePointers};

    ghost Value = { List ℕ };

    ghost view = { λ pointers. pointers.numbers };

    ghost invariant = { λ pointers. ArePointers pointers.numbers };

    ghost inverse = { λ numbers. record { numbers = numbers } };
}

// The numbers, which are below 256 ^ 4 by their type.
fn fitting(numbers: &[u32]) -> &[u32]
    ensures same { result.now ≡ numbers.now }
    ensures fits { AreNumbers 4 numbers.now }
{
    numbers
}

impl Pointers {
    /// The sixteen pointers of an inode or a root, as block numbers; 0 is a hole.
    pub fn new(numbers: &[u32; POINTERS]) -> Self
        ensures { result ≡ numbers.now }
    {
        fitting(numbers);
        Pointers { numbers: *numbers }
    }

    /// All sixteen, in their order.
    pub fn as_slice(&self) -> &[u32]
        ensures value { result.now ≡ self.now }
        ensures fits { ArePointers self.now }
    {
        &self.numbers
    }

    /// The pointer at an index; 0 is a hole.
    pub fn get(&self, index: usize) -> u32
        requires { index < 16 }
        ensures { result ≡ slice_index self.now index }
    {
        self.numbers[index]
    }

    /// Puts a pointer in place of the one at an index.
    pub fn set(&mut self, index: usize, pointer: u32)
        requires { index < 16 }
        ensures { self.new ≡ slice_set self.old index pointer }
    {
        self.numbers[index] = pointer;
    }

    /// Writes them at an offset of a block, and answers the offset after them.
    pub fn put(&self, block: &mut [u8], at: usize) -> usize
        requires { at + 64 ≤ length block.old }
        ensures bytes { Puts block.old block.new at result (numbers_bytes 4 self.now) }
        ensures next { result ≡ at + 64 }
    {
        put_u32s(block, at, &self.numbers)
    }

    /// Reads sixteen pointers. Any bytes are some.
    pub fn read(reader: &mut Reader<'_>) -> Self
        requires { 64 ≤ length reader.old }
        ensures fits { ArePointers result }
        ensures read { reader.old ≡ numbers_bytes 4 result ++ reader.new }
        ensures only { (pointers rest : List ℕ) → ArePointers pointers → reader.old ≡ numbers_bytes 4 pointers ++ rest
            → (result ≡ pointers) × (reader.new ≡ rest) }
        ensures left { length reader.new + 64 ≡ length reader.old }
    {
        let mut numbers = [0; POINTERS];
        reader.u32s(&mut numbers);
        Pointers { numbers }
    }
}

/// Sixteen holes.
impl Default for Pointers {
    ghost is_default = { λ pointers. pointers ≡ replicate 16 0 };

    fn default() -> Self {
        Pointers {
            numbers: [0; POINTERS],
        }
    }
}

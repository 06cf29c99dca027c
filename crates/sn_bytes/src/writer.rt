//! Each writes its bytes at an offset of the block, and answers the offset after them.
ghost use Rattle.std.specs.Prelude.{◌≡◌, ◌+◌, ◌*◌, ◌≤◌, [], ◌∷◌, length};
ghost use Rattle.sn_bytes.specs.Bytes.{number_bytes, numbers_bytes, zeros, Puts};

use byteorder::{ByteOrder, LittleEndian};

/// Puts bytes as they are.
pub fn put_bytes(block: &mut [u8], at: usize, bytes: &[u8]) -> usize
    requires { at + length bytes.now ≤ length block.old }
    ensures { Puts block.old block.new at result bytes.now }
{
    let next = at + bytes.len();
    block[at..next].copy_from_slice(bytes);
    next
}

/// Puts one byte.
pub fn put_u8(block: &mut [u8], at: usize, number: u8) -> usize
    requires { at + 1 ≤ length block.old }
    ensures { Puts block.old block.new at result (number ∷ []) }
{
    block[at] = number;
    at + 1
}

/// Puts a number as two bytes, the low one first.
pub fn put_u16(block: &mut [u8], at: usize, number: u16) -> usize
    requires { at + 2 ≤ length block.old }
    ensures bytes { Puts block.old block.new at result (number_bytes 2 number) }
    ensures next { result ≡ at + 2 }
{
    LittleEndian::write_u16(&mut block[at..], number);
    at + 2
}

/// Puts a number as four bytes, the low one first.
///
/// Proved, also of the other `put_` calls: What is put comes after what was put before, and nothing else changes.
pub fn put_u32(block: &mut [u8], at: usize, number: u32) -> usize
    requires { at + 4 ≤ length block.old }
    ensures bytes { Puts block.old block.new at result (number_bytes 4 number) }
    ensures next { result ≡ at + 4 }
{
    LittleEndian::write_u32(&mut block[at..], number);
    at + 4
}

/// Puts a number as eight bytes, the low one first.
pub fn put_u64(block: &mut [u8], at: usize, number: u64) -> usize
    requires { at + 8 ≤ length block.old }
    ensures bytes { Puts block.old block.new at result (number_bytes 8 number) }
    ensures next { result ≡ at + 8 }
{
    LittleEndian::write_u64(&mut block[at..], number);
    at + 8
}

fn fill_zeros(part: &mut [u8])
    ensures { part.new ≡ zeros (length part.old) }
{
    part.fill(0);
}

/// Puts so many zeros.
pub fn put_zeros(block: &mut [u8], at: usize, count: usize) -> usize
    requires { at + count ≤ length block.old }
    ensures bytes { Puts block.old block.new at result (zeros count) }
    ensures next { result ≡ at + count }
{
    let next = at + count;
    let part = &mut block[at..next];
    fill_zeros(part);
    next
}

/// Puts numbers one after the other, each as four bytes, the low one first.
pub fn put_u32s(block: &mut [u8], at: usize, numbers: &[u32]) -> usize
    requires { at + 4 * length numbers.now ≤ length block.old }
    ensures bytes { Puts block.old block.new at result (numbers_bytes 4 numbers.now) }
    ensures next { result ≡ at + 4 * length numbers.now }
{
    let mut next = at;
    for number in numbers {
        next = put_u32(block, next, *number);
    }
    next
}

ghost use Rattle.std.specs.Prelude.{◌≡◌, ℕ, ◌+◌, ◌*◌, ◌^◌, ◌<◌, ◌≤◌, List, ◌∷◌, ◌++◌, length, All, Some, IfSome, IsNone, IsTrue, ◌↔◌};
ghost use Rattle.sn_bytes.specs.Bytes.{AreNumbers, number_bytes, numbers_bytes, zeros};

use byteorder::{ByteOrder, LittleEndian};
use std::marker::Model;

fn u16_of(bytes: &[u8]) -> u16
    requires { length bytes.now ≡ 2 }
    ensures { number_bytes 2 result ≡ bytes.now }
{
    LittleEndian::read_u16(bytes)
}

fn u32_of(bytes: &[u8]) -> u32
    requires { length bytes.now ≡ 4 }
    ensures { number_bytes 4 result ≡ bytes.now }
{
    LittleEndian::read_u32(bytes)
}

fn u64_of(bytes: &[u8]) -> u64
    requires { length bytes.now ≡ 8 }
    ensures { number_bytes 8 result ≡ bytes.now }
{
    LittleEndian::read_u64(bytes)
}

fn are_equal(bytes: &[u8], wanted: &[u8]) -> bool
    ensures { IsTrue result ↔ (bytes.now ≡ wanted.now) }
{
    bytes == wanted
}

// No byte ends the loop, so that the compiler tests many at once: most of a block may be zeros.
fn are_all_zero(bytes: &[u8]) -> bool
    ensures { IsTrue result ↔ All (λ byte. byte ≡ 0) bytes.now }
{
    let mut largest = 0;
    for byte in bytes {
        largest = largest.max(*byte);
    }
    largest == 0
}

/// Reads one field of bytes after the other. Callers see it as the bytes that are left.
///
/// What is read without a test needs its bytes there, as in a block, which has them all. The `try_`
/// calls are for bytes that may end early, as a log record's: they answer `None` where fewer are
/// left than they read, and then stay where they are.
///
/// Proved: What is read is what the bytes that are left begin with, and no other number is spelled so.
/// Proved: A call for bytes that may end early answers `None` exactly where too few are left, and stays where it is.
#[derive(Drop)]
pub struct Reader<'a> {
    rest: &'a [u8],
}

impl<'a> Model for Reader<'a> {
    ghost Value = { List ℕ };

    ghost view = { λ reader. reader.rest.now };
}

impl<'a> Reader<'a> {
    /// Reads these bytes, from the first on.
    pub fn new(bytes: &'a [u8]) -> Self
        ensures { result ≡ bytes.now }
    {
        Reader { rest: bytes }
    }

    /// How many bytes are left.
    pub fn remaining(&self) -> usize
        ensures { result ≡ length self.now }
    {
        self.rest.len()
    }

    /// The bytes that are left.
    pub fn rest(&self) -> &'a [u8]
        ensures { result.now ≡ self.now }
    {
        self.rest
    }

    /// The next bytes.
    pub fn bytes(&mut self, count: usize) -> &'a [u8]
        requires { count ≤ length self.old }
        ensures read { self.old ≡ result.now ++ self.new }
        ensures only { (front rest : List ℕ) → length front ≡ count → self.old ≡ front ++ rest → (result.now ≡ front) × (self.new ≡ rest) }
        ensures count { length result.now ≡ count }
        ensures left { length self.new + count ≡ length self.old }
    {
        let (front, rest) = self.rest.split_at(count);
        self.rest = rest;
        front
    }

    /// The next byte.
    pub fn u8(&mut self) -> u8
        requires { 1 ≤ length self.old }
        ensures read { self.old ≡ result ∷ self.new }
        ensures only { (number : ℕ) (rest : List ℕ) → self.old ≡ number ∷ rest → (result ≡ number) × (self.new ≡ rest) }
        ensures left { length self.new + 1 ≡ length self.old }
    {
        let front = self.bytes(1);
        front[0]
    }

    /// The number that the next two bytes spell, the low byte first.
    pub fn u16(&mut self) -> u16
        requires { 2 ≤ length self.old }
        ensures read { self.old ≡ number_bytes 2 result ++ self.new }
        ensures only { (number : ℕ) (rest : List ℕ) → number < 256 ^ 2 → self.old ≡ number_bytes 2 number ++ rest → (result ≡ number) × (self.new ≡ rest) }
        ensures left { length self.new + 2 ≡ length self.old }
    {
        u16_of(self.bytes(2))
    }

    /// The number that the next four bytes spell, the low byte first.
    pub fn u32(&mut self) -> u32
        requires { 4 ≤ length self.old }
        ensures read { self.old ≡ number_bytes 4 result ++ self.new }
        ensures only { (number : ℕ) (rest : List ℕ) → number < 256 ^ 4 → self.old ≡ number_bytes 4 number ++ rest → (result ≡ number) × (self.new ≡ rest) }
        ensures left { length self.new + 4 ≡ length self.old }
    {
        u32_of(self.bytes(4))
    }

    /// The number that the next eight bytes spell, the low byte first.
    pub fn u64(&mut self) -> u64
        requires { 8 ≤ length self.old }
        ensures read { self.old ≡ number_bytes 8 result ++ self.new }
        ensures only { (number : ℕ) (rest : List ℕ) → number < 256 ^ 8 → self.old ≡ number_bytes 8 number ++ rest → (result ≡ number) × (self.new ≡ rest) }
        ensures left { length self.new + 8 ≡ length self.old }
    {
        u64_of(self.bytes(8))
    }

    /// Whether the next bytes are these, past which it reads in any case.
    pub fn are(&mut self, wanted: &[u8]) -> bool
        requires { length wanted.now ≤ length self.old }
        ensures read { IsTrue result → self.old ≡ wanted.now ++ self.new }
        ensures only { (rest : List ℕ) → self.old ≡ wanted.now ++ rest → IsTrue result × (self.new ≡ rest) }
        ensures left { length self.new + length wanted.now ≡ length self.old }
    {
        are_equal(self.bytes(wanted.len()), wanted)
    }

    /// Whether the next bytes are 0, past which it reads in any case.
    pub fn are_zeros(&mut self, count: usize) -> bool
        requires { count ≤ length self.old }
        ensures read { IsTrue result → self.old ≡ zeros count ++ self.new }
        ensures only { (rest : List ℕ) → self.old ≡ zeros count ++ rest → IsTrue result × (self.new ≡ rest) }
        ensures left { length self.new + count ≡ length self.old }
    {
        are_all_zero(self.bytes(count))
    }

    /// Reads as many numbers as there is room for.
    pub fn u32s(&mut self, numbers: &mut [u32])
        requires { 4 * length numbers.old ≤ length self.old }
        ensures read { self.old ≡ numbers_bytes 4 numbers.new ++ self.new }
        ensures fits { AreNumbers 4 numbers.new }
        ensures only { (all rest : List ℕ) → length all ≡ length numbers.old → AreNumbers 4 all → self.old ≡ numbers_bytes 4 all ++ rest → (numbers.new ≡ all) × (self.new ≡ rest) }
        ensures left { length self.new + 4 * length numbers.old ≡ length self.old }
    {
        for number in numbers.iter_mut() {
            *number = self.u32();
        }
    }

    /// The next byte; `None` after the last.
    pub fn try_u8(&mut self) -> Option<u8>
        ensures found { IfSome result (λ number. self.old ≡ number ∷ self.new) }
        ensures only { (number : ℕ) (rest : List ℕ) → self.old ≡ number ∷ rest → (result ≡ Some number) × (self.new ≡ rest) }
        ensures left { IfSome result (λ _. length self.new + 1 ≡ length self.old) }
        ensures few { IsNone result ↔ (length self.old < 1) }
        ensures stays { IsNone result → self.new ≡ self.old }
    {
        if self.remaining() < 1 {
            return None;
        }
        Some(self.u8())
    }

    /// The number that the next two bytes spell, the low byte first; `None` where fewer are left.
    pub fn try_u16(&mut self) -> Option<u16>
        ensures found { IfSome result (λ number. self.old ≡ number_bytes 2 number ++ self.new) }
        ensures only { (number : ℕ) (rest : List ℕ) → number < 256 ^ 2 → self.old ≡ number_bytes 2 number ++ rest → (result ≡ Some number) × (self.new ≡ rest) }
        ensures left { IfSome result (λ _. length self.new + 2 ≡ length self.old) }
        ensures few { IsNone result ↔ (length self.old < 2) }
        ensures stays { IsNone result → self.new ≡ self.old }
    {
        if self.remaining() < 2 {
            return None;
        }
        Some(self.u16())
    }

    /// The number that the next eight bytes spell, the low byte first; `None` where fewer are left.
    pub fn try_u64(&mut self) -> Option<u64>
        ensures found { IfSome result (λ number. self.old ≡ number_bytes 8 number ++ self.new) }
        ensures only { (number : ℕ) (rest : List ℕ) → number < 256 ^ 8 → self.old ≡ number_bytes 8 number ++ rest → (result ≡ Some number) × (self.new ≡ rest) }
        ensures left { IfSome result (λ _. length self.new + 8 ≡ length self.old) }
        ensures few { IsNone result ↔ (length self.old < 8) }
        ensures stays { IsNone result → self.new ≡ self.old }
    {
        if self.remaining() < 8 {
            return None;
        }
        Some(self.u64())
    }
}

//! The entries of a directory, as READDIR is answered.
//!
//! | offset | field of an entry |
//! |---|---|
//! | 0 | number u64 |
//! | 8 | offset of the entry after it u64 |
//! | 16 | length of the name u32 |
//! | 20 | kind u32, 4 a directory, 8 a file |
//! | 24 | the name, and zeros up to a multiple of 8 |
ghost use Rattle.std.specs.Prelude.{◌≡◌, ◌↔◌, ◌+◌, ◌≤◌, ◌<◌, ◌%◌, [], ◌++◌, length, true, false, IfOk, OnOk, OnErr};
ghost use Rattle.sn_bytes.specs.Bytes.{Puts};
ghost use Rattle.sn_fuse_replies.specs.Listing.{kind_number, listed_bytes, padding};

use sn_bytes::{put_bytes, put_u32, put_u64, put_zeros};
use std::alloc::{AllocError, Global};
use std::marker::Model;

/// The most bytes that a name in a listing has.
pub const NAME_MAX: usize = 255;

// The most bytes that an entry has.
const ENTRY_MAX: usize = 280;

/// What an entry of a listing is the name of.
#[derive(Clone, Copy, PartialEq, Eq, Debug)]
pub enum EntryKind {
    Directory = 4,
    File = 8,
}

impl EntryKind {
    fn number(self) -> u32
        ensures { result ≡ kind_number self }
    {
        self as u32
    }
}

/// One entry of a listing.
#[derive(Clone, Copy, PartialEq, Eq, Debug)]
pub struct DirectoryEntry<'a> {
    /// The number that `d_ino` reports.
    pub number: u64,
    /// What a later READDIR gives to begin after this entry.
    pub offset: u64,
    pub kind: EntryKind,
    pub name: &'a [u8],
}

/// The bytes of a listing, lent from it.
#[derive(Drop)]
pub struct Listed<'a> {
    bytes: &'a [u8],
}

impl<'a> Model for Listed<'a> {
    ghost use Rattle.std.specs.Prelude.{ℕ, List};

    ghost Value = { List ℕ };

    ghost view = { λ listed. listed.bytes.now };
}

impl<'a> Listed<'a> {
    pub(crate) fn as_bytes(&self) -> &'a [u8]
        ensures { result.now ≡ self.now }
    {
        self.bytes
    }
}

// The zeros after a name of so many bytes.
fn padding(length: usize) -> usize
    ensures value { result ≡ padding length }
    ensures most { result < 8 }
{
    (8 - length % 8) % 8
}

// An entry at the front of a block; how many bytes it has.
fn put_entry(block: &mut [u8], entry: &DirectoryEntry<'_>) -> usize
    requires name { length entry.now.name.now ≤ NAME_MAX }
    requires room { length block.old ≡ ENTRY_MAX }
    ensures bytes { Puts block.old block.new 0 result (listed_bytes entry.now.number entry.now.offset entry.now.kind entry.now.name.now) }
    ensures whole { result % 8 ≡ 0 }
    ensures within { result ≤ ENTRY_MAX }
{
    let at = put_u64(block, 0, entry.number);
    let at = put_u64(block, at, entry.offset);
    let at = put_u32(block, at, entry.name.len() as u32);
    let at = put_u32(block, at, entry.kind.number());
    let at = put_bytes(block, at, entry.name);
    put_zeros(block, at, padding(entry.name.len()))
}

fn append(bytes: &mut Vec<u8>, entry: &[u8]) -> Result<(), AllocError>
    ensures ok { OnOk result (bytes.new.items ≡ bytes.old.items ++ entry.now) }
    ensures err { OnErr result (bytes.new.items ≡ bytes.old.items) }
{
    bytes.extend_from_slice(entry)
}

/// A listing that is filled entry by entry, up to the size that READDIR allows. Each entry begins at a multiple of 8, and none is
/// cut.
#[derive(Drop)]
pub struct Listing {
    size: usize,
    bytes: Vec<u8>,
}

impl Model for Listing {
    ghost use Rattle.std.specs.Prelude.{◌≡◌, ◌≤◌, ◌%◌, length};
    ghost use Rattle.sn_fuse_replies.specs.Filled.{Filled};

    ghost Value = { Filled };

    ghost view = { λ l. record { room = l.size; bytes = l.bytes.items } };

    ghost invariant = { λ l. (length l.bytes.items ≤ l.size) × (length l.bytes.items % 8 ≡ 0) };
}

impl Listing {
    /// A listing without entries, for a READDIR of this size. Takes no memory.
    pub fn new(alloc: Global, size: usize) -> Self
        ensures room { result.room ≡ size }
        ensures empty { result.bytes ≡ [] }
    {
        Listing {
            size,
            bytes: Vec::new(alloc),
        }
    }

    /// Begins again without entries, for a READDIR of this size, in the memory that it has.
    pub fn clear(&mut self, size: usize)
        ensures room { self.new.room ≡ size }
        ensures empty { self.new.bytes ≡ [] }
    {
        self.bytes.clear();
        self.size = size;
    }

    /// Puts one more entry at the end, if it fits: `false` where it doesn't. What it held stays in any case.
    ///
    /// Proved: One more entry is put at the end of a listing exactly if all of it fits in the size that was asked for, each
    /// at a multiple of 8; where it doesn't fit, or memory is refused, the listing is unchanged.
    pub fn push(&mut self, entry: &DirectoryEntry<'_>) -> Result<bool, AllocError>
        requires { length entry.now.name.now ≤ NAME_MAX }
        ensures room { self.new.room ≡ self.old.room }
        ensures fits { IfOk result (λ fits. (fits ≡ true) ↔ (length self.old.bytes + length (listed_bytes entry.now.number entry.now.offset entry.now.kind entry.now.name.now) ≤ self.old.room)) }
        ensures pushed { IfOk result (λ fits. fits ≡ true → self.new.bytes ≡ self.old.bytes ++ listed_bytes entry.now.number entry.now.offset entry.now.kind entry.now.name.now) }
        ensures full { IfOk result (λ fits. fits ≡ false → self.new.bytes ≡ self.old.bytes) }
        ensures err { OnErr result (self.new.bytes ≡ self.old.bytes) }
    {
        let mut block = [0; ENTRY_MAX];
        let end = put_entry(&mut block, entry);
        if self.bytes.len() + end > self.size {
            return Ok(false);
        }
        append(&mut self.bytes, &block[..end])?;
        Ok(true)
    }

    /// The entries, as they are answered.
    pub fn listed(&self) -> Listed<'_>
        ensures bytes { result ≡ self.now.bytes }
        ensures within { length result ≤ self.now.room }
        ensures whole { length result % 8 ≡ 0 }
    {
        Listed { bytes: &self.bytes }
    }
}

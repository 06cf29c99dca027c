//! Records one after the other from the front of the block, and then zeros.
//!
//! | offset | field of a record |
//! |---|---|
//! | 0 | number u16, from 2 up |
//! | 2 | length of the name u8, 1 to 255 |
//! | 3 | name |
ghost use Rattle.std.specs.Prelude.{[], ◌∷◌, ◌≡◌, ◌==◌, ◌↔◌, ℕ, ◌+◌, ◌-◌, ◌<◌, ◌≤◌, List, ◌++◌, length, take, drop, false, true, Some, IfSome, IsNone, IsSome, IsTrue};
ghost use Rattle.std.specs.List.{AllByRecursion};
ghost use Rattle.sn_limits.specs.Names.{is_name};
ghost use Rattle.sn_layout.specs.Bytes.{Puts, zeros};
ghost use Rattle.sn_layout_node.specs.Directory.{Link, IsLink, AreLinks, AreLinkBytes, Spells, IsDirectoryBlock, link_bytes, links_bytes, directory_bytes, begins_link, links_of, number_of, without, BeginsWithLink};

use crate::name::{put_name, read_name};
use byteorder::{ByteOrder, LittleEndian};
use sn_layout::{BLOCK_SIZE, Block, Reader, put_u16, put_zeros};
use std::marker::Model;

/// A name in a directory, lent from its block.
#[derive(Clone, Copy, PartialEq, Eq)]
pub struct DirectoryEntry<'a> {
    /// The number of the inode that the name denotes.
    pub number: u16,
    pub name: &'a [u8],
}

fn begins_link(bytes: &[u8]) -> bool
    ensures { result ≡ begins_link bytes.now }
{
    bytes.len() >= 3 && LittleEndian::read_u16(bytes) >= 2
}

fn read_link<'a>(reader: &mut Reader<'a>) -> Option<DirectoryEntry<'a>>
    requires { begins_link reader.old ≡ true }
    ensures found { IfSome result (λ e. IsLink (record { number = e.number; name = e.name.now })
        × (reader.old ≡ link_bytes (record { number = e.number; name = e.name.now }) ++ reader.new)) }
    ensures only { (link : Link) (rest : List ℕ) → IsLink link → reader.old ≡ link_bytes link ++ rest
        → IfSome result (λ e. (e.number ≡ link.number) × (e.name.now ≡ link.name)) × (reader.new ≡ rest) × IsSome result }
    ensures left { length reader.new ≤ length reader.old }
    ensures shorter { IfSome result (λ e. length reader.new < length reader.old) }
{
    let number = reader.u16();
    let name = read_name(reader)?;
    Some(DirectoryEntry { number, name })
}

// How many bytes at the front of a block are links, if all others are zeros.
fn links_end(bytes: &[u8]) -> Option<usize>
    requires { length bytes.now ≡ 4096 }
    ensures within { IfSome result (λ end. end ≤ 4096) }
    ensures links { IfSome result (λ end. AreLinkBytes (take end bytes.now)) }
    ensures zeros { IfSome result (λ end. drop end bytes.now ≡ zeros (4096 - end)) }
    ensures only { (links : List Link) → AreLinks links → bytes.now ≡ directory_bytes links → result ≡ Some (length (links_bytes links)) }
{
    let mut reader = Reader::new(bytes);
    while begins_link(reader.rest()) {
        read_link(&mut reader)?;
    }
    let left = reader.remaining();
    if !reader.are_zeros(left) {
        return None;
    }
    Some(BLOCK_SIZE - left)
}

// The first link of bytes that are nothing but links.
fn next_link<'a>(reader: &mut Reader<'a>) -> DirectoryEntry<'a>
    requires links { AreLinkBytes reader.old }
    requires some { 0 < length reader.old }
    ensures first { links_of reader.old ≡ record { number = result.number; name = result.name.now } ∷ links_of reader.new }
    ensures others { AreLinkBytes reader.new }
    ensures shorter { length reader.new < length reader.old }
{
    let number = reader.u16();
    let count = reader.u8() as usize;
    let name = reader.bytes(count);
    DirectoryEntry { number, name }
}

fn number_of(links: &[u8], name: &[u8]) -> Option<u16>
    requires { AreLinkBytes links.now }
    ensures { result ≡ number_of name.now (links_of links.now) }
{
    let mut reader = Reader::new(links);
    while reader.remaining() > 0 {
        let entry = next_link(&mut reader);
        if entry.name == name {
            return Some(entry.number);
        }
    }
    None
}

fn count_of(links: &[u8]) -> usize
    requires { AreLinkBytes links.now }
    ensures { result ≡ length (links_of links.now) }
{
    let mut reader = Reader::new(links);
    let mut count = 0;
    while reader.remaining() > 0 {
        next_link(&mut reader);
        count += 1;
    }
    count
}

// Reads past a link.
fn skip_link(reader: &mut Reader<'_>)
    requires { BeginsWithLink reader.old }
    ensures only { (link : Link) (rest : List ℕ) → IsLink link → reader.old ≡ link_bytes link ++ rest → reader.new ≡ rest }
    ensures shorter { length reader.new < length reader.old }
{
    reader.bytes(2);
    let count = reader.u8() as usize;
    reader.bytes(count);
}

// How many bytes at the front of a directory block are links.
fn links_size(block: &[u8]) -> usize
    requires { IsDirectoryBlock block.now }
    ensures { (links : List Link) → Spells block.now links → result ≡ length (links_bytes links) }
{
    let mut reader = Reader::new(block);
    while begins_link(reader.rest()) {
        skip_link(&mut reader);
    }
    BLOCK_SIZE - reader.remaining()
}

fn put_link(block: &mut [u8], at: usize, name: &[u8], number: u16) -> usize
    requires name { IsTrue (is_name name.now) }
    requires room { at + 3 + length name.now ≤ length block.old }
    ensures bytes { Puts block.old block.new at result (link_bytes (record { number = number; name = name.now })) }
    ensures next { result ≡ at + 3 + length name.now }
{
    let at = put_u16(block, at, number);
    put_name(block, at, name)
}

// A link among others: its number, and which bytes it is.
#[derive(Clone, Copy)]
struct LinkSpan {
    number: u16,
    start: usize,
    end: usize,
}

fn span_of(links: &[u8], name: &[u8]) -> Option<LinkSpan>
    requires { AreLinkBytes links.now }
    ensures found { IfSome result (λ span. number_of name.now (links_of links.now) ≡ Some span.number) }
    ensures within { IfSome result (λ span. (span.start ≤ span.end) × (span.end ≤ length links.now)) }
    ensures others { IfSome result (λ span. links_bytes (without name.now (links_of links.now)) ≡ take span.start links.now ++ drop span.end links.now) }
    ensures none { IsNone result → (number_of name.now (links_of links.now) ≡ None) × (without name.now (links_of links.now) ≡ links_of links.now) }
{
    let mut reader = Reader::new(links);
    while reader.remaining() > 0 {
        let start = links.len() - reader.remaining();
        let link = next_link(&mut reader);
        if link.name == name {
            return Some(LinkSpan {
                number: link.number,
                start,
                end: links.len() - reader.remaining(),
            });
        }
    }
    None
}

// Takes a part out of so many bytes at the front of a block, and leaves zeros after the others.
fn take_out(block: &mut [u8], start: usize, end: usize, size: usize)
    requires block { length block.old ≡ 4096 }
    requires start { start ≤ end }
    requires end { end ≤ size }
    requires size { size ≤ 4096 }
    ensures { block.new ≡ take start block.old ++ drop end (take size block.old) ++ zeros (4096 - (start + (size - end))) }
{
    block.copy_within(end..size, start);
    let kept = start + (size - end);
    put_zeros(block, kept, BLOCK_SIZE - kept);
}

/// The names of a directory block, which are read in place.
///
/// Proved: A directory block is read in place, exactly where it spells entries, and a name is found where it is one of them.
#[derive(Drop)]
pub struct DirectoryBlock<'a> {
    links: &'a [u8],
}

impl<'a> Model for DirectoryBlock<'a> {
    ghost use Rattle.std.specs.Prelude.{List};
    ghost use Rattle.sn_layout_node.specs.Directory.{Link, AreLinkBytes, links_of};
    ghost use Rattle.std.specs.Prelude.{◌≤◌, length};

    ghost Value = { List Link };

    ghost view = { λ block. links_of block.links.now };

    ghost invariant = { λ block. AreLinkBytes block.links.now × (length block.links.now ≤ 4096) };
}

impl<'a> DirectoryBlock<'a> {
    /// The names that the block spells. That no name occurs twice in a directory is not tested here.
    pub fn decode(block: &'a Block) -> Option<Self>
        ensures found { IfSome result (λ links. Spells block.now links) }
        ensures only { (links : List Link) → Spells block.now links → result ≡ Some links }
    {
        let bytes = &block[..];
        let end = links_end(bytes)?;
        Some(DirectoryBlock {
            links: &bytes[..end],
        })
    }

    /// The number under a name.
    pub fn find(&self, name: &[u8]) -> Option<u16>
        ensures { result ≡ number_of name.now self.now }
    {
        number_of(self.links, name)
    }

    /// How many names there are. They are counted one by one.
    pub fn len(&self) -> usize
        ensures { result ≡ length self.now }
    {
        count_of(self.links)
    }

    /// Whether no name is in it.
    pub fn is_empty(&self) -> bool
        ensures { result ≡ (length self.now == 0) }
    {
        self.links.is_empty()
    }

    /// How many bytes are left. A name of n bytes takes n + 3.
    pub fn room(&self) -> usize
        ensures { result ≡ 4096 - length (links_bytes self.now) }
    {
        BLOCK_SIZE - self.links.len()
    }

    /// The names with their numbers, as they are in the block.
    pub fn entries(&self) -> Entries<'a>
        ensures entries { result ≡ self.now }
        ensures each { AllByRecursion IsLink self.now }
    {
        Entries::over(self.links)
    }

    /// Makes the block one of no names, whatever was there.
    pub fn clear(block: &mut Block)
        ensures { Spells block.new [] }
    {
        put_zeros(block, 0, BLOCK_SIZE);
    }

    /// Puts a name with its number after the others. `false` where the block has no room for it,
    /// and nothing is changed. That the name isn't there yet is not tested here.
    ///
    /// Proved, also of `remove`: A name is put in where there is room and taken out in place, and the others stay.
    pub fn insert(block: &mut Block, name: &[u8], number: u16) -> bool
        requires block { IsDirectoryBlock block.old }
        requires link { IsLink (record { number = number; name = name.now }) }
        ensures room { (links : List Link) → Spells block.old links
            → (IsTrue result ↔ AreLinks (links ++ record { number = number; name = name.now } ∷ [])) }
        ensures inserted { (links : List Link) → Spells block.old links → IsTrue result
            → Spells block.new (links ++ record { number = number; name = name.now } ∷ []) }
        ensures full { result ≡ false → block.new ≡ block.old }
        ensures still { IsDirectoryBlock block.new }
    {
        let size = links_size(&block[..]);
        if name.len() + 3 > BLOCK_SIZE - size {
            return false;
        }
        let size = put_link(block, size, name, number);
        put_zeros(block, size, BLOCK_SIZE - size);
        true
    }

    /// Takes out a name, and answers its number. `None` where there is no such name, and nothing is
    /// changed.
    pub fn remove(block: &mut Block, name: &[u8]) -> Option<u16>
        requires { IsDirectoryBlock block.old }
        ensures number { (links : List Link) → Spells block.old links → result ≡ number_of name.now links }
        ensures removed { (links : List Link) → Spells block.old links → Spells block.new (without name.now links) }
        ensures still { IsDirectoryBlock block.new }
    {
        let size = links_size(&block[..]);
        let span = span_of(&block[..size], name)?;
        take_out(block, span.start, span.end, size);
        Some(span.number)
    }
}

/// The names of a directory block, one after the other.
#[derive(Drop)]
pub struct Entries<'a> {
    reader: Reader<'a>,
}

impl<'a> Model for Entries<'a> {
    ghost use Rattle.std.specs.Prelude.{List};
    ghost use Rattle.sn_layout_node.specs.Directory.{Link, AreLinkBytes, links_of};

    ghost Value = { List Link };

    ghost view = { λ entries. links_of entries.reader };

    ghost invariant = { λ entries. AreLinkBytes entries.reader };
}

impl<'a> Entries<'a> {
    fn over(links: &'a [u8]) -> Self
        requires { AreLinkBytes links.now }
        ensures { result ≡ links_of links.now }
    {
        Entries {
            reader: Reader::new(links),
        }
    }
}

impl<'a> Iterator for Entries<'a> {
    type Item = DirectoryEntry<'a>;

    ghost use Rattle.std.specs.Iterator.{YieldsFirstBy, item_count};
    ghost use Rattle.sn_layout_node.specs.DirectoryEntry.{link_of, links_left};

    ghost next_gives = { YieldsFirstBy link_of links_left };

    ghost remaining = { item_count links_left };

    fn next(&mut self) -> Option<DirectoryEntry<'a>> {
        if self.reader.remaining() == 0 {
            return None;
        }
        Some(next_link(&mut self.reader))
    }
}

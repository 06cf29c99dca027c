//! Times, read from bytes.
ghost use Rattle.std.specs.Prelude.{◌≡◌, ℕ, ◌^◌, ◌<◌, ◌≤◌, List, ◌∷◌, ◌++◌, length, Some, IfSome, IfOk, MatchResult};
ghost use Rattle.std.specs.List.{flat_map};
ghost use Rattle.std.specs.FinMap as map;
ghost use Rattle.sn_fuse.specs.declared.operation.Time.{Time as TheTime};
ghost use Rattle.sn_times.specs.Dates.{Tree};
ghost use Rattle.sn_times_file.specs.Faults.{Reads};
ghost use Rattle.sn_times_file.specs.Kept.{AreSections, IsKept, IsNamed, IsOwn, IsTime, IsTree, Kept, Named, Own, entry_bytes, head_bytes, named_bytes, own_bytes, spelling, time_bytes, tree_bytes};
ghost use Rattle.sn_times_file.specs.declared.fault.Unreadable.TheVariants.{Memory};

use crate::checksum::unsealed;
use crate::entry::{TIME_SIZE, is_time, read_entry, read_time};
use crate::fault::Unreadable;
use crate::saved::{Saved, Section};
use crate::writer::{HEAD_SIZE, MAGIC, VERSION};
use sn_bytes::Reader;
use sn_fuse::Time;
use sn_times::TreeTimes;
use std::alloc::Global;

/// Bytes of a root, at most.
const ROOT_MAX: u32 = 4_096;

/// The most sections: as many as an image can have trees.
const SECTIONS_MAX: usize = 32;

// What comes before the root, and the root.
fn read_root(alloc: Global, reader: &mut Reader<'_>) -> Result<Vec<u8>, Unreadable>
    ensures found { IfOk result (λ root. length root.items ≤ 4096) }
    ensures read { IfOk result (λ root. reader.old ≡ (head_bytes root.items ++ root.items) ++ reader.new) }
    ensures only { (root rest : List ℕ) → length root ≤ 4096 → reader.old ≡ (head_bytes root ++ root) ++ rest
        → MatchResult result (λ read. (read.items ≡ root) × (reader.new ≡ rest)) (λ fault. fault ≡ Memory) }
{
    if reader.remaining() < HEAD_SIZE {
        return Err(Unreadable::Misspelt);
    }
    let is_magic = reader.are(&MAGIC);
    let version = reader.u32();
    let length = reader.u32();
    if !is_magic || version != VERSION || length > ROOT_MAX {
        return Err(Unreadable::Misspelt);
    }
    let length = length as usize;
    if reader.remaining() < length {
        return Err(Unreadable::Misspelt);
    }
    Ok(Vec::from_slice(alloc, reader.bytes(length))?)
}

// The time of the objects of a tree that have none of their own.
fn read_base(reader: &mut Reader<'_>) -> Option<Time>
    ensures found { IfSome result (λ time. IsTime time × (reader.old ≡ time_bytes time ++ reader.new)) }
    ensures only { (time : TheTime) (rest : List ℕ) → IsTime time → reader.old ≡ time_bytes time ++ rest → (result ≡ Some time) × (reader.new ≡ rest) }
{
    if reader.remaining() < TIME_SIZE {
        return None;
    }
    let time = read_time(reader);
    if !is_time(time) {
        return None;
    }
    Some(time)
}

// So many entries of a tree with this base.
fn read_entries(
    alloc: Global,
    reader: &mut Reader<'_>,
    base: Time,
    count: u64,
) -> Result<TreeTimes, Unreadable>
    ensures found { IfOk result (λ tree. (tree.base ≡ base) × (map.len tree.own ≡ count) × IsOwn tree.own) }
    ensures read { IfOk result (λ tree. reader.old ≡ flat_map entry_bytes (map.entries tree.own) ++ reader.new) }
    ensures only { (own : Own) (rest : List ℕ) → map.len own ≡ count → IsOwn own → reader.old ≡ flat_map entry_bytes (map.entries own) ++ rest
        → Reads result reader.new (record { base = base; own = own }) rest }
{
    let mut tree = TreeTimes::new(alloc, base);
    let mut least = 0;
    for _ in 0..count {
        let Some((number, stamps)) = read_entry(reader) else {
            return Err(Unreadable::Misspelt);
        };
        let found = u32::from(number);
        if found < least {
            return Err(Unreadable::Misspelt);
        }
        tree.insert(number, stamps)?;
        least = found + 1;
    }
    Ok(tree)
}

// The count and the entries of a tree with this base.
fn read_own(alloc: Global, reader: &mut Reader<'_>, base: Time) -> Result<TreeTimes, Unreadable>
    ensures found { IfOk result (λ tree. (tree.base ≡ base) × (map.len tree.own < 2 ^ 64) × IsOwn tree.own) }
    ensures read { IfOk result (λ tree. reader.old ≡ own_bytes tree.own ++ reader.new) }
    ensures only { (own : Own) (rest : List ℕ) → map.len own < 2 ^ 64 → IsOwn own → reader.old ≡ own_bytes own ++ rest
        → Reads result reader.new (record { base = base; own = own }) rest }
{
    let Some(count) = reader.try_u64() else {
        return Err(Unreadable::Misspelt);
    };
    read_entries(alloc, reader, base, count)
}

// A tree's base, its count and its entries.
fn read_tree(alloc: Global, reader: &mut Reader<'_>) -> Result<TreeTimes, Unreadable>
    ensures found { IfOk result (λ tree. IsTree tree) }
    ensures read { IfOk result (λ tree. reader.old ≡ tree_bytes tree ++ reader.new) }
    ensures only { (tree : Tree) (rest : List ℕ) → IsTree tree → reader.old ≡ tree_bytes tree ++ rest → Reads result reader.new tree rest }
{
    let Some(base) = read_base(reader) else {
        return Err(Unreadable::Misspelt);
    };
    read_own(alloc, reader, base)
}

// A name.
fn read_name(alloc: Global, reader: &mut Reader<'_>) -> Result<Vec<u8>, Unreadable>
    ensures found { IfOk result (λ name. length name.items ≤ 255) }
    ensures read { IfOk result (λ name. reader.old ≡ (length name.items ∷ name.items) ++ reader.new) }
    ensures only { (name rest : List ℕ) → reader.old ≡ (length name ∷ name) ++ rest
        → MatchResult result (λ read. (read.items ≡ name) × (reader.new ≡ rest)) (λ fault. fault ≡ Memory) }
{
    let Some(length) = reader.try_u8() else {
        return Err(Unreadable::Misspelt);
    };
    let length = usize::from(length);
    if reader.remaining() < length {
        return Err(Unreadable::Misspelt);
    }
    Ok(Vec::from_slice(alloc, reader.bytes(length))?)
}

fn read_section(alloc: Global, reader: &mut Reader<'_>) -> Result<Section, Unreadable>
    ensures found { IfOk result (λ section. IsNamed section) }
    ensures read { IfOk result (λ section. reader.old ≡ named_bytes section ++ reader.new) }
    ensures only { (named : Named) (rest : List ℕ) → IsNamed named → reader.old ≡ named_bytes named ++ rest → Reads result reader.new named rest }
{
    let name = read_name(alloc, reader)?;
    let tree = read_tree(alloc, reader)?;
    Ok(Section { name, tree })
}

// All sections to the end.
fn read_sections(alloc: Global, reader: &mut Reader<'_>) -> Result<Vec<Section>, Unreadable>
    ensures found { IfOk result (λ sections. AreSections sections.items) }
    ensures read { IfOk result (λ sections. reader.old ≡ flat_map named_bytes sections.items) }
    ensures only { (all : List Named) → AreSections all → reader.old ≡ flat_map named_bytes all
        → MatchResult result (λ sections. sections.items ≡ all) (λ fault. fault ≡ Memory) }
{
    let mut sections = Vec::new(alloc);
    while reader.remaining() > 0 {
        if sections.len() >= SECTIONS_MAX {
            return Err(Unreadable::Misspelt);
        }
        let section = read_section(alloc, reader)?;
        sections.push(section)?;
    }
    Ok(sections)
}

/// The times that bytes spell. Any bytes may be given.
///
/// Fails where memory is refused, or the bytes aren't exactly what a [`Writer`](crate::Writer) makes of some times.
///
/// Proved, also of `Writer::new`, `Writer::section` and `Writer::finish`: Times that are written are read again, and no bytes are read as others than
/// those of which they are the spelling.
pub fn decode(alloc: Global, bytes: &[u8]) -> Result<Saved, Unreadable>
    ensures found { IfOk result (λ saved. IsKept saved) }
    ensures read { IfOk result (λ saved. bytes.now ≡ spelling saved) }
    ensures only { (kept : Kept) → IsKept kept → bytes.now ≡ spelling kept → MatchResult result (λ saved. saved ≡ kept) (λ fault. fault ≡ Memory) }
{
    let Some(body) = unsealed(bytes) else {
        return Err(Unreadable::Misspelt);
    };
    let mut reader = Reader::new(body);
    let root = read_root(alloc, &mut reader)?;
    let sections = read_sections(alloc, &mut reader)?;
    Ok(Saved { root, sections })
}

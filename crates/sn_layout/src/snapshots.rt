ghost use Rattle.std.specs.Prelude.{◌≡◌, ℕ, ◌+◌, ◌-◌, ◌*◌, ◌<◌, ◌≤◌, List, [], ◌∷◌, ◌++◌, length, remove, slice_index_or, Some, IfSome, IsTrue, ◌↔◌};
ghost use Rattle.std.specs.List.{AllByRecursion, list_any};
ghost use Rattle.std.specs.Str.{bytes_eq};
ghost use Rattle.sn_bytes.specs.Bytes.{Puts, zeros};
ghost use Rattle.sn_layout.specs.Snapshot.{IsSnapshot, snapshots_bytes, index_of, with_snapshot, has_no_bit};
ghost use Rattle.sn_layout.specs.Snapshot as lists;
ghost use Rattle.sn_layout.specs.declared.snapshot.Snapshot.{Snapshot as TheSnapshot};

use crate::Snapshot;
use arrayvec::ArrayVec;
use sn_bytes::Reader;
use sn_limits::Limits;
use std::marker::Model;

/// The snapshots that a root body has room for. The limits of its version may allow fewer.
pub const SNAPSHOT_ROOM: usize = 31;

/// The snapshots of a root body. It takes no memory.
#[derive(PartialEq, Eq, Drop)]
pub struct Snapshots {
    list: ArrayVec<Snapshot, SNAPSHOT_ROOM>,
}

impl Model for Snapshots {
    ghost use Rattle.std.specs.Prelude.{List, length, ◌≤◌};
    ghost use Rattle.sn_layout.specs.declared.snapshot.Snapshot.{Snapshot};

    ghost Value = { List Snapshot };

    ghost view = { λ s. s.list.items };

    ghost invariant = { λ s. length s.list.items ≤ 31 };

    ghost inverse = { λ list. record { list = record { items = list } } };
}

impl Snapshots {
    /// No snapshot. The list has its room in itself, so it takes no memory.
    pub fn new() -> Self
        ensures { result ≡ [] }
    {
        Snapshots {
            list: ArrayVec::new(),
        }
    }

    /// The snapshots, in the order in which the root body has them.
    pub fn as_slice(&self) -> &[Snapshot]
        ensures value { result.now ≡ self.now }
        ensures room { length self.now ≤ 31 }
    {
        self.list.as_slice()
    }

    /// Puts a snapshot after the others.
    pub fn push(&mut self, snapshot: Snapshot)
        requires { length self.old < 31 }
        ensures { self.new ≡ self.old ++ snapshot ∷ [] }
    {
        self.list.push(snapshot);
    }

    /// Puts one after those whose bits are not above its own.
    pub fn insert(&mut self, snapshot: Snapshot)
        requires { length self.old < 31 }
        ensures inserted { self.new ≡ with_snapshot snapshot self.old }
        ensures rising { IsTrue (lists.are_rising 0 self.old) → 0 < snapshot.bit → IsTrue (has_no_bit snapshot.bit self.old)
            → IsTrue (lists.are_rising 0 self.new) }
    {
        let index = index_of(self.as_slice(), snapshot.bit);
        self.list.insert(index, snapshot);
    }

    /// A copy, which takes no memory.
    pub fn copy(&self) -> Self
        ensures { result ≡ self.now }
    {
        let mut copy = Snapshots::new();
        let list = self.as_slice();
        for snapshot in list {
            copy.push(snapshot.copy());
        }
        copy
    }

    /// Removes and returns one of them.
    pub fn remove(&mut self, index: usize) -> Snapshot
        requires { index < length self.old }
        ensures removed { result ≡ slice_index_or self.old index result }
        ensures others { self.new ≡ remove self.old index }
    {
        self.list.remove(index)
    }

    /// Whether a disk of this version can hold them: not too many, by rising bit from 1 up, with
    /// different names.
    pub(crate) fn are_held(&self, limits: &Limits) -> bool
        ensures { result ≡ lists.are_held limits.now self.now }
    {
        let list = self.as_slice();
        list.len() <= limits.snapshots as usize
            && are_rising(list)
            && are_within(limits.largest_bit, list)
            && are_distinct(list)
    }
}

impl Default for Snapshots {
    ghost is_default = { λ snapshots. snapshots ≡ [] };

    fn default() -> Self {
        Snapshots::new()
    }
}

fn index_of(snapshots: &[Snapshot], bit: u8) -> usize
    ensures count { result ≡ index_of bit snapshots.now }
    ensures within { result ≤ length snapshots.now }
{
    let mut count = 0;
    for snapshot in snapshots {
        if snapshot.bit > bit {
            break;
        }
        count += 1;
    }
    count
}

// Each fits its fields, by their types.
pub(crate) fn fit(snapshots: &[Snapshot])
    ensures { AllByRecursion IsSnapshot snapshots.now }
{
    for snapshot in snapshots {
        snapshot.fits();
    }
}

fn are_rising(snapshots: &[Snapshot]) -> bool
    ensures { result ≡ lists.are_rising 0 snapshots.now }
{
    let mut before = 0;
    for snapshot in snapshots {
        if snapshot.bit <= before {
            return false;
        }
        before = snapshot.bit;
    }
    true
}

fn are_within(largest: u8, snapshots: &[Snapshot]) -> bool
    ensures { result ≡ lists.are_within largest snapshots.now }
{
    snapshots.iter().all(|snapshot| snapshot.bit <= largest)
}

fn has_name(snapshots: &[Snapshot], name: &[u8]) -> bool
    ensures { result ≡ list_any (λ other. bytes_eq name.now other.name) snapshots.now }
{
    snapshots.iter().any(|other| name == other.name.as_bytes())
}

fn are_distinct(snapshots: &[Snapshot]) -> bool
    ensures { result ≡ lists.are_distinct snapshots.now }
{
    for (i, snapshot) in snapshots.iter().enumerate() {
        if has_name(&snapshots[i + 1..], snapshot.name.as_bytes()) {
            return false;
        }
    }
    true
}

/// Writes them one after the other at an offset of a block, and answers the offset after them.
pub(crate) fn put_snapshots(block: &mut [u8], at: usize, snapshots: &[Snapshot]) -> usize
    requires { at + 112 * length snapshots.now ≤ length block.old }
    ensures bytes { Puts block.old block.new at result (snapshots_bytes snapshots.now) }
    ensures next { result ≡ at + 112 * length snapshots.now }
{
    let mut next = at;
    for snapshot in snapshots {
        next = snapshot.put(block, next);
    }
    next
}

// Reads so many, one after the other.
fn read_snapshots(reader: &mut Reader<'_>, count: usize) -> Option<Snapshots>
    requires count { count ≤ 31 }
    requires room { 112 * count ≤ length reader.old }
    ensures fits { IfSome result (λ all. (length all ≡ count) × AllByRecursion IsSnapshot all) }
    ensures read { IfSome result (λ all. reader.old ≡ snapshots_bytes all ++ reader.new) }
    ensures only { (all : List TheSnapshot) (rest : List ℕ) → length all ≡ count → AllByRecursion IsSnapshot all
        → reader.old ≡ snapshots_bytes all ++ rest → (result ≡ Some all) × (reader.new ≡ rest) }
    ensures left { IfSome result (λ _. length reader.new + 112 * count ≡ length reader.old) }
{
    let mut all = Snapshots::new();
    for _ in 0..count {
        let snapshot = Snapshot::read(reader)?;
        all.push(snapshot);
    }
    Some(all)
}

/// Reads so many, and zeros after them to the end of their room.
pub(crate) fn read_to_end(reader: &mut Reader<'_>, count: u32) -> Option<Snapshots>
    requires { length reader.old ≡ 3472 }
    ensures found { IfSome result (λ all. (length all ≡ count) × (reader.old ≡ snapshots_bytes all ++ zeros (3472 - 112 * length all))) }
    ensures only { (all : List TheSnapshot) → length all ≤ 31 → length all ≡ count → AllByRecursion IsSnapshot all
        → reader.old ≡ snapshots_bytes all ++ zeros (3472 - 112 * length all) → result ≡ Some all }
{
    let count = count as usize;
    if count > SNAPSHOT_ROOM {
        return None;
    }
    let snapshots = read_snapshots(reader, count)?;
    if !reader.are_zeros(reader.remaining()) {
        return None;
    }
    Some(snapshots)
}

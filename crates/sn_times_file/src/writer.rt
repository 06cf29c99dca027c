//! Times, written section by section.
ghost use Rattle.std.specs.Prelude.{◌≡◌, ◌^◌, ◌<◌, ◌≤◌, ◌++◌, length, IfOk, IfErr, OnOk};
ghost use Rattle.std.specs.List.{flat_map};
ghost use Rattle.std.specs.FinMap as map;
ghost use Rattle.sn_bytes.specs.Bytes.{number_bytes};
ghost use Rattle.sn_times_file.specs.Faults.{IsRefused};
ghost use Rattle.sn_times_file.specs.Kept.{IsNamed, IsOwn, IsTree, entry_bytes, front_bytes, head_bytes, named_bytes, own_bytes, sealed, tree_bytes};

use crate::checksum::checksum;
use crate::entry::{ENTRY_SIZE, entry_record, is_entry, is_time, time_record};
use crate::fault::Unwritable;
use sn_bytes::{put_bytes, put_u32, put_u64};
use sn_times::TreeTimes;
use std::alloc::{AllocError, Global};
use std::marker::Model;

/// What the bytes begin with.
pub(crate) const MAGIC: [u8; 8] = *b"snaptime";

/// The version of the bytes.
pub(crate) const VERSION: u32 = 2;

/// Bytes before the root.
pub(crate) const HEAD_SIZE: usize = 16;

/// Bytes of a count.
const COUNT_SIZE: usize = 8;

/// Bytes of a section beside its entries, at most.
const SECTION_SIZE: usize = 276;

// What comes before the root.
fn head(root: &[u8]) -> [u8; HEAD_SIZE]
    requires { length root.now ≤ 4096 }
    ensures { result ≡ head_bytes root.now }
{
    let mut record = [0; HEAD_SIZE];
    let at = put_bytes(&mut record, 0, &MAGIC);
    let at = put_u32(&mut record, at, VERSION);
    put_u32(&mut record, at, root.len() as u32);
    record
}

// How many objects a tree has.
fn count_record(count: usize) -> [u8; COUNT_SIZE]
    ensures { result ≡ number_bytes 8 count }
{
    let mut record = [0; COUNT_SIZE];
    put_u64(&mut record, 0, count as u64);
    record
}

fn append_entries(bytes: &mut Vec<u8>, tree: &TreeTimes) -> Result<(), Unwritable>
    ensures ok { OnOk result (bytes.new.items ≡ bytes.old.items ++ flat_map entry_bytes (map.entries tree.now.own)) }
    ensures own { OnOk result (IsOwn tree.now.own) }
    ensures err { IfErr result (λ fault. IsRefused (IsOwn tree.now.own) fault) }
{
    for (number, stamps) in tree.entries() {
        let number = *number;
        let stamps = *stamps;
        if !is_entry(number, stamps) {
            return Err(Unwritable::Time);
        }
        bytes.extend_from_slice(&entry_record(number, stamps))?;
    }
    Ok(())
}

// How many objects have times of their own, and these.
fn append_own(bytes: &mut Vec<u8>, tree: &TreeTimes) -> Result<(), Unwritable>
    ensures ok { OnOk result (bytes.new.items ≡ bytes.old.items ++ own_bytes tree.now.own) }
    ensures own { OnOk result ((map.len tree.now.own < 2 ^ 64) × IsOwn tree.now.own) }
    ensures err { IfErr result (λ fault. IsRefused (IsOwn tree.now.own) fault) }
{
    bytes.extend_from_slice(&count_record(tree.len()))?;
    append_entries(bytes, tree)
}

fn append_tree(bytes: &mut Vec<u8>, tree: &TreeTimes) -> Result<(), Unwritable>
    ensures ok { OnOk result (bytes.new.items ≡ bytes.old.items ++ tree_bytes tree.now) }
    ensures tree { OnOk result (IsTree tree.now) }
    ensures err { IfErr result (λ fault. IsRefused (IsTree tree.now) fault) }
{
    let base = tree.base();
    if !is_time(base) {
        return Err(Unwritable::Time);
    }
    bytes.extend_from_slice(&time_record(base))?;
    append_own(bytes, tree)
}

fn append_section(bytes: &mut Vec<u8>, name: &[u8], tree: &TreeTimes) -> Result<(), Unwritable>
    requires { length name.now ≤ 255 }
    ensures ok { OnOk result (bytes.new.items ≡ bytes.old.items ++ named_bytes (record { name = name.now; tree = tree.now })) }
    ensures tree { OnOk result (IsNamed (record { name = name.now; tree = tree.now })) }
    ensures err { IfErr result (λ fault. IsRefused (IsTree tree.now) fault) }
{
    bytes.reserve_exact(
        tree.len()
            .saturating_mul(ENTRY_SIZE)
            .saturating_add(SECTION_SIZE),
    )?;
    bytes.push(name.len() as u8)?;
    bytes.extend_from_slice(name)?;
    append_tree(bytes, tree)
}

/// Times that are being written. Callers see it as the bytes so far: what comes before the sections, and the sections that were written.
///
/// Memory is taken for each section at once: the bytes are there once, and where a section is added for a moment twice.
#[derive(Drop)]
pub struct Writer {
    bytes: Vec<u8>,
}

impl Model for Writer {
    ghost use Rattle.std.specs.Prelude.{ℕ, List};

    ghost Value = { List ℕ };

    ghost view = { λ writer. writer.bytes.items };
}

impl Writer {
    /// Begins with the root with which the times count. Fails where memory is refused.
    pub fn new(alloc: Global, root: &[u8]) -> Result<Writer, AllocError>
        requires { length root.now ≤ 4096 }
        ensures { IfOk result (λ writer. writer ≡ front_bytes root.now) }
    {
        let mut bytes = Vec::new(alloc);
        bytes.extend_from_slice(&head(root))?;
        bytes.extend_from_slice(root)?;
        Ok(Writer { bytes })
    }

    /// Writes the times of a tree's objects under the name of the tree.
    ///
    /// Fails where memory is refused, or one of the times has 10^9 nanoseconds or more.
    pub fn section(mut self, name: &[u8], tree: &TreeTimes) -> Result<Writer, Unwritable>
        requires { length name.now ≤ 255 }
        ensures ok { IfOk result (λ writer. writer ≡ self ++ named_bytes (record { name = name.now; tree = tree.now })) }
        ensures tree { OnOk result (IsNamed (record { name = name.now; tree = tree.now })) }
        ensures err { IfErr result (λ fault. IsRefused (IsTree tree.now) fault) }
    {
        append_section(&mut self.bytes, name, tree)?;
        Ok(self)
    }

    /// The whole bytes. Fails where memory is refused.
    pub fn finish(self) -> Result<Vec<u8>, AllocError>
        ensures { IfOk result (λ bytes. bytes.items ≡ sealed self) }
    {
        let mut bytes = self.bytes;
        let sum = checksum(bytes.as_slice());
        bytes.extend_from_slice(&sum)?;
        Ok(bytes)
    }
}

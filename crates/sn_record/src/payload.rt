//! | first byte | change |
//! |---|---|
//! | 1 | make |
//! | 2 | link |
//! | 3 | remove |
//! | 4 | rename |
//! | 5 | write |
//! | 6 | set size |
//! | 7 | set attributes |
ghost use Rattle.std.specs.Prelude.{◌≡◌, ◌↔◌, ◌+◌, ◌≤◌, ◌<◌, ◌^◌, [], ◌∷◌, ◌++◌, length, Some, IsSome, IfSome, IsTrue};
ghost use Rattle.sn_model.specs.declared.change.Change.{Change as TheChange};
ghost use Rattle.sn_layout.specs.Bytes.{Puts};
ghost use Rattle.sn_record.specs.Payload.{IsOwnership, HasFittingNumbers, IsSpelled, change_number, fields_bytes, payload_bytes, PayloadsDiffer, PayloadsFit};
ghost use Rattle.sn_record.specs.Sizes.{entries_of, fields_size};

use crate::attributes::{put_attributes, put_make, read_attributes, read_make};
use crate::contents::{is_written_size, put_size, put_write, read_size, read_write};
use crate::links::{put_link, put_remove, put_rename, read_link, read_remove, read_rename};
use crate::ownership::entries_of;
use sn_layout::{Reader, put_u8};
use sn_limits::is_name;
use sn_model::{Change, Ownership};
use std::marker::Model;

/// The bytes of the longest payload, that of a write.
pub const PAYLOAD_MAX: usize = 65_547;

/// A change that has a payload, with the size of that, which is counted once for all that a log asks of it. Callers see it
/// as the change.
#[derive(Drop)]
pub struct Payload<'a> {
    change: &'a Change<'a>,
    size: usize,
}

impl<'a> Model for Payload<'a> {
    ghost use Rattle.std.specs.Prelude.{◌≡◌, length};
    ghost use Rattle.sn_model.specs.declared.change.Change.{Change as TheChange};
    ghost use Rattle.sn_record.specs.Payload.{IsSpelled, payload_bytes};

    ghost Value = { TheChange };

    ghost view = { λ payload. payload.change.now };

    ghost invariant = { λ payload. IsSpelled payload.change.now × (payload.size ≡ length (payload_bytes payload.change.now)) };
}

impl<'a> Payload<'a> {
    /// The payload of a change, or none where its names aren't such as a directory can have, or it writes no byte or over
    /// 65,536. All else is valid by its types. Whether it can be applied to a tree is not asked.
    ///
    /// Proved: The test is exact which changes have a payload; whether a change can be applied is not asked.
    pub fn of(change: &'a Change<'a>) -> Option<Self>
        ensures valid { IsSome result ↔ IsSpelled change.now }
        ensures same { IfSome result (λ payload. payload ≡ change.now) }
    {
        if !is_valid(change) {
            return None;
        }
        let size = payload_size(change);
        Some(Payload { change, size })
    }

    /// The change that it spells.
    pub fn change(&self) -> &'a Change<'a>
        ensures same { result.now ≡ self.now }
        ensures spelled { IsSpelled self.now }
    {
        self.change
    }

    /// How many bytes it has.
    ///
    /// Proved, also of `payloads_fit` and `payloads_differ`: Each payload has 1 to 65,547 bytes, and no two changes have one
    /// payload.
    pub fn size(&self) -> usize
        ensures value { result ≡ length (payload_bytes self.now) }
        ensures spelled { IsSpelled self.now }
        ensures least { 1 ≤ result }
        ensures most { result ≤ PAYLOAD_MAX }
    {
        self.size
    }
}

// By the types of its fields.
fn fits(ownership: &Ownership)
    ensures { IsOwnership ownership.now }
{
    let _owner = ownership.owner;
    let _group = ownership.group;
    ownership.acl.entries();
    if let Some(acl) = &ownership.default_acl {
        acl.entries();
    }
}

// The numbers and ACLs of a change, by the types of its fields.
fn numbers_fit(change: &Change<'_>)
    ensures { HasFittingNumbers change.now }
{
    match change {
        Change::Make {
            directory,
            number,
            ownership,
            ..
        } => {
            let _numbers = (*directory, *number);
            fits(ownership);
        }
        Change::AddLink {
            directory,
            number,
            ..
        } => {
            let _numbers = (*directory, *number);
        }
        Change::Remove { directory, .. } => {
            let _number = *directory;
        }
        Change::Rename {
            old_directory,
            new_directory,
            ..
        } => {
            let _numbers = (*old_directory, *new_directory);
        }
        Change::Write { number, offset, .. } => {
            let _numbers = (*number, *offset);
        }
        Change::SetSize { number, size } => {
            let _numbers = (*number, *size);
        }
        Change::SetAttributes { number, ownership } => {
            let _number = *number;
            fits(ownership);
        }
    }
}

// Whether a change has a payload. All but its names and the bytes that it writes is valid by its types.
fn is_valid(change: &Change<'_>) -> bool
    ensures { IsTrue result ↔ IsSpelled change.now }
{
    numbers_fit(change);
    match change {
        Change::Make { name, .. } | Change::AddLink { name, .. } | Change::Remove { name, .. } => {
            is_name(name.as_slice())
        }
        Change::Rename {
            old_name,
            new_name,
            ..
        } => is_name(old_name.as_slice()) && is_name(new_name.as_slice()),
        Change::Write { bytes, .. } => is_written_size(bytes.as_slice().len()),
        Change::SetSize { .. } | Change::SetAttributes { .. } => true,
    }
}

fn fields_size(change: &Change<'_>) -> usize
    requires { IsSpelled change.now }
    ensures { result ≡ fields_size change.now }
{
    match change {
        Change::Make {
            name,
            ownership,
            ..
        } => 19 + 8 * entries_of(ownership) + name.as_slice().len(),
        Change::AddLink { name, .. } => 5 + name.as_slice().len(),
        Change::Remove { name, .. } => 3 + name.as_slice().len(),
        Change::Rename {
            old_name,
            new_name,
            ..
        } => 6 + old_name.as_slice().len() + new_name.as_slice().len(),
        Change::Write { bytes, .. } => 10 + bytes.as_slice().len(),
        Change::SetSize { .. } => 10,
        Change::SetAttributes { ownership, .. } => 15 + 8 * entries_of(ownership),
    }
}

// How many bytes the payload of a change has.
fn payload_size(change: &Change<'_>) -> usize
    requires { IsSpelled change.now }
    ensures value { result ≡ length (payload_bytes change.now) }
    ensures least { 1 ≤ result }
    ensures most { result ≤ PAYLOAD_MAX }
{
    1 + fields_size(change)
}

/// Every payload has 1 to 65,547 bytes.
pub fn payloads_fit()
    ensures { PayloadsFit }
{}

/// No two changes have one payload.
pub fn payloads_differ()
    ensures { PayloadsDiffer }
{}

fn change_number(change: &Change<'_>) -> u8
    ensures { result ≡ change_number change.now }
{
    match change {
        Change::Make { .. } => 1,
        Change::AddLink { .. } => 2,
        Change::Remove { .. } => 3,
        Change::Rename { .. } => 4,
        Change::Write { .. } => 5,
        Change::SetSize { .. } => 6,
        Change::SetAttributes { .. } => 7,
    }
}

fn put_fields(block: &mut [u8], at: usize, change: &Change<'_>) -> usize
    requires spelled { IsSpelled change.now }
    requires room { at + fields_size change.now ≤ length block.old }
    ensures { Puts block.old block.new at result (fields_bytes change.now) }
{
    match change {
        Change::Make {
            directory,
            name,
            number,
            kind,
            ownership,
        } => put_make(
            block,
            at,
            *directory,
            name.as_slice(),
            *number,
            *kind,
            ownership,
        ),
        Change::AddLink {
            directory,
            name,
            number,
        } => put_link(block, at, *directory, *number, name.as_slice()),
        Change::Remove { directory, name } => put_remove(block, at, *directory, name.as_slice()),
        Change::Rename {
            old_directory,
            old_name,
            new_directory,
            new_name,
        } => put_rename(
            block,
            at,
            *old_directory,
            old_name.as_slice(),
            *new_directory,
            new_name.as_slice(),
        ),
        Change::Write {
            number,
            offset,
            bytes,
        } => put_write(block, at, *number, *offset, bytes.as_slice()),
        Change::SetSize { number, size } => put_size(block, at, *number, *size),
        Change::SetAttributes { number, ownership } => {
            put_attributes(block, at, *number, ownership)
        }
    }
}

/// Writes the payload of a change at an offset, and answers the offset after it.
///
/// Proved, also of `decode`: The payload of a record, for all seven changes, is written as the change's one spelling, and
/// read exactly from it, with nothing after it; names and written bytes are lent from it.
pub fn put_change(block: &mut [u8], at: usize, change: &Change<'_>) -> usize
    requires spelled { IsSpelled change.now }
    requires room { at + length (payload_bytes change.now) ≤ length block.old }
    ensures { Puts block.old block.new at result (payload_bytes change.now) }
{
    let at = put_u8(block, at, change_number(change));
    put_fields(block, at, change)
}

fn read_change<'a>(reader: &mut Reader<'a>) -> Option<Change<'a>>
    ensures found { IfSome result (λ change. IsSpelled change × (reader.old ≡ payload_bytes change ++ reader.new)) }
    ensures only { (change : TheChange) → IsSpelled change → reader.old ≡ payload_bytes change → (result ≡ Some change) × (reader.new ≡ []) }
{
    match reader.try_u8()? {
        1 => read_make(reader),
        2 => read_link(reader),
        3 => read_remove(reader),
        4 => read_rename(reader),
        5 => read_write(reader),
        6 => read_size(reader),
        7 => read_attributes(reader),
        _ => None,
    }
}

/// The change whose payload the bytes are. Its names and the bytes that it writes are lent from the
/// payload.
pub fn decode<'a>(payload: &'a [u8]) -> Option<Change<'a>>
    ensures found { IfSome result (λ change. IsSpelled change × (payload.now ≡ payload_bytes change)) }
    ensures only { (change : TheChange) → IsSpelled change → payload.now ≡ payload_bytes change → result ≡ Some change }
{
    let mut reader = Reader::new(payload);
    let change = read_change(&mut reader)?;
    if reader.remaining() > 0 {
        return None;
    }
    Some(change)
}

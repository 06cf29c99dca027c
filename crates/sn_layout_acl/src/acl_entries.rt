//! | offset | field of an entry, 8 bytes in all |
//! |---|---|
//! | 0 | tag u8: 1 USER_OBJ, 2 USER, 3 GROUP_OBJ, 4 GROUP, 5 MASK, 6 OTHER |
//! | 1 | permissions u8: read 4, write 2, execute 1 |
//! | 2 | zeros |
//! | 4 | user or group number u32, 0 where the tag has none |
ghost use Rattle.std.specs.Prelude.{◌≡◌, ℕ, ◌+◌, ◌*◌, ◌<◌, ◌≤◌, List, [], ◌∷◌, ◌++◌, length, Some, IfSome};
ghost use Rattle.std.specs.List.{AllByRecursion};
ghost use Rattle.sn_acl.specs.Entries.{qualifier_of};
ghost use Rattle.sn_acl.specs.declared.entries.Tag.{Tag as TheTag};
ghost use Rattle.sn_acl.specs.declared.entries.Entry.{Entry as TheEntry};
ghost use Rattle.sn_layout.specs.Bytes.{Puts};
ghost use Rattle.sn_layout_acl.specs.AclEntry.{tag_number, IsEntry, entry_bytes, entries_bytes};

use arrayvec::ArrayVec;
use sn_acl::{Entry, MAX_ENTRIES, Permissions, Tag};
use sn_layout::{Reader, put_u8, put_u32, put_zeros};

/// The bytes of an entry.
pub const ENTRY_SIZE: usize = 8;

fn tag_number(tag: Tag) -> u8
    ensures { result ≡ tag_number tag }
{
    match tag {
        Tag::UserObj => 1,
        Tag::User(_) => 2,
        Tag::GroupObj => 3,
        Tag::Group(_) => 4,
        Tag::Mask => 5,
        Tag::Other => 6,
    }
}

fn qualifier_of(tag: Tag) -> u32
    ensures { result ≡ qualifier_of tag }
{
    match tag {
        Tag::User(number) | Tag::Group(number) => number,
        _ => 0,
    }
}

fn tag_of(number: u8, qualifier: u32) -> Option<Tag>
    ensures found { IfSome result (λ tag. (number ≡ tag_number tag) × (qualifier ≡ qualifier_of tag)) }
    ensures only { (tag : TheTag) → number ≡ tag_number tag → qualifier ≡ qualifier_of tag → result ≡ Some tag }
{
    match (number, qualifier) {
        (1, 0) => Some(Tag::UserObj),
        (2, user) => Some(Tag::User(user)),
        (3, 0) => Some(Tag::GroupObj),
        (4, group) => Some(Tag::Group(group)),
        (5, 0) => Some(Tag::Mask),
        (6, 0) => Some(Tag::Other),
        _ => None,
    }
}

fn put_entry(block: &mut [u8], at: usize, entry: Entry) -> usize
    requires { at + 8 ≤ length block.old }
    ensures bytes { Puts block.old block.new at result (entry_bytes entry) }
    ensures next { result ≡ at + 8 }
{
    let at = put_u8(block, at, tag_number(entry.tag));
    let at = put_u8(block, at, entry.permissions.bits());
    let at = put_zeros(block, at, 2);
    put_u32(block, at, qualifier_of(entry.tag))
}

fn read_entry(reader: &mut Reader<'_>) -> Option<Entry>
    requires { 8 ≤ length reader.old }
    ensures found { IfSome result (λ e. IsEntry e × (reader.old ≡ entry_bytes e ++ reader.new)) }
    ensures only { (e : TheEntry) (rest : List ℕ) → IsEntry e → reader.old ≡ entry_bytes e ++ rest
        → (result ≡ Some e) × (reader.new ≡ rest) }
    ensures left { IfSome result (λ e. length reader.new + 8 ≡ length reader.old) }
{
    let tag = reader.u8();
    let permissions = Permissions::from_bits(reader.u8())?;
    if !reader.are_zeros(2) {
        return None;
    }
    let tag = tag_of(tag, reader.u32())?;
    Some(Entry { tag, permissions })
}

/// Writes entries one after the other, as ACL blocks and log records have them, and answers the
/// offset after them.
pub fn put_entries(block: &mut [u8], at: usize, entries: &[Entry]) -> usize
    requires { at + 8 * length entries.now ≤ length block.old }
    ensures bytes { Puts block.old block.new at result (entries_bytes entries.now) }
    ensures next { result ≡ at + 8 * length entries.now }
{
    let mut next = at;
    for entry in entries {
        next = put_entry(block, next, *entry);
    }
    next
}

/// Reads so many entries, whatever ACL they make. `None` where one of them is no entry; how far the
/// reader has come then is open.
pub fn read_entries(reader: &mut Reader<'_>, count: usize) -> Option<ArrayVec<Entry, MAX_ENTRIES>>
    requires count { count ≤ 36 }
    requires room { 8 * count ≤ length reader.old }
    ensures fits { IfSome result (λ all. (length all.items ≡ count) × AllByRecursion IsEntry all.items) }
    ensures read { IfSome result (λ all. reader.old ≡ entries_bytes all.items ++ reader.new) }
    ensures only { (all : List TheEntry) (rest : List ℕ) → length all ≡ count → AllByRecursion IsEntry all
        → reader.old ≡ entries_bytes all ++ rest → (result ≡ Some (record { items = all })) × (reader.new ≡ rest) }
    ensures left { IfSome result (λ _. length reader.new + 8 * count ≡ length reader.old) }
{
    let mut all = ArrayVec::new();
    for _ in 0..count {
        let entry = read_entry(reader)?;
        all.push(entry);
    }
    Some(all)
}

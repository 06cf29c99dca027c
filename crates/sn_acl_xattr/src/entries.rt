//! The entries of a value, as they are there and as entries of an ACL.
ghost use Rattle.std.specs.Prelude.{◌≡◌, ℕ, ◌+◌, ◌*◌, ◌<◌, ◌≤◌, List, ◌++◌, length, true, Some, IfSome};
ghost use Rattle.std.specs.List.{AllByRecursion, list_all};
ghost use Rattle.sn_acl.specs.Entries.{qualifier_of};
ghost use Rattle.sn_acl.specs.AccessList.{is_entry};
ghost use Rattle.sn_acl.specs.declared.entries.Entry.{Entry as TheEntry};
ghost use Rattle.sn_bytes.specs.Bytes.{Puts};
ghost use Rattle.sn_acl_xattr.specs.declared.entries.RawEntry.{RawEntry as TheRawEntry};
ghost use Rattle.sn_acl_xattr.specs.Values.{tag_number, written_id, raw_of, raw_bytes, raws_bytes, IsRaw, IsRawOf, AreRawOf};

use arrayvec::ArrayVec;
use sn_acl::{Entry, MAX_ENTRIES, Permissions, Tag};
use sn_bytes::{Reader, put_u16, put_u32};

/// The bytes of an entry.
pub const ENTRY_SIZE: usize = 8;

// What is in place of a user or a group where the tag has none.
const NO_ID: u32 = 0xffff_ffff;

/// The numbers of an entry, which may be those of none.
#[derive(Clone, Copy, PartialEq, Eq, Default)]
pub struct RawEntry {
    pub tag: u16,
    pub permissions: u16,
    pub id: u32,
}

fn tag_number(tag: Tag) -> u16
    ensures { result ≡ tag_number tag }
{
    match tag {
        Tag::UserObj => 1,
        Tag::User(_) => 2,
        Tag::GroupObj => 4,
        Tag::Group(_) => 8,
        Tag::Mask => 16,
        Tag::Other => 32,
    }
}

fn written_id(tag: Tag) -> u32
    ensures { result ≡ written_id tag }
{
    match tag {
        Tag::User(number) | Tag::Group(number) => number,
        _ => NO_ID,
    }
}

impl RawEntry {
    /// The numbers that are written for an entry.
    pub fn of(entry: Entry) -> Self
        ensures value { result ≡ raw_of entry }
        ensures fits { IsRaw result }
    {
        RawEntry {
            tag: tag_number(entry.tag),
            permissions: u16::from(entry.permissions.bits()),
            id: written_id(entry.tag),
        }
    }

    /// The entry with these numbers, if there is one.
    fn entry(self) -> Option<Entry>
        ensures found { IfSome result (λ e. IsRawOf self e) }
        ensures only { (e : TheEntry) → is_entry e ≡ true → IsRawOf self e → result ≡ Some e }
    {
        let tag = match self.tag {
            1 => Tag::UserObj,
            2 => Tag::User(self.id),
            4 => Tag::GroupObj,
            8 => Tag::Group(self.id),
            16 => Tag::Mask,
            32 => Tag::Other,
            _ => return None,
        };
        let bits = u8::try_from(self.permissions).ok()?;
        let permissions = Permissions::from_bits(bits)?;
        Some(Entry { tag, permissions })
    }

    /// Its bytes.
    pub fn bytes(self) -> [u8; ENTRY_SIZE]
        ensures { result ≡ raw_bytes self }
    {
        let mut bytes = [0; ENTRY_SIZE];
        let at = put_u16(&mut bytes, 0, self.tag);
        let at = put_u16(&mut bytes, at, self.permissions);
        put_u32(&mut bytes, at, self.id);
        bytes
    }

    fn read(reader: &mut Reader<'_>) -> Self
        requires { 8 ≤ length reader.old }
        ensures fits { IsRaw result }
        ensures read { reader.old ≡ raw_bytes result ++ reader.new }
        ensures only { (raw : TheRawEntry) (rest : List ℕ) → IsRaw raw → reader.old ≡ raw_bytes raw ++ rest → (result ≡ raw) × (reader.new ≡ rest) }
        ensures left { length reader.new + 8 ≡ length reader.old }
    {
        let tag = reader.u16();
        let permissions = reader.u16();
        let id = reader.u32();
        RawEntry {
            tag,
            permissions,
            id,
        }
    }
}

/// Reads so many entries.
pub fn read_raws(reader: &mut Reader<'_>, count: usize) -> ArrayVec<RawEntry, MAX_ENTRIES>
    requires count { count ≤ 36 }
    requires room { 8 * count ≤ length reader.old }
    ensures fits { (length result.items ≡ count) × AllByRecursion IsRaw result.items }
    ensures read { reader.old ≡ raws_bytes result.items ++ reader.new }
    ensures only { (raws : List TheRawEntry) (rest : List ℕ) → length raws ≡ count → AllByRecursion IsRaw raws
        → reader.old ≡ raws_bytes raws ++ rest → (result.items ≡ raws) × (reader.new ≡ rest) }
    ensures left { length reader.new + 8 * count ≡ length reader.old }
{
    let mut raws = ArrayVec::new();
    for _ in 0..count {
        raws.push(RawEntry::read(reader));
    }
    raws
}

/// The entries with these numbers. `None` where some are those of no entry.
pub fn entries_of(raws: &[RawEntry]) -> Option<ArrayVec<Entry, MAX_ENTRIES>>
    requires { length raws.now ≤ 36 }
    ensures found { IfSome result (λ entries. AreRawOf raws.now entries.items) }
    ensures only { (entries : List TheEntry) → list_all is_entry entries ≡ true → AreRawOf raws.now entries → result ≡ Some (record { items = entries }) }
{
    let mut entries = ArrayVec::new();
    for raw in raws {
        entries.push(raw.entry()?);
    }
    Some(entries)
}

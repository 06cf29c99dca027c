ghost use Rattle.std.specs.Prelude.{◌≡◌, ◌≤◌, List, length, true, Some, IfSome};
ghost use Rattle.std.specs.List.{list_all};
ghost use Rattle.sn_acl.specs.AccessList.{IsValid, is_entry};
ghost use Rattle.sn_acl.specs.declared.entries.Entry.{Entry as TheEntry};
ghost use Rattle.sn_bytes.specs.Bytes.{number_bytes};
ghost use Rattle.sn_acl_xattr.specs.Values.{value_of, HasEntries, IsValueOf};

use crate::entries::{ENTRY_SIZE, RawEntry, entries_of, read_raws};
use crate::order::sort;
use arrayvec::ArrayVec;
use sn_acl::{Acl, Entry, MAX_ENTRIES};
use sn_bytes::{Reader, put_u32};

// The version of values that Linux has.
const VERSION: u32 = 2;

// The bytes of the version.
const HEAD_SIZE: usize = 4;

/// The most bytes of a value: the version, and 36 entries.
pub const LONGEST_VALUE: usize = 292;

fn version_bytes() -> [u8; HEAD_SIZE]
    ensures { result ≡ number_bytes HEAD_SIZE VERSION }
{
    let mut bytes = [0; HEAD_SIZE];
    put_u32(&mut bytes, 0, VERSION);
    bytes
}

/// The value of an ACL, its entries in canonical order.
///
/// Proved: An ACL is written as its one value in canonical order.
pub fn encode(acl: &Acl) -> ArrayVec<u8, LONGEST_VALUE>
    ensures { result.items ≡ value_of acl.now }
{
    let mut value = ArrayVec::new();
    value.try_extend_from_slice(&version_bytes()).unwrap();
    for entry in acl.entries() {
        let bytes = RawEntry::of(*entry).bytes();
        value.try_extend_from_slice(&bytes).unwrap();
    }
    value
}

/// The ACL whose entries a value has, in whatever order. `None` where it is the value of no valid ACL: of another version,
/// with bytes after the last entry, with numbers that are those of no entry, with an entry missing or twice, with named
/// entries and no MASK, or with more than 32 of them.
///
/// Proved: A value is read as an ACL exactly where it has the entries of a valid one, each once, in whatever order; where it
/// has none of such, as none.
pub fn decode(value: &[u8]) -> Option<Acl>
    ensures found { IfSome result (λ acl. IsValid acl × IsValueOf value.now acl) }
    ensures only { (acl : List TheEntry) → IsValid acl → IsValueOf value.now acl → result ≡ Some acl }
{
    let mut entries = read_entries(value)?;
    sort(&mut entries);
    Acl::from_entries(entries.as_slice())
}

// The entries of a value, in its order, which may be no ACL.
fn read_entries(value: &[u8]) -> Option<ArrayVec<Entry, MAX_ENTRIES>>
    ensures found { IfSome result (λ read. HasEntries value.now read.items) }
    ensures only { (entries : List TheEntry) → length entries ≤ 36 → list_all is_entry entries ≡ true → HasEntries value.now entries → result ≡ Some (record { items = entries }) }
{
    if value.len() < HEAD_SIZE {
        return None;
    }
    let mut reader = Reader::new(value);
    let version = reader.u32();
    let count = reader.remaining() / ENTRY_SIZE;
    if version != VERSION || reader.remaining() % ENTRY_SIZE != 0 || count > MAX_ENTRIES {
        return None;
    }
    entries_of(read_raws(&mut reader, count).as_slice())
}

//! | offset | field of what a make and a setting of attributes give a node |
//! |---|---|
//! | 0 | S bits u8 |
//! | 1 | rights u16 |
//! | 3 | owner u32 |
//! | 7 | group u32 |
//! | 11 | number of access entries u8 |
//! | 12 | number of default entries u8 |
//! | 13 | the access entries, USER, GROUP and MASK alone, and then the default entries |
ghost use Rattle.std.specs.Prelude.{◌≡◌, ℕ, ◌+◌, ◌*◌, ◌<◌, ◌≤◌, ◌^◌, List, ◌++◌, length, Some, IfSome};
ghost use Rattle.sn_acl.specs.AccessList.{IsValid};
ghost use Rattle.sn_acl.specs.declared.entries.Entry.{Entry as TheEntry};
ghost use Rattle.sn_layout.specs.Bytes.{Puts};
ghost use Rattle.sn_model.specs.declared.change.Ownership.{Ownership as TheOwnership};
ghost use Rattle.sn_record.specs.Payload.{IsOwnership, objects_of, named_of, ownership_bytes};
ghost use Rattle.sn_record.specs.Sizes.{entries_of};

use sn_acl::{Acl, Mode};
use sn_layout::{Reader, put_u32};
use sn_layout_acl::{AclBlock, AclParts, NamedEntries, fitting, mode_of, put_mode};
use sn_layout_node::{SpecialBits, put_special_bits, special_bits_of};
use sn_model::Ownership;

// The entries USER_OBJ, GROUP_OBJ and OTHER, which the rights say.
const OBJECTS: usize = 3;

// How many bytes precede the lists.
const FRONT_SIZE: usize = 11;

fn parts_of(acl: &Acl) -> AclParts
    ensures objects { result.objects ≡ objects_of acl.now }
    ensures access { result.access ≡ named_of acl.now }
{
    let parts = AclParts::of(acl);
    parts.access.as_slice();
    parts
}

fn joined(access: &NamedEntries, objects: Mode) -> Acl
    ensures objects { objects_of result ≡ objects }
    ensures access { named_of result ≡ access.now }
    ensures only { (acl : List TheEntry) → IsValid acl → objects ≡ objects_of acl → access.now ≡ named_of acl → result ≡ acl }
{
    access.as_slice();
    access.join(objects)
}

fn copy_of(default: &Option<Acl>) -> Option<Acl>
    ensures { result ≡ default.now }
{
    match default {
        Some(acl) => Some(acl.copy()),
        None => None,
    }
}

// How many entries are in both lists.
pub(crate) fn entries_of(ownership: &Ownership) -> usize
    ensures value { result ≡ entries_of ownership.now }
    ensures most { result ≤ 69 }
{
    let access = ownership.acl.entries().len() - OBJECTS;
    match &ownership.default_acl {
        Some(acl) => access + acl.entries().len(),
        None => access,
    }
}

pub(crate) fn put_ownership(block: &mut [u8], at: usize, ownership: &Ownership) -> usize
    requires { at + 13 + 8 * entries_of ownership.now ≤ length block.old }
    ensures bytes { Puts block.old block.new at result (ownership_bytes ownership.now) }
    ensures next { result ≡ at + 13 + 8 * entries_of ownership.now }
{
    let bits = SpecialBits {
        set_gid: ownership.set_gid,
        sticky: ownership.sticky,
    };
    let parts = parts_of(&ownership.acl);
    let lists = AclBlock {
        access: parts.access,
        default: copy_of(&ownership.default_acl),
    };
    let at = put_special_bits(block, at, bits);
    let at = put_mode(block, at, parts.objects);
    let at = put_u32(block, at, ownership.owner);
    let at = put_u32(block, at, ownership.group);
    lists.put_lists(block, at)
}

// The numbers in front of the lists as they are in a payload.
#[derive(Clone, Copy)]
struct Front {
    bits: u8,
    rights: u16,
    owner: u32,
    group: u32,
}

impl Front {
    ghost use Rattle.sn_layout.specs.Records.{numbers_then, AreOfWidths};
    ghost use Rattle.sn_record.specs.Payload.{front_widths, front_numbers, listed, lists_of};

    fn read(reader: &mut Reader<'_>) -> Self
        requires { 11 ≤ length reader.old }
        ensures fits { AreOfWidths front_widths (listed result) }
        ensures read { reader.old ≡ numbers_then front_widths (listed result) reader.new }
    {
        Front {
            bits: reader.u8(),
            rights: reader.u16(),
            owner: reader.u32(),
            group: reader.u32(),
        }
    }

    // What they give a node together with the lists.
    fn with(self, lists: AclBlock) -> Option<Ownership>
        ensures found { IfSome result (λ o. IsOwnership o × (listed self ≡ front_numbers o) × (lists_of o ≡ lists)) }
        ensures only { (o : TheOwnership) → IsOwnership o → listed self ≡ front_numbers o → lists_of o ≡ lists → result ≡ Some o }
    {
        let bits = special_bits_of(self.bits)?;
        let objects = mode_of(self.rights)?;
        Some(Ownership {
            owner: self.owner,
            group: self.group,
            set_gid: bits.set_gid,
            sticky: bits.sticky,
            acl: joined(&lists.access, objects),
            default_acl: lists.default,
        })
    }
}

pub(crate) fn read_ownership(reader: &mut Reader<'_>) -> Option<Ownership>
    ensures found { IfSome result (λ o. IsOwnership o × (reader.old ≡ ownership_bytes o ++ reader.new)) }
    ensures only { (o : TheOwnership) (rest : List ℕ) → IsOwnership o → reader.old ≡ ownership_bytes o ++ rest
        → (result ≡ Some o) × (reader.new ≡ rest) }
{
    if reader.remaining() < FRONT_SIZE {
        return None;
    }
    let front = Front::read(reader);
    let lists = AclBlock::read_lists(reader)?;
    front.with(lists)
}

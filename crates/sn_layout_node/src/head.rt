ghost use Rattle.std.specs.Prelude.{◌≡◌, ℕ, ◌+◌, ◌≤◌, List, ◌++◌, length, Some, IfSome};

use crate::fields::{SpecialBits, kind_of, put_kind, put_special_bits, special_bits_of};
use sn_acl::Mode;
use sn_layout::{Reader, put_u16, put_u32, put_u64, put_zeros};
use sn_layout_acl::{mode_of, put_mode};
use sn_limits::Kind;

// What precedes an inode's content.
#[derive(Clone, Copy)]
pub(crate) struct Head {
    pub(crate) kind: Kind,
    pub(crate) bits: SpecialBits,
    pub(crate) objects: Mode,
    pub(crate) links: u16,
    pub(crate) owner: u32,
    pub(crate) group: u32,
    pub(crate) size: u64,
    pub(crate) acl_block: u32,
}

// Its numbers as they are on the disk, those that have to be 0 among them.
#[derive(Clone, Copy)]
struct HeadNumbers {
    kind: u8,
    bits: u8,
    objects: u16,
    links: u16,
    before_owner: u16,
    owner: u32,
    group: u32,
    size: u64,
    acl_block: u32,
}

impl HeadNumbers {
    ghost use Rattle.sn_layout.specs.Records.{numbers_then, AreOfWidths};
    ghost use Rattle.sn_layout_node.specs.Inode.{IsHead, head_widths, head_numbers, listed};
    ghost use Rattle.sn_layout_node.specs.declared.head.Head.{Head as TheHead};

    fn read(reader: &mut Reader<'_>) -> Self
        requires { 28 ≤ length reader.old }
        ensures fits { AreOfWidths head_widths (listed result) }
        ensures read { reader.old ≡ numbers_then head_widths (listed result) reader.new }
        ensures left { length reader.new + 28 ≡ length reader.old }
    {
        HeadNumbers {
            kind: reader.u8(),
            bits: reader.u8(),
            objects: reader.u16(),
            links: reader.u16(),
            before_owner: reader.u16(),
            owner: reader.u32(),
            group: reader.u32(),
            size: reader.u64(),
            acl_block: reader.u32(),
        }
    }

    // The head that they are.
    fn head(self) -> Option<Head>
        ensures found { IfSome result (λ head. IsHead head × (listed self ≡ head_numbers head)) }
        ensures only { (head : TheHead) → IsHead head → listed self ≡ head_numbers head → result ≡ Some head }
    {
        let kind = kind_of(self.kind)?;
        let bits = special_bits_of(self.bits)?;
        let objects = mode_of(self.objects)?;
        if self.before_owner != 0 {
            return None;
        }
        Some(Head {
            kind,
            bits,
            objects,
            links: self.links,
            owner: self.owner,
            group: self.group,
            size: self.size,
            acl_block: self.acl_block,
        })
    }
}

impl Head {
    ghost use Rattle.sn_layout.specs.Bytes.{Puts};
    ghost use Rattle.sn_layout_node.specs.Inode.{IsHead, head_bytes};
    ghost use Rattle.sn_layout_node.specs.declared.head.Head.{Head as TheHead};

    pub(crate) fn put(&self, block: &mut [u8]) -> usize
        requires { 64 ≤ length block.old }
        ensures bytes { Puts block.old block.new 0 result (head_bytes self.now) }
        ensures next { result ≡ 64 }
    {
        let at = put_kind(block, 0, self.kind);
        let at = put_special_bits(block, at, self.bits);
        let at = put_mode(block, at, self.objects);
        let at = put_u16(block, at, self.links);
        let at = put_zeros(block, at, 2);
        let at = put_u32(block, at, self.owner);
        let at = put_u32(block, at, self.group);
        let at = put_u64(block, at, self.size);
        let at = put_u32(block, at, self.acl_block);
        put_zeros(block, at, 36)
    }

    pub(crate) fn read(reader: &mut Reader<'_>) -> Option<Self>
        requires { 64 ≤ length reader.old }
        ensures found { IfSome result (λ head. IsHead head × (reader.old ≡ head_bytes head ++ reader.new)) }
        ensures only { (head : TheHead) (rest : List ℕ) → IsHead head → reader.old ≡ head_bytes head ++ rest
            → (result ≡ Some head) × (reader.new ≡ rest) }
        ensures left { IfSome result (λ head. length reader.new + 64 ≡ length reader.old) }
    {
        let numbers = HeadNumbers::read(reader);
        if !reader.are_zeros(36) {
            return None;
        }
        numbers.head()
    }
}

//! | offset | field of an inode's record, 128 bytes in all |
//! |---|---|
//! | 0 | kind u8: 1 a file, 2 a directory; 0 and 127 zeros more is unused |
//! | 1 | S_ISGID in bit 0, S_ISVTX in bit 1, u8 |
//! | 2 | what USER_OBJ, GROUP_OBJ and OTHER grant, three bits each, u16 |
//! | 4 | links u16, at most 32,767; 1 for a directory |
//! | 6 | zeros |
//! | 8 | owner u32 |
//! | 12 | group u32 |
//! | 16 | size u64, in bytes |
//! | 24 | ACL block u32, 0 for none |
//! | 28 | zeros |
//! | 64 | a file's bytes, if at most 64, and then zeros; else 16 pointers u32 |
ghost use Rattle.std.specs.Prelude.{◌≡◌, ◌↔◌, ◌<◌, ◌^◌, length, Some, IfSome, IsTrue};
ghost use Rattle.sn_layout.specs.Bytes.{zeros};
ghost use Rattle.sn_layout_acl.specs.Mode.{IsMode};
ghost use Rattle.sn_layout_node.specs.Inode.{are_links};

use crate::head::Head;
use crate::{Content, SpecialBits};
use sn_acl::Mode;
use sn_layout::{Reader, put_zeros};
use sn_layout_acl::fitting;
use sn_limits::{Kind, Limits};

/// The bytes of an inode's record.
pub const INODE_SIZE: usize = 128;

/// The most names of a file.
pub const LINKS_MAX: u16 = 32_767;

/// A file or a directory, but for the bytes that are in blocks.
#[derive(PartialEq, Eq, Drop)]
pub struct Inode {
    pub kind: Kind,
    /// S_ISGID.
    pub set_gid: bool,
    /// S_ISVTX.
    pub sticky: bool,
    /// What the entries USER_OBJ, GROUP_OBJ and OTHER of the access ACL grant.
    pub objects: Mode,
    /// How many names a file has. A directory has 1.
    pub links: u16,
    pub owner: u32,
    pub group: u32,
    /// The block of the other entries and of the default ACL, 0 where there are none.
    pub acl_block: u32,
    pub content: Content,
}

fn are_links(kind: Kind, links: u16) -> bool
    ensures { result ≡ are_links kind links }
{
    match kind {
        Kind::File => links <= LINKS_MAX,
        Kind::Directory => links == 1,
    }
}

impl Inode {
    ghost use Rattle.sn_layout_node.specs.Inode.{IsInode, inode_bytes};
    ghost use Rattle.sn_layout_node.specs.declared.inode.Inode.{Inode as TheInode};

    /// A copy, which takes no memory.
    pub fn copy(&self) -> Self
        ensures { result ≡ self.now }
    {
        Inode {
            kind: self.kind,
            set_gid: self.set_gid,
            sticky: self.sticky,
            objects: self.objects,
            links: self.links,
            owner: self.owner,
            group: self.group,
            acl_block: self.acl_block,
            content: self.content.copy(),
        }
    }

    /// Whether a disk of this version can hold it.
    pub fn is_valid(&self, limits: &Limits) -> bool
        ensures { IsTrue result ↔ IsInode limits.now self.now }
    {
        self.fits();
        are_links(self.kind, self.links) && self.content.is_valid(limits, self.kind)
    }

    // By the types of its fields.
    fn fits(&self)
        ensures objects { IsMode self.now.objects }
        ensures owner { self.now.owner < 256 ^ 4 }
        ensures group { self.now.group < 256 ^ 4 }
        ensures acl_block { self.now.acl_block < 256 ^ 4 }
    {
        let _owner = self.owner;
        let _group = self.group;
        let _acl_block = self.acl_block;
        fitting(self.objects);
    }

    fn encode(&self, bytes: &mut [u8])
        requires { length bytes.old ≡ 128 }
        ensures { bytes.new ≡ inode_bytes self.now }
    {
        let head = Head {
            kind: self.kind,
            bits: SpecialBits {
                set_gid: self.set_gid,
                sticky: self.sticky,
            },
            objects: self.objects,
            links: self.links,
            owner: self.owner,
            group: self.group,
            size: self.content.size(),
            acl_block: self.acl_block,
        };
        let at = head.put(bytes);
        self.content.put(bytes, at);
    }

    fn decode(limits: &Limits, bytes: &[u8]) -> Option<Self>
        requires { length bytes.now ≡ 128 }
        ensures found { IfSome result (λ inode. IsInode limits.now inode × (bytes.now ≡ inode_bytes inode)) }
        ensures only { (inode : TheInode) → IsInode limits.now inode → bytes.now ≡ inode_bytes inode → result ≡ Some inode }
    {
        let mut reader = Reader::new(bytes);
        let head = Head::read(&mut reader)?;
        if !are_links(head.kind, head.links) {
            return None;
        }
        let content = Content::read(limits, head.kind, head.size, &mut reader)?;
        Some(Inode {
            kind: head.kind,
            set_gid: head.bits.set_gid,
            sticky: head.bits.sticky,
            objects: head.objects,
            links: head.links,
            owner: head.owner,
            group: head.group,
            acl_block: head.acl_block,
            content,
        })
    }
}

/// A record of the inode file.
///
/// Proved, also of `IndirectBlock`: Inode records and indirect blocks are encoded to their one spelling, and decoded exactly
/// from it.
#[derive(PartialEq, Eq, Drop)]
pub enum InodeRecord {
    Unused,
    Used(Inode),
}

// Most records are used, and their first byte says so.
fn is_blank(bytes: &[u8]) -> bool
    requires { 0 < length bytes.now }
    ensures { IsTrue result ↔ (bytes.now ≡ zeros (length bytes.now)) }
{
    bytes[0] == 0 && Reader::new(bytes).are_zeros(bytes.len())
}

impl InodeRecord {
    ghost use Rattle.sn_layout_node.specs.Inode.{IsRecord, record_bytes};
    ghost use Rattle.sn_layout_node.specs.declared.inode.InodeRecord.{InodeRecord as TheRecord};

    /// Whether a disk of this version can hold it.
    pub fn is_valid(&self, limits: &Limits) -> bool
        ensures { IsTrue result ↔ IsRecord limits.now self.now }
    {
        match self {
            InodeRecord::Unused => true,
            InodeRecord::Used(inode) => inode.is_valid(limits),
        }
    }

    /// Writes a record that a disk of this version can hold. The limits say no more than that.
    pub fn encode(&self, limits: &Limits, bytes: &mut [u8])
        requires bytes { length bytes.old ≡ 128 }
        requires fits { IsRecord limits.now self.now }
        ensures { bytes.new ≡ record_bytes self.now }
    {
        match self {
            InodeRecord::Unused => {
                put_zeros(bytes, 0, INODE_SIZE);
            }
            InodeRecord::Used(inode) => inode.encode(bytes),
        }
    }

    /// The record that the bytes spell under the limits of a version.
    pub fn decode(limits: &Limits, bytes: &[u8]) -> Option<Self>
        requires { length bytes.now ≡ 128 }
        ensures found { IfSome result (λ r. IsRecord limits.now r × (bytes.now ≡ record_bytes r)) }
        ensures only { (r : TheRecord) → IsRecord limits.now r → bytes.now ≡ record_bytes r → result ≡ Some r }
    {
        if is_blank(bytes) {
            return Some(InodeRecord::Unused);
        }
        let inode = Inode::decode(limits, bytes)?;
        Some(InodeRecord::Used(inode))
    }
}

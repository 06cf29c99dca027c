//! | offset | field |
//! |---|---|
//! | 0 | number of access entries u8 |
//! | 1 | number of default entries u8 |
//! | 2 | zeros |
//! | 8 | the access entries, 8 bytes each, and then the default entries |
//! | after the last | zeros |
ghost use Rattle.std.specs.Prelude.{◌≡◌, ℕ, ◌+◌, ◌*◌, ◌<◌, ◌≤◌, ◌↔◌, List, [], ◌∷◌, ◌++◌, length, Option, Some, IfSome, IsNone};
ghost use Rattle.std.specs.List.{AllByRecursion};
ghost use Rattle.sn_acl.specs.declared.entries.Tag.TheVariants.{UserObj, GroupObj, Other};
ghost use Rattle.sn_acl.specs.declared.entries.Entry.{Entry as TheEntry};
ghost use Rattle.sn_layout.specs.Bytes.{Puts};
ghost use Rattle.sn_layout_acl.specs.AclEntry.{IsEntry, entries_bytes};
ghost use Rattle.sn_layout_acl.specs.AclBlock.{joined, with_objects, users_in, IsNamedPart, IsDefault, AreAcls, default_entries, lists_bytes};
ghost use Rattle.sn_layout_acl.specs.declared.acl_block.AclBlock.{AclBlock as TheAclBlock};

use crate::acl_entries::{ENTRY_SIZE, put_entries, read_entries};
use crate::mode::fitting;
use arrayvec::ArrayVec;
use sn_acl::{Acl, Entry, MAX_ENTRIES, Mode, Permissions, Tag};
use sn_layout::{BLOCK_SIZE, Block, Reader, put_u8, put_zeros};
use std::marker::Model;

/// The most entries of an access ACL that mode bits don't hold: 32 with a qualifier, and the MASK.
pub const NAMED_MAX: usize = 33;

/// The entries USER, GROUP and MASK of an access ACL, in canonical order. With USER_OBJ, GROUP_OBJ
/// and OTHER they are a valid ACL.
#[derive(PartialEq, Eq, Drop)]
pub struct NamedEntries {
    entries: ArrayVec<Entry, MAX_ENTRIES>,
}

impl Model for NamedEntries {
    ghost use Rattle.std.specs.Prelude.{List, length, ◌≤◌};
    ghost use Rattle.sn_acl.specs.declared.entries.Entry.{Entry};

    ghost Value = { List Entry };

    ghost use Rattle.sn_layout_acl.specs.AclBlock.{IsNamedPart};

    ghost view = { λ named. named.entries.items };

    ghost invariant = { λ named. IsNamedPart named.entries.items × (length named.entries.items ≤ 33) };

    ghost inverse = { λ entries. record { entries = record { items = entries } } };
}

const NO_RIGHTS: Mode = Mode {
    owner: Permissions::NONE,
    group: Permissions::NONE,
    other: Permissions::NONE,
};

fn push_all(list: &mut ArrayVec<Entry, MAX_ENTRIES>, entries: &[Entry])
    requires { length list.old.items + length entries.now ≤ 36 }
    ensures { list.new.items ≡ list.old.items ++ entries.now }
{
    for entry in entries {
        list.push(*entry);
    }
}

fn users_in(named: &[Entry]) -> usize
    ensures count { result ≡ users_in named.now }
    ensures within { result ≤ length named.now }
{
    let mut count = 0;
    for entry in named {
        if !matches!(entry.tag, Tag::User(_)) {
            break;
        }
        count += 1;
    }
    count
}

fn joined(objects: Mode, named: &[Entry]) -> ArrayVec<Entry, MAX_ENTRIES>
    requires { length named.now ≤ 33 }
    ensures { result.items ≡ joined objects named.now }
{
    let users = users_in(named);
    let mut entries = ArrayVec::new();
    entries.push(Entry {
        tag: Tag::UserObj,
        permissions: objects.owner,
    });
    push_all(&mut entries, &named[..users]);
    entries.push(Entry {
        tag: Tag::GroupObj,
        permissions: objects.group,
    });
    push_all(&mut entries, &named[users..]);
    entries.push(Entry {
        tag: Tag::Other,
        permissions: objects.other,
    });
    entries
}

fn with_objects(named: &[Entry]) -> ArrayVec<Entry, MAX_ENTRIES>
    requires { length named.now ≤ 33 }
    ensures { result.items ≡ with_objects named.now }
{
    joined(NO_RIGHTS, named)
}

fn kept(entries: &[Entry]) -> ArrayVec<Entry, MAX_ENTRIES>
    requires { length entries.now ≤ 36 }
    ensures { result.items ≡ entries.now }
{
    let mut kept = ArrayVec::new();
    push_all(&mut kept, entries);
    kept
}

impl NamedEntries {
    /// No entries, as where mode bits are the whole access ACL.
    pub fn new() -> Self
        ensures { result ≡ [] }
    {
        NamedEntries {
            entries: ArrayVec::new(),
        }
    }

    /// A copy, which takes no memory.
    pub fn copy(&self) -> Self
        ensures { result ≡ self.now }
    {
        NamedEntries {
            entries: kept(self.as_slice()),
        }
    }

    /// `None` where the entries are no such part of an access ACL.
    pub fn from_entries(entries: &[Entry]) -> Option<Self>
        requires { length entries.now ≤ 33 }
        ensures found { IfSome result (λ named. IsNamedPart entries.now × (named ≡ entries.now)) }
        ensures refused { IsNone result → IsNamedPart entries.now → ⊥ }
    {
        Acl::from_entries(with_objects(entries).as_slice())?;
        Some(NamedEntries {
            entries: kept(entries),
        })
    }

    /// The access ACL of an inode that keeps these entries in its ACL block, and in its mode bits
    /// what USER_OBJ, GROUP_OBJ and OTHER grant.
    pub fn join(&self, objects: Mode) -> Acl
        ensures { result ≡ joined objects self.now }
    {
        let entries = joined(fitting(objects), self.as_slice());
        match Acl::from_entries(entries.as_slice()) {
            Some(acl) => acl,
            None => unreachable!(),
        }
    }

    /// The entries, in canonical order.
    pub fn as_slice(&self) -> &[Entry]
        ensures value { result.now ≡ self.now }
        ensures valid { IsNamedPart self.now }
        ensures room { length self.now ≤ 33 }
    {
        self.entries.as_slice()
    }
}

/// An access ACL as an inode keeps it.
#[derive(PartialEq, Eq, Drop)]
pub struct AclParts {
    /// What USER_OBJ, GROUP_OBJ and OTHER grant, which its mode bits hold.
    pub objects: Mode,
    /// The other entries, which its ACL block holds.
    pub access: NamedEntries,
}

impl AclParts {
    /// Parts an access ACL into what an inode keeps: its three object entries, and the named ones with the mask.
    ///
    /// Proved, also of `NamedEntries::join`: An access ACL is parted into mode bits and ACL block, and joined again.
    pub fn of(acl: &Acl) -> Self
        ensures { acl.now ≡ joined result.objects result.access }
    {
        let entries = acl.entries();
        let users = users_in(&entries[1..]);
        let last = entries.len() - 1;
        let objects = Mode {
            owner: entries[0].permissions,
            group: entries[1 + users].permissions,
            other: entries[last].permissions,
        };
        let mut named = ArrayVec::new();
        push_all(&mut named, &entries[1..1 + users]);
        push_all(&mut named, &entries[2 + users..last]);
        AclParts {
            objects,
            access: NamedEntries { entries: named },
        }
    }
}

/// The entries of an inode's ACLs that its mode bits don't hold. A block is taken only where there
/// are some.
///
/// Proved, also of `put_lists` and `read_lists`: ACL blocks, modes and the two lists of ACLs in a log record are encoded to
/// their one spelling, and decoded exactly from it.
#[derive(PartialEq, Eq, Drop)]
pub struct AclBlock {
    pub access: NamedEntries,
    /// The default ACL of a directory.
    pub default: Option<Acl>,
}

fn entries_of(default: &Option<Acl>) -> &[Entry]
    ensures value { result.now ≡ default_entries default.now }
    ensures valid { IsDefault default.now }
    ensures room { length result.now ≤ 36 }
{
    match default {
        Some(acl) => acl.entries(),
        None => &[],
    }
}

// The default ACL with these entries. There is none without entries.
fn default_of(entries: &[Entry]) -> Option<Option<Acl>>
    ensures found { IfSome result (λ default. IsDefault default × (entries.now ≡ default_entries default)) }
    ensures only { (default : Option (List TheEntry)) → IsDefault default → entries.now ≡ default_entries default → result ≡ Some default }
{
    if entries.is_empty() {
        return Some(None);
    }
    let acl = Acl::from_entries(entries)?;
    Some(Some(acl))
}

// The two lists of a block, whatever ACLs they make.
#[derive(Drop)]
struct Lists {
    access: ArrayVec<Entry, MAX_ENTRIES>,
    default: ArrayVec<Entry, MAX_ENTRIES>,
}

// Reads so many entries of the one list, and then so many of the other.
fn read_both(reader: &mut Reader<'_>, access: usize, default: usize) -> Option<Lists>
    requires access { access ≤ 33 }
    requires default { default ≤ 36 }
    requires room { 8 * (access + default) ≤ length reader.old }
    ensures counts { IfSome result (λ lists. (length lists.access.items ≡ access) × (length lists.default.items ≡ default)) }
    ensures read { IfSome result (λ lists. reader.old ≡ entries_bytes lists.access.items ++ (entries_bytes lists.default.items ++ reader.new)) }
    ensures only { (a d : List TheEntry) (rest : List ℕ) → length a ≡ access → length d ≡ default → AllByRecursion IsEntry a
        → AllByRecursion IsEntry d → reader.old ≡ entries_bytes a ++ (entries_bytes d ++ rest)
        → (result ≡ Some (record { access = record { items = a }; default = record { items = d } })) × (reader.new ≡ rest) }
    ensures left { IfSome result (λ _. length reader.new + 8 * (access + default) ≡ length reader.old) }
{
    let access = read_entries(reader, access)?;
    let default = read_entries(reader, default)?;
    Some(Lists { access, default })
}

fn read_lists(block: &Block) -> Option<Lists>
    ensures found { IfSome result (λ lists. (length lists.access.items ≤ 33) × (block.now ≡ lists_bytes lists.access.items lists.default.items)) }
    ensures only { (access default : List TheEntry) → length access ≤ 33 → length default ≤ 36 → AllByRecursion IsEntry access
        → AllByRecursion IsEntry default → block.now ≡ lists_bytes access default
        → result ≡ Some (record { access = record { items = access }; default = record { items = default } }) }
{
    let mut reader = Reader::new(block);
    let access = reader.u8() as usize;
    let default = reader.u8() as usize;
    if access > NAMED_MAX || default > MAX_ENTRIES || !reader.are_zeros(6) {
        return None;
    }
    let blank = 4088 - 8 * (access + default);
    let lists = read_both(&mut reader, access, default)?;
    if !reader.are_zeros(blank) {
        return None;
    }
    Some(lists)
}

// The ACLs that the lists are.
fn acls_of(lists: &Lists) -> Option<AclBlock>
    requires { length lists.now.access.items ≤ 33 }
    ensures found { IfSome result (λ acls. AreAcls acls × (lists.now.access.items ≡ acls.access) × (lists.now.default.items ≡ default_entries acls.default)) }
    ensures only { (acls : TheAclBlock) → AreAcls acls → lists.now.access.items ≡ acls.access
        → lists.now.default.items ≡ default_entries acls.default → result ≡ Some acls }
{
    let access = NamedEntries::from_entries(lists.access.as_slice())?;
    let default = default_of(lists.default.as_slice())?;
    Some(AclBlock { access, default })
}

fn copy_of(default: &Option<Acl>) -> Option<Acl>
    ensures { result ≡ default.now }
{
    match default {
        Some(acl) => Some(acl.copy()),
        None => None,
    }
}

impl AclBlock {
    ghost use Rattle.sn_layout_acl.specs.AclBlock.{IsAclBlock, acl_block_bytes, acls_bytes, entries_in};

    /// A copy, which takes no memory.
    pub fn copy(&self) -> Self
        ensures { result ≡ self.now }
    {
        AclBlock {
            access: self.access.copy(),
            default: copy_of(&self.default),
        }
    }

    /// How many entries both lists have.
    pub fn count(&self) -> usize
        ensures value { result ≡ entries_in self.now }
        ensures most { result ≤ 69 }
    {
        self.access.as_slice().len() + entries_of(&self.default).len()
    }

    /// Writes the whole block, whatever was there. An inode whose lists are both empty has none.
    pub fn encode(&self, block: &mut Block)
        requires { 0 < entries_in self.now }
        ensures fits { IsAclBlock self.now }
        ensures bytes { block.new ≡ acl_block_bytes self.now }
    {
        let access = self.access.as_slice();
        let default = entries_of(&self.default);
        let at = put_u8(block, 0, access.len() as u8);
        let at = put_u8(block, at, default.len() as u8);
        let at = put_zeros(block, at, 6);
        let at = put_entries(block, at, access);
        let at = put_entries(block, at, default);
        put_zeros(block, at, BLOCK_SIZE - at);
    }

    /// The ACL block that the block spells.
    pub fn decode(block: &Block) -> Option<Self>
        ensures found { IfSome result (λ acls. IsAclBlock acls × (block.now ≡ acl_block_bytes acls)) }
        ensures only { (acls : TheAclBlock) → IsAclBlock acls → block.now ≡ acl_block_bytes acls → result ≡ Some acls }
    {
        let lists = read_lists(block)?;
        if lists.access.is_empty() && lists.default.is_empty() {
            return None;
        }
        acls_of(&lists)
    }

    /// Writes both lists as a log record has them, either of which may be empty: their numbers of
    /// entries u8, and then the entries. Answers the offset after them.
    pub fn put_lists(&self, block: &mut [u8], at: usize) -> usize
        requires { at + 2 + 8 * entries_in self.now ≤ length block.old }
        ensures bytes { Puts block.old block.new at result (acls_bytes self.now) }
        ensures next { result ≡ at + 2 + 8 * entries_in self.now }
    {
        let access = self.access.as_slice();
        let default = entries_of(&self.default);
        let at = put_u8(block, at, access.len() as u8);
        let at = put_u8(block, at, default.len() as u8);
        let at = put_entries(block, at, access);
        put_entries(block, at, default)
    }

    /// Reads both lists as a log record has them. `None` where the bytes end before they do or are
    /// none; how far the reader has come then is open.
    pub fn read_lists(reader: &mut Reader<'_>) -> Option<Self>
        ensures found { IfSome result (λ acls. AreAcls acls × (reader.old ≡ acls_bytes acls ++ reader.new)) }
        ensures only { (acls : TheAclBlock) (rest : List ℕ) → AreAcls acls → reader.old ≡ acls_bytes acls ++ rest
            → (result ≡ Some acls) × (reader.new ≡ rest) }
    {
        let access = reader.try_u8()? as usize;
        let default = reader.try_u8()? as usize;
        if access > NAMED_MAX
            || default > MAX_ENTRIES
            || reader.remaining() < ENTRY_SIZE * (access + default)
        {
            return None;
        }
        let lists = read_both(reader, access, default)?;
        acls_of(&lists)
    }
}

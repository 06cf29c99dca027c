ghost use Rattle.std.specs.Prelude.{◌≡◌, ◌↔◌, IsTrue, IsNone, IfSome, true, false, length, ◌≤◌};
ghost use Rattle.std.specs.List.{list_all};
ghost use Rattle.sn_acl.specs.AccessList.{IsValid, HasObjects, HasFittingMask, count_of, is_canonical, is_entry};
ghost use Rattle.sn_acl.specs.Entries.{is_user_obj, is_group_obj, is_other, is_mask, is_named};
ghost use Rattle.sn_acl.specs.Modes.{with_mode, entry_of, granted_by};

use crate::{Entry, Mode, Permissions, Tag};
use arrayvec::ArrayVec;
use std::marker::Model;

/// The most entries that an ACL has: 32 with a qualifier, and one of each other tag.
pub const MAX_ENTRIES: usize = 36;

/// A valid ACL, seen as the list of its entries in canonical order.
#[derive(PartialEq, Eq, Drop)]
pub struct Acl {
    entries: ArrayVec<Entry, MAX_ENTRIES>,
}

impl Model for Acl {
    ghost use Rattle.std.specs.Prelude.{List};
    ghost use Rattle.sn_acl.specs.declared.entries.Entry.{Entry};
    ghost use Rattle.sn_acl.specs.AccessList.{IsValid};

    ghost Value = { List Entry };

    ghost view = { λ a. a.entries.items };

    ghost invariant = { λ a. IsValid a.entries.items };

    ghost inverse = { λ es. record { entries = record { items = es } } };
}

impl Acl {
    ghost use Rattle.sn_acl.specs.Modes.{three_entries, mode_of, with_mode, entry_of};

    /// The ACL of three entries that says the same as the mode.
    pub fn from_mode(mode: Mode) -> Self
        ensures { result ≡ three_entries mode }
    {
        let mut entries = ArrayVec::new();
        entries.push(Entry {
            tag: Tag::UserObj,
            permissions: mode.owner,
        });
        entries.push(Entry {
            tag: Tag::GroupObj,
            permissions: mode.group,
        });
        entries.push(Entry {
            tag: Tag::Other,
            permissions: mode.other,
        });
        Acl { entries }
    }

    /// The ACL with these entries. `None` where they are no valid ACL in canonical order.
    pub fn from_entries(entries: &[Entry]) -> Option<Self>
        ensures found { IfSome result (λ acl. (acl ≡ entries.now) × IsValid entries.now) }
        ensures refused { IsNone result → IsValid entries.now → ⊥ }
    {
        if entries.len() > MAX_ENTRIES || !is_valid(entries) {
            return None;
        }
        Some(Acl {
            entries: kept(entries),
        })
    }

    /// A copy, which takes no memory.
    pub fn copy(&self) -> Self
        ensures { result ≡ self.now }
    {
        Acl {
            entries: kept(self.entries()),
        }
    }

    /// The MASK entry, if there is one.
    pub fn mask(&self) -> Option<Entry>
        ensures { result ≡ entry_of is_mask self.now }
    {
        first_mask(self.entries())
    }

    /// The permission bits of a file with this ACL, as acl(5) relates them to its entries.
    ///
    /// Proved, also of `Acl::chmod` and `inherit`: Modes, `chmod` and inheritance follow acl(5).
    pub fn mode(&self) -> Mode
        ensures { result ≡ mode_of self.now }
    {
        let entries = self.entries();
        Mode {
            owner: granted_by(first_owner(entries)),
            group: granted_by(first_mask(entries).or(first_group(entries))),
            other: granted_by(first_other(entries)),
        }
    }

    /// Sets the permission bits, in the entries that show them.
    pub fn chmod(&mut self, mode: Mode)
        ensures entries { self.new ≡ with_mode mode self.old }
        ensures shown { mode_of self.new ≡ mode }
    {
        self.entries = with_mode(self.entries(), &mode);
    }

    /// The entries, in canonical order.
    pub fn entries(&self) -> &[Entry]
        ensures value { result.now ≡ self.now }
        ensures valid { IsValid self.now }
    {
        self.entries.as_slice()
    }
}

// The entries once those that show the mode are set to it.
fn with_mode(entries: &[Entry], mode: &Mode) -> ArrayVec<Entry, MAX_ENTRIES>
    requires { IsValid entries.now }
    ensures { result.items ≡ with_mode mode.now entries.now }
{
    let masked = first_mask(entries).is_some();
    let mut changed = ArrayVec::new();
    for entry in entries {
        changed.push(entry.under(mode, masked));
    }
    changed
}

fn first_mask(entries: &[Entry]) -> Option<Entry>
    ensures { result ≡ entry_of is_mask entries.now }
{
    entries.iter().copied().find(|e| e.tag.is_mask())
}

fn first_owner(entries: &[Entry]) -> Option<Entry>
    ensures { result ≡ entry_of is_user_obj entries.now }
{
    entries.iter().copied().find(|e| e.tag.is_user_obj())
}

fn first_group(entries: &[Entry]) -> Option<Entry>
    ensures { result ≡ entry_of is_group_obj entries.now }
{
    entries.iter().copied().find(|e| e.tag.is_group_obj())
}

fn first_other(entries: &[Entry]) -> Option<Entry>
    ensures { result ≡ entry_of is_other entries.now }
{
    entries.iter().copied().find(|e| e.tag.is_other())
}

fn granted_by(entry: Option<Entry>) -> Permissions
    ensures { result ≡ granted_by entry }
{
    match entry {
        Some(entry) => entry.permissions,
        None => Permissions::NONE,
    }
}

fn kept(entries: &[Entry]) -> ArrayVec<Entry, MAX_ENTRIES>
    requires { length entries.now ≤ 36 }
    ensures items { result.items ≡ entries.now }
    ensures numbers { list_all is_entry entries.now ≡ true }
{
    let mut kept = ArrayVec::new();
    for entry in entries {
        kept.push(entry.fitting());
    }
    kept
}

// Whether these are the entries of a valid ACL, in canonical order.
fn is_valid(entries: &[Entry]) -> bool
    ensures valid { IsTrue result → HasObjects entries.now × HasFittingMask entries.now × (is_canonical entries.now ≡ true) }
    ensures refused { result ≡ false → IsValid entries.now → ⊥ }
{
    has_objects(entries) && has_fitting_mask(entries) && is_canonical(entries)
}

fn has_objects(entries: &[Entry]) -> bool
    ensures { IsTrue result ↔ HasObjects entries.now }
{
    count_owner(entries) == 1 && count_group(entries) == 1 && count_other(entries) == 1
}

fn has_fitting_mask(entries: &[Entry]) -> bool
    ensures { IsTrue result ↔ HasFittingMask entries.now }
{
    let masks = count_mask(entries);
    let named = count_named(entries);
    masks <= 1 && (named == 0 || masks == 1) && named <= 32
}

fn count_owner(entries: &[Entry]) -> usize
    ensures { result ≡ count_of is_user_obj entries.now }
{
    entries.iter().filter(|e| e.tag.is_user_obj()).count()
}

fn count_group(entries: &[Entry]) -> usize
    ensures { result ≡ count_of is_group_obj entries.now }
{
    entries.iter().filter(|e| e.tag.is_group_obj()).count()
}

fn count_other(entries: &[Entry]) -> usize
    ensures { result ≡ count_of is_other entries.now }
{
    entries.iter().filter(|e| e.tag.is_other()).count()
}

fn count_mask(entries: &[Entry]) -> usize
    ensures { result ≡ count_of is_mask entries.now }
{
    entries.iter().filter(|e| e.tag.is_mask()).count()
}

fn count_named(entries: &[Entry]) -> usize
    ensures { result ≡ count_of is_named entries.now }
{
    entries.iter().filter(|e| e.tag.is_named()).count()
}

// Whether each entry precedes the next.
fn is_canonical(entries: &[Entry]) -> bool
    ensures { result ≡ is_canonical entries.now }
{
    for i in 1..entries.len() {
        if !entries[i - 1].tag.precedes(entries[i].tag) {
            return false;
        }
    }
    true
}

//! Texts of ACLs, with the numbers of names.
ghost use Rattle.std.specs.Prelude.{◌≡◌, ◌+◌, ◌<◌, ◌≤◌, [], length, position, IfSome, IsNone, None, Some};
ghost use Rattle.arrayvec.specs.ArrayVec.{array_vec_len};
ghost use Rattle.sn_acl.specs.Entries.{precedes};
ghost use Rattle.sn_import_entry.specs.Acls as acls;

use crate::fault::EntryFault;
use crate::names::Names;
use arrayvec::ArrayVec;
use sn_accounts::Accounts;
use sn_acl::{Acl, Entry, MAX_ENTRIES, Tag};
use sn_acl_text::{Qualifier, TextEntry, Whom, parse_entries};

fn number_of(numbers: &Accounts<'_>, qualifier: &Qualifier<'_>) -> Option<u32>
    ensures { result ≡ acls.number_of numbers.now qualifier.now }
{
    match qualifier {
        Qualifier::Number(number) => Some(*number),
        Qualifier::Name(name) => numbers.number(name.as_bytes()),
    }
}

fn user_tag(names: &Names<'_>, user: &Qualifier<'_>) -> Option<Tag>
    ensures { result ≡ acls.user_tag names.now user.now }
{
    match number_of(&names.users, user) {
        Some(number) => Some(Tag::User(number)),
        None => None,
    }
}

fn group_tag(names: &Names<'_>, group: &Qualifier<'_>) -> Option<Tag>
    ensures { result ≡ acls.group_tag names.now group.now }
{
    match number_of(&names.groups, group) {
        Some(number) => Some(Tag::Group(number)),
        None => None,
    }
}

fn tag_of(names: &Names<'_>, whom: &Whom<'_>) -> Option<Tag>
    ensures { result ≡ acls.tag_of names.now whom.now }
{
    match whom {
        Whom::UserObj => Some(Tag::UserObj),
        Whom::User(user) => user_tag(names, user),
        Whom::GroupObj => Some(Tag::GroupObj),
        Whom::Group(group) => group_tag(names, group),
        Whom::Mask => Some(Tag::Mask),
        Whom::Other => Some(Tag::Other),
    }
}

fn entry_of(names: &Names<'_>, said: &TextEntry<'_>) -> Option<Entry>
    ensures { result ≡ acls.entry_of names.now said.now }
{
    match tag_of(names, &said.whom) {
        Some(tag) => Some(Entry {
            tag,
            permissions: said.permissions,
        }),
        None => None,
    }
}

fn first_after(entries: &[Entry], tag: Tag) -> Option<usize>
    ensures { result ≡ position (λ e. precedes tag e.tag) entries.now }
{
    entries.iter().position(|entry| tag.precedes(entry.tag))
}

// Puts an entry at its place in canonical order, after those with its tag.
fn place(entries: &mut ArrayVec<Entry, MAX_ENTRIES>, entry: Entry)
    requires { array_vec_len entries.old < 36 }
    ensures items { entries.new.items ≡ acls.placed entry entries.old.items }
    ensures longer { array_vec_len entries.new ≡ array_vec_len entries.old + 1 }
{
    let length = entries.len();
    let at = first_after(entries.as_slice(), entry.tag).unwrap_or(length);
    entries.insert(at, entry);
}

// The entries in canonical order, each with its number. None where a name has no number.
#[tactic(auto, using(crate::proofs::Valid::none_numbered, crate::proofs::Valid::all_numbered))]
fn numbered(names: &Names<'_>, said: &[TextEntry<'_>]) -> Option<ArrayVec<Entry, MAX_ENTRIES>>
    requires { length said.now ≤ 36 }
    ensures found { IfSome result (λ entries. acls.numbered names.now [] said.now ≡ Some entries.items) }
    ensures none { IsNone result → acls.numbered names.now [] said.now ≡ None }
{
    let mut entries = ArrayVec::new();
    for first in said {
        let entry = entry_of(names, first)?;
        place(&mut entries, entry);
    }
    Some(entries)
}

#[tactic(auto, using(crate::proofs::Valid::valid_is, crate::proofs::Valid::invalid_is))]
fn valid(entries: &[Entry]) -> Result<Acl, EntryFault>
    ensures { result ≡ acls.valid entries.now }
{
    match Acl::from_entries(entries) {
        Some(acl) => Ok(acl),
        None => Err(EntryFault::Acl),
    }
}

// The ACL of entries that a text says.
fn acl_said(names: &Names<'_>, said: &[TextEntry<'_>]) -> Result<Acl, EntryFault>
    requires { length said.now ≤ 36 }
    ensures { result ≡ acls.valid_if (acls.numbered names.now [] said.now) }
{
    match numbered(names, said) {
        Some(entries) => valid(entries.as_slice()),
        None => Err(EntryFault::Account),
    }
}

/// The ACL that a text spells, with the numbers that names have.
///
/// Proved: An ACL has the entries of its text, in canonical order, with the numbers that the tables have for names. There is none
/// exactly where the text is misspelt, a name isn't in its table, or these are no valid ACL.
#[tactic(auto, using(crate::proofs::Valid::none_said, crate::proofs::Valid::few_said))]
pub fn acl_of(names: &Names<'_>, text: &[u8]) -> Result<Acl, EntryFault>
    ensures { result ≡ acls.acl_of names.now text.now }
{
    let Some(said) = parse_entries(text) else {
        return Err(EntryFault::Acl);
    };
    acl_said(names, said.as_slice())
}

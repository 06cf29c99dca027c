//! Texts of ACLs: the short form of acl(5), as `u::rwx,u:1001:rw-,g::r-x,m::rwx,o::r--`.
ghost use Rattle.std.specs.Prelude.{ℕ, ◌≡◌, ◌≤◌, ◌<◌, ◌+◌, ◌*◌, ◌^◌, ◌++◌, ◌∷◌, [], List, length, drop, take_while, true, Some, IsSome, IfSome, IsSomeAnd, MatchOption, decimal};
ghost use Rattle.std.specs.Char.{is_ascii_digit};
ghost use Rattle.arrayvec.specs.ArrayString.{array_string_len};
ghost use Rattle.sn_acl.specs.declared.entries.Entry.{Entry as EntryValue};
ghost use Rattle.sn_acl.specs.declared.entries.Tag.{Tag as TagValue};
ghost use Rattle.sn_acl.specs.Rights.{permissions_text};
ghost use Rattle.sn_acl.specs.Entries.{qualifier_of};
ghost use Rattle.sn_acl.specs.AccessList.{IsValid, is_entry};
ghost use Rattle.sn_acl.specs.Text.{entry_text, more_text, acl_text, acl_of, kind_letter, qualifier_text};

use crate::{Acl, Entry, MAX_ENTRIES, Permissions, Tag};
use arrayvec::{ArrayString, ArrayVec};
use itoa::Buffer;
use std::str;

/// The most bytes that the text of an ACL takes.
pub const MAX_TEXT: usize = 640;

impl Acl {
    /// The text of the ACL, its entries in canonical order with commas between them.
    pub fn print(&self) -> ArrayString<MAX_TEXT>
        ensures { result.bytes ≡ acl_text self.now }
    {
        let mut text = ArrayString::new();
        if let Some((first, others)) = self.entries().split_first() {
            push_entry(&mut text, *first);
            push_more(&mut text, others);
        }
        text
    }
}

fn push_more(text: &mut ArrayString<MAX_TEXT>, entries: &[Entry])
    requires { array_string_len text.old + 17 * length entries.now ≤ 640 }
    ensures { text.new.bytes ≡ text.old.bytes ++ more_text entries.now }
{
    for entry in entries {
        text.push_str(",");
        push_entry(text, *entry);
    }
}

fn push_entry(text: &mut ArrayString<MAX_TEXT>, entry: Entry)
    requires { array_string_len text.old + 16 ≤ 640 }
    ensures bytes { text.new.bytes ≡ text.old.bytes ++ entry_text entry }
    ensures short { length (entry_text entry) ≤ 16 }
{
    text.push_str(kind(entry.tag));
    if let Tag::User(n) | Tag::Group(n) = entry.tag {
        text.push_str(Buffer::new().format(n));
    }
    text.push_str(":");
    text.push_str(entry.permissions.as_str());
}

fn kind(tag: Tag) -> &'static str
    ensures { result.now ≡ kind_letter tag ∷ 58 ∷ [] }
{
    match tag {
        Tag::UserObj | Tag::User(_) => "u:",
        Tag::GroupObj | Tag::Group(_) => "g:",
        Tag::Mask => "m:",
        Tag::Other => "o:",
    }
}

impl Acl {
    /// The ACL that has this text, byte for byte. `None` for a text that no valid ACL has: one with another
    /// order, with spaces or leading zeros, with an entry missing or doubled, or with more than 32 names.
    ///
    /// Proved, also of `Acl::print` and `spelling_is_one`: A text is parsed to the ACL that it spells, and printed so; each
    /// valid ACL has one spelling, and any other text spells none.
    pub fn parse(text: &[u8]) -> Option<Self>
        ensures { result ≡ acl_of text.now }
    {
        let acl = Acl::from_entries(read_entries(text)?.as_slice())?;
        // One spelling: numbers with leading zeros are read above, and refused here.
        if acl.print().as_str().as_bytes() == text {
            Some(acl)
        } else {
            None
        }
    }
}

// The entries of a text, which may still be no valid ACL.
fn read_entries(text: &[u8]) -> Option<ArrayVec<Entry, MAX_ENTRIES>>
    ensures { (entries : List EntryValue) → IsValid entries → text.now ≡ acl_text entries → IsSomeAnd result (λ v. v.items ≡ entries) }
{
    let Some((first, mut rest)) = read_entry(text) else {
        return None;
    };
    let mut entries = ArrayVec::new();
    entries.push(first);
    while let Some(tail) = after_comma(rest) {
        let Some((entry, after)) = read_entry(tail) else {
            return None;
        };
        if entries.is_full() {
            return None;
        }
        entries.push(entry);
        rest = after;
    }
    if rest.is_empty() { Some(entries) } else { None }
}

fn after_comma(text: &[u8]) -> Option<&[u8]>
    ensures { MatchOption result ((tail : List ℕ) → text.now ≡ 44 ∷ tail → ⊥) (λ tail. text.now ≡ 44 ∷ tail.now) }
{
    let (first, tail) = text.split_first()?;
    if *first == b',' { Some(tail) } else { None }
}

// The entry at the front of a text, and what follows it.
fn read_entry(text: &[u8]) -> Option<(Entry, &[u8])>
    ensures shorter { IfSome result (λ found. length found.1.now ≤ length text.now) }
    ensures only { (e : EntryValue) (more : List ℕ) → is_entry e ≡ true → text.now ≡ entry_text e ++ more
        → IsSomeAnd result (λ found. (found.0 ≡ e) × (found.1.now ≡ more)) }
{
    if text.len() < 2 || text[1] != b':' {
        return None;
    }
    let (_, tail) = text.split_at(2);
    let (digits, tail) = split_digits(tail);
    let tag = read_tag(text[0], digits)?;
    let permissions = read_permissions(tail)?;
    let (_, rest) = tail.split_at(4);
    Some((Entry { tag, permissions }, rest))
}

// The digits at the front of a text, and what follows them.
fn split_digits(text: &[u8]) -> (&[u8], &[u8])
    ensures digits { result.0.now ≡ take_while is_ascii_digit text.now }
    ensures rest { result.1.now ≡ drop (length (take_while is_ascii_digit text.now)) text.now }
{
    text.split_at(count_digits(text))
}

fn count_digits(text: &[u8]) -> usize
    ensures { result ≡ length (take_while is_ascii_digit text.now) }
{
    text.iter().take_while(|b| b.is_ascii_digit()).count()
}

// The rights after a colon at the front of a text.
fn read_permissions(text: &[u8]) -> Option<Permissions>
    ensures long { IsSome result → 4 ≤ length text.now }
    ensures only { (p : ℕ) (more : List ℕ) → p < 8 → text.now ≡ 58 ∷ (permissions_text p ++ more) → result ≡ Some p }
{
    if text.len() < 4 || text[0] != b':' {
        return None;
    }
    Permissions::parse(&text[1..4])
}

fn read_tag(kind: u8, digits: &[u8]) -> Option<Tag>
    ensures { (t : TagValue) → qualifier_of t < 2 ^ 32 → kind ≡ kind_letter t → digits.now ≡ qualifier_text t → result ≡ Some t }
{
    match (kind, digits.is_empty()) {
        (b'u', true) => Some(Tag::UserObj),
        (b'u', false) => Some(Tag::User(read_number(digits)?)),
        (b'g', true) => Some(Tag::GroupObj),
        (b'g', false) => Some(Tag::Group(read_number(digits)?)),
        (b'm', true) => Some(Tag::Mask),
        (b'o', true) => Some(Tag::Other),
        _ => None,
    }
}

fn read_number(digits: &[u8]) -> Option<u32>
    ensures { (n : ℕ) → n < 2 ^ 32 → digits.now ≡ decimal n → result ≡ Some n }
{
    let Ok(text) = str::from_utf8(digits) else {
        return None;
    };
    text.parse().ok()
}

//! Texts as they are written.
ghost use Rattle.std.specs.Prelude.{◌≡◌, ◌+◌, ◌≤◌, ◌++◌, ◌∷◌, [], length};
ghost use Rattle.arrayvec.specs.ArrayString.{array_string_len};
ghost use Rattle.sn_acl_text.specs.Long.{kind_word, long_entry, long_text, separated};

use arrayvec::ArrayString;
use itoa::Buffer;
use sn_acl::{Acl, Entry, Tag};

/// The most bytes that the long text of an ACL takes.
pub const MAX_LONG_TEXT: usize = 756;

/// The long text of an ACL, its entries in canonical order with commas between them.
///
/// Proved: An ACL is written in the long text form, its entries in canonical order with commas between them.
pub fn print_long(acl: &Acl) -> ArrayString<MAX_LONG_TEXT>
    ensures { result.bytes ≡ long_text acl.now }
{
    let mut text = ArrayString::new();
    for entry in acl.entries() {
        separate(&mut text);
        push_entry(&mut text, *entry);
    }
    text
}

// Puts a comma after what there is.
fn separate(text: &mut ArrayString<MAX_LONG_TEXT>)
    requires { array_string_len text.old + 1 ≤ 756 }
    ensures { text.new.bytes ≡ separated text.old.bytes }
{
    if !text.is_empty() {
        text.push_str(",");
    }
}

fn push_entry(text: &mut ArrayString<MAX_LONG_TEXT>, entry: Entry)
    requires { array_string_len text.old + 20 ≤ 756 }
    ensures bytes { text.new.bytes ≡ text.old.bytes ++ long_entry entry }
    ensures short { length (long_entry entry) ≤ 20 }
{
    text.push_str(kind_of(entry.tag));
    if let Tag::User(n) | Tag::Group(n) = entry.tag {
        text.push_str(Buffer::new().format(n));
    }
    text.push_str(":");
    text.push_str(entry.permissions.as_str());
}

fn kind_of(tag: Tag) -> &'static str
    ensures { result.now ≡ kind_word tag ++ 58 ∷ [] }
{
    match tag {
        Tag::UserObj | Tag::User(_) => "user:",
        Tag::GroupObj | Tag::Group(_) => "group:",
        Tag::Mask => "mask:",
        Tag::Other => "other:",
    }
}

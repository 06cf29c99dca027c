//! All entries of a text.
ghost use Rattle.std.specs.Prelude.{◌≡◌, ◌<◌, ◌∷◌, [], List, ℕ, length, position, false, IsTrue, IsNone, IfSome, Some};
ghost use Rattle.std.specs.List.{slice_split};
ghost use Rattle.sn_acl_text.specs.declared.entries.TextEntry.{TextEntry as EntryValue};
ghost use Rattle.sn_acl_text.specs.Reading.{is_separator, entries_said, said, onto, uncommented};

use crate::entries::TextEntry;
use crate::fields::{cut, parse_entry};
use arrayvec::ArrayVec;
use sn_acl::MAX_ENTRIES;

fn place(text: &[u8]) -> Option<usize>
    ensures { result ≡ position is_separator text.now }
{
    text.iter().position(|byte| *byte == b',' || *byte == b'\n')
}

// The first word of several, and the text of the others.
fn split_word(text: &[u8]) -> Option<(&[u8], &[u8])>
    ensures found { IfSome result (λ r. slice_split is_separator text.now ≡ r.0.now ∷ slice_split is_separator r.1.now) }
    ensures shorter { IfSome result (λ r. length r.1.now < length text.now) }
    ensures last { IsNone result → slice_split is_separator text.now ≡ text.now ∷ [] }
{
    let at = place(text)?;
    Some((&text[..at], &text[at + 1..]))
}

fn uncommented(word: &[u8]) -> &[u8]
    ensures { result.now ≡ uncommented word.now }
{
    cut(word, b'#').0
}

// Takes the entry of a word, if it has one. False where it is damaged or there is no room for it.
fn push_word<'a>(entries: &mut ArrayVec<TextEntry<'a>, MAX_ENTRIES>, word: &'a [u8]) -> bool
    ensures taken { IsTrue result → (words : List (List ℕ)) → onto entries.old.items (entries_said (word.now ∷ words)) ≡ onto entries.new.items (entries_said words) }
    ensures refused { result ≡ false → (words : List (List ℕ)) (all : List EntryValue) → onto entries.old.items (entries_said (word.now ∷ words)) ≡ Some all → 36 < length all }
{
    let word = uncommented(word);
    if word.is_empty() {
        return true;
    }
    let Some(entry) = parse_entry(word) else {
        return false;
    };
    if entries.is_full() {
        return false;
    }
    entries.push(entry);
    true
}

/// The entries that the text of an ACL says, in its order. `None` where an entry is damaged, or where there are more than an ACL has. A text
/// without entries says none. Whether they are a valid ACL is for the caller, who has the numbers of names.
///
/// Proved: A text is read as the entries that it says: between commas and line ends, without comments, in the long or the
/// short form, each with its number, the number of its fourth field, or a name without one. There are none exactly where an
/// entry is damaged or there are more than 36.
pub fn parse_entries(text: &[u8]) -> Option<ArrayVec<TextEntry<'_>, MAX_ENTRIES>>
    ensures found { IfSome result (λ entries. said text.now ≡ Some entries.items) }
    ensures none { IsNone result → (all : List EntryValue) → said text.now ≡ Some all → 36 < length all }
{
    let mut entries = ArrayVec::new();
    let mut rest = text;
    while let Some((word, more)) = split_word(rest) {
        if !push_word(&mut entries, word) {
            return None;
        }
        rest = more;
    }
    if push_word(&mut entries, rest) {
        Some(entries)
    } else {
        None
    }
}

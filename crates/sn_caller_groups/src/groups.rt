//! The groups of a list.
ghost use Rattle.std.specs.Prelude.{◌≡◌, ◌<◌, ◌∷◌, [], IfErr, IfSome, IsNone, OnOk, MatchResult, Err, Ok, List, ℕ, length, position};
ghost use Rattle.std.specs.List.{slice_split};
ghost use Rattle.sn_caller_groups.specs.Status as status;
ghost use Rattle.sn_caller_groups.specs.Status.{groups_of, is_blank, read_groups, with_group};

use crate::status::list_of;
use arrayvec::ArrayVec;
use itoa::Buffer;
use sn_acl::MAX_GROUPS;
use std::str;

/// Why a caller's groups aren't known. Each is `EACCES`.
#[derive(Clone, Copy, Debug, PartialEq, Eq)]
pub enum GroupsFault {
    /// The text isn't lines of which one lists groups, or a word of the list isn't a number of 32 bits.
    Unreadable,
    /// There are more than 32.
    TooMany,
    /// One isn't mapped.
    Unmapped,
}

/// The supplementary groups of a caller, in the order of its list.
pub type CallerGroups = ArrayVec<u32, MAX_GROUPS>;

// What Linux shows of a group that isn't mapped, the overflow gid.
const UNMAPPED: u32 = 65534;

fn number(word: &[u8]) -> Option<u32>
    ensures { result ≡ status.number_of word.now }
{
    let Ok(text) = str::from_utf8(word) else {
        return None;
    };
    let Ok(number) = text.parse::<u32>() else {
        return None;
    };
    let mut buffer = Buffer::new();
    if buffer.format(number).as_bytes() == word {
        Some(number)
    } else {
        None
    }
}

fn place(list: &[u8]) -> Option<usize>
    ensures { result ≡ position is_blank list.now }
{
    list.iter().position(|byte| matches!(*byte, b' ' | b'\t'))
}

// The first word of several, and the text of the others.
fn cut_word(list: &[u8]) -> Option<(&[u8], &[u8])>
    ensures found { IfSome result (λ cut. slice_split is_blank list.now ≡ cut.0.now ∷ slice_split is_blank cut.1.now) }
    ensures shorter { IfSome result (λ cut. length cut.1.now < length list.now) }
    ensures last { IsNone result → slice_split is_blank list.now ≡ list.now ∷ [] }
{
    let at = place(list)?;
    Some((&list[..at], &list[at + 1..]))
}

// Adds the number of a word, which may have none.
fn add(groups: &mut CallerGroups, number: Option<u32>, all_mapped: bool) -> Result<(), GroupsFault>
    ensures ok { OnOk result (with_group all_mapped groups.old.items number ≡ Ok groups.new.items) }
    ensures err { IfErr result (λ fault. with_group all_mapped groups.old.items number ≡ Err fault) }
{
    let Some(group) = number else {
        return Err(GroupsFault::Unreadable);
    };
    if group == UNMAPPED && !all_mapped {
        return Err(GroupsFault::Unmapped);
    }
    if groups.is_full() {
        return Err(GroupsFault::TooMany);
    }
    groups.push(group);
    Ok(())
}

// Adds the group of a word, where it isn't empty.
fn add_word(groups: &mut CallerGroups, word: &[u8], all_mapped: bool) -> Result<(), GroupsFault>
    ensures ok { OnOk result ((words : List (List ℕ)) → read_groups all_mapped groups.old.items (word.now ∷ words) ≡ read_groups all_mapped groups.new.items words) }
    ensures err { IfErr result (λ fault. (words : List (List ℕ)) → read_groups all_mapped groups.old.items (word.now ∷ words) ≡ Err fault) }
{
    if word.is_empty() {
        return Ok(());
    }
    add(groups, number(word), all_mapped)
}

/// The supplementary groups that a text of `/proc/PID/status` lists. `all_mapped` says that the reader's namespace maps all groups.
///
/// Proved: A text of `/proc/PID/status` is read as the groups that it lists: numbers of 32 bits with blanks between them, in the only
/// line `Groups:`. There are none where the text has no such line or another one, where a word is no such number, where there
/// are more than 32, and where one is 65534 unless all groups are mapped.
pub fn caller_groups(status: &[u8], all_mapped: bool) -> Result<CallerGroups, GroupsFault>
    ensures { MatchResult result (λ groups. groups_of all_mapped status.now ≡ Ok groups.items) (λ fault. groups_of all_mapped status.now ≡ Err fault) }
{
    let Some(mut rest) = list_of(status) else {
        return Err(GroupsFault::Unreadable);
    };
    let mut groups = ArrayVec::new();
    while let Some((word, others)) = cut_word(rest) {
        add_word(&mut groups, word, all_mapped)?;
        rest = others;
    }
    add_word(&mut groups, rest, all_mapped)?;
    Ok(groups)
}

ghost use Rattle.std.specs.Prelude.{◌≡◌, ◌&&◌, not, length};
ghost use Rattle.std.specs.List.Sorted.{IsPermutation, IsSortedBy};
ghost use Rattle.std.specs.Ordering.{is_lt};
ghost use Rattle.sn_acl.specs.Entries.{precedes};

use arrayvec::ArrayVec;
use sn_acl::{Entry, MAX_ENTRIES, Tag};
use std::cmp::Ordering;

// Canonical order, in which two entries with one tag are equal.
fn compare(a: Tag, b: Tag) -> Ordering
    ensures { is_lt result ≡ precedes a b }
{
    if a.precedes(b) {
        Ordering::Less
    } else if b.precedes(a) {
        Ordering::Greater
    } else {
        Ordering::Equal
    }
}

/// Puts entries into canonical order.
pub fn sort(entries: &mut ArrayVec<Entry, MAX_ENTRIES>)
    ensures permutation { IsPermutation entries.old.items entries.new.items }
    ensures sorted { IsSortedBy (λ a b. precedes a.tag b.tag) entries.new.items }
{
    entries
        .as_mut_slice()
        .sort_unstable_by(|a, b| compare(a.tag, b.tag));
}

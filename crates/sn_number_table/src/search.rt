//! The searches for a number that a new node can get, and where the next one begins.
ghost use Rattle.std.specs.Prelude.{◌≡◌, ℕ, ◌+◌, ◌==◌, ◌<◌, ◌≤◌, ◌^◌, true, false, max, min, if◌then◌else◌};
ghost use Rattle.sn_number_table.specs.Marked.{ArePassed, mark_at};
ghost use Rattle.sn_number_table.specs.Marks.{has_node, is_used};

use crate::marks::Marks;
use sn_walk::ROOT_NUMBER;

/// The first number from one on that is free, or 65,536.
pub(crate) fn first_free(marks: &Marks, from: u32) -> u32
    requires { from ≤ 2 ^ 16 }
    ensures low { from ≤ result }
    ensures high { result ≤ 2 ^ 16 }
    ensures used { (number : ℕ) → from ≤ number → number < result → is_used (mark_at marks.now number) ≡ true }
    ensures free { result < 2 ^ 16 → is_used (mark_at marks.now result) ≡ false }
{
    for number in from..65_536 {
        if !marks.is_used(number as u16) {
            return number;
        }
    }
    65_536
}

/// The first number from one on that no node has, or 65,536.
pub(crate) fn first_without_node(marks: &Marks, from: u32) -> u32
    requires { from ≤ 2 ^ 16 }
    ensures low { from ≤ result }
    ensures high { result ≤ 2 ^ 16 }
    ensures taken { (number : ℕ) → from ≤ number → number < result → has_node (mark_at marks.now number) ≡ true }
    ensures unused { result < 2 ^ 16 → has_node (mark_at marks.now result) ≡ false }
{
    for number in from..65_536 {
        if !marks.has_node(number as u16) {
            return number;
        }
    }
    65_536
}

/// Where the next search begins once a number is taken.
pub(crate) fn after_take(next: u32, number: u16) -> u32
    requires { next ≤ 2 ^ 16 }
    ensures { result ≡ (if number == next then next + 1 else next) }
{
    if u32::from(number) == next {
        next + 1
    } else {
        next
    }
}

/// The same once a new node got a number. Where that is past the beginning, a search has just passed over
/// what is between: it is passed over once more here, and then by no search.
pub(crate) fn after_make(marks: &Marks, next: u32, number: u16) -> u32
    requires { ArePassed marks.now next }
    ensures { ArePassed marks.now result }
{
    if u32::from(number) < next {
        return next;
    }
    first_free(marks, next)
}

/// The same once a number has lost its node.
pub(crate) fn after_loss(next: u32, number: u16) -> u32
    ensures { result ≡ max (min next number) 2 }
{
    next.min(u32::from(number)).max(u32::from(ROOT_NUMBER))
}

//! Searching numbers.
ghost use Rattle.std.specs.Prelude.{◌≡◌, ◌≤◌, ℕ, ◌++◌, IfSome, OnOk};
ghost use Rattle.std.specs.List.Sorted.{IsNonDecreasing};
ghost use Rattle.sn_names.specs.Search.{IsAtMost, IsNext, HasAll};

use std::alloc::AllocError;

// Puts numbers to others that are in order. Where memory is refused, some may be lost.
pub(crate) fn merge(settled: &mut Vec<u64>, more: &[u64]) -> Result<(), AllocError>
    requires { IsNonDecreasing settled.old.items }
    ensures kept { OnOk result (HasAll (settled.old.items ++ more.now) settled.new.items) }
    ensures rises { IsNonDecreasing settled.new.items }
{
    settled.extend_from_slice(more)?;
    match settled.sort() {
        Ok(()) => Ok(()),
        Err(error) => {
            settled.clear();
            Err(error)
        }
    }
}

// The least number from one on, of numbers in order.
pub(crate) fn next_in_order(numbers: &[u64], from: u64) -> Option<u64>
    requires { IsNonDecreasing numbers.now }
    ensures { IsNext from numbers.now result }
{
    match numbers.binary_search(&from) {
        Ok(_) => Some(from),
        Err(at) if at < numbers.len() => Some(numbers[at]),
        Err(_) => None,
    }
}

// The least number from one on, of any numbers.
pub(crate) fn next_among(numbers: &[u64], from: u64) -> Option<u64>
    ensures { IsNext from numbers.now result }
{
    let mut next = None;
    for number in numbers {
        if *number >= from {
            next = earlier(next, Some(*number));
        }
    }
    next
}

// The lesser of two numbers, if there are two.
pub(crate) fn earlier(first: Option<u64>, second: Option<u64>) -> Option<u64>
    ensures first { (n : ℕ) → IsAtMost first n → IsAtMost result n }
    ensures second { (n : ℕ) → IsAtMost second n → IsAtMost result n }
    ensures after { (n : ℕ) → IfSome first (λ a. n ≤ a) → IfSome second (λ b. n ≤ b) → IfSome result (λ c. n ≤ c) }
{
    match (first, second) {
        (Some(a), Some(b)) => Some(a.min(b)),
        (Some(a), None) => Some(a),
        (None, other) => other,
    }
}

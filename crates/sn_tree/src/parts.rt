//! Lists of pointers, parted and joined.
ghost use Rattle.std.specs.Prelude.{◌≡◌, ◌<◌, ◌++◌, ◌∷◌, length, slice_index, take, drop, All};

use sn_layout::POINTERS;
use sn_layout_node::POINTERS_PER_BLOCK;

/// How many pointers there are beside the first one of a tree.
pub(crate) const BESIDE: usize = 15;

/// How many pointers there are after the first sixteen of an indirect block.
pub(crate) const BEHIND: usize = 1008;

/// Holes beside the first pointer.
pub(crate) fn no_beside() -> [u32; BESIDE]
    ensures holes { All (λ p. p ≡ 0) result }
    ensures count { length result ≡ 15 }
{
    [0; BESIDE]
}

/// Holes after the first sixteen.
pub(crate) fn no_behind() -> [u32; BEHIND]
    ensures holes { All (λ p. p ≡ 0) result }
    ensures count { length result ≡ 1008 }
{
    [0; BEHIND]
}

/// The pointers beside the first one.
pub(crate) fn beside_of(pointers: &[u32; POINTERS]) -> [u32; BESIDE]
    ensures { result ≡ drop 1 pointers.now }
{
    let mut rest = [0; BESIDE];
    rest.copy_from_slice(&pointers[1..]);
    rest
}

/// The first sixteen pointers of an indirect block.
pub(crate) fn front_of(pointers: &[u32; POINTERS_PER_BLOCK]) -> [u32; POINTERS]
    ensures { result ≡ take 16 pointers.now }
{
    let mut first = [0; POINTERS];
    first.copy_from_slice(&pointers[..POINTERS]);
    first
}

/// The pointers after them.
pub(crate) fn behind_of(pointers: &[u32; POINTERS_PER_BLOCK]) -> [u32; BEHIND]
    ensures { result ≡ drop 16 pointers.now }
{
    let mut rest = [0; BEHIND];
    rest.copy_from_slice(&pointers[POINTERS..]);
    rest
}

// One of the pointers of an indirect block.
fn pointer_of(front: &[u32; POINTERS], behind: &[u32; BEHIND], i: usize) -> u32
    requires { i < 1024 }
    ensures { result ≡ slice_index (front.now ++ behind.now) i }
{
    if i < POINTERS {
        return front[i];
    }
    behind[i - POINTERS]
}

/// The pointers of an indirect block, of its first sixteen and those after them.
pub(crate) fn joined(front: &[u32; POINTERS], behind: &[u32; BEHIND]) -> [u32; POINTERS_PER_BLOCK]
    ensures { result ≡ front.now ++ behind.now }
{
    let mut pointers = [0; POINTERS_PER_BLOCK];
    for (i, pointer) in pointers.iter_mut().enumerate() {
        *pointer = pointer_of(front, behind, i);
    }
    pointers
}

/// Sixteen pointers, of the first one and those beside it.
pub(crate) fn led_by(first: u32, beside: &[u32; BESIDE]) -> [u32; POINTERS]
    ensures { result ≡ first ∷ beside.now }
{
    let mut pointers = [first; POINTERS];
    pointers[1..].copy_from_slice(beside);
    pointers
}

//! Each loop over the words of the map, a vector of words at a time.
ghost use Rattle.std.specs.Prelude.{◌≡◌, ◌+◌, ◌<◌, ◌≤◌, length, map, count_by, position};
ghost use Rattle.std.specs.Simd.Lanes.{chunk, mask_l};
ghost use Rattle.sn_map.specs.Bits.{with_bit_copied, with_bit_cleared};
ghost use Rattle.sn_map.specs.Free.{is_free_word};

use crate::plain;
use std::simd::prelude::*;

// As many words as a mask has bits.
const SEARCHED: usize = 64;

// As many words as the registers of x86-64 have room for besides what is computed of them: a loop on
// wider vectors takes longer.
const CHANGED: usize = 16;

pub(crate) fn count_free(words: &[u32]) -> usize
    ensures { result ≡ count_by is_free_word words.now }
{
    let mut count = 0;
    let mut at = 0;
    'vectors: while words.len() - at >= SEARCHED {
        count += free_lanes(words, at).count_ones() as usize;
        at += SEARCHED;
    }
    count + plain::count_free(&words[at..])
}

#[inline]
pub(crate) fn first_free(words: &[u32]) -> Option<usize>
    ensures { result ≡ position is_free_word words.now }
{
    // Where most blocks are free, this spares a vector for each block that is taken.
    if words.first() == Some(&0) {
        return Some(0);
    }
    first_free_by_vectors(words)
}

fn first_free_by_vectors(words: &[u32]) -> Option<usize>
    ensures { result ≡ position is_free_word words.now }
{
    let mut at = 0;
    'vectors: while words.len() - at >= SEARCHED {
        let free = free_lanes(words, at);
        if free != 0 {
            return Some(at + free.trailing_zeros() as usize);
        }
        at += SEARCHED;
    }
    match plain::first_free(&words[at..]) {
        Some(ahead) => Some(at + ahead),
        None => None,
    }
}

pub(crate) fn copy_bit(words: &mut [u32], from: u32, to: u32)
    requires from { from < 32 }
    requires to { to < 32 }
    ensures { words.new ≡ map (with_bit_copied from to) words.old }
{
    let mut at = 0;
    'vectors: while words.len() - at >= CHANGED {
        let lanes = u32x16::from_slice(&words[at..]);
        bit_copied(lanes, from, to).copy_to_slice(&mut words[at..]);
        at += CHANGED;
    }
    plain::copy_bit(&mut words[at..], from, to);
}

pub(crate) fn clear_bit(words: &mut [u32], k: u32)
    requires { k < 32 }
    ensures { words.new ≡ map (with_bit_cleared k) words.old }
{
    let mut at = 0;
    'vectors: while words.len() - at >= CHANGED {
        let lanes = u32x16::from_slice(&words[at..]);
        bit_cleared(lanes, k).copy_to_slice(&mut words[at..]);
        at += CHANGED;
    }
    plain::clear_bit(&mut words[at..], k);
}

// Bit i says whether word i from an index on is 0.
#[inline(always)]
fn free_lanes(words: &[u32], at: usize) -> u64
    requires { at + SEARCHED ≤ length words.now }
    ensures { result ≡ mask_l (map is_free_word (chunk at SEARCHED words.now)) }
{
    u32x64::from_slice(&words[at..])
        .simd_eq(u32x64::splat(0))
        .to_bitmask()
}

#[inline(always)]
fn bit_copied(words: u32x16, from: u32, to: u32) -> u32x16
    requires from { from < 32 }
    requires to { to < 32 }
    ensures { result ≡ map (with_bit_copied from to) words }
{
    let others = words & u32x16::splat(!(1 << to));
    others | (((words >> from) & u32x16::splat(1)) << to)
}

#[inline(always)]
fn bit_cleared(words: u32x16, k: u32) -> u32x16
    requires { k < 32 }
    ensures { result ≡ map (with_bit_cleared k) words }
{
    words & u32x16::splat(!(1 << k))
}

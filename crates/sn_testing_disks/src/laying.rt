//! Roots, trees and maps that are laid on a disk.

use crate::bytes::{part, put, put_number, start_of};

/// The bits of a root's snapshots, the first one first.
pub const SNAPSHOT_BITS: [u32; 2] = [1, 31];

/// What stands in a root body beside its trees.
#[derive(Clone, Copy)]
pub struct Ages {
    pub generation: u64,
    pub epoch: u64,
}

/// Lays the front of a root body of version 2.
pub fn lay_ages(disk: &mut [u8], body: usize, ages: Ages) {
    put_number(disk, body, 4, 2);
    put_number(disk, body.saturating_add(8), 8, ages.generation);
    put_number(disk, body.saturating_add(16), 8, ages.epoch);
}

/// Lays a snapshot of a root body but for its tree, whose place is given back.
pub fn lay_snapshot(disk: &mut [u8], body: usize, index: usize, bit: u32) -> usize {
    let at = body
        .saturating_add(624)
        .saturating_add(index.saturating_mul(112));
    put_number(
        disk,
        body.saturating_add(24),
        4,
        index.saturating_add(1) as u64,
    );
    put(
        disk,
        at,
        &[(bit % 256) as u8, 3, b's', b'_', b'a' + (index % 26) as u8],
    );
    at.saturating_add(40)
}

/// Whether the root with this bit reaches the block of a word.
pub fn has_bit(word: u32, bit: u32) -> bool {
    word >> (bit % 32) & 1 == 1
}

fn count_with(words: &[u32], bit: u32) -> u64 {
    let mut count: u64 = 0;
    for word in words {
        if has_bit(*word, bit) {
            count = count.saturating_add(1);
        }
    }
    count
}

/// Lays the root of a tree at a place. Its data blocks are those with a bit, and where they are more than sixteen it
/// takes one more block for their pointers. Whether it took that is given back.
pub fn lay_tree(disk: &mut [u8], at: usize, words: &[u32], bit: u32, indirect: u64) -> bool {
    let count = count_with(words, bit);
    let takes_more = count > 16;
    put(disk, at, &[0; 72]);
    put_number(disk, at, 8, count.saturating_mul(4096));
    let pointers = at.saturating_add(8);
    if takes_more {
        put_number(disk, pointers, 4, indirect);
        put(disk, start_of(indirect), &[0; 4096]);
        lay_pointers(disk, start_of(indirect), words, bit);
    } else {
        lay_pointers(disk, pointers, words, bit);
    }
    takes_more
}

/// Lays the numbers of the blocks with a bit one behind the other.
fn lay_pointers(disk: &mut [u8], at: usize, words: &[u32], bit: u32) {
    let mut at = at;
    for (number, word) in words.iter().enumerate() {
        if has_bit(*word, bit) {
            put_number(disk, at, 4, number as u64);
            at = at.saturating_add(4);
        }
    }
}

/// Lays a map copy.
pub fn lay_map(disk: &mut [u8], map: usize, words: &[u32]) {
    for (number, word) in words.iter().enumerate() {
        put(
            disk,
            map.saturating_add(number.saturating_mul(4)),
            &word.to_le_bytes(),
        );
    }
}

/// Copies a block of a disk to another place of it.
pub fn copy_block(disk: &mut [u8], from: usize, to: usize) {
    let mut block = [0; 4096];
    put(&mut block, 0, part(disk, from, 4096));
    put(disk, to, &block);
}

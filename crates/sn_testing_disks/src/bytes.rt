//! Parts and numbers of bytes.

/// The bytes of a sector.
pub const SECTOR: usize = 512;

/// The bytes of a block.
pub const BLOCK: usize = 4096;

/// So many bytes from a place on, or none where fewer are there.
pub fn part(bytes: &[u8], at: usize, count: usize) -> &[u8] {
    match bytes.get(at..) {
        Some(rest) => match rest.get(..count) {
            Some(front) => front,
            None => &[],
        },
        None => &[],
    }
}

/// Puts bytes at a place, where there is room for all of them.
pub fn put(bytes: &mut [u8], at: usize, run: &[u8]) {
    if let Some(rest) = bytes.get_mut(at..)
        && run.len() <= rest.len()
    {
        rest[..run.len()].copy_from_slice(run);
    }
}

/// The block with this number.
pub fn block_of(disk: &[u8], number: u64) -> &[u8] {
    part(disk, start_of(number), BLOCK)
}

/// Where a block begins.
pub fn start_of(number: u64) -> usize {
    BLOCK.saturating_mul(number as usize)
}

/// The number in so many bytes, of which the lowest stands first.
pub fn number_at(bytes: &[u8], at: usize, width: usize) -> u64 {
    let mut number: u64 = 0;
    for byte in part(bytes, at, width).iter().rev() {
        number = number.wrapping_mul(256) | u64::from(*byte);
    }
    number
}

/// Puts a number, of which so many bytes are kept.
pub fn put_number(bytes: &mut [u8], at: usize, width: usize, number: u64) {
    put(bytes, at, part(&number.to_le_bytes(), 0, width));
}

/// Whether each byte is 0, as it is of no bytes.
pub fn are_zeros(bytes: &[u8]) -> bool {
    bytes.iter().all(|byte| *byte == 0)
}

ghost use Rattle.std.specs.Prelude.{◌≡◌, ℕ, ◌+◌, ◌≤◌, length, slice_index};
ghost use Rattle.sn_file_bytes.specs.Blocks.{cut_at, over};

use sn_limits::{BLOCK_SIZE, Block};

/// How many bytes a block has, as offsets count them.
pub(crate) const BLOCK_BYTES: u64 = BLOCK_SIZE as u64;

/// A block that nothing was written to.
pub(crate) const ZEROS: Block = [0; 4096];

/// Puts bytes into a block, from an offset on.
pub(crate) fn put(block: &mut Block, from: usize, piece: &[u8])
    requires { from + length piece.now ≤ 4096 }
    ensures { (i : ℕ) → slice_index block.new i ≡ over (slice_index block.old) from piece.now i }
{
    block[from..from + piece.len()].copy_from_slice(piece);
}

/// Puts zeros into a block, from an offset on.
pub(crate) fn clear_from(block: &mut Block, from: usize)
    requires { from ≤ 4096 }
    ensures { (i : ℕ) → slice_index block.new i ≡ cut_at (slice_index block.old) from i }
{
    block[from..].fill(0);
}

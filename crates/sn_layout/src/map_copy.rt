//! 1,024 words u32 a block, one for each block of the disk, and zeros after the last.
ghost use Rattle.std.specs.Prelude.{◌≡◌, ℕ, ◌*◌, ◌≤◌, List, take, length, IsTrue};
ghost use Rattle.sn_bytes.specs.Bytes.{AreNumbers, numbers_bytes};
ghost use Rattle.sn_layout.specs.MapCopy.{map_block_bytes};

use crate::{BLOCK_SIZE, Block};
use sn_bytes::{Reader, put_u32s, put_zeros};

/// The words that a block of a map copy holds.
pub const WORDS_PER_BLOCK: usize = 1024;

/// Writes a block of a map copy: the words of its blocks, and zeros after the disk's last.
pub fn put_map_words(words: &[u32], block: &mut Block)
    requires { length words.now ≤ 1024 }
    ensures { block.new ≡ map_block_bytes words.now }
{
    let at = put_u32s(block, 0, words);
    put_zeros(block, at, BLOCK_SIZE - at);
}

/// Reads so many words of a block of a map copy. `false` where bytes other than zeros follow
/// them; the words are those of the block in any case.
pub fn read_map_words(block: &Block, words: &mut [u32]) -> bool
    requires { length words.old ≤ 1024 }
    ensures fits { AreNumbers 4 words.new }
    ensures words { numbers_bytes 4 words.new ≡ take (4 * length words.old) block.now }
    ensures found { IsTrue result → block.now ≡ map_block_bytes words.new }
    ensures only { (all : List ℕ) → length all ≡ length words.old → AreNumbers 4 all
        → block.now ≡ map_block_bytes all → IsTrue result × (words.new ≡ all) }
{
    let mut reader = Reader::new(block);
    reader.u32s(words);
    reader.are_zeros(reader.remaining())
}

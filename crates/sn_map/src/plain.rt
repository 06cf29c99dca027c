//! Each loop over the words of the map, a word at a time.
//!
//! The loops on lanes leave their last words to these.
ghost use Rattle.std.specs.Prelude.{◌≡◌, ◌<◌, map, count_by, position};
ghost use Rattle.sn_map.specs.Bits.{with_bit_copied, with_bit_cleared};
ghost use Rattle.sn_map.specs.Free.{is_free_word};

pub(crate) fn count_free(words: &[u32]) -> usize
    ensures { result ≡ count_by is_free_word words.now }
{
    words.iter().filter(|word| **word == 0).count()
}

pub(crate) fn first_free(words: &[u32]) -> Option<usize>
    ensures { result ≡ position is_free_word words.now }
{
    words.iter().position(|word| *word == 0)
}

pub(crate) fn copy_bit(words: &mut [u32], from: u32, to: u32)
    requires from { from < 32 }
    requires to { to < 32 }
    ensures { words.new ≡ map (with_bit_copied from to) words.old }
{
    for word in words.iter_mut() {
        *word = bit_copied(*word, from, to);
    }
}

pub(crate) fn clear_bit(words: &mut [u32], k: u32)
    requires { k < 32 }
    ensures { words.new ≡ map (with_bit_cleared k) words.old }
{
    for word in words.iter_mut() {
        *word = bit_cleared(*word, k);
    }
}

#[inline(always)]
fn bit_copied(word: u32, from: u32, to: u32) -> u32
    requires from { from < 32 }
    requires to { to < 32 }
    ensures { result ≡ with_bit_copied from to word }
{
    (word & !(1 << to)) | (((word >> from) & 1) << to)
}

#[inline(always)]
fn bit_cleared(word: u32, k: u32) -> u32
    requires { k < 32 }
    ensures { result ≡ with_bit_cleared k word }
{
    word & !(1 << k)
}

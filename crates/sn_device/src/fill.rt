//! What a crash leaves in a sector that wasn't synced.
ghost use Rattle.std.specs.Prelude.{◌≡◌, ◌<◌};
ghost use Rattle.sn_device.specs.Sectors.{IsSector};
ghost use Rattle.sn_device.specs.Fill.{drawn, one_of_six};

use crate::Sector;
use rand_core::Rng;
use rand_pcg::Pcg32;

/// How a crash leaves each sector that was written or tried since the last sync that succeeded.
#[derive(Clone, Copy, PartialEq, Eq)]
pub enum Fill {
    /// What was there at the last sync.
    Old,
    /// What was written last, or tried.
    New,
    /// Every byte 00.
    Zero,
    /// Every byte 01.
    One,
    /// Every byte a5.
    Junk,
    /// Each sector in one of these five ways or with random bytes, as a `Pcg32` of this state draws
    /// that was advanced by 129 words for each sector before it: one word for the way, and 128 for the
    /// bytes. So one seed always leaves the same.
    Seeded(u64),
}

// The random words that a sector may take.
const WORDS_PER_SECTOR: u64 = 129;

/// What a seed leaves in a sector, in which the one was there at the last sync and the other is now.
pub fn drawn(seed: u64, at: u64, before: Sector, after: Sector) -> Sector
    ensures filled { result ≡ drawn seed at before after }
    ensures whole { IsSector result }
{
    let mut random = Pcg32::new(seed, 0);
    random.advance(at.wrapping_mul(WORDS_PER_SECTOR));
    let way = random.next_u32() % 6;
    let mut bytes = [0; 512];
    random.fill_bytes(&mut bytes);
    one_of_six(way, bytes, before, after)
}

fn one_of_six(way: u32, random: Sector, before: Sector, after: Sector) -> Sector
    requires { way < 6 }
    ensures filled { result ≡ one_of_six way random before after }
    ensures whole { IsSector result }
{
    match way {
        0 => before,
        1 => after,
        2 => [0; 512],
        3 => [1; 512],
        4 => [0xa5; 512],
        _ => random,
    }
}

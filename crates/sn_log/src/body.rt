//! The body of a record: its epoch, how many records are before it in the half, the length of its
//! payload, the payload, and zeros to the end of the last sector.
ghost use Rattle.std.specs.Prelude.{◌≡◌, ◌+◌, ◌*◌, ◌/◌, ◌≤◌, List, ℕ, ◌++◌, take, length, IsTrue};
ghost use Rattle.sn_ondisk.specs.LogHalf.{body_sectors, body_bytes};
ghost use Rattle.sn_record.specs.Payload.{IsSpelled, payload_bytes};

use sn_layout::{Reader, SECTOR_SIZE, put_u32, put_u64, put_zeros};
use sn_record::{Payload, put_change};

/// The bytes of the longest body: 129 sectors.
pub(crate) const BODY_MAX: usize = 66_048;

/// The bytes before the payload.
pub(crate) const HEAD_SIZE: usize = 16;

/// What precedes the payload.
#[derive(Clone, Copy, PartialEq, Eq)]
pub(crate) struct Head {
    pub(crate) epoch: u64,
    /// How many records are before this one in the half.
    pub(crate) sequence: u32,
    /// How many bytes the payload has.
    pub(crate) size: u32,
}

impl Head {
    ghost use Rattle.sn_log.specs.declared.body.Head.{Head as TheHead};
    ghost use Rattle.sn_log.specs.Heads.{IsHead, head_bytes};

    /// Any bytes are a head.
    pub(crate) fn read(reader: &mut Reader<'_>) -> Self
        requires { 16 ≤ length reader.old }
        ensures read { reader.old ≡ head_bytes result ++ reader.new }
        ensures only { (head : TheHead) (rest : List ℕ) → IsHead head → reader.old ≡ head_bytes head ++ rest
            → (result ≡ head) × (reader.new ≡ rest) }
        ensures left { length reader.new + 16 ≡ length reader.old }
        ensures fits { IsHead result }
    {
        let epoch = reader.u64();
        let sequence = reader.u32();
        let size = reader.u32();
        Head {
            epoch,
            sequence,
            size,
        }
    }
}

/// Whether bytes are a body with this head.
pub(crate) fn is_body(bytes: &[u8], head: Head) -> bool
    requires size { 16 + head.size ≤ length bytes.now }
    requires sectors { length bytes.now ≡ 512 * ((16 + head.size + 511) / 512) }
    ensures found { IsTrue result → (payload : List ℕ) × (length payload ≡ head.size) × (bytes.now ≡ body_bytes head.epoch head.sequence payload) }
    ensures only { (payload : List ℕ) → length payload ≡ head.size → bytes.now ≡ body_bytes head.epoch head.sequence payload → IsTrue result }
{
    let mut reader = Reader::new(bytes);
    let found = Head::read(&mut reader);
    reader.bytes(head.size as usize);
    let rest = reader.remaining();
    reader.are_zeros(rest) && found == head
}

/// How many sectors a body takes whose payload has so many bytes.
pub(crate) fn sectors_for(size: usize) -> usize
    requires { size ≤ 65547 }
    ensures value { result ≡ (16 + size + 511) / 512 }
    ensures most { result ≤ 129 }
{
    (HEAD_SIZE + size).div_ceil(SECTOR_SIZE)
}

/// Spells the body of a change's record, and answers how many bytes it has, which are whole sectors.
pub(crate) fn put_body(
    body: &mut [u8; 66_048],
    epoch: u64,
    sequence: u32,
    payload: &Payload<'_>,
) -> usize
    ensures bytes { take result body.new ≡ body_bytes epoch sequence (payload_bytes payload.now) }
    ensures size { result ≡ 512 * body_sectors (payload_bytes payload.now) }
    ensures spelled { IsSpelled payload.now }
    ensures fits { (1 ≤ length (payload_bytes payload.now)) × (length (payload_bytes payload.now) ≤ 65547) }
{
    let length = payload.size();
    let size = SECTOR_SIZE * sectors_for(length);
    let at = put_u64(body, 0, epoch);
    let at = put_u32(body, at, sequence);
    let at = put_u32(body, at, length as u32);
    let at = put_change(body, at, payload.change());
    put_zeros(body, at, size - at)
}

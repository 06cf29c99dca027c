//! What the bytes end with.
ghost use Rattle.std.specs.Prelude.{◌≡◌, ◌↔◌, ℕ, List, Some, IfSome, IsTrue};
ghost use Rattle.std.specs.Option.{option_copied};
ghost use Rattle.sn_times_file.specs.Kept.{checksum, sealed};

use sha2::{Digest, Sha256};

/// Bytes of a checksum.
const CHECKSUM_SIZE: usize = 32;

/// SHA-256 (FIPS 180-4) of bytes.
pub(crate) fn checksum(bytes: &[u8]) -> [u8; CHECKSUM_SIZE]
    ensures { result ≡ checksum bytes.now }
{
    Sha256::digest(bytes)
}

/// Whether these are the same bytes.
pub(crate) fn are_equal(bytes: &[u8], wanted: &[u8]) -> bool
    ensures { IsTrue result ↔ (bytes.now ≡ wanted.now) }
{
    bytes == wanted
}

/// The bytes before their checksum.
pub(crate) fn unsealed(bytes: &[u8]) -> Option<&[u8]>
    ensures found { IfSome result (λ body. bytes.now ≡ sealed body.now) }
    ensures only { (body : List ℕ) → bytes.now ≡ sealed body → option_copied result ≡ Some body }
{
    if bytes.len() < CHECKSUM_SIZE {
        return None;
    }
    let (body, sum) = bytes.split_at(bytes.len() - CHECKSUM_SIZE);
    if !are_equal(sum, &checksum(body)) {
        return None;
    }
    Some(body)
}

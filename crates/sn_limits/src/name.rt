ghost use Rattle.std.specs.Prelude.{◌≡◌, ◌≤◌, ◌&&◌, ◌==◌, not, length, map, take};
ghost use Rattle.std.specs.List.{list_all};
ghost use Rattle.std.specs.Simd.Lanes.{mask_l};
ghost use Rattle.sn_limits.specs.Names as names;

use std::simd::prelude::*;

/// The most bytes of a name.
pub const NAME_MAX: usize = 255;

// As many bytes as are tested at once.
const LANES: usize = 16;

fn is_name_byte(byte: u8) -> bool
    ensures { result ≡ names.is_name_byte byte }
{
    byte > 0x20 && byte < 0x7f && byte != b'/'
}

/// Whether the bytes are `.` or `..`.
pub(crate) fn is_dots(name: &[u8]) -> bool
    ensures { result ≡ names.is_dots name.now }
{
    match name {
        [a] => *a == b'.',
        [a, b] => *a == b'.' && *b == b'.',
        _ => false,
    }
}

fn is_neither_empty_nor_dots(name: &[u8]) -> bool
    ensures { result ≡ (not (length name.now == 0) && not (names.is_dots name.now)) }
{
    !name.is_empty() && !is_dots(name)
}

// Bit i says whether byte i is none of a name.
#[inline(always)]
fn other_bytes(bytes: &[u8]) -> u64
    requires { LANES ≤ length bytes.now }
    ensures { result ≡ mask_l (map names.is_other_byte (take LANES bytes.now)) }
{
    let lanes = u8x16::from_slice(bytes);
    let outside = (lanes - u8x16::splat(0x21)).simd_ge(u8x16::splat(0x5e));
    (outside | lanes.simd_eq(u8x16::splat(b'/'))).to_bitmask()
}

// The first of the bytes, up to as many as are tested at once.
#[inline(always)]
fn begins_with_few(bytes: &[u8], count: usize) -> bool
    requires few { count ≤ LANES }
    requires count { count ≤ length bytes.now }
    ensures { result ≡ list_all names.is_name_byte (take count bytes.now) }
{
    if bytes.len() < LANES {
        return has_name_bytes(&bytes[..count]);
    }
    let others = other_bytes(bytes);
    others == 0 || others.trailing_zeros() as usize >= count
}

// Whether so many bytes at the front are bytes of a name. Those after them are read too, where
// there are some, and don't matter.
fn begins_with_name_bytes(bytes: &[u8], count: usize) -> bool
    requires { count ≤ length bytes.now }
    ensures { result ≡ list_all names.is_name_byte (take count bytes.now) }
{
    let mut rest = bytes;
    let mut left = count;
    'vectors: while left > LANES {
        if other_bytes(rest) != 0 {
            return false;
        }
        rest = &rest[LANES..];
        left -= LANES;
    }
    begins_with_few(rest, left)
}

fn has_name_bytes(name: &[u8]) -> bool
    ensures { result ≡ list_all names.is_name_byte name.now }
{
    name.iter().all(|byte| is_name_byte(*byte))
}

/// Whether the bytes are spelled as a name, whatever their number.
pub fn is_name_spelled(name: &[u8]) -> bool
    ensures { result ≡ names.is_name_spelled name.now }
{
    is_neither_empty_nor_dots(name) && has_name_bytes(name)
}

/// Whether a name has no more bytes than a directory's names.
pub fn has_name_length(name: &[u8]) -> bool
    ensures { result ≡ names.has_name_length name.now }
{
    name.len() <= NAME_MAX
}

/// Whether a directory can have this name: 1 to 255 bytes of printable ASCII without space and
/// slash, and neither `.` nor `..`.
///
/// Proved, also of `begins_with_name` and `SnapshotName::parse`: The names that directories and snapshots can have are
/// exactly those of their grammars.
pub fn is_name(name: &[u8]) -> bool
    ensures { result ≡ names.is_name name.now }
{
    is_name_spelled(name) && has_name_length(name)
}

/// Whether so many bytes at the front are a name. It is quickest where more bytes follow.
pub fn begins_with_name(bytes: &[u8], count: usize) -> bool
    requires { count ≤ length bytes.now }
    ensures { result ≡ names.is_name (take count bytes.now) }
{
    let name = &bytes[..count];
    (count > 2 || is_neither_empty_nor_dots(name))
        && count <= NAME_MAX
        && begins_with_name_bytes(bytes, count)
}

ghost use Rattle.std.specs.Prelude.{◌≡◌, ◌≤◌, ◌↔◌, List, ℕ, length, IsTrue, IsSome, IfSome};
ghost use Rattle.std.specs.List.{list_all};
ghost use Rattle.sn_limits.specs.Names as names;
ghost use Rattle.sn_host_names.specs.Escapes as escapes;
ghost use Rattle.sn_host_names.specs.Escapes.{image_name};

use crate::escapes::{spelled, split_first};
use arrayvec::ArrayVec;
use sn_limits::NAME_MAX;

// Whether the bytes are `.` or `..`.
fn is_dots(name: &[u8]) -> bool
    ensures { result ≡ names.is_dots name.now }
{
    match name {
        [a] => *a == b'.',
        [a, b] => *a == b'.' && *b == b'.',
        _ => false,
    }
}

fn has_host_bytes(name: &[u8]) -> bool
    ensures { result ≡ list_all escapes.is_host_byte name.now }
{
    name.iter().all(|byte| *byte != 0 && *byte != b'/')
}

/// Whether a directory of a mount can have this name: one or more bytes, none of them 0 or a slash, and neither `.` nor
/// `..`. How long a host name can be is for the system that mounts: `to_image` says which fit.
pub fn is_host_name(name: &[u8]) -> bool
    ensures { result ≡ escapes.is_host_name name.now }
{
    !name.is_empty() && !is_dots(name) && has_host_bytes(name)
}

/// The image name of a host name. `None` where it has more than 255 bytes.
///
/// Proved: A name of a mount has the name of an image that denotes it as its answer, or none exactly where that has more
/// than 255 bytes; it is always a name that a directory can have.
pub fn to_image(name: &[u8]) -> Option<ArrayVec<u8, NAME_MAX>>
    requires { IsTrue (escapes.is_host_name name.now) }
    ensures value { IfSome result (λ image. image.items ≡ image_name name.now) }
    ensures fits { IsSome result ↔ (length (image_name name.now) ≤ NAME_MAX) }
    ensures valid { IfSome result (λ image. IsTrue (names.is_name image.items)) }
{
    let mut image = ArrayVec::new();
    let mut rest = name;
    while let [byte, more @ ..] = rest {
        image.try_extend_from_slice(spelled(byte, more)).ok()?;
        rest = more;
    }
    Some(image)
}

/// The host name whose image name this is, which has no more bytes.
///
/// Proved: A name of an image has the one name of a mount that it denotes as its answer, which is no longer.
pub fn to_host(name: &[u8]) -> ArrayVec<u8, NAME_MAX>
    requires { IsTrue (names.is_name name.now) }
    ensures value { image_name result.items ≡ name.now }
    ensures only { (host : List ℕ) → image_name host ≡ name.now → host ≡ result.items }
    ensures valid { IsTrue (escapes.is_host_name result.items) }
    ensures short { length result.items ≤ length name.now }
{
    let mut host = ArrayVec::new();
    let mut rest = name;
    while let Some((byte, more)) = split_first(rest) {
        host.push(byte);
        rest = more;
    }
    host
}

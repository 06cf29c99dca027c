//! What a name's bytes denote, one at a time.
ghost use Rattle.std.specs.Prelude.{◌≡◌, ◌<◌, ◌∷◌, [], List, ℕ, true, IsTrue, IsNone, IfSome, length};
ghost use Rattle.std.specs.Char.{digit_value};
ghost use Rattle.std.specs.List.{list_all};
ghost use Rattle.sn_limits.specs.Names.{is_name_byte};
ghost use Rattle.sn_host_names.specs.Escapes as escapes;
ghost use Rattle.sn_host_names.specs.Escapes.{is_host_byte, image_name, spelled};

use percent_encoding::percent_encode_byte;
use std::slice;

// Whether a host name can have the byte, and an image name can't.
fn is_escaped(byte: u8) -> bool
    ensures { result ≡ escapes.is_escaped byte }
{
    matches!(byte, 0x01..=0x20 | 0x7f..=0xff)
}

fn is_hex_digit(byte: u8) -> bool
    ensures { result ≡ escapes.is_hex_digit byte }
{
    matches!(byte, b'0'..=b'9' | b'A'..=b'F')
}

fn digit_value(digit: u8) -> u32
    requires { IsTrue (escapes.is_hex_digit digit) }
    ensures value { result ≡ digit_value digit }
    ensures small { result < 16 }
{
    char::from(digit).to_digit(16).unwrap()
}

// The byte with these digits.
fn byte_of(high: u8, low: u8) -> u8
    requires high { IsTrue (escapes.is_hex_digit high) }
    requires low { IsTrue (escapes.is_hex_digit low) }
    ensures { result ≡ escapes.byte_of high low }
{
    (16 * digit_value(high) + digit_value(low)) as u8
}

// Whether these are the digits of a byte that is escaped.
fn are_digits(high: u8, low: u8) -> bool
    ensures { result ≡ escapes.are_digits high low }
{
    is_hex_digit(high) && is_hex_digit(low) && is_escaped(byte_of(high, low))
}

// Whether these bytes make an escape of a `%` before them: `(25)*XX`.
fn makes_escape(bytes: &[u8]) -> bool
    ensures { result ≡ escapes.makes_escape bytes.now }
{
    let mut rest = bytes;
    while let [b'2', b'5', more @ ..] = rest {
        rest = more;
    }
    match rest {
        [high, low, ..] => are_digits(*high, *low),
        _ => false,
    }
}

/// How the image name spells a byte of a host name, where these follow it.
pub fn spelled<'a>(byte: &'a u8, rest: &[u8]) -> &'a [u8]
    ensures { result.now ≡ spelled byte.now rest.now }
{
    if is_escaped(*byte) || (*byte == b'%' && makes_escape(rest)) {
        percent_encode_byte(*byte).as_bytes()
    } else {
        slice::from_ref(byte)
    }
}

/// The byte of the host name that an image name begins with, and what follows its spelling. `None` where nothing is left.
pub fn split_first(name: &[u8]) -> Option<(u8, &[u8])>
    requires { list_all is_name_byte name.now ≡ true }
    ensures none { IsNone result → name.now ≡ [] }
    ensures first { IfSome result (λ r. (host : List ℕ) → image_name host ≡ r.1.now → image_name (r.0 ∷ host) ≡ name.now) }
    ensures byte { IfSome result (λ r. is_host_byte r.0 ≡ true) }
    ensures shorter { IfSome result (λ r. length r.1.now < length name.now) }
    ensures rest { IfSome result (λ r. list_all is_name_byte r.1.now ≡ true) }
{
    let (first, rest) = name.split_first()?;
    if *first == b'%' && makes_escape(rest) {
        return Some((byte_of(rest[0], rest[1]), &rest[2..]));
    }
    Some((*first, rest))
}

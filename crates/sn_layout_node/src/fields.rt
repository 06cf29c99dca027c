//! What inodes and log records say alike of a node.
//!
//! | field | meaning |
//! |---|---|
//! | kind u8 | 1 a file, 2 a directory |
//! | S bits u8 | bit 0 S_ISGID, bit 1 S_ISVTX |
ghost use Rattle.std.specs.Prelude.{◌≡◌, ℕ, ◌+◌, ◌≤◌, List, [], ◌∷◌, length, Some, IfSome};
ghost use Rattle.sn_limits.specs.declared.kind.Kind.{Kind as TheKind};
ghost use Rattle.sn_layout.specs.Bytes.{Puts};
ghost use Rattle.sn_layout_node.specs.Inode.{kind_number, flags_number};
ghost use Rattle.sn_layout_node.specs.declared.fields.SpecialBits.{SpecialBits as TheBits};

use sn_layout::{Reader, put_u8};
use sn_limits::Kind;

/// The mode bits of a node besides the rights of its classes.
#[derive(Clone, Copy, Default, PartialEq, Eq)]
pub struct SpecialBits {
    /// S_ISGID.
    pub set_gid: bool,
    /// S_ISVTX.
    pub sticky: bool,
}

fn kind_number(kind: Kind) -> u8
    ensures { result ≡ kind_number kind }
{
    match kind {
        Kind::File => 1,
        Kind::Directory => 2,
    }
}

pub(crate) fn kind_of(number: u8) -> Option<Kind>
    ensures found { IfSome result (λ kind. number ≡ kind_number kind) }
    ensures only { (kind : TheKind) → number ≡ kind_number kind → result ≡ Some kind }
{
    match number {
        1 => Some(Kind::File),
        2 => Some(Kind::Directory),
        _ => None,
    }
}

fn flags_number(bits: SpecialBits) -> u8
    ensures { result ≡ flags_number bits.set_gid bits.sticky }
{
    match (bits.set_gid, bits.sticky) {
        (false, false) => 0,
        (true, false) => 1,
        (false, true) => 2,
        (true, true) => 3,
    }
}

/// The S bits of this number. `None` where another bit is set.
pub fn special_bits_of(number: u8) -> Option<SpecialBits>
    ensures found { IfSome result (λ bits. number ≡ flags_number bits.set_gid bits.sticky) }
    ensures only { (bits : TheBits) → number ≡ flags_number bits.set_gid bits.sticky → result ≡ Some bits }
{
    if number > 3 {
        return None;
    }
    Some(SpecialBits {
        set_gid: number == 1 || number == 3,
        sticky: number >= 2,
    })
}

/// Writes a kind, and answers the offset after it.
pub fn put_kind(block: &mut [u8], at: usize, kind: Kind) -> usize
    requires { at + 1 ≤ length block.old }
    ensures { Puts block.old block.new at result (kind_number kind ∷ []) }
{
    put_u8(block, at, kind_number(kind))
}

/// Reads a kind. `None` where no byte is left or it is none; how far the reader has come then is
/// open.
///
/// Proved, also of `special_bits_of` and `read_name`: Kinds, S bits and names are read as log records have them too.
pub fn read_kind(reader: &mut Reader<'_>) -> Option<Kind>
    ensures found { IfSome result (λ kind. reader.old ≡ kind_number kind ∷ reader.new) }
    ensures only { (kind : TheKind) (rest : List ℕ) → reader.old ≡ kind_number kind ∷ rest → (result ≡ Some kind) × (reader.new ≡ rest) }
    ensures left { IfSome result (λ _. length reader.new + 1 ≡ length reader.old) }
{
    let number = reader.try_u8()?;
    kind_of(number)
}

/// Writes S bits, and answers the offset after them.
pub fn put_special_bits(block: &mut [u8], at: usize, bits: SpecialBits) -> usize
    requires { at + 1 ≤ length block.old }
    ensures { Puts block.old block.new at result (flags_number bits.set_gid bits.sticky ∷ []) }
{
    put_u8(block, at, flags_number(bits))
}

//! | offset | field of a name, in directory blocks and log records |
//! |---|---|
//! | 0 | length u8, 1 to 255 |
//! | 1 | the bytes |
ghost use Rattle.std.specs.Prelude.{◌≡◌, ℕ, ◌+◌, ◌≤◌, List, ◌++◌, length, IfSome, IsSome, IsTrue};
ghost use Rattle.sn_limits.specs.Names.{is_name};
ghost use Rattle.sn_layout.specs.Bytes.{Puts};
ghost use Rattle.sn_layout_node.specs.Directory.{name_bytes};

use sn_layout::{Reader, put_bytes, put_u8};
use sn_limits::begins_with_name;

/// Writes a name with its length, and answers the offset after it.
pub fn put_name(block: &mut [u8], at: usize, name: &[u8]) -> usize
    requires name { IsTrue (is_name name.now) }
    requires room { at + 1 + length name.now ≤ length block.old }
    ensures bytes { Puts block.old block.new at result (name_bytes name.now) }
    ensures next { result ≡ at + 1 + length name.now }
{
    let at = put_u8(block, at, name.len() as u8);
    put_bytes(block, at, name)
}

/// Reads a name. `None` where the bytes end before it does or are none; how far the reader has come
/// then is open.
pub fn read_name<'a>(reader: &mut Reader<'a>) -> Option<&'a [u8]>
    ensures found { IfSome result (λ name. IsTrue (is_name name.now) × (reader.old ≡ name_bytes name.now ++ reader.new)) }
    ensures only { (name rest : List ℕ) → IsTrue (is_name name) → reader.old ≡ name_bytes name ++ rest
        → IsSome result × IfSome result (λ read. read.now ≡ name) × (reader.new ≡ rest) }
    ensures left { length reader.new ≤ length reader.old }
{
    let count = reader.try_u8()? as usize;
    if count > reader.remaining() || !begins_with_name(reader.rest(), count) {
        return None;
    }
    Some(reader.bytes(count))
}

//! The changes of a file's bytes: some written, or their number set.
ghost use Rattle.std.specs.Prelude.{◌≡◌, ℕ, ◌+◌, ◌≤◌, List, [], ◌∷◌, ◌++◌, length, Some, IfSome, IsTrue, ◌↔◌};
ghost use Rattle.sn_model.specs.declared.change.Change.TheVariants.{Write, SetSize};
ghost use Rattle.sn_layout.specs.Bytes.{Puts};
ghost use Rattle.sn_record.specs.Payload.{IsSpelled, fields_bytes, payload_bytes};

use sn_layout::{Reader, put_bytes, put_u16, put_u64};
use sn_model::{Bytes, Change};

/// The most bytes that one record writes.
pub const WRITE_MAX: usize = 65_536;

pub(crate) fn put_write(
    block: &mut [u8],
    at: usize,
    number: u16,
    offset: u64,
    bytes: &[u8],
) -> usize
    requires { at + 10 + length bytes.now ≤ length block.old }
    ensures { Puts block.old block.new at result (fields_bytes (Write number offset bytes.now)) }
{
    let at = put_u16(block, at, number);
    let at = put_u64(block, at, offset);
    put_bytes(block, at, bytes)
}

pub(crate) fn put_size(block: &mut [u8], at: usize, number: u16, size: u64) -> usize
    requires { at + 10 ≤ length block.old }
    ensures { Puts block.old block.new at result (fields_bytes (SetSize number size)) }
{
    let at = put_u16(block, at, number);
    put_u64(block, at, size)
}

pub(crate) fn is_written_size(count: usize) -> bool
    ensures { IsTrue result ↔ ((1 ≤ count) × (count ≤ 65536)) }
{
    count > 0 && count <= WRITE_MAX
}

// All bytes that are left, if a record may write so many.
fn read_written<'a>(reader: &mut Reader<'a>) -> Option<Bytes<'a>>
    ensures found { IfSome result (λ bytes. (1 ≤ length bytes) × (length bytes ≤ 65536) × (reader.old ≡ bytes ++ reader.new)) }
    ensures only { 1 ≤ length reader.old → length reader.old ≤ 65536 → (result ≡ Some reader.old) × (reader.new ≡ []) }
{
    let count = reader.remaining();
    if !is_written_size(count) {
        return None;
    }
    Some(Bytes::new(reader.bytes(count)))
}

// The bytes that are written extend to the end.
pub(crate) fn read_write<'a>(reader: &mut Reader<'a>) -> Option<Change<'a>>
    ensures found { IfSome result (λ change. IsSpelled change × (5 ∷ reader.old ≡ payload_bytes change ++ reader.new)) }
    ensures only { (number offset : ℕ) (bytes : List ℕ) → IsSpelled (Write number offset bytes)
        → reader.old ≡ fields_bytes (Write number offset bytes)
        → (result ≡ Some (Write number offset bytes)) × (reader.new ≡ []) }
{
    let number = reader.try_u16()?;
    let offset = reader.try_u64()?;
    let bytes = read_written(reader)?;
    Some(Change::Write {
        number,
        offset,
        bytes,
    })
}

pub(crate) fn read_size<'a>(reader: &mut Reader<'_>) -> Option<Change<'a>>
    ensures found { IfSome result (λ change. IsSpelled change × (6 ∷ reader.old ≡ payload_bytes change ++ reader.new)) }
    ensures only { (number size : ℕ) (rest : List ℕ) → IsSpelled (SetSize number size)
        → reader.old ≡ fields_bytes (SetSize number size) ++ rest
        → (result ≡ Some (SetSize number size)) × (reader.new ≡ rest) }
{
    let number = reader.try_u16()?;
    let size = reader.try_u64()?;
    Some(Change::SetSize { number, size })
}

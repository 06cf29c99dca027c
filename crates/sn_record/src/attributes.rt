//! The changes that give a node its owner, its S bits and its ACLs.
ghost use Rattle.std.specs.Prelude.{◌≡◌, ℕ, ◌+◌, ◌*◌, ◌≤◌, List, ◌∷◌, ◌++◌, length, Some, IfSome, IsTrue};
ghost use Rattle.sn_limits.specs.Names.{is_name};
ghost use Rattle.sn_limits.specs.declared.kind.Kind.{Kind as TheKind};
ghost use Rattle.sn_model.specs.declared.change.Change.TheVariants.{Make, SetAttributes};
ghost use Rattle.sn_model.specs.declared.change.Ownership.{Ownership as TheOwnership};
ghost use Rattle.sn_layout.specs.Bytes.{Puts};
ghost use Rattle.sn_record.specs.Payload.{IsSpelled, fields_bytes, payload_bytes};
ghost use Rattle.sn_record.specs.Sizes.{entries_of};

use crate::ownership::{put_ownership, read_ownership};
use sn_layout::{Reader, put_u16};
use sn_layout_node::{put_kind, put_name, read_kind, read_name};
use sn_limits::Kind;
use sn_model::{Bytes, Change, Ownership};

pub(crate) fn put_make(
    block: &mut [u8],
    at: usize,
    directory: u16,
    name: &[u8],
    number: u16,
    kind: Kind,
    ownership: &Ownership,
) -> usize
    requires name { IsTrue (is_name name.now) }
    requires room { at + 19 + 8 * entries_of ownership.now + length name.now ≤ length block.old }
    ensures { Puts block.old block.new at result (fields_bytes (Make directory name.now number kind ownership.now)) }
{
    let at = put_u16(block, at, directory);
    let at = put_u16(block, at, number);
    let at = put_kind(block, at, kind);
    let at = put_ownership(block, at, ownership);
    put_name(block, at, name)
}

pub(crate) fn read_make<'a>(reader: &mut Reader<'a>) -> Option<Change<'a>>
    ensures found { IfSome result (λ change. IsSpelled change × (1 ∷ reader.old ≡ payload_bytes change ++ reader.new)) }
    ensures only { (directory number : ℕ) (kind : TheKind) (o : TheOwnership) (name rest : List ℕ) → IsSpelled (Make directory name number kind o)
        → reader.old ≡ fields_bytes (Make directory name number kind o) ++ rest
        → (result ≡ Some (Make directory name number kind o)) × (reader.new ≡ rest) }
{
    let directory = reader.try_u16()?;
    let number = reader.try_u16()?;
    let kind = read_kind(reader)?;
    let ownership = read_ownership(reader)?;
    let name = Bytes::new(read_name(reader)?);
    Some(Change::Make {
        directory,
        name,
        number,
        kind,
        ownership,
    })
}

pub(crate) fn put_attributes(
    block: &mut [u8],
    at: usize,
    number: u16,
    ownership: &Ownership,
) -> usize
    requires { at + 15 + 8 * entries_of ownership.now ≤ length block.old }
    ensures { Puts block.old block.new at result (fields_bytes (SetAttributes number ownership.now)) }
{
    let at = put_u16(block, at, number);
    put_ownership(block, at, ownership)
}

pub(crate) fn read_attributes<'a>(reader: &mut Reader<'_>) -> Option<Change<'a>>
    ensures found { IfSome result (λ change. IsSpelled change × (7 ∷ reader.old ≡ payload_bytes change ++ reader.new)) }
    ensures only { (number : ℕ) (o : TheOwnership) (rest : List ℕ) → IsSpelled (SetAttributes number o)
        → reader.old ≡ fields_bytes (SetAttributes number o) ++ rest
        → (result ≡ Some (SetAttributes number o)) × (reader.new ≡ rest) }
{
    let number = reader.try_u16()?;
    let ownership = read_ownership(reader)?;
    Some(Change::SetAttributes { number, ownership })
}

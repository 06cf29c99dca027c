//! The changes of names: one more, one less, one moved.
ghost use Rattle.std.specs.Prelude.{◌≡◌, ℕ, ◌+◌, ◌≤◌, List, ◌∷◌, ◌++◌, length, Some, IfSome, IsTrue};
ghost use Rattle.sn_limits.specs.Names.{is_name};
ghost use Rattle.sn_model.specs.declared.change.Change.TheVariants.{AddLink, Remove, Rename};
ghost use Rattle.sn_layout.specs.Bytes.{Puts};
ghost use Rattle.sn_record.specs.Payload.{IsSpelled, fields_bytes, payload_bytes};

use sn_layout::{Reader, put_u16};
use sn_layout_node::{put_name, read_name};
use sn_model::{Bytes, Change};

pub(crate) fn put_link(
    block: &mut [u8],
    at: usize,
    directory: u16,
    number: u16,
    name: &[u8],
) -> usize
    requires name { IsTrue (is_name name.now) }
    requires room { at + 5 + length name.now ≤ length block.old }
    ensures { Puts block.old block.new at result (fields_bytes (AddLink directory name.now number)) }
{
    let at = put_u16(block, at, directory);
    let at = put_u16(block, at, number);
    put_name(block, at, name)
}

pub(crate) fn put_remove(block: &mut [u8], at: usize, directory: u16, name: &[u8]) -> usize
    requires name { IsTrue (is_name name.now) }
    requires room { at + 3 + length name.now ≤ length block.old }
    ensures { Puts block.old block.new at result (fields_bytes (Remove directory name.now)) }
{
    let at = put_u16(block, at, directory);
    put_name(block, at, name)
}

pub(crate) fn read_link<'a>(reader: &mut Reader<'a>) -> Option<Change<'a>>
    ensures found { IfSome result (λ change. IsSpelled change × (2 ∷ reader.old ≡ payload_bytes change ++ reader.new)) }
    ensures only { (directory number : ℕ) (name rest : List ℕ) → IsSpelled (AddLink directory name number)
        → reader.old ≡ fields_bytes (AddLink directory name number) ++ rest
        → (result ≡ Some (AddLink directory name number)) × (reader.new ≡ rest) }
{
    let directory = reader.try_u16()?;
    let number = reader.try_u16()?;
    let name = Bytes::new(read_name(reader)?);
    Some(Change::AddLink {
        directory,
        name,
        number,
    })
}

pub(crate) fn read_remove<'a>(reader: &mut Reader<'a>) -> Option<Change<'a>>
    ensures found { IfSome result (λ change. IsSpelled change × (3 ∷ reader.old ≡ payload_bytes change ++ reader.new)) }
    ensures only { (directory : ℕ) (name rest : List ℕ) → IsSpelled (Remove directory name)
        → reader.old ≡ fields_bytes (Remove directory name) ++ rest
        → (result ≡ Some (Remove directory name)) × (reader.new ≡ rest) }
{
    let directory = reader.try_u16()?;
    let name = Bytes::new(read_name(reader)?);
    Some(Change::Remove { directory, name })
}

pub(crate) fn put_rename(
    block: &mut [u8],
    at: usize,
    old_directory: u16,
    old_name: &[u8],
    new_directory: u16,
    new_name: &[u8],
) -> usize
    requires old_name { IsTrue (is_name old_name.now) }
    requires new_name { IsTrue (is_name new_name.now) }
    requires room { at + 6 + length old_name.now + length new_name.now ≤ length block.old }
    ensures { Puts block.old block.new at result (fields_bytes (Rename old_directory old_name.now new_directory new_name.now)) }
{
    let at = put_u16(block, at, old_directory);
    let at = put_u16(block, at, new_directory);
    let at = put_name(block, at, old_name);
    put_name(block, at, new_name)
}

pub(crate) fn read_rename<'a>(reader: &mut Reader<'a>) -> Option<Change<'a>>
    ensures found { IfSome result (λ change. IsSpelled change × (4 ∷ reader.old ≡ payload_bytes change ++ reader.new)) }
    ensures only { (old_directory new_directory : ℕ) (old_name new_name rest : List ℕ) → IsSpelled (Rename old_directory old_name new_directory new_name)
        → reader.old ≡ fields_bytes (Rename old_directory old_name new_directory new_name) ++ rest
        → (result ≡ Some (Rename old_directory old_name new_directory new_name)) × (reader.new ≡ rest) }
{
    let old_directory = reader.try_u16()?;
    let new_directory = reader.try_u16()?;
    let old_name = Bytes::new(read_name(reader)?);
    let new_name = Bytes::new(read_name(reader)?);
    Some(Change::Rename {
        old_directory,
        old_name,
        new_directory,
        new_name,
    })
}

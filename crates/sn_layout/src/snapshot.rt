//! | offset | field, 112 bytes in all |
//! |---|---|
//! | 0 | bit u8, which the snapshot has in each word of the map |
//! | 1 | length of the name u8, 1 to 31 |
//! | 2 | name, and then zeros to 40 |
//! | 40 | root of its inode file |
ghost use Rattle.std.specs.Prelude.{◌≡◌, ℕ, ◌+◌, ◌*◌, ◌<◌, ◌≤◌, List, [], ◌∷◌, ◌++◌, length, Some, IfSome, IsTrue, ◌↔◌};
ghost use Rattle.sn_bytes.specs.Bytes.{Puts};
ghost use Rattle.sn_limits.specs.SnapshotName.{is_snapshot_name};
ghost use Rattle.sn_layout.specs.Snapshot.{name_bytes};

use crate::BlockTree;
use sn_bytes::{Reader, put_bytes, put_u8, put_zeros};
use sn_limits::{SNAPSHOT_NAME_MAX, SnapshotName};

/// A frozen file system.
#[derive(Default, PartialEq, Eq, Drop)]
pub struct Snapshot {
    /// Its bit in each word of the map, from 1 up.
    pub bit: u8,
    pub name: SnapshotName,
    /// The root of its inode file.
    pub tree: BlockTree,
}

// Its length, the name, and zeros to 39 bytes.
fn put_name(block: &mut [u8], at: usize, name: &SnapshotName) -> usize
    requires { at + 39 ≤ length block.old }
    ensures bytes { Puts block.old block.new at result (name_bytes name.now) }
    ensures next { result ≡ at + 39 }
{
    let name = name.as_bytes();
    let at = put_u8(block, at, name.len() as u8);
    let at = put_bytes(block, at, name);
    put_zeros(block, at, 38 - name.len())
}

fn read_name(reader: &mut Reader<'_>) -> Option<SnapshotName>
    requires { 39 ≤ length reader.old }
    ensures found { IfSome result (λ name. IsTrue (is_snapshot_name name) × (reader.old ≡ name_bytes name ++ reader.new)) }
    ensures only { (name rest : List ℕ) → IsTrue (is_snapshot_name name) → reader.old ≡ name_bytes name ++ rest
        → (result ≡ Some name) × (reader.new ≡ rest) }
    ensures left { IfSome result (λ _. length reader.new + 39 ≡ length reader.old) }
{
    let length = reader.u8() as usize;
    if length > SNAPSHOT_NAME_MAX {
        return None;
    }
    let name = reader.bytes(length);
    if !reader.are_zeros(38 - length) {
        return None;
    }
    SnapshotName::parse(name)
}

impl Snapshot {
    ghost use Rattle.sn_layout.specs.Snapshot.{IsSnapshot, snapshot_bytes};
    ghost use Rattle.sn_layout.specs.declared.snapshot.Snapshot.{Snapshot as TheSnapshot};

    /// A copy, which takes no memory.
    pub fn copy(&self) -> Self
        ensures { result ≡ self.now }
    {
        Snapshot {
            bit: self.bit,
            name: self.name.copy(),
            tree: self.tree,
        }
    }

    // By the types of its fields.
    pub(crate) fn fits(&self)
        ensures { IsSnapshot self.now }
    {
        let _bit = self.bit;
        self.name.as_bytes();
        self.tree.fits();
    }

    pub(crate) fn put(&self, block: &mut [u8], at: usize) -> usize
        requires { at + 112 ≤ length block.old }
        ensures bytes { Puts block.old block.new at result (snapshot_bytes self.now) }
        ensures next { result ≡ at + 112 }
    {
        let at = put_u8(block, at, self.bit);
        let at = put_name(block, at, &self.name);
        self.tree.put(block, at)
    }

    pub(crate) fn read(reader: &mut Reader<'_>) -> Option<Self>
        requires { 112 ≤ length reader.old }
        ensures found { IfSome result (λ s. IsSnapshot s × (reader.old ≡ snapshot_bytes s ++ reader.new)) }
        ensures only { (s : TheSnapshot) (rest : List ℕ) → IsSnapshot s → reader.old ≡ snapshot_bytes s ++ rest
            → (result ≡ Some s) × (reader.new ≡ rest) }
        ensures left { IfSome result (λ s. length reader.new + 112 ≡ length reader.old) }
    {
        let bit = reader.u8();
        let name = read_name(reader)?;
        let tree = BlockTree::read(reader);
        Some(Snapshot { bit, name, tree })
    }
}

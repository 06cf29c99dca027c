ghost use Rattle.std.specs.Prelude.{◌≡◌, ◌≤◌, ◌↔◌, ◌∷◌, [], length, IsTrue, IsSome, IfSome};
ghost use Rattle.std.specs.List.{list_all};
ghost use Rattle.sn_limits.specs.SnapshotName as names;
ghost use Rattle.sn_limits.specs.SnapshotName.{is_snapshot_name};

use crate::name::is_dots;
use arrayvec::ArrayVec;
use std::marker::Model;

/// The most bytes of a snapshot's name.
pub const SNAPSHOT_NAME_MAX: usize = 31;

/// The name of a snapshot: 1 to 31 letters, digits, dots, underscores and dashes, and neither `.`
/// nor `..`.
#[derive(PartialEq, Eq, Drop)]
pub struct SnapshotName {
    bytes: ArrayVec<u8, SNAPSHOT_NAME_MAX>,
}

impl Model for SnapshotName {
    ghost use Rattle.std.specs.Prelude.{ℕ, List, IsTrue};
    ghost use Rattle.sn_limits.specs.SnapshotName.{is_snapshot_name};

    ghost Value = { List ℕ };

    ghost view = { λ name. name.bytes.items };

    ghost invariant = { λ name. IsTrue (is_snapshot_name name.bytes.items) };

    ghost inverse = { λ bytes. record { bytes = record { items = bytes } } };
}

fn is_snapshot_byte(byte: u8) -> bool
    ensures { result ≡ names.is_snapshot_byte byte }
{
    byte.is_ascii_alphanumeric() || byte == b'.' || byte == b'_' || byte == b'-'
}

fn has_snapshot_bytes(name: &[u8]) -> bool
    ensures { result ≡ list_all names.is_snapshot_byte name.now }
{
    name.iter().all(|byte| is_snapshot_byte(*byte))
}

fn is_name(name: &[u8]) -> bool
    ensures { result ≡ is_snapshot_name name.now }
{
    !name.is_empty()
        && name.len() <= SNAPSHOT_NAME_MAX
        && !is_dots(name)
        && has_snapshot_bytes(name)
}

fn kept(name: &[u8]) -> ArrayVec<u8, SNAPSHOT_NAME_MAX>
    requires { length name.now ≤ 31 }
    ensures { result.items ≡ name.now }
{
    let mut bytes = ArrayVec::new();
    for byte in name {
        bytes.push(*byte);
    }
    bytes
}

impl SnapshotName {
    /// The name with these bytes, if they are one.
    pub fn parse(name: &[u8]) -> Option<Self>
        ensures valid { IsSome result ↔ IsTrue (is_snapshot_name name.now) }
        ensures value { IfSome result (λ parsed. parsed ≡ name.now) }
    {
        if !is_name(name) {
            return None;
        }
        Some(SnapshotName { bytes: kept(name) })
    }

    /// The bytes of the name, 1 to 31 of them.
    pub fn as_bytes(&self) -> &[u8]
        ensures value { result.now ≡ self.now }
        ensures valid { IsTrue (is_snapshot_name self.now) }
    {
        self.bytes.as_slice()
    }

    /// A copy, which takes no memory.
    pub fn copy(&self) -> Self
        ensures { result ≡ self.now }
    {
        SnapshotName {
            bytes: kept(self.as_bytes()),
        }
    }
}

/// `_`, which fills the unused places of a list.
impl Default for SnapshotName {
    ghost is_default = { λ name. name ≡ 95 ∷ [] };

    fn default() -> Self {
        SnapshotName { bytes: kept(b"_") }
    }
}

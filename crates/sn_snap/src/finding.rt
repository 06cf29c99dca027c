//! What a name denotes, and which bit is free.
ghost use Rattle.std.specs.Prelude.{◌≡◌, ◌+◌, ◌≤◌, ◌↔◌, length, position, Some, IfSome, IsNone};
ghost use Rattle.std.specs.FinMap as map;
ghost use Rattle.std.specs.Option.{option_copied, option_map};
ghost use Rattle.std.specs.Str.{bytes_eq};
ghost use Rattle.sn_limits.specs.Versions.{limits_of};
ghost use Rattle.sn_snap.specs.Catalogue.{IsCatalogue, IsLeastFree, catalogue, entry_of};

use sn_layout::{Snapshot, Snapshots};
use sn_limits::{Limits, SnapshotName};

/// The snapshot that has the name.
///
/// Proved: The snapshots of a root are a finite map from a name to a bit and a tree, and the snapshot of a name is found
/// exactly where there is one.
pub fn find<'a>(snapshots: &'a Snapshots, name: &SnapshotName) -> Option<&'a Snapshot>
    ensures entry { option_map entry_of (option_copied result) ≡ map.get (catalogue snapshots.now) name.now }
    ensures name { IfSome result (λ snapshot. snapshot.now.name ≡ name.now) }
{
    let list = snapshots.as_slice();
    let index = index_of(list, name)?;
    Some(&list[index])
}

/// The least bit from 1 up that no snapshot has. `None` is returned exactly where there are as many snapshots as the version
/// allows.
///
/// Proved, also of `versions_fit`: The bit for a new snapshot is the least from 1 up that none has, missing exactly where
/// there are as many as the version allows, and never above the largest bit of the version.
pub fn free_bit(snapshots: &Snapshots, limits: &Limits) -> Option<u8>
    requires { IsCatalogue snapshots.now }
    ensures full { IsNone result ↔ (limits.now.snapshots ≤ length snapshots.now) }
    ensures least { IfSome result (IsLeastFree snapshots.now) }
    ensures within { limits_of limits.now.version ≡ Some limits.now → IfSome result (λ bit. bit ≤ limits.now.largest_bit) }
{
    let list = snapshots.as_slice();
    if list.len() >= limits.snapshots as usize {
        return None;
    }
    Some(first_gap(list))
}

/// Where the first snapshot is that has the name.
pub(crate) fn index_of(snapshots: &[Snapshot], name: &SnapshotName) -> Option<usize>
    ensures { result ≡ position (λ snapshot. bytes_eq name.now snapshot.name) snapshots.now }
{
    let name = name.as_bytes();
    snapshots
        .iter()
        .position(|snapshot| name == snapshot.name.as_bytes())
}

// The least bit from 1 up that none of them has.
fn first_gap(snapshots: &[Snapshot]) -> u8
    requires catalogue { IsCatalogue snapshots.now }
    requires room { length snapshots.now ≤ 31 }
    ensures least { IsLeastFree snapshots.now result }
    ensures within { result ≤ length snapshots.now + 1 }
{
    let mut bit = 1;
    for snapshot in snapshots {
        if snapshot.bit > bit {
            break;
        }
        bit += 1;
    }
    bit
}
